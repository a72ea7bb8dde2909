//! Whole runs of a pair.
ghost use Rattle.std.specs.Prelude.{◌≡◌, ◌≤◌, ◌&&◌, length, nat_le};
ghost use Rattle.protocol.specs.Promise.{BookShowsPresent, BookShowsWhatWas, SyncStartsAnew};
ghost use Rattle.pair.specs.Fair.{KeepsPromises};
ghost use Rattle.pair.specs.View.{pair_in, step_if, outcome_if};
ghost use Rattle.pair.specs.Runs.{room_of, call_for, calls_in, note_of, notes_of, note_after, recordable, recordable_twice, Ran, GoOnAlike};

use crate::call::Task;
use crate::pair::Pair;
use crate::record::Record;
use board::Board;
use carrier::Carrier;

impl Task<'_> {
    // How many bytes of its buffer are lent to it.
    fn lent(self) -> usize
        ensures room { result ≡ room_of self.entry }
        ensures fits { result ≤ 4224 }
    {
        self.room.min(4224)
    }
}

impl<B: Board, C: Carrier> Pair<B, C> {
    // One call of a run, and its record.
    fn work(&mut self, task: Task<'_>, log: &mut Record)
        ensures pair { pair_in B.told C.carried self.new ≡ step_if (pair_in B.told C.carried self.old) (call_for (pair_in B.told C.carried self.old) task.entry) }
        ensures note { note_of log.new ≡ note_after (outcome_if (pair_in B.told C.carried self.old) (call_for (pair_in B.told C.carried self.old) task.entry)) (note_of log.old) }
    {
        let room = task.lent();
        let reply = self.step(task.call, &mut log.buffer[0..room]);
        log.reply = reply;
    }

    // Every call of a list, each with its record.
    fn run_all(&mut self, tasks: &[Task<'_>], records: &mut [Record])
        requires { length tasks.now ≤ length records.old }
        ensures { Ran (pair_in B.told C.carried self.old) tasks.now (pair_in B.told C.carried self.new) (notes_of records.old) (notes_of records.new) }
    {
        // The records go by index: of what an `iter_mut` in a `zip` wrote, a proof knows nothing.
        for (i, task) in tasks.iter().enumerate() {
            self.work(*task, &mut records[i]);
        }
    }

    /// Makes every call of the list, and records what each leaves. If there are too few records, nothing is done.
    pub fn run(&mut self, tasks: &[Task<'_>], records: &mut [Record]) -> bool
        ensures done { result ≡ nat_le (length tasks.now) (length records.old) }
        ensures ran { Ran (pair_in B.told C.carried self.old) (recordable tasks.now records.old) (pair_in B.told C.carried self.new) (notes_of records.old) (notes_of records.new) }
        ensures kept { KeepsPromises (pair_in B.told C.carried self.old) (calls_in (pair_in B.told C.carried self.old) (recordable tasks.now records.old)) (pair_in B.told C.carried self.new) }
        ensures present { BookShowsPresent }
        ensures what_was { BookShowsWhatWas }
    {
        if records.len() < tasks.len() {
            return false;
        }
        self.run_all(tasks, records);
        true
    }
}

/// Makes the same calls of two pairs, on boards and carriers of any types, and records what each leaves. If there are too
/// few records of one of them, nothing is done.
pub fn run_both<B: Board, C: Carrier, D: Board, E: Carrier>(
    one: &mut Pair<B, C>,
    other: &mut Pair<D, E>,
    tasks: &[Task<'_>],
    first: &mut [Record],
    second: &mut [Record],
) -> bool
    ensures done { result ≡ nat_le (length tasks.now) (length first.old) && nat_le (length tasks.now) (length second.old) }
    ensures one { Ran (pair_in B.told C.carried one.old) (recordable_twice tasks.now first.old second.old) (pair_in B.told C.carried one.new) (notes_of first.old) (notes_of first.new) }
    ensures other { Ran (pair_in D.told E.carried other.old) (recordable_twice tasks.now first.old second.old) (pair_in D.told E.carried other.new) (notes_of second.old) (notes_of second.new) }
    ensures alike { GoOnAlike (pair_in B.told C.carried one.old) (pair_in D.told E.carried other.old) (recordable_twice tasks.now first.old second.old) (pair_in B.told C.carried one.new) (pair_in D.told E.carried other.new) }
    ensures anew { SyncStartsAnew }
{
    let enough = tasks.len() <= first.len() && tasks.len() <= second.len();
    if !enough {
        return false;
    }
    one.run_all(tasks, first);
    other.run_all(tasks, second);
    true
}
