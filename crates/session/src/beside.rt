//! Two sessions side by side: the same calls are made of both.
ghost use Rattle.std.specs.Prelude.{◌≡◌};
ghost use Rattle.pair.specs.View.{step_if};
ghost use Rattle.session.specs.Asked.{pair_of_session, asked_in, asked_with, note_if, note_left};

use crate::session::Session;
use pair::call::Task;
use pair::record::Record;
use pair::run::run_both;
use script::command::Action;

/// What a call left of each pair; none where it is no call of a pair.
#[derive(Drop)]
pub struct Made {
    pub one: Option<Record>,
    pub other: Option<Record>,
}

/// Makes the same call of both pairs: one that takes up a request or an answer takes up the first pair's.
pub fn make_both(one: &mut Session, other: &mut Session, action: &Action, room: usize) -> Made
    ensures one { pair_of_session one.new ≡ step_if (pair_of_session one.old) (asked_in one.old room action.now) }
    ensures other { pair_of_session other.new ≡ step_if (pair_of_session other.old) (asked_with one.old.latest other.old room action.now) }
    ensures latest { one.new.latest ≡ one.old.latest }
    ensures own { other.new.latest ≡ other.old.latest }
    ensures first { note_if result.one ≡ note_left (pair_of_session one.old) (asked_in one.old room action.now) action.now }
    ensures second { note_if result.other ≡ note_left (pair_of_session other.old) (asked_with one.old.latest other.old room action.now) action.now }
{
    let Some(call) = one.latest.call(action) else {
        return Made {
            one: None,
            other: None,
        };
    };
    let mut first = [Record::new()];
    let mut second = [Record::new()];
    let tasks = [Task { call, room }];
    let _made = run_both(
        &mut one.pair,
        &mut other.pair,
        &tasks,
        &mut first,
        &mut second,
    );
    let [first] = first;
    let [second] = second;
    Made {
        one: Some(first),
        other: Some(second),
    }
}
