//! Rounds of a book: a message is put, picked up, acknowledged, and the ack is answered.
ghost use Rattle.std.specs.Prelude.{◌≡◌, ℕ, length, Result};
ghost use Rattle.event.specs.declared.refusal.Refusal.{Refusal as Refused};
ghost use Rattle.wire.specs.declared.types.Kind.TheVariants.{Ack as ack};
ghost use Rattle.carrier.specs.Carriers.{after_put};
ghost use Rattle.protocol.specs.Book.{blind, write_ack as writes_ack};
ghost use Rattle.measured.specs.Rounds.{round as round_of, opened, asked, picked, message_of, new_rounds};

use book::parts::Book;
use carrier::Carrier;
use carrier::mailbox::Mailbox;
use event::delay::{Delays, Seconds, Tenths};
use event::refusal::Refusal;
use wire::types::Item;

/// Makes a book by a sync that is answered so, and a mailbox. In each round the one message, for an even number, or the other is put
/// and picked up, and the ack is answered so. Hands back what the last pick-up counted.
pub fn go_round(
    opening: &[u8],
    even: &[u8],
    odd: &[u8],
    answer: &[u8],
    numbers: &[u8],
    buffer: &mut [u8],
) -> Result<usize, Refusal>
    ensures result { result ≡ (new_rounds opening.now even.now odd.now answer.now numbers.now buffer.old).result }
    ensures buffer { buffer.new ≡ (new_rounds opening.now even.now odd.now answer.now numbers.now buffer.old).buffer }
{
    let mut book = Book::new();
    let mut carrier = Mailbox::new();
    let mut last = open(&mut book, opening, buffer);
    for number in numbers {
        let message = choose(even, odd, *number);
        last = round(&mut book, &mut carrier, message, answer, buffer);
    }
    last
}

// The message of a round.
fn choose<'a>(even: &'a [u8], odd: &'a [u8], number: u8) -> &'a [u8]
    ensures { result.now ≡ message_of even.now odd.now number }
{
    if number % 2 == 0 { even } else { odd }
}

// Writes a sync, and takes its answer.
fn open(book: &mut Book, answer: &[u8], buffer: &mut [u8]) -> Result<usize, Refusal>
    requires { book.old ≡ blind }
    ensures { round_of book.new result buffer.new ≡ opened answer.now buffer.old }
{
    let item = Item {
        identifier: 0,
        on: true,
    };
    let delays = Delays {
        first: Seconds(0),
        retry: Tenths(0),
    };
    let (_, receipt) = book.write_sync(buffer, &[item], delays)?;
    book.answer(receipt, answer)?;
    Ok(0)
}

// Puts a message, picks it up and acknowledges it, and takes the answer.
fn round<C: Carrier>(
    book: &mut Book,
    carrier: &mut C,
    message: &[u8],
    answer: &[u8],
    buffer: &mut [u8],
) -> Result<usize, Refusal>
    ensures line { C.Carrier.carried carrier.new ≡ after_put (C.Carrier.carried carrier.old) 0 message.now }
    ensures round { (r : Result ℕ Refused) → round_of book.new result buffer.new ≡ picked answer.now (after_put (C.Carrier.carried carrier.old) 0 message.now) (round_of book.old r buffer.old) }
{
    let _taken = carrier.put(0, message);
    let count = book.pick_up(carrier, buffer)?;
    acknowledge(book, answer, count, buffer)
}

// Acknowledges the message that the book holds, and takes the answer.
fn acknowledge(
    book: &mut Book,
    answer: &[u8],
    count: usize,
    buffer: &mut [u8],
) -> Result<usize, Refusal>
    ensures { round_of book.new result buffer.new ≡ asked ack answer.now count (writes_ack (length buffer.old) book.old) buffer.old }
{
    let (_, receipt) = book.write_ack(buffer)?;
    book.answer(receipt, answer)?;
    Ok(count)
}
