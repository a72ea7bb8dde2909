//! How a call tells its refusal and its count.
ghost use Rattle.std.specs.Prelude.{◌≡◌};
ghost use Rattle.crossing.specs.Outcomes.{refusal_number, count_of};

use event::refusal::Refusal;

/// Hands out a count, 0 where the call was refused, and returns the number of the refusal, 0 where there was none.
pub fn hand_out(outcome: Result<usize, Refusal>, count: &mut usize) -> u8
    ensures number { result ≡ refusal_number outcome }
    ensures count { count.new ≡ count_of outcome }
{
    match outcome {
        Ok(bytes) => {
            *count = bytes;
            0
        }
        Err(refusal) => {
            *count = 0;
            refusal.number()
        }
    }
}
