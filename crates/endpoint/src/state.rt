//! The endpoint's state, event by event.
ghost use Rattle.std.specs.Prelude.{◌≡◌};
ghost use Rattle.protocol.specs.Endpoint.{in_state};
ghost use Rattle.endpoint.specs.States.{stepped, moved};
ghost use Rattle.endpoint.specs.View.{as_endpoint};

use crate::types::{Endpoint, Event, Move};
use protocol::types::State;

impl Endpoint {
    // Moves the state by an event, and says what is to be done then.
    pub(crate) fn step(&mut self, event: Event) -> Move
        ensures after { as_endpoint self.new ≡ in_state (stepped self.old.state event) (as_endpoint self.old) }
        ensures due { result ≡ moved self.old.state event }
    {
        match (&mut self.state, event) {
            (State::Armed { age }, Event::Tick { full, marked, .. }) => {
                let older = age.saturating_add(1).min(full);
                if older == full && marked {
                    self.state = State::Sending {
                        attempt: 1,
                        waited: 0,
                    };
                    Move::Start
                } else {
                    *age = older;
                    Move::Rest
                }
            }
            (State::Sending { attempt, waited }, Event::Tick { retry, .. }) => {
                if retry == 0 {
                    Move::Rest
                } else if *waited < retry - 1 {
                    *waited += 1;
                    Move::Rest
                } else if *attempt < 8 {
                    let retries = *attempt;
                    *attempt += 1;
                    *waited = 0;
                    Move::Again { retries }
                } else {
                    self.state = State::Failed;
                    Move::Fail
                }
            }
            (State::Off | State::Failed, Event::Tick { .. }) => Move::Rest,
            (_, Event::Reset) => {
                self.state = State::Off;
                Move::Rest
            }
        }
    }
}
