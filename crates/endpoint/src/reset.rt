//! A new endpoint, and a reset.
ghost use Rattle.std.specs.Prelude.{◌≡◌};
ghost use Rattle.marks.specs.Marking.{unmarked};
ghost use Rattle.protocol.specs.Endpoint.{new_endpoint, marked, reset as resetting};
ghost use Rattle.protocol.specs.Runs.{LawsOfRuns};
ghost use Rattle.endpoint.specs.View.{as_endpoint, Left};

use crate::types::{Endpoint, Event};
use carrier::Carrier;
use event::delay::{Delays, Seconds, Tenths};
use event::enabled::NOTHING;
use marks::types::Marks;
use protocol::types::State;

impl Endpoint {
    /// A new endpoint: Off, with nothing enabled.
    pub fn new() -> Endpoint
        ensures new { as_endpoint result ≡ new_endpoint }
        ensures laws { LawsOfRuns }
    {
        Endpoint {
            state: State::Off,
            enabled: NOTHING,
            delays: Delays {
                first: Seconds(0),
                retry: Tenths(0),
            },
            prior: Marks::none(),
            since: Marks::none(),
            generation: 0,
            destination: 0,
            failure: false,
        }
    }

    /// The endpoint is Off, with nothing enabled or marked, and the message is withdrawn. All else stays: the generation,
    /// the failure bit, the delays and the destination.
    pub fn reset<C: Carrier>(&mut self, carrier: &mut C)
        ensures { Left (resetting (C.Carrier.carried carrier.old) (as_endpoint self.old)) (as_endpoint self.new) (C.Carrier.carried carrier.new) }
    {
        let _ = self.step(Event::Reset);
        self.enabled = NOTHING;
        self.unmark();
        carrier.withdraw();
    }

    // Takes every mark away.
    pub(crate) fn unmark(&mut self)
        ensures { as_endpoint self.new ≡ marked unmarked unmarked (as_endpoint self.old) }
    {
        self.prior.clear();
        self.since.clear();
    }
}
