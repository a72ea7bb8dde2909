//! The two delays of an endpoint. Each has its own unit, and so a type of its own; only `ticks` turns one into time.
ghost use Rattle.std.specs.Prelude.{◌≡◌};
ghost use Rattle.event.specs.Delays.{seconds_in_ticks, tenths_in_ticks};

/// The delay before a message is first sent, in seconds.
#[derive(Clone, Copy, PartialEq, Eq, Debug)]
pub struct Seconds(pub u8);

/// The delay before a message is sent again, in tenths of a second.
#[derive(Clone, Copy, PartialEq, Eq, Debug)]
pub struct Tenths(pub u8);

/// The two delays of an endpoint.
#[derive(Clone, Copy, PartialEq, Eq, Debug)]
pub struct Delays {
    /// Before a message is first sent.
    pub first: Seconds,
    /// Before a message is sent again.
    pub retry: Tenths,
}

impl Seconds {
    /// In ticks of 100 ms.
    pub fn ticks(self) -> u16
        ensures { result ≡ seconds_in_ticks self.0 }
    {
        10 * u16::from(self.0)
    }
}

impl Tenths {
    /// In ticks of 100 ms.
    pub fn ticks(self) -> u16
        ensures { result ≡ tenths_in_ticks self.0 }
    {
        u16::from(self.0)
    }
}
