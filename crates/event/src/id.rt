//! Unique IDs: which source an occurrence speaks of, and which IDs and readings are lawful.
ghost use Rattle.std.specs.Prelude.{◌≡◌};
ghost use Rattle.event.specs.Sources.{one_byte, lawful_scope, lawful_info, lawful_id, reading_fits, lawful_reading};

/// The unique ID of a source.
// The first two are bytes, and not enums, since IDs that are not lawful have to be held too, and asked about.
#[derive(Clone, Copy, PartialEq, Eq, PartialOrd, Ord, Default, Debug)]
pub struct UniqueId {
    /// Which event it is: 00h to 0Bh, or C0h to FFh for a vendor's.
    pub identifier: u8,
    /// 0 namespace, 1 controller, 2 subsystem, 3 endpoint, 4 port, 5 endurance group.
    pub scope: u8,
    /// Which namespace, controller, endpoint, port or endurance group.
    pub info: u32,
}

impl UniqueId {
    /// Whether a source may have this ID.
    pub fn is_lawful(self) -> bool
        ensures { result ≡ lawful_id self }
    {
        lawful_scope(self.identifier, self.scope)
            && lawful_info(self.identifier, self.scope, self.info)
    }

    /// Whether this source may have the reading.
    pub fn allows(self, reading: &[u8]) -> bool
        ensures { result ≡ lawful_reading self.identifier reading.now }
    {
        lawful_reading(self.identifier, reading)
    }
}

// The scopes that an event may have.
fn lawful_scope(identifier: u8, scope: u8) -> bool
    ensures { result ≡ lawful_scope identifier scope }
{
    match identifier {
        0x00..=0x01 => scope == 1,
        0x02 => scope == 1 || scope == 2,
        0x03..=0x04 => scope == 1,
        0x05..=0x09 => scope == 2,
        0x0A => scope == 1 || scope == 2,
        0x0B => scope == 4,
        0xC0..=0xFF => scope <= 5,
        _ => false,
    }
}

// The readings of each event.
fn lawful_reading(identifier: u8, reading: &[u8]) -> bool
    ensures { result ≡ reading_fits identifier reading.now }
{
    match identifier {
        0x00..=0x01 => one_byte(reading, 1),
        0x02 => one_byte(reading, 7),
        0x03 => one_byte(reading, 3),
        0x04..=0x05 => reading.is_empty(),
        0x06..=0x09 => one_byte(reading, 0xFF),
        0x0A => reading.is_empty(),
        0x0B => one_byte(reading, 1),
        0xC0..=0xFF => reading.len() <= 64,
        _ => false,
    }
}

// The scope ID info that an event of a scope may have.
fn lawful_info(identifier: u8, scope: u8, info: u32) -> bool
    ensures { result ≡ lawful_info identifier scope info }
{
    let mi_port = (0x1_0000..=0x1_00FF).contains(&info);
    match scope {
        0 => true,
        1 | 5 => info <= 0xFFFF,
        2 => info == 0,
        3 => info <= 0xFF,
        4 => mi_port || (identifier != 0x0B && info <= 0xFFFF),
        _ => false,
    }
}

// One byte, at most `most`.
fn one_byte(reading: &[u8], most: u8) -> bool
    ensures { result ≡ one_byte most reading.now }
{
    matches!(reading, [value] if *value <= most)
}
