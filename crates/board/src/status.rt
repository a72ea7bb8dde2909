//! What a drive board keeps.

/// The controller ID that a drive board was given, and each status in a field of its own. 04h, 05h and 0Ah have no
/// status: their readings are empty.
#[derive(Default, Drop)]
pub struct DriveStatus {
    pub(crate) controller: u16,
    pub(crate) controller_ready: u8,
    pub(crate) controller_fatal: u8,
    pub(crate) shutdown_status: u8,
    pub(crate) controller_enable: u8,
    pub(crate) composite_temperature: u8,
    pub(crate) drive_life_used: u8,
    pub(crate) available_spare: u8,
    pub(crate) smart_warnings: u8,
    pub(crate) link_active: u8,
}
