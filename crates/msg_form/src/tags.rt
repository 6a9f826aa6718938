//! The tags of the messages, each named once: the first byte of a message.

/// The tag of a request for what a wall holds.
pub const LOOK_TAG: u8 = 0x01;

/// The tag of a request to take an operation.
pub const APPEND_TAG: u8 = 0x02;

/// The tag of a request for the changes of an access list.
pub const KEYS_TAG: u8 = 0x03;

/// The tag of a reply that shows a wall.
pub const SHOW_TAG: u8 = 0x11;

/// The tag of a reply that tells why nothing was done.
pub const REFUSED_TAG: u8 = 0x12;

/// The tag of a reply that shows the changes of an access list.
pub const KEY_OPS_TAG: u8 = 0x13;
