//! The limits of the protocol. Definitions, contracts and code cite them from here.

/// Clients of a group.
pub const MOST_CLIENTS: u8 = 64;

/// Bytes of a key, and of a prefix.
pub const LONGEST_KEY: usize = 255;

/// Bytes of a value.
pub const LONGEST_VALUE: usize = 64;

/// Bytes of a group's key.
pub const LONGEST_GROUP_KEY: usize = 64;

/// Entries of a history.
pub const MOST_ENTRIES: u32 = 1_048_576;

/// Entries that aren't sealed.
pub const MOST_UNSEALED: u32 = 1_024;

/// Entries that one answer tells.
pub const MOST_TOLD: u32 = 8_192;

/// The weight of a dictionary and of the puts that aren't sealed: 16 and the bytes of key and value for each.
pub const MOST_WEIGHT: u64 = 8_388_608;

/// Bytes of one content.
pub const LONGEST_CONTENT: usize = 8_388_608;

/// Contents that a server keeps.
pub const MOST_CONTENTS: usize = 1_048_576;

/// Bytes of all contents that a server keeps.
pub const MOST_CONTENT_BYTES: u64 = 1_073_741_824;

/// Bytes of one frame's payload.
pub const LONGEST_FRAME: u32 = 16_777_216;

/// Bytes of a script.
pub const LONGEST_SCRIPT: usize = 16_777_216;
