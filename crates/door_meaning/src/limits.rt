//! Limits of the door.

/// How many bytes a line may have, without its newline.
pub const MOST_LINE_BYTES: usize = 65_536;

/// How many bytes may be read in all.
pub const MOST_INPUT_BYTES: u64 = 1_073_741_824;

/// How many sessions there may be.
pub const MOST_SESSIONS: usize = 1024;
