//! The limits of a transcript.

/// The longest line, in bytes without its line end.
pub const LONGEST_LINE: usize = 1_048_576;

/// The most lines that open a connection.
pub const MOST_OPENED: usize = 65_536;
