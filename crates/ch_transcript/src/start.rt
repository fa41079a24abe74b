/// The second at which the server of a transcript starts: the first part of each socket id.
pub const START_SECOND: u64 = 1;
