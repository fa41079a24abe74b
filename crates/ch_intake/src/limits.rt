/// How many items an intake holds.
pub const PLACES: usize = 128;
