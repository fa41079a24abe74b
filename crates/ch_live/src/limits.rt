/// So many frames wait for a socket at most.
pub const MOST_FRAMES: usize = 1_024;
