/// How many bytes a turn reads at most.
pub const MOST_READ: usize = 4_096;
