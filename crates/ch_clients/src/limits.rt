/// So many clients a worker has at most, with those who leave.
pub const MOST_CLIENTS: usize = 256;
