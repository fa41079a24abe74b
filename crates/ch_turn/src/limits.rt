/// How many calls a pass makes at most. With [`MAX_CALLERS`](ch_base::MAX_CALLERS) callers the ticket word stays below
/// 2^62, and so never wraps.
pub const MOST_CALLS: u64 = 1 << 56;
