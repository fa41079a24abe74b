//! Flags that threads set and look for.
use std::sync::atomic::{AtomicU64, Ordering};

/// How often a flag is looked at before the looking thread gives up.
const LOOKS: u64 = 1_000_000_000;

/// Sets the flag.
pub(crate) fn set(flag: &AtomicU64) {
    flag.store(1, Ordering::SeqCst);
}

/// Whether the flag was set before the last look.
pub(crate) fn is_seen(flag: &AtomicU64) -> bool {
    for _ in 0..LOOKS {
        if flag.load(Ordering::SeqCst) == 1 {
            return true;
        }
    }
    false
}
