//! The memory of this process, as the system counts it.
use std::io::{self, Read};
use std::rt::Files;
use std::{fs, str};

/// The bytes of a page.
const PAGE: u64 = 4_096;

/// The resident memory in bytes: the second number of `/proc/self/statm`, in pages. It is 0 where it can't be read.
pub fn resident<R: Files + AllocGlobal>(rt: &R) -> io::Result<u64> {
    let mut bytes = Vec::new(rt.alloc());
    fs::open(rt, "/proc/self/statm")?
        .take(200)
        .read_to_end(&mut bytes)?;
    let Ok(text) = str::from_utf8(&bytes) else {
        return Ok(0);
    };
    let pages: Option<u64> = text.split(' ').nth(1).and_then(|word| word.parse().ok());
    Ok(pages.unwrap_or(0).saturating_mul(PAGE))
}
