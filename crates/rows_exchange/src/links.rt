//! Links that give the bytes of a request.
use ch_base::Memory;
use ch_net::{MemLink, OtherSide, Script};
use std::alloc::Global;

/// A link that gives these bytes in pieces of these sizes, and whose other side then does this.
pub fn link_of(
    alloc: Global,
    text: &str,
    pieces: Vec<usize>,
    other_side: OtherSide,
    script: Script,
) -> Result<MemLink, Memory> {
    let bytes = text.as_bytes().to_vec(alloc)?;
    Ok(MemLink::new(alloc, bytes, pieces, other_side, script))
}

/// A link that gives these bytes as they are asked for, and then is quiet.
pub fn quiet_link(alloc: Global, text: &str) -> Result<MemLink, Memory> {
    link_of(alloc, text, Vec::new(alloc), OtherSide::Stays, never(alloc))
}

/// No call of the link fails or asks for patience.
pub fn never(alloc: Global) -> Script {
    Script::new(Vec::new(alloc), Vec::new(alloc))
}
