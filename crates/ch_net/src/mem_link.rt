ghost use Rattle.std.specs.Prelude.{◌≡◌, ◌≤◌, [], Some};
ghost use Rattle.ch_io.specs.Counts.{nothing_counted};

use crate::link::{Link, LinkGot, LinkWrote, Unmade};
use crate::mem_wire::MemWire;
use crate::messages::messages_behind;
use crate::script::{OtherSide, Script, Step};
use ch_base::Bytes;
use ch_io::Counts;
use std::alloc::Global;
use std::marker::Model;

/// A link over memory. It tells its bytes.
#[derive(Drop)]
pub struct MemLink {
    alloc: Global,
    bytes: Vec<u8>,
    at: usize,
    pieces: Vec<usize>,
    reads: usize,
    other_side: OtherSide,
    written: Vec<u8>,
    script: Script,
    counts: Counts,
}

impl Model for MemLink {
    ghost use Rattle.std.specs.Prelude.{◌≤◌, Some, drop, take, vec_len};
    ghost use Rattle.ch_net.specs.Links.{LinkTold};

    ghost Value = { LinkTold };

    ghost view = { λ l. record { left = Some (drop l.at l.bytes.items); gave = Some (take l.at l.bytes.items); written = Some l.written.items; counts = l.counts } };

    ghost invariant = { λ l. l.at ≤ vec_len l.bytes };
}

impl MemLink {
    /// A link that gives these bytes, and then does what the other side does. Its reads give at most so
    /// many bytes each, in order, and after the last of these sizes as many as there are; a size of 0
    /// counts as 1. Its calls go by the script.
    ///
    /// The messages of the wire that it is upgraded to are the lines behind the head that was read: what
    /// stands between line feeds and isn't empty, a text where it is UTF-8, else a binary message. Then the
    /// wire does what the other side does. The wire's calls go on in the same script.
    pub fn new(
        alloc: Global,
        bytes: Vec<u8>,
        pieces: Vec<usize>,
        other_side: OtherSide,
        script: Script,
    ) -> MemLink
        ensures { result ≡ record { left = Some bytes.items; gave = Some []; written = Some []; counts = nothing_counted } }
    {
        MemLink {
            alloc,
            bytes,
            at: 0,
            pieces,
            reads: 0,
            other_side,
            written: Vec::new(alloc),
            script,
            counts: Counts::new(),
        }
    }

    /// The bytes that were written to it.
    pub fn written(&self) -> &[u8]
        ensures { Some result.now ≡ self.now.written }
    {
        self.written.as_slice()
    }
}

/// How many bytes the read with this number gives at most.
fn piece(pieces: &[usize], number: usize) -> usize
    ensures { 1 ≤ result }
{
    match pieces.get(number) {
        Some(size) => (*size).max(1),
        None => usize::MAX,
    }
}

impl Link for MemLink {
    ghost use Rattle.std.specs.Option.{option_map};
    ghost use Rattle.std.specs.Prelude.{◌++◌};
    ghost use Rattle.ch_net.specs.Lines.{messages_in};

    type Wire = MemWire;

    ghost told = { λ l. l };

    ghost messages = { λ left seen. option_map (λ rest. messages_in (seen ++ rest)) left };

    fn read(&mut self, buf: &mut [u8]) -> LinkGot {
        match self.script.next(&mut self.counts) {
            Step::Goes => {}
            Step::Stalls => return LinkGot::NotYet,
            Step::Fails => return LinkGot::Failed,
        }
        let rest = &self.bytes[self.at..];
        if rest.is_empty() {
            match self.other_side {
                OtherSide::HangsUp => {
                    self.counts.count_end();
                    return LinkGot::Ended;
                }
                OtherSide::Stays => {
                    self.counts.count_stall();
                    return LinkGot::NotYet;
                }
            }
        }
        let n = piece(&self.pieces, self.reads)
            .min(buf.len())
            .min(rest.len());
        buf[..n].copy_from_slice(&rest[..n]);
        self.at += n;
        self.reads = self.reads.saturating_add(1);
        LinkGot::Read(n)
    }

    fn write(&mut self, bytes: &[u8]) -> LinkWrote {
        match self.script.next(&mut self.counts) {
            Step::Goes => {}
            Step::Stalls => return LinkWrote::NotYet,
            Step::Fails => return LinkWrote::Failed,
        }
        if self.written.extend_from_slice(bytes).is_ok() {
            return LinkWrote::Wrote(bytes.len());
        }
        self.counts.count_fault();
        LinkWrote::Failed
    }

    fn upgrade(self, seen: Bytes) -> Result<MemWire, Unmade<MemLink>> {
        let Ok(messages) = messages_behind(self.alloc, seen.as_slice(), &self.bytes[self.at..])
        else {
            return Err(Unmade { link: self, seen });
        };
        let MemLink {
            alloc,
            bytes: _,
            at: _,
            pieces: _,
            reads: _,
            other_side,
            written: _,
            script,
            counts: _,
        } = self;
        Ok(MemWire::new(alloc, messages, other_side, script))
    }
}
