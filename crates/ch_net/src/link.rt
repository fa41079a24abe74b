ghost use Rattle.std.specs.Prelude.{◌≡◌, ◌<◌, [], length, IfErr, IfOk};
ghost use Rattle.ch_net.specs.Links.{LinkMoves, given, IsWithin, taken, IsPart, GotHasCause, WroteHasCause};
ghost use Rattle.ch_net.specs.Wires.{IsNewWire};

use crate::wire::Wire;
use ch_base::Bytes;

/// What a read of a link answers.
#[derive(Clone, Copy, Debug, PartialEq, Eq)]
pub enum LinkGot {
    /// So many bytes were given, at least one.
    Read(usize),
    /// The other side has ended, and the count of ends rose.
    Ended,
    /// No byte is here yet, and the count of stalls rose.
    NotYet,
    /// The read failed, and the count of faults rose.
    Failed,
}

/// What a write to a link answers.
#[derive(Clone, Copy, Debug, PartialEq, Eq)]
pub enum LinkWrote {
    /// So many bytes were taken, at least one.
    Wrote(usize),
    /// None was taken yet, and the count of stalls rose.
    NotYet,
    /// The write failed, and the count of faults rose.
    Failed,
}

/// There was no memory to make a wire of a link. The link and the bytes are given back as they were.
#[derive(Drop)]
pub struct Unmade<L> {
    pub link: L,
    pub seen: Bytes,
}

/// One connection, as bytes both ways. No call waits.
pub trait Link: Drop {
    ghost use Rattle.std.specs.Prelude.{ℕ, List, Option};
    ghost use Rattle.ch_net.specs.Links.{LinkTold};
    ghost use Rattle.ch_net.specs.declared.wire.Message.{Message};

    /// The wire that a handshake makes of the link.
    type Wire: Wire + Drop;

    /// What the link tells of itself: the bytes that are left in it, those that it gave and those that were
    /// written to it, where they are known, and its counts. A count stands still at its type's end.
    ghost told: { Self → LinkTold };

    /// The messages behind a handshake's head, where they are known, by the bytes that are left in the link,
    /// where those are, and the bytes that were read behind the head.
    ghost messages: { Option (List ℕ) → List ℕ → Option (List Message) };

    /// Reads some bytes into the front of the buffer, which isn't empty.
    fn read(&mut self, buf: &mut [u8]) -> LinkGot
        requires { 0 < length buf.old }
        ensures within { IsWithin result buf.new }
        ensures moves { LinkMoves (told self.old) (told self.new) (given result buf.new) [] }
        ensures cause { GotHasCause result (told self.old).counts (told self.new).counts };

    /// Writes the front of the bytes, of which there is at least one.
    fn write(&mut self, bytes: &[u8]) -> LinkWrote
        requires { 0 < length bytes.now }
        ensures part { IsPart result bytes.now }
        ensures moves { LinkMoves (told self.old) (told self.new) [] (taken result bytes.now) }
        ensures cause { WroteHasCause result (told self.old).counts (told self.new).counts };

    /// Makes a wire of the link, with the bytes that were read from it behind a handshake's head. Nothing was
    /// sent over the wire yet.
    ///
    /// The wire isn't made only for want of memory.
    fn upgrade(self, seen: Bytes) -> Result<Self::Wire, Unmade<Self>>
        ensures new { IfOk result (λ wire. IsNewWire (Self.Wire.told wire)) }
        ensures behind { IfOk result (λ wire. (Self.Wire.told wire).left ≡ messages (told self).left seen) }
        ensures link { IfErr result (λ back. back.link ≡ self) }
        ensures seen { IfErr result (λ back. back.seen ≡ seen) };
}
