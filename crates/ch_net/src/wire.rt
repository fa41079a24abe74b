ghost use Rattle.std.specs.Prelude.{[], ◌∷◌};
ghost use Rattle.ch_net.specs.Wires.{WireMoves, Receives, put, RecvHasCause, PutHasCause, PumpHasCause};

use ch_base::Text;

/// A message that came over a wire (RFC 6455, section 5.6).
#[derive(Debug, PartialEq, Eq, Drop)]
pub enum Message {
    Text(Text),
    Binary,
}

/// What receiving answers.
#[derive(Debug, PartialEq, Eq, Drop)]
pub enum Recv {
    /// The next message, a text.
    Said(Text),
    /// The next message, which was binary.
    Binary,
    /// No message is here yet, and the count of stalls rose.
    Quiet,
    /// The other side is gone, and the count of ends rose.
    Gone,
    /// The wire failed, and the count of faults rose.
    Failed,
    /// There was no memory. The next message may be lost.
    Memory,
}

/// What sending a text answers.
#[derive(Clone, Copy, Debug, PartialEq, Eq)]
pub enum Put {
    /// The text was taken.
    Put,
    /// Nothing was taken, and the count of stalls rose.
    Waiting,
    /// The wire failed, and the count of faults rose. Nothing was taken.
    Failed,
    /// There was no memory. Nothing was taken.
    Memory,
}

/// What pumping or closing answers.
#[derive(Clone, Copy, Debug, PartialEq, Eq)]
pub enum Pump {
    /// All that was taken is on its way.
    Clear,
    /// Some of it still waits, and the count of stalls rose.
    Waiting,
    /// The wire failed, and the count of faults rose.
    Failed,
}

/// One WebSocket, over which whole messages come and texts go. No call waits.
pub trait Wire {
    ghost use Rattle.ch_net.specs.Wires.{WireTold};

    /// What the wire tells of itself: the messages that are left in it and the texts that it was sent, where
    /// they are known; how often and with which code it was closed; and its counts. A count stands still at
    /// its type's end.
    ghost told: { Self → WireTold };

    /// Receives the next message.
    fn recv(&mut self) -> Recv
        ensures moves { Receives result (told self.old) (told self.new) }
        ensures cause { RecvHasCause result (told self.old).counts (told self.new).counts };

    /// Takes a text, to send it as one message.
    fn send(&mut self, text: &Text) -> Put
        ensures moves { WireMoves (told self.old) (told self.new) [] (put result text.now) [] }
        ensures cause { PutHasCause result (told self.old).counts (told self.new).counts };

    /// Sends on what was taken, as far as the other side lets it.
    fn pump(&mut self) -> Pump
        ensures moves { WireMoves (told self.old) (told self.new) [] [] [] }
        ensures cause { PumpHasCause result (told self.old).counts (told self.new).counts };

    /// Closes the connection with a code (RFC 6455, section 7.1.2), and sends on what was taken.
    fn close(&mut self, code: u16) -> Pump
        ensures moves { WireMoves (told self.old) (told self.new) [] [] (code ∷ []) }
        ensures cause { PumpHasCause result (told self.old).counts (told self.new).counts };
}
