ghost use Rattle.std.specs.Prelude.{◌≡◌, [], None, Some};
ghost use Rattle.ch_io.specs.Counts.{nothing_counted};

use crate::script::{OtherSide, Script, Step};
use crate::wire::{Message, Pump, Put, Recv, Wire};
use ch_base::Text;
use ch_io::Counts;
use std::alloc::Global;
use std::marker::Model;
use std::vec::IntoIter;

/// A wire over memory. It tells the messages that are left in it and the texts that it was sent.
#[derive(Drop)]
pub struct MemWire {
    alloc: Global,
    messages: IntoIter<Message, Global>,
    other_side: OtherSide,
    sent: Vec<Text>,
    closes: u64,
    code: Option<u16>,
    script: Script,
    counts: Counts,
}

impl Model for MemWire {
    ghost use Rattle.std.specs.Prelude.{Some};
    ghost use Rattle.std.specs.Vec.Iter.{into_iter_items};
    ghost use Rattle.ch_net.specs.Wires.{WireTold};

    ghost Value = { WireTold };

    ghost view = { λ w. record { left = Some (into_iter_items w.messages); sent = Some w.sent.items; closes = w.closes; code = w.code; counts = w.counts } };
}

impl MemWire {
    /// A wire over which these messages come, and then what the other side does. Its calls go by the
    /// script.
    pub fn new(
        alloc: Global,
        messages: Vec<Message>,
        other_side: OtherSide,
        script: Script,
    ) -> MemWire
        ensures { result ≡ record { left = Some messages.items; sent = Some []; closes = 0; code = None; counts = nothing_counted } }
    {
        MemWire {
            alloc,
            messages: messages.into_iter(),
            other_side,
            sent: Vec::new(alloc),
            closes: 0,
            code: None,
            script,
            counts: Counts::new(),
        }
    }

    /// The texts that it was sent, the oldest first.
    pub fn sent(&self) -> &[Text]
        ensures { Some result.now ≡ self.now.sent }
    {
        self.sent.as_slice()
    }

    /// The code with which it was closed last.
    pub fn code(&self) -> Option<u16>
        ensures { result ≡ self.now.code }
    {
        self.code
    }
}

impl Wire for MemWire {
    ghost told = { λ w. w };

    fn recv(&mut self) -> Recv {
        match self.script.next(&mut self.counts) {
            Step::Goes => {}
            Step::Stalls => return Recv::Quiet,
            Step::Fails => return Recv::Failed,
        }
        match (self.messages.next(), self.other_side) {
            (Some(Message::Text(text)), _) => Recv::Said(text),
            (Some(Message::Binary), _) => Recv::Binary,
            (None, OtherSide::HangsUp) => {
                self.counts.count_end();
                Recv::Gone
            }
            (None, OtherSide::Stays) => {
                self.counts.count_stall();
                Recv::Quiet
            }
        }
    }

    fn send(&mut self, text: &Text) -> Put {
        match self.script.next(&mut self.counts) {
            Step::Goes => {}
            Step::Stalls => return Put::Waiting,
            Step::Fails => return Put::Failed,
        }
        let Ok(copy) = text.copy(self.alloc) else {
            return Put::Memory;
        };
        match self.sent.push(copy) {
            Ok(()) => Put::Put,
            Err(_) => Put::Memory,
        }
    }

    fn pump(&mut self) -> Pump {
        match self.script.next(&mut self.counts) {
            Step::Goes => Pump::Clear,
            Step::Stalls => Pump::Waiting,
            Step::Fails => Pump::Failed,
        }
    }

    fn close(&mut self, code: u16) -> Pump {
        self.closes = self.closes.saturating_add(1);
        self.code = Some(code);
        self.pump()
    }
}
