//! Links whose wires note what they are sent.
use ch_base::{Bytes, Text};
use ch_net::{Link, LinkGot, LinkWrote, MemLink, MemWire, Pump, Put, Recv, Unmade, Wire};
use std::alloc::Global;
use std::cell::RefCell;

/// The texts that were noted, the oldest first.
pub type Notes = RefCell<Vec<Text>>;

/// A link over memory, whose wire notes what it is sent.
#[derive(Drop)]
pub struct NotedLink<'a> {
    pub alloc: Global,
    pub link: MemLink,
    pub notes: &'a Notes,
}

/// A wire over memory that notes what it is sent.
#[derive(Drop)]
pub struct NotedWire<'a> {
    alloc: Global,
    wire: MemWire,
    notes: &'a Notes,
}

impl<'a> Link for NotedLink<'a> {
    ghost use Rattle.std.specs.Option.{option_map};
    ghost use Rattle.std.specs.Prelude.{◌++◌};
    ghost use Rattle.ch_net.specs.Lines.{messages_in};

    type Wire = NotedWire<'a>;

    ghost told = { λ l. l.link };

    ghost messages = { λ left seen. option_map (λ rest. messages_in (seen ++ rest)) left };

    fn read(&mut self, buf: &mut [u8]) -> LinkGot {
        self.link.read(buf)
    }

    fn write(&mut self, bytes: &[u8]) -> LinkWrote {
        self.link.write(bytes)
    }

    fn upgrade(self, seen: Bytes) -> Result<NotedWire<'a>, Unmade<NotedLink<'a>>> {
        let NotedLink { alloc, link, notes } = self;
        match link.upgrade(seen) {
            Ok(wire) => Ok(NotedWire { alloc, wire, notes }),
            Err(unmade) => Err(Unmade {
                link: NotedLink {
                    alloc,
                    link: unmade.link,
                    notes,
                },
                seen: unmade.seen,
            }),
        }
    }
}

impl Wire for NotedWire<'_> {
    ghost told = { λ w. w.wire };

    fn recv(&mut self) -> Recv {
        self.wire.recv()
    }

    fn send(&mut self, text: &Text) -> Put {
        let put = self.wire.send(text);
        if put == Put::Put {
            note(self.alloc, self.notes, text);
        }
        put
    }

    fn pump(&mut self) -> Pump {
        self.wire.pump()
    }

    fn close(&mut self, code: u16) -> Pump {
        self.wire.close(code)
    }
}

/// Notes a text.
fn note(alloc: Global, notes: &Notes, text: &Text) {
    if let Ok(copy) = text.copy(alloc)
        && let Ok(mut texts) = notes.try_borrow_mut()
    {
        let _ = texts.push(copy);
    }
}

/// Whether these texts were noted.
pub fn has_noted(notes: &Notes, wanted: &[&str]) -> bool {
    match notes.try_borrow() {
        Ok(texts) => {
            texts.len() == wanted.len()
                && texts
                    .iter()
                    .zip(wanted)
                    .all(|(text, wanted)| text.as_str() == *wanted)
        }
        Err(_) => false,
    }
}
