//! A link and a post over memory that note what they are sent, where other threads can read it.
use ch_base::{Bytes, Text};
use ch_edge::{Accept, Accepted, MemAccept};
use ch_io::{MemPost, Post, Posted};
use ch_net::{Link, LinkGot, LinkWrote, MemLink, MemWire, Pump, Put, Recv, Unmade, Wire};
use std::alloc::Global;
use std::sync::Mutex;
use std::sync::atomic::{AtomicU64, Ordering};

/// What was noted, the oldest first.
pub type Notes = Mutex<Vec<Bytes>>;

/// Notes some bytes.
fn note(alloc: Global, notes: &Notes, bytes: &[u8]) {
    if let Ok(copy) = bytes.to_vec(alloc)
        && let Some(mut all) = notes.try_lock()
    {
        let _ = all.push(Bytes::from_vec(copy));
    }
}

/// Whether these texts were noted, and no others.
pub fn has_noted(notes: &Notes, wanted: &[&str]) -> bool {
    match notes.try_lock() {
        Some(all) => {
            all.len() == wanted.len()
                && all
                    .iter()
                    .zip(wanted)
                    .all(|(bytes, wanted)| bytes.as_slice() == wanted.as_bytes())
        }
        None => false,
    }
}

/// A link over memory, whose wire notes what it is sent.
#[derive(Drop)]
pub struct NotedLink<'a> {
    pub alloc: Global,
    pub link: MemLink,
    pub notes: &'a Notes,
}

/// A wire over memory that notes what it is sent.
#[derive(Drop)]
pub struct NotedWire<'a> {
    alloc: Global,
    wire: MemWire,
    notes: &'a Notes,
}

impl<'a> Link for NotedLink<'a> {
    ghost use Rattle.std.specs.Option.{option_map};
    ghost use Rattle.std.specs.Prelude.{◌++◌};
    ghost use Rattle.ch_net.specs.Lines.{messages_in};

    type Wire = NotedWire<'a>;

    ghost told = { λ l. l.link };

    ghost messages = { λ left seen. option_map (λ rest. messages_in (seen ++ rest)) left };

    fn read(&mut self, buf: &mut [u8]) -> LinkGot {
        self.link.read(buf)
    }

    fn write(&mut self, bytes: &[u8]) -> LinkWrote {
        self.link.write(bytes)
    }

    fn upgrade(self, seen: Bytes) -> Result<NotedWire<'a>, Unmade<NotedLink<'a>>> {
        let NotedLink { alloc, link, notes } = self;
        match link.upgrade(seen) {
            Ok(wire) => Ok(NotedWire { alloc, wire, notes }),
            Err(unmade) => Err(Unmade {
                link: NotedLink {
                    alloc,
                    link: unmade.link,
                    notes,
                },
                seen: unmade.seen,
            }),
        }
    }
}

impl Wire for NotedWire<'_> {
    ghost told = { λ w. w.wire };

    fn recv(&mut self) -> Recv {
        self.wire.recv()
    }

    fn send(&mut self, text: &Text) -> Put {
        let put = self.wire.send(text);
        if put == Put::Put {
            note(self.alloc, self.notes, text.as_str().as_bytes());
        }
        put
    }

    fn pump(&mut self) -> Pump {
        self.wire.pump()
    }

    fn close(&mut self, code: u16) -> Pump {
        self.wire.close(code)
    }
}

/// A post over memory that notes the bodies that it is handed.
#[derive(Drop)]
pub struct NotedPost<'a> {
    pub alloc: Global,
    pub post: MemPost,
    pub notes: &'a Notes,
}

impl Post for NotedPost<'_> {
    ghost told = { λ p. p.post };

    fn post(&mut self, body: &Bytes, key: &Text, signature: &[u8; 64]) -> Posted {
        note(self.alloc, self.notes, body.as_slice());
        self.post.post(body, key, signature)
    }
}

/// Connections over memory, with a flag that is set at the second call: what the first one gave was then handed on.
#[derive(Drop)]
pub struct FlaggedAccept<'a> {
    pub accept: MemAccept<NotedLink<'a>>,
    pub calls: u64,
    pub flag: &'a AtomicU64,
}

impl<'a> Accept for FlaggedAccept<'a> {
    type Conn = NotedLink<'a>;

    ghost counts = { λ a. a.accept };

    fn accept(&mut self) -> Accepted<NotedLink<'a>> {
        self.calls = self.calls.saturating_add(1);
        if self.calls == 2 {
            self.flag.store(1, Ordering::SeqCst);
        }
        self.accept.accept()
    }
}
