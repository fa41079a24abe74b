ghost use Rattle.std.specs.Prelude.{◌≡◌, [], None, Some, IfOk};

use crate::post::{Handed, Post, Posted};
use ch_base::{Bytes, Memory, Text};
use std::alloc::Global;
use std::marker::Model;
use std::vec::IntoIter;

/// A post over memory. It tells what it was handed.
#[derive(Drop)]
pub struct MemPost {
    alloc: Global,
    handed: Vec<Handed>,
    last: Option<Posted>,
    statuses: IntoIter<u16, Global>,
    failing: Vec<usize>,
    calls: usize,
    faults: u64,
}

impl Model for MemPost {
    ghost use Rattle.std.specs.Prelude.{Some};
    ghost use Rattle.ch_io.specs.Posts.{PostTold};

    ghost Value = { PostTold };

    ghost view = { λ p. record { handed = Some p.handed.items; last = p.last; faults = p.faults } };
}

impl MemPost {
    /// A post that answers these statuses, one after another, and fails where none is left. The calls
    /// with the failing numbers, counted from 1, fail too. A post that fails was handed all the same,
    /// unless it found no memory.
    pub fn new(alloc: Global, statuses: Vec<u16>, failing: Vec<usize>) -> MemPost
        ensures { result ≡ record { handed = Some []; last = None; faults = 0 } }
    {
        MemPost {
            alloc,
            handed: Vec::new(alloc),
            last: None,
            statuses: statuses.into_iter(),
            failing,
            calls: 0,
            faults: 0,
        }
    }

    /// What its posts were handed, the oldest first.
    pub fn handed(&self) -> &[Handed]
        ensures { Some result.now ≡ self.now.handed }
    {
        self.handed.as_slice()
    }
}

/// A copy of what a post is handed.
fn copy(alloc: Global, body: &Bytes, key: &Text, signature: &[u8; 64]) -> Result<Handed, Memory>
    ensures { IfOk result (λ h. h ≡ record { body = body.now; key = key.now; signature = signature.now }) }
{
    Ok(Handed {
        body: Bytes::from_vec(body.as_slice().to_vec(alloc)?),
        key: key.copy(alloc)?,
        signature: *signature,
    })
}

impl Post for MemPost {
    ghost told = { λ p. p };

    fn post(&mut self, body: &Bytes, key: &Text, signature: &[u8; 64]) -> Posted {
        self.calls = self.calls.saturating_add(1);
        if let Ok(handed) = copy(self.alloc, body, key, signature) {
            if self.handed.push(handed).is_ok() && !self.failing.contains(&self.calls) {
                if let Some(status) = self.statuses.next() {
                    self.last = Some(Posted::Status(status));
                    return Posted::Status(status);
                }
            }
        }
        self.faults = self.faults.saturating_add(1);
        self.last = Some(Posted::Failed);
        Posted::Failed
    }
}
