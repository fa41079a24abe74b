ghost use Rattle.std.specs.Prelude.{◌≡◌, false, IfOk};
ghost use Rattle.std.specs.Arc.{arc_value};
ghost use Rattle.ch_base.specs.Printed.{is_opened};

use crate::printing::print;
use ch_base::{Frame, Memory, Printed};
use std::alloc::Global;
use std::sync::Arc;

/// Prints frames that many sockets may get, and counts their texts.
#[derive(Drop)]
pub struct Press {
    alloc: Global,
    texts: u64,
}

impl Press {
    /// A press that has printed nothing. It takes no memory.
    pub fn new(alloc: Global) -> Press {
        Press { alloc, texts: 0 }
    }

    /// The allocator of its texts.
    pub fn alloc(&self) -> Global {
        self.alloc
    }

    /// Prints a frame, which isn't `Opened`: its text is told apart by the server's start.
    pub fn print(&mut self, frame: Frame) -> Result<Arc<Printed>, Memory>
        requires { is_opened frame ≡ false }
        ensures { IfOk result (λ printed. arc_value printed ≡ frame) }
    {
        let text = print(self.alloc, &frame, 1)?;
        self.texts = self.texts.saturating_add(1);
        let printed = Arc::new(self.alloc, Printed::of(frame, text))?;
        Ok(printed)
    }

    /// How many texts were printed.
    pub fn texts(&self) -> u64 {
        self.texts
    }
}
