ghost use Rattle.std.specs.Prelude.{◌≡◌};
ghost use Rattle.ch_given.specs.ConfigLines.{fault_line, Declines};
ghost use Rattle.ch_io.specs.Counts.{Rose};

use crate::fault_line::fault_line;
use ch_config_text::ConfigFault;
use ch_io::{Sink, write_last};
use std::alloc::Global;

/// Says what is wrong with the bytes of a configuration, and answers the status of the program:
///
/// | Status | Comes |
/// |---|---|
/// | 3 | the line of the fault is written last |
/// | 7 | want of memory |
pub fn decline<K: Sink>(alloc: Global, fault: ConfigFault, sink: &mut K) -> u8
    ensures declines { Declines (fault_line fault) result (K.told sink.old) (K.told sink.new) (Rose (K.faults sink.old) (K.faults sink.new)) }
    ensures memory { fault ≡ ConfigFault.Memory → (result ≡ 7) × (sink.new ≡ sink.old) }
{
    match fault_line(alloc, fault) {
        Ok(line) => {
            write_last(sink, line.as_str());
            3
        }
        Err(_) => 7,
    }
}
