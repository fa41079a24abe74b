ghost use Rattle.std.specs.Prelude.{◌≡◌, ◌++◌, OnErr, OnOk, map};
ghost use Rattle.ch_history.specs.Entries.{ChanHistory};
ghost use Rattle.ch_shard.specs.Stands.{Stands};
ghost use Rattle.ch_transcript.specs.Printing.{tail_line};

use ch_base::Memory;
use ch_shard::ChanShard;
use std::alloc::Global;

/// Adds the line of the letters of the shard's last calls, at most `LONGEST_TAIL`, the oldest first. Where there is no memory the
/// output stays as it is.
pub fn put_tail(alloc: Global, out: &mut Vec<u8>, shard: &ChanShard) -> Result<(), Memory>
    ensures ok { (h : ChanHistory) → Stands shard.now h → OnOk result (out.new.items ≡ out.old.items ++ tail_line h) }
    ensures err { OnErr result (out.new.items ≡ out.old.items) }
{
    let mut line = Vec::new(alloc);
    line.extend_from_slice(b"tail ")?;
    put_letters(&mut line, shard)?;
    line.push(b'\n')?;
    out.extend_from_slice(line.as_slice())?;
    Ok(())
}

fn put_letters(out: &mut Vec<u8>, shard: &ChanShard) -> Result<(), Memory>
    ensures { OnOk result (out.new.items ≡ out.old.items ++ map (λ b. b.letter) shard.now.tail) }
{
    for i in 0..shard.tail_len() {
        let brief = shard.tail_at(i);
        out.push(brief.letter)?;
    }
    Ok(())
}
