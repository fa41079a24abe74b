ghost use Rattle.std.specs.Prelude.{◌≡◌, ◌++◌, OnErr, OnOk, IfOk, string_bytes};
ghost use Rattle.ch_base.specs.declared.channel.ChanAnswer.{ChanAnswer};
ghost use Rattle.ch_transcript.specs.Printing.{sent_line};

use ch_base::{ChanAnswer, Memory};
use std::alloc::Global;

/// Adds the line of the counts that answer a publish, `sent <subscriptions> <users>`; nothing for
/// another answer. Where there is no memory the output stays as it is.
pub fn put_sent(alloc: Global, out: &mut Vec<u8>, answer: &ChanAnswer) -> Result<(), Memory>
    ensures ok { OnOk result (out.new.items ≡ out.old.items ++ sent_line answer.now) }
    ensures err { OnErr result (out.new.items ≡ out.old.items) }
{
    match answer {
        ChanAnswer::Sent { subs, users } => {
            let line = sent_line(alloc, *subs, *users)?;
            out.extend_from_slice(line.as_bytes())?;
            Ok(())
        }
        _ => Ok(()),
    }
}

fn sent_line(alloc: Global, subs: u64, users: u64) -> Result<String, Memory>
    ensures { IfOk result (λ line. string_bytes line ≡ sent_line (ChanAnswer.Sent subs users)) }
{
    let line = format!(in alloc; "sent {subs} {users}\n")?;
    Ok(line)
}
