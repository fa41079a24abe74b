//! What a drill prints.
ghost use Rattle.std.specs.Prelude.{◌≡◌, ◌<◌, IfOk, string_bytes};
ghost use Rattle.ch_drill.specs.DrillCounts.{IsCounted};
ghost use Rattle.ch_drill.specs.DrillText.{usage_line, count_line, total_line, text_of};

use crate::counts::DrillCounts;
use ch_base::{Memory, Text};
use std::alloc::Global;

/// The line for words that ask for no drill.
pub fn usage_text() -> &'static str
    ensures { result.now ≡ usage_line }
{
    "usage: channelsd drill <workers> <rounds>\n"
}

/// A line for each shard, with the number of its entries and of what is left open, and a line with the sum of the
/// entries.
pub fn drill_text(alloc: Global, counts: &DrillCounts) -> Result<Text, Memory>
    requires { IsCounted counts.now }
    ensures { IfOk result (λ text. text ≡ text_of counts.now) }
{
    let total = counts.first_chan + counts.second_chan + 2 * counts.each_user;
    let mut text = Text::new(alloc);
    text.push_str(count_line(alloc, "chan", 0, counts.first_chan)?.as_str())?;
    text.push_str(count_line(alloc, "chan", 1, counts.second_chan)?.as_str())?;
    text.push_str(count_line(alloc, "user", 0, counts.each_user)?.as_str())?;
    text.push_str(count_line(alloc, "user", 1, counts.each_user)?.as_str())?;
    text.push_str(total_line(alloc, total)?.as_str())?;
    Ok(text)
}

/// The line of a shard after which nothing is left open.
fn count_line(alloc: Global, kind: &str, shard: u64, entries: u64) -> Result<String, Memory>
    ensures { IfOk result (λ line. string_bytes line ≡ count_line kind.now shard entries) }
{
    let line = format!(in alloc; "{kind} {shard} {entries} 0\n")?;
    Ok(line)
}

/// The last line.
fn total_line(alloc: Global, total: u64) -> Result<String, Memory>
    ensures { IfOk result (λ line. string_bytes line ≡ total_line total) }
{
    let line = format!(in alloc; "total {total}\n")?;
    Ok(line)
}
