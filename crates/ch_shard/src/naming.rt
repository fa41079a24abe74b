ghost use Rattle.std.specs.Prelude.{◌≡◌, ◌++◌, IfOk, OnOk, filter, map, option_to_list};
ghost use Rattle.std.specs.Option.{option_copied};
ghost use Rattle.ch_history.specs.Answers.{row_in};
ghost use Rattle.ch_history.specs.ChannelName.{begins};
ghost use Rattle.ch_subs.specs.Names.{names};
ghost use Rattle.ch_shard.specs.Parts.{name_rows};
ghost use Rattle.ch_shard.specs.Naming.{following};

use crate::channels::Channels;
use ch_base::{ChanAnswer, Memory, NameRow, NameRows, Text};

impl Channels {
    pub(crate) fn names(&self, prefix: &Text) -> Result<ChanAnswer, Memory>
        ensures { IfOk result (λ answer. answer ≡ name_rows self.now.subs prefix.now) }
    {
        let mut rows = NameRows::new(self.alloc);
        let mut name = self.subs.next_name(None);
        for place in 0..self.subs.len() {
            self.add_row(name, prefix, &mut rows)?;
            name = self.name_after(name);
        }
        Ok(ChanAnswer::Rows(rows))
    }

    /// Adds the row of the channel, where there is one and its name has the prefix.
    fn add_row(&self, name: Option<&Text>, prefix: &Text, rows: &mut NameRows) -> Result<(), Memory>
        ensures { OnOk result (rows.new ≡ rows.old ++ map (row_in self.now.subs) (filter (begins prefix.now) (option_to_list (option_copied name.entry)))) }
    {
        match name {
            Some(channel) if begins(prefix, channel) => {
                let row = self.name_row(channel)?;
                rows.push(row)
            }
            _ => Ok(()),
        }
    }

    /// The channel with its counts.
    fn name_row(&self, channel: &Text) -> Result<NameRow, Memory>
        ensures { IfOk result (λ row. row ≡ row_in self.now.subs channel.now) }
    {
        Ok(NameRow {
            channel: channel.copy(self.alloc)?,
            subs: self.subs.count(channel),
            users: self.user_count(channel),
        })
    }

    /// The name of the next channel with a subscription.
    fn name_after(&self, name: Option<&Text>) -> Option<&Text>
        ensures { option_copied result ≡ following (names self.now.subs) (option_copied name.entry) }
    {
        match name {
            None => None,
            Some(channel) => self.subs.next_name(Some(channel)),
        }
    }
}

/// Whether the name begins with the prefix.
fn begins(prefix: &Text, name: &Text) -> bool
    ensures { result ≡ begins prefix.now name.now }
{
    let name = name.as_str().as_bytes();
    name.starts_with(prefix.as_str().as_bytes())
}
