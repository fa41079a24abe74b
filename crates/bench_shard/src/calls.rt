//! The calls that are measured, all on public channels.
ghost use Rattle.std.specs.Prelude.{◌≡◌, false, IfOk, IsTrue};
ghost use Rattle.ch_history.specs.ChannelName.{is_good_name, is_presence};
ghost use Rattle.ch_history.specs.Limits.{IsSocket};
ghost use Rattle.ch_history.specs.WellFormed.{IsWellFormed};

use ch_base::{ChanCall, Memory, Text};
use std::alloc::Global;

pub fn join(alloc: Global, socket: u64, channel: &str) -> Result<ChanCall, Memory>
    requires socket { IsSocket socket }
    requires name { IsTrue (is_good_name channel.now) }
    requires kind { is_presence channel.now ≡ false }
    ensures { IfOk result IsWellFormed }
{
    Ok(ChanCall::Join {
        socket,
        channel: Text::of(alloc, channel)?,
        member: None,
        at: 0,
    })
}

pub fn leave(alloc: Global, socket: u64, channel: &str) -> Result<ChanCall, Memory>
    requires socket { IsSocket socket }
    requires name { IsTrue (is_good_name channel.now) }
    ensures { IfOk result IsWellFormed }
{
    Ok(ChanCall::Leave {
        socket,
        channel: Text::of(alloc, channel)?,
        at: 0,
    })
}

pub fn publish(alloc: Global, channel: &str) -> Result<ChanCall, Memory>
    requires { IsTrue (is_good_name channel.now) }
    ensures { IfOk result IsWellFormed }
{
    Ok(ChanCall::Publish {
        channel: Text::of(alloc, channel)?,
        event: Text::of(alloc, "e")?,
        body: Text::of(alloc, "\"x\"")?,
        except: None,
        at: 0,
    })
}
