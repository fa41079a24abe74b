ghost use Rattle.std.specs.Prelude.{◌<◌, length};
ghost use Rattle.ch_exchange.specs.Hearing.{ReadsOnce};

use crate::turn::ExTurn;
use ch_net::{Link, LinkGot};

/// Reads once, and answers how many bytes stand at the front of the buffer then: none where the link asked for patience. Or
/// it answers how the turn ends where no byte can be read.
pub(crate) fn read_once<L: Link>(link: &mut L, buffer: &mut [u8]) -> Result<usize, ExTurn>
    requires { 0 < length buffer.old }
    ensures { ReadsOnce buffer.new (L.told link.old) (L.told link.new) result }
{
    match link.read(buffer) {
        LinkGot::Read(count) => Ok(count),
        LinkGot::NotYet => Ok(0),
        LinkGot::Ended => Err(ExTurn::Peer),
        LinkGot::Failed => Err(ExTurn::Fault),
    }
}
