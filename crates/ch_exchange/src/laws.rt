ghost use Rattle.ch_exchange.specs.Laws.{CutsLeaveNoTrace, IdleTurns, LinksMove, MeaningStays};
ghost use Rattle.ch_exchange.specs.Stories.{Begins, GoesOn};

use ch_http::{one_verdict, verdict_stays};
use ch_net::link_calls_chain;
use ch_triggers::one_reading;

/// What an exchange writes in all its turns is a front of one reply, which is that to all bytes that it read, by the answers
/// to all asks that it made; at the end it is the whole of it. While no reply stands, more bytes are wanted.
pub fn one_reply()
    ensures first { Begins }
    ensures next { GoesOn }
{}

/// Over a turn the link gave the bytes that were read, and took those that were written.
pub fn links_move()
    ensures { LinksMove }
{
    link_calls_chain();
}

/// A turn is idle exactly where the exchange goes on, no byte was read or written, and no reply was made.
pub fn idle_turns()
    ensures { IdleTurns }
{}

/// Bytes that mean a request, a handshake or a refusal mean it whatever bytes follow, while there is time.
pub fn meaning_stays()
    ensures { MeaningStays }
{
    verdict_stays();
}

/// While there is time, the reply doesn't depend on how the bytes of the request were cut.
pub fn cuts_leave_no_trace()
    ensures { CutsLeaveNoTrace }
{
    verdict_stays();
    one_verdict();
    one_reading();
}
