ghost use Rattle.std.specs.Prelude.{◌≡◌};
ghost use Rattle.ch_history.specs.Letters.{letter_of};

use ch_base::ChanCall;

/// An entry in brief: the caller's number and the call's letter, one of `JLXPSTHNKU`.
#[derive(Clone, Copy, Debug, PartialEq, Eq)]
pub struct Brief {
    pub caller: u64,
    pub letter: u8,
}

/// The letter of the call.
pub fn letter_of(call: &ChanCall) -> u8
    ensures { result ≡ letter_of call.now }
{
    match call {
        ChanCall::Join { .. } => b'J',
        ChanCall::Leave { .. } => b'L',
        ChanCall::Lost { .. } => b'X',
        ChanCall::Publish { .. } => b'P',
        ChanCall::Say { .. } => b'S',
        ChanCall::Take => b'T',
        ChanCall::TakeHooks { .. } => b'H',
        ChanCall::Names { .. } => b'N',
        ChanCall::Look { .. } => b'K',
        ChanCall::Users { .. } => b'U',
    }
}
