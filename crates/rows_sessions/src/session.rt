ghost use Rattle.std.specs.Prelude.{◌≡◌, IfOk, IsTrue};
ghost use Rattle.ch_base.specs.declared.user.UserAnswer.{UserAnswer};
ghost use Rattle.ch_config.specs.Config.{IsConfig};
ghost use Rattle.ch_history.specs.Limits.{IsMoment};
ghost use Rattle.ch_protocol.specs.declared.ask.Made.{Made};
ghost use Rattle.ch_session.specs.Kept.{HasShardsOf};
ghost use Rattle.ch_protocol.specs.Asks.{ComesOf};
ghost use Rattle.ch_session.specs.Waits.{Awaits};
ghost use Rattle.ch_session.specs.declared.waiting.Waiting.{Waiting};

use ch_base::{Text, UserAnswer, UserCall};
use ch_config::Config;
use ch_protocol::{Ask, AskList, Heard, Made, Settled};
use ch_session::Session;
use std::alloc::Global;
use std::test::Fail;

/// The app of the worked examples of "Auth signatures" (Pusher Channels documentation).
fn example_app(alloc: Global) -> Result<Config, Fail>
    ensures { IfOk result IsConfig }
{
    let mut config = Config::built_in(alloc)?;
    config.key = Text::of(alloc, "278d425bdf160c739803")?;
    config.secret = Text::of(alloc, "7ad3773142a6692b25b8")?;
    Ok(config)
}

/// The socket 1234.1234 of those examples.
fn example_socket(alloc: Global, config: &Config) -> Result<Session, Fail>
    requires { IsConfig config.now }
    ensures idle { IfOk result (λ s. s.waits ≡ Waiting.Nothing) }
    ensures over { IfOk result (λ s. HasShardsOf s config.now) }
{
    let target = "/app/278d425bdf160c739803?protocol=7";
    match Session::start(alloc, config, 1234, 1234, target, 0) {
        Ok(session) => Ok(session),
        Err(_) => Err(Fail::from("no session")),
    }
}

/// A sign-in with a watchlist of one user, whose signature was made by openssl.
const SIGN_IN: &str =
    r#"{"event":"pusher:signin","data":{"auth":"278d425bdf160c739803:36df487c681c3c2d99baab07df0cb21e09de37019c8373fcdcc4522df32de524","user_data":"{\"id\":\"u\",\"watchlist\":[\"w\"]}"}}"#;

fn signs_in(ask: &Ask) -> bool
    ensures { IsTrue result → ComesOf ask.now (Made.User UserAnswer.SignedIn) }
{
    match ask {
        Ask::User { call, .. } => matches!(call, UserCall::SignIn { .. }),
        Ask::Chan { .. } => false,
    }
}

/// The code with which the watch of a sign-in ends the connection, where there was no memory for it.
fn ending(session: &mut Session, asks: &AskList, now: u64) -> Option<u16>
    requires awaits { Awaits session.old.waits 0 asks.now }
    requires now { IsMoment now }
{
    let [sign_in, _] = asks.as_slice() else {
        return None;
    };
    if !signs_in(sign_in) {
        return None;
    }
    match session.settle(0, &Made::User(UserAnswer::SignedIn), now) {
        Settled::Nothing | Settled::Reply(_) => {}
        Settled::Refuse(_) | Settled::End(_) => return None,
    }
    match session.settle(1, &Made::Memory, now) {
        Settled::End(code) => Some(code),
        _ => None,
    }
}

#[test]
fn a_watch_without_memory_ends_the_connection(rt: HostRuntime) -> Result<(), Fail> {
    let alloc: Global = rt.alloc();
    let config = example_app(alloc)?;
    let mut session = example_socket(alloc, &config)?;
    let text = Text::of(alloc, SIGN_IN)?;
    let Heard::Ask(asks) = session.hear(&config, &text, 5) else {
        return Err(Fail::from("no asks"));
    };
    assert_eq!(rt; ending(&mut session, &asks, 5), Some(4200));
    Ok(())
}
