//! The calls of a user shard, each by a letter.
ghost use Rattle.std.specs.Prelude.{◌<◌, IfOk, IsTrue};
ghost use Rattle.ch_history.specs.Limits.{IsSocket, is_user_id};
ghost use Rattle.ch_history.specs.UserLegal.{IsUserWellFormed};

use ch_base::{Frame, Memory, Shared, Text, UserAnswer, UserCall};
use ch_ushard::UserShard;
use std::alloc::Global;
use std::test::Fail;

fn sign_in(alloc: Global, socket: u64, user: &str) -> Result<UserCall, Memory>
    requires socket { IsSocket socket }
    requires user { IsTrue (is_user_id user.now) }
    ensures { IfOk result IsUserWellFormed }
{
    let user = Text::of(alloc, user)?;
    Ok(UserCall::SignIn {
        socket,
        user,
        at: 0,
    })
}

fn watch(alloc: Global, socket: u64, user: &str) -> Result<UserCall, Memory>
    requires socket { IsSocket socket }
    requires user { IsTrue (is_user_id user.now) }
    ensures { IfOk result IsUserWellFormed }
{
    let watched = Text::of(alloc, user)?;
    Ok(UserCall::Watch {
        socket,
        watched,
        at: 0,
    })
}

fn event_call(alloc: Global, user: &str) -> Result<UserCall, Memory>
    requires { IsTrue (is_user_id user.now) }
    ensures { IfOk result IsUserWellFormed }
{
    Ok(UserCall::SendTo {
        user: Text::of(alloc, user)?,
        event: Text::of(alloc, "n")?,
        body: Text::of(alloc, "\"d\"")?,
        at: 0,
    })
}

fn terminate(alloc: Global, user: &str) -> Result<UserCall, Memory>
    requires { IsTrue (is_user_id user.now) }
    ensures { IfOk result IsUserWellFormed }
{
    let user = Text::of(alloc, user)?;
    Ok(UserCall::Terminate { user, at: 0 })
}

/// The call of a letter: socket 1 signs in as `me`, and the sockets 2 and 3 as `w`.
fn call(alloc: Global, letter: u8) -> Result<UserCall, Memory>
    ensures { IfOk result IsUserWellFormed }
{
    match letter {
        b'1' => sign_in(alloc, 1, "me"),
        b'2' => sign_in(alloc, 2, "w"),
        b'3' => sign_in(alloc, 3, "w"),
        b'M' => watch(alloc, 1, "me"),
        b'W' => watch(alloc, 1, "w"),
        b'E' => event_call(alloc, "w"),
        b'K' => terminate(alloc, "w"),
        b'X' => Ok(UserCall::Lost { socket: 1, at: 0 }),
        _ => Ok(UserCall::Take),
    }
}

/// The caller of a letter: 7 for socket 3, and 0 for the others.
fn caller(letter: u8) -> u64
    ensures { result < 64 }
{
    match letter {
        b'3' | b'F' => 7,
        _ => 0,
    }
}

fn frame_words(alloc: Global, item: &Shared) -> Result<String, Fail> {
    let socket = item.socket();
    let words = match item.frame() {
        Frame::Watch { online, user_id } => {
            format!(in alloc; "{socket} {} {online} ", user_id.as_str())?
        }
        Frame::Event { channel, .. } => format!(in alloc; "{socket} {} ", channel.as_str())?,
        Frame::Kill => format!(in alloc; "{socket} kill ")?,
        _ => format!(in alloc; "{socket} another ")?,
    };
    Ok(words)
}

/// Adds an answer, in words.
fn push_answer(alloc: Global, words: &mut String, answer: UserAnswer) -> Result<(), Fail> {
    match answer {
        UserAnswer::Frames(mut frames) => {
            for _place in 0..frames.len() {
                if let Some(item) = frames.take_front() {
                    let text = frame_words(alloc, &item)?;
                    words.push_str(text.as_str())?;
                }
            }
        }
        plain => {
            let text = format!(in alloc; "{plain:?}")?;
            words.push_str(text.as_str())?;
        }
    }
    words.push_str("; ")?;
    Ok(())
}

/// Makes the call of a letter.
fn serve(alloc: Global, shard: &mut UserShard, letter: u8) -> Result<UserAnswer, Memory> {
    let call = call(alloc, letter)?;
    shard.apply(caller(letter), &call)
}

/// What these calls of a new shard are answered.
fn told(alloc: Global, letters: &[u8]) -> Result<String, Fail> {
    let mut shard = UserShard::new(alloc)?;
    let mut words = String::new(alloc);
    for letter in letters {
        let answer = serve(alloc, &mut shard, *letter)?;
        push_answer(alloc, &mut words, answer)?;
    }
    let open = format!(in alloc; "{}", shard.open_signs())?;
    words.push_str(open.as_str())?;
    Ok(words)
}

#[test]
fn calls_are_answered(rt: HostRuntime) -> Result<(), Fail> {
    let alloc: Global = rt.alloc();
    let got = told(alloc, b"1WWM2233TEKFX")?;
    assert_eq!(rt;
        got.as_str(),
        "SignedIn; Watching; AlreadyWatching; Watching; SignedIn; AlreadyIn; SignedIn; AlreadyIn; 1 me true 1 w true ; SentTo { count: 2 }; Killed { count: 2 }; 3 #server-to-user-w 3 kill ; Gone { signs: 1, watches: 2 }; 2"
    );
    Ok(())
}

#[test]
fn a_frame_of_two_sockets_is_printed_once(rt: HostRuntime) -> Result<(), Fail> {
    let alloc: Global = rt.alloc();
    let mut shard = UserShard::new(alloc)?;
    for letter in b"23E" {
        serve(alloc, &mut shard, *letter)?;
    }
    assert_eq!(rt; shard.texts(), 1);
    Ok(())
}
