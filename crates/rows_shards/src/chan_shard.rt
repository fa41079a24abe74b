//! The calls of a channel shard, each by the letter that the shard's tail has for it.
ghost use Rattle.std.specs.Prelude.{◌<◌, IfOk, IsTrue, None};
ghost use Rattle.ch_history.specs.ChannelName.{is_good_name, is_presence, kind_of, may_say};
ghost use Rattle.ch_history.specs.Limits.{IsSocket, is_user_id};
ghost use Rattle.ch_history.specs.WellFormed.{IsMember, IsMemberOf, IsWellFormed};

use ch_base::{ChanAnswer, ChanCall, Frame, FrameList, Hook, Member, Memory, Text};
use ch_shard::ChanShard;
use std::alloc::Global;
use std::test::Fail;

fn join(
    alloc: Global,
    socket: u64,
    channel: &str,
    member: Option<Member>,
    at: u16,
) -> Result<ChanCall, Memory>
    requires socket { IsSocket socket }
    requires name { IsTrue (is_good_name channel.now) }
    requires member { IsMemberOf (is_presence channel.now) member }
    ensures { IfOk result IsWellFormed }
{
    Ok(ChanCall::Join {
        socket,
        channel: Text::of(alloc, channel)?,
        member,
        at: u64::from(at),
    })
}

/// A member with the info `null`.
fn member(alloc: Global, user_id: &str) -> Result<Member, Memory>
    requires { IsTrue (is_user_id user_id.now) }
    ensures { IfOk result IsMember }
{
    Ok(Member {
        user_id: Text::of(alloc, user_id)?,
        info: Text::of(alloc, "null")?,
    })
}

fn leave(alloc: Global, socket: u64, channel: &str) -> Result<ChanCall, Memory>
    requires socket { IsSocket socket }
    requires name { IsTrue (is_good_name channel.now) }
    ensures { IfOk result IsWellFormed }
{
    Ok(ChanCall::Leave {
        socket,
        channel: Text::of(alloc, channel)?,
        at: 0,
    })
}

fn publish(alloc: Global, channel: &str) -> Result<ChanCall, Memory>
    requires { IsTrue (is_good_name channel.now) }
    ensures { IfOk result IsWellFormed }
{
    Ok(ChanCall::Publish {
        channel: Text::of(alloc, channel)?,
        event: Text::of(alloc, "e")?,
        body: Text::of(alloc, "\"x\"")?,
        except: None,
        at: 0,
    })
}

fn say(alloc: Global, socket: u64, channel: &str) -> Result<ChanCall, Memory>
    requires socket { IsSocket socket }
    requires name { IsTrue (is_good_name channel.now) }
    requires kind { IsTrue (may_say (kind_of channel.now)) }
    ensures { IfOk result IsWellFormed }
{
    Ok(ChanCall::Say {
        socket,
        channel: Text::of(alloc, channel)?,
        event: Text::of(alloc, "client-m")?,
        body: Text::of(alloc, "null")?,
        at: 0,
    })
}

fn look(alloc: Global) -> Result<ChanCall, Memory>
    ensures { IfOk result IsWellFormed }
{
    Ok(ChanCall::Look {
        channel: Text::of(alloc, "a")?,
        at: 0,
    })
}

fn list_users(alloc: Global) -> Result<ChanCall, Memory>
    ensures { IfOk result IsWellFormed }
{
    Ok(ChanCall::Users {
        channel: Text::of(alloc, "presence-r")?,
    })
}

/// The call of a letter: socket 1 is on `a` (`J`, `X`), and socket 2 on `presence-r` (`M`, `S`, `L`, `Y`). Joins, losses and takes
/// of webhook events are made at the moment.
fn call(alloc: Global, letter: u8, at: u16) -> Result<ChanCall, Memory>
    ensures { IfOk result IsWellFormed }
{
    match letter {
        b'J' => join(alloc, 1, "a", None, at),
        b'M' => join(alloc, 2, "presence-r", Some(member(alloc, "u")?), at),
        b'L' => leave(alloc, 2, "presence-r"),
        b'X' => Ok(ChanCall::Lost {
            socket: 1,
            at: u64::from(at),
        }),
        b'Y' => Ok(ChanCall::Lost {
            socket: 2,
            at: u64::from(at),
        }),
        b'P' => publish(alloc, "a"),
        b'S' => say(alloc, 2, "presence-r"),
        b'H' => Ok(ChanCall::TakeHooks { at: u64::from(at) }),
        b'N' => Ok(ChanCall::Names {
            prefix: Text::new(alloc),
        }),
        b'K' => look(alloc),
        b'U' => list_users(alloc),
        _ => Ok(ChanCall::Take),
    }
}

fn hook_word(hook: &Hook) -> &'static str {
    match hook {
        Hook::Occupied { .. } => "occupied ",
        Hook::Vacated { .. } => "vacated ",
        Hook::Added { .. } => "added ",
        Hook::Removed { .. } => "removed ",
        Hook::Client { .. } => "client ",
        Hook::Miss { .. } => "miss ",
    }
}

fn frame_word(frame: &Frame) -> &'static str {
    match frame {
        Frame::Succeeded { .. } => "succeeded ",
        Frame::Present { .. } => "present ",
        Frame::Event { .. } => "event ",
        _ => "another ",
    }
}

/// Adds an answer, in words.
fn push_answer(alloc: Global, words: &mut String, answer: ChanAnswer) -> Result<(), Fail> {
    match answer {
        ChanAnswer::Frames(mut frames) => {
            for _place in 0..frames.len() {
                if let Some(item) = frames.take_front() {
                    words.push_str(frame_word(item.frame()))?;
                }
            }
        }
        ChanAnswer::Hooks(hooks) => {
            for hook in hooks.as_slice() {
                words.push_str(hook_word(hook))?;
            }
        }
        ChanAnswer::Rows(rows) => {
            for row in rows.as_slice() {
                let (channel, subs, users) = (row.channel.as_str(), row.subs, row.users);
                let text = format!(in alloc; "{channel}={subs},{users} ")?;
                words.push_str(text.as_str())?;
            }
        }
        ChanAnswer::Ids(ids) => {
            for id in ids.as_slice() {
                words.push_str(id.as_str())?;
            }
        }
        plain => {
            let text = format!(in alloc; "{plain:?}")?;
            words.push_str(text.as_str())?;
        }
    }
    words.push_str("; ")?;
    Ok(())
}

/// Makes the call of a letter as caller 3, at the moment.
fn serve(alloc: Global, shard: &mut ChanShard, letter: u8, at: u16) -> Result<ChanAnswer, Memory> {
    let call = call(alloc, letter, at)?;
    shard.apply(3, &call)
}

/// What caller 3 is answered to the letters, each at its moment.
fn answers(
    alloc: Global,
    shard: &mut ChanShard,
    letters: &[u8],
    moments: &[u16],
) -> Result<String, Fail> {
    let mut words = String::new(alloc);
    for (letter, at) in letters.iter().zip(moments) {
        let answer = serve(alloc, shard, *letter, *at)?;
        push_answer(alloc, &mut words, answer)?;
    }
    Ok(words)
}

/// The letters of the shard's tail.
fn tail(alloc: Global, shard: &ChanShard) -> Result<String, Fail> {
    let mut letters = String::new(alloc);
    for i in 0..shard.tail_len() {
        letters.push(char::from(shard.tail_at(i).letter))?;
    }
    Ok(letters)
}

/// What caller 3 of a new shard is answered at the moments, the letters of the shard's tail and its open subscriptions.
fn told(alloc: Global, letters: &[u8], moments: &[u16]) -> Result<String, Fail> {
    let mut shard = ChanShard::new(alloc)?;
    let answers = answers(alloc, &mut shard, letters, moments)?;
    let tail = tail(alloc, &shard)?;
    let (answers, tail, open) = (answers.as_str(), tail.as_str(), shard.open_subs());
    Ok(format!(in alloc; "{answers}{tail} {open}")?)
}

#[test]
fn calls_are_answered(rt: HostRuntime) -> Result<(), Fail> {
    let alloc: Global = rt.alloc();
    let table: [(&[u8], &[u16], &str); 4] = [
        (
            b"JXJJH",
            &[0, 10, 3_009, 3_009, 3_009],
            "Joined; Gone { count: 1 }; Joined; Already; occupied ; JXJJH 1",
        ),
        (
            b"JXJH",
            &[0, 10, 3_010, 3_010],
            "Joined; Gone { count: 1 }; Joined; occupied vacated occupied ; JXJH 1",
        ),
        (
            b"MYMH",
            &[0, 10, 20, 20],
            "Joined; Gone { count: 1 }; Joined; occupied added removed added ; JXJH 1",
        ),
        (
            b"JMPSKNULXTH",
            &[0; 11],
            "Joined; Joined; Sent { subs: 1, users: 0 }; Said; Looked { subs: 1, users: 0, cache: None }; a=1,0 presence-r=1,1 ; u; Left; Gone { count: 1 }; succeeded present event ; occupied occupied added client removed ; JJPSKNULXTH 0",
        ),
    ];
    for (letters, moments, want) in table {
        let got = told(alloc, letters, moments)?;
        assert_eq!(rt; got.as_str(), want);
    }
    Ok(())
}

/// The socket subscribes to `a`.
fn join_room(alloc: Global, shard: &mut ChanShard, caller: u64, socket: u64) -> Result<(), Memory>
    requires caller { caller < 64 }
    requires socket { IsSocket socket }
{
    shard.apply(caller, &join(alloc, socket, "a", None, 0)?)?;
    Ok(())
}

/// A shard on which 100 sockets are subscribed to `a`, 50 by caller 0 and 50 by caller 1.
fn full_room(alloc: Global) -> Result<ChanShard, Memory> {
    let mut shard = ChanShard::new(alloc)?;
    for socket in 1..51_u64 {
        join_room(alloc, &mut shard, 0, socket)?;
        join_room(alloc, &mut shard, 1, socket + 50)?;
    }
    Ok(shard)
}

/// How many frames of an event the caller takes.
fn take_events(shard: &mut ChanShard, caller: u64) -> Result<u64, Memory>
    requires { caller < 64 }
{
    match shard.apply(caller, &ChanCall::Take)? {
        ChanAnswer::Frames(frames) => Ok(count_events(frames)),
        _ => Ok(0),
    }
}

fn count_events(mut frames: FrameList) -> u64 {
    let mut count = 0_u64;
    for _place in 0..frames.len() {
        count = count.saturating_add(take_event(&mut frames));
    }
    count
}

/// Takes the first frame out: 1 where it's an event, and 0 otherwise.
fn take_event(frames: &mut FrameList) -> u64 {
    match frames.take_front() {
        Some(item) if frame_word(item.frame()) == "event " => 1,
        _ => 0,
    }
}

/// How many texts a publish to `a` prints.
fn print_publish(alloc: Global, shard: &mut ChanShard) -> Result<u64, Memory> {
    let before = shard.texts();
    shard.apply(0, &publish(alloc, "a")?)?;
    Ok(shard.texts().saturating_sub(before))
}

/// How many texts a publish to the full room prints, and how many events each of the two callers takes then.
fn publish_to_room(alloc: Global) -> Result<[u64; 3], Memory> {
    let mut shard = full_room(alloc)?;
    let texts = print_publish(alloc, &mut shard)?;
    let first = take_events(&mut shard, 0)?;
    let second = take_events(&mut shard, 1)?;
    Ok([texts, first, second])
}

#[test]
fn a_publish_to_a_hundred_sockets_prints_one_text(rt: HostRuntime) -> Result<(), Fail> {
    let alloc: Global = rt.alloc();
    assert_eq!(rt; publish_to_room(alloc)?, [1, 50, 50]);
    Ok(())
}
