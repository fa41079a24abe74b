//! Frames with their texts, for a server that started at the second 1.
use ch_base::{Frame, Member, MemberList, Text};
use ch_frames::print;
use std::alloc::Global;
use std::test::Fail;

#[test]
fn errors_are_told_in_words(rt: HostRuntime) -> Result<(), Fail> {
    let alloc: Global = rt.alloc();
    let table: [(u16, &str); 25] = [
        (4001, "application does not exist"),
        (4005, "path not found"),
        (4006, "invalid version string format"),
        (4007, "unsupported protocol version"),
        (4008, "no protocol version supplied"),
        (4009, "connection is unauthorized"),
        (4100, "over capacity"),
        (4200, "reconnect immediately"),
        (4201, "pong reply not received"),
        (4301, "client event rate limit reached"),
        (4310, "malformed message"),
        (4311, "unknown event"),
        (4312, "invalid channel name"),
        (4313, "already subscribed"),
        (4314, "not subscribed"),
        (4315, "invalid signature"),
        (4316, "invalid channel data"),
        (4317, "client events are not allowed here"),
        (4318, "message over a limit"),
        (4319, "too many subscriptions"),
        (4320, "presence channel is full"),
        (4321, "invalid user data"),
        (4322, "already signed in"),
        (4329, "out of memory"),
        (4300, ""),
    ];
    for (code, message) in table {
        let error = print(alloc, &Frame::Error { code }, 1)?;
        let want = error_frame(alloc, code, message)?;
        assert_eq!(rt; error.as_str(), want.as_str());
    }
    Ok(())
}

fn error_frame(alloc: Global, code: u16, message: &str) -> Result<String, Fail> {
    let text = format!(in alloc;
        "{{\"event\":\"pusher:error\",\"data\":{{\"message\":\"{message}\",\"code\":{code}}}}}"
    )?;
    Ok(text)
}

#[test]
fn frames_are_printed(rt: HostRuntime) -> Result<(), Fail> {
    let alloc: Global = rt.alloc();
    let table: [(u8, &str); 14] = [
        (
            0,
            "{\"event\":\"pusher:connection_established\",\"data\":\"{\\\"socket_id\\\":\\\"1.2\\\",\\\"activity_timeout\\\":120}\"}",
        ),
        (1, "{\"event\":\"pusher:ping\",\"data\":{}}"),
        (2, "{\"event\":\"pusher:pong\",\"data\":{}}"),
        (
            3,
            "{\"event\":\"pusher:error\",\"data\":{\"message\":\"connection is unauthorized\",\"code\":4009}}",
        ),
        (
            4,
            "{\"event\":\"pusher_internal:subscription_succeeded\",\"channel\":\"a\",\"data\":\"{}\"}",
        ),
        (
            5,
            "{\"event\":\"pusher:cache_miss\",\"channel\":\"cache-c\"}",
        ),
        (
            6,
            "{\"event\":\"pusher_internal:subscription_succeeded\",\"channel\":\"presence-r\",\"data\":\"{\\\"presence\\\":{\\\"ids\\\":[\\\"u\\\",\\\"v\\\"],\\\"hash\\\":{\\\"u\\\":2,\\\"v\\\":null},\\\"count\\\":2}}\"}",
        ),
        (
            7,
            "{\"event\":\"pusher_internal:member_added\",\"channel\":\"presence-r\",\"data\":\"{\\\"user_id\\\":\\\"v\\\",\\\"user_info\\\":null}\"}",
        ),
        (
            8,
            "{\"event\":\"pusher_internal:member_removed\",\"channel\":\"presence-r\",\"data\":\"{\\\"user_id\\\":\\\"u\\\"}\"}",
        ),
        (
            9,
            "{\"event\":\"e\",\"channel\":\"a\",\"data\":\"{\\\"x\\\":1}\"}",
        ),
        (
            10,
            "{\"event\":\"client-m\",\"channel\":\"presence-r\",\"data\":null,\"user_id\":\"u\"}",
        ),
        (
            11,
            "{\"event\":\"pusher:signin_success\",\"data\":{\"user_data\":\"{\\\"id\\\":\\\"w\\\"}\"}}",
        ),
        (
            12,
            "{\"event\":\"pusher_internal:watchlist_events\",\"data\":{\"events\":[{\"name\":\"online\",\"user_ids\":[\"w\"]}]}}",
        ),
        (
            13,
            "{\"event\":\"pusher_internal:watchlist_events\",\"data\":{\"events\":[{\"name\":\"offline\",\"user_ids\":[\"w\"]}]}}",
        ),
    ];
    for (row, want) in table {
        let text = printed(alloc, row)?;
        assert_eq!(rt; text.as_str(), want);
    }
    Ok(())
}

fn printed(alloc: Global, row: u8) -> Result<Text, Fail> {
    let frame = frame(alloc, row)?;
    let text = print(alloc, &frame, 1)?;
    Ok(text)
}

/// The frame of a row of the table.
fn frame(alloc: Global, row: u8) -> Result<Frame, Fail> {
    match row {
        0 => Ok(Frame::Opened { number: 2 }),
        1 => Ok(Frame::Ping),
        2 => Ok(Frame::Pong),
        3 => Ok(Frame::Kill),
        4 => Ok(Frame::Succeeded {
            channel: Text::of(alloc, "a")?,
        }),
        5 => Ok(Frame::Miss {
            channel: Text::of(alloc, "cache-c")?,
        }),
        6 => present(alloc),
        7 => added(alloc),
        8 => removed(alloc),
        9 => event(alloc, "a", "e", "\"{\\\"x\\\":1}\"", None),
        10 => client_event(alloc),
        11 => Ok(Frame::SignedIn {
            user_data: Text::of(alloc, "{\"id\":\"w\"}")?,
        }),
        _ => Ok(Frame::Watch {
            online: row == 12,
            user_id: Text::of(alloc, "w")?,
        }),
    }
}

fn member(alloc: Global, user_id: &str, info: &str) -> Result<Member, Fail> {
    let user_id = Text::of(alloc, user_id)?;
    let info = Text::of(alloc, info)?;
    Ok(Member { user_id, info })
}

fn present(alloc: Global) -> Result<Frame, Fail> {
    let mut rows = MemberList::new(alloc);
    rows.push(member(alloc, "u", "2")?)?;
    rows.push(member(alloc, "v", "null")?)?;
    let channel = Text::of(alloc, "presence-r")?;
    Ok(Frame::Present { channel, rows })
}

fn added(alloc: Global) -> Result<Frame, Fail> {
    let channel = Text::of(alloc, "presence-r")?;
    let member = member(alloc, "v", "null")?;
    Ok(Frame::Added { channel, member })
}

fn removed(alloc: Global) -> Result<Frame, Fail> {
    let channel = Text::of(alloc, "presence-r")?;
    let user_id = Text::of(alloc, "u")?;
    Ok(Frame::Removed { channel, user_id })
}

fn client_event(alloc: Global) -> Result<Frame, Fail> {
    let user_id = Text::of(alloc, "u")?;
    event(alloc, "presence-r", "client-m", "null", Some(user_id))
}

fn event(
    alloc: Global,
    channel: &str,
    event: &str,
    body: &str,
    user_id: Option<Text>,
) -> Result<Frame, Fail> {
    let channel = Text::of(alloc, channel)?;
    let event = Text::of(alloc, event)?;
    let body = Text::of(alloc, body)?;
    Ok(Frame::Event {
        channel,
        event,
        body,
        user_id,
    })
}
