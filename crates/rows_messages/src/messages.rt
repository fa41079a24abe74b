//! What clients' texts say, and the data of members and users.
use ch_base::Text;
use ch_frames::{ClientMessage, Refused, Unread, member_of, parse, user_of};
use std::alloc::Global;
use std::test::Fail;

/// What `parse` answers, in words.
fn said(alloc: Global, text: &str) -> Result<String, Fail> {
    let words = match parse(alloc, text) {
        Ok(message) => message_words(alloc, &message)?,
        Err(Refused::Code(code)) => format!(in alloc; "{code}")?,
        Err(Refused::Memory) => String::from_str(alloc, "out of memory")?,
    };
    Ok(words)
}

fn message_words(alloc: Global, message: &ClientMessage) -> Result<String, Fail> {
    match message {
        ClientMessage::Ping => words(alloc, "ping", "", "", ""),
        ClientMessage::Pong => words(alloc, "pong", "", "", ""),
        ClientMessage::Subscribe {
            channel,
            auth,
            channel_data,
        } => words(
            alloc,
            "subscribe",
            channel.as_str(),
            or_none(auth),
            or_none(channel_data),
        ),
        ClientMessage::Unsubscribe { channel } => {
            words(alloc, "unsubscribe", channel.as_str(), "", "")
        }
        ClientMessage::SignIn { auth, user_data } => {
            words(alloc, "sign in", auth.as_str(), user_data.as_str(), "")
        }
        ClientMessage::Say {
            channel,
            event,
            body,
        } => words(
            alloc,
            "say",
            channel.as_str(),
            event.as_str(),
            body.as_str(),
        ),
    }
}

fn words(alloc: Global, a: &str, b: &str, c: &str, d: &str) -> Result<String, Fail> {
    Ok(format!(in alloc; "{a}|{b}|{c}|{d}")?)
}

fn or_none(text: &Option<Text>) -> &str {
    match text {
        Some(text) => text.as_str(),
        None => "none",
    }
}

#[test]
fn texts_are_read_or_refused_by_their_first_fault(rt: HostRuntime) -> Result<(), Fail> {
    let alloc: Global = rt.alloc();
    let table = [
        ("{\"event\":\"pusher:ping\"}", "ping|||"),
        ("{\"event\":\"pusher:pong\",\"data\":[1]}", "pong|||"),
        ("{\"\\u0065vent\":\"pusher\\u003aping\"}", "ping|||"),
        (
            "{\"event\":\"pusher:subscribe\",\"data\":{\"channel\":\"a\"}}",
            "subscribe|a|none|none",
        ),
        (
            "{\"data\":{\"channel_data\":\"x\",\"auth\":\"k:s\",\"channel\":\"presence-a\"},\"event\":\"pusher:subscribe\"}",
            "subscribe|presence-a|k:s|x",
        ),
        (
            "{\"event\":\"pusher:subscribe\",\"data\":{\"channel\":\"a\",\"auth\":null,\"channel_data\":null}}",
            "subscribe|a|none|none",
        ),
        (
            "{\"event\":\"pusher:unsubscribe\",\"data\":{\"channel\":\"#server-to-user-7\",\"x\":1,\"x\":2}}",
            "unsubscribe|#server-to-user-7||",
        ),
        (
            "{\"event\":\"pusher:signin\",\"data\":{\"auth\":\"k:s\",\"user_data\":\"{}\"}}",
            "sign in|k:s|{}|",
        ),
        (
            "{\"event\":\"client-x\",\"channel\":\"private-a\",\"data\": {\"x\":1.50} }",
            "say|private-a|client-x|{\"x\":1.50}",
        ),
        (
            "{\"event\":\"client-\",\"channel\":\"a\"}",
            "say|a|client-|null",
        ),
        ("", "4310"),
        ("[]", "4310"),
        ("{}", "4310"),
        ("{\"event\":1}", "4310"),
        ("{\"event\":\"\\ud800\"}", "4310"),
        ("{\"event\":\"pusher:ping\",\"a\":1,\"\\u0061\":2}", "4310"),
        ("{\"event\":\"pusher:hello\",\"data\":{}}", "4311"),
        ("{\"event\":\"\"}", "4311"),
        ("{\"event\":\"pusher:subscribe\"}", "4310"),
        (
            "{\"event\":\"pusher:subscribe\",\"data\":{\"channel\":\"a b\",\"auth\":1}}",
            "4310",
        ),
        (
            "{\"event\":\"pusher:subscribe\",\"data\":{\"channel\":\"a\",\"channel\":\"b\"}}",
            "4310",
        ),
        (
            "{\"event\":\"pusher:subscribe\",\"data\":{\"channel\":\"a b\"}}",
            "4312",
        ),
        (
            "{\"event\":\"pusher:unsubscribe\",\"data\":{\"channel\":\"\"}}",
            "4312",
        ),
        (
            "{\"event\":\"pusher:signin\",\"data\":{\"auth\":\"k:s\"}}",
            "4310",
        ),
        ("{\"event\":\"client-x\"}", "4310"),
        (
            "{\"event\":\"client-x\",\"channel\":\"#server-to-user-7\"}",
            "4312",
        ),
    ];
    for (text, want) in table {
        let got = said(alloc, text)?;
        assert_eq!(rt; got.as_str(), want, "in {text}");
    }
    Ok(())
}

/// The text, and then so many times the filling, and then the end.
fn filled(
    alloc: Global,
    front: &str,
    filling: &str,
    count: u64,
    end: &str,
) -> Result<String, Fail> {
    let mut text = String::from_str(alloc, front)?;
    for _ in 0..count {
        text.push_str(filling)?;
    }
    text.push_str(end)?;
    Ok(text)
}

/// The code of a text that is refused, or 0.
fn code(alloc: Global, text: &str) -> u16 {
    match parse(alloc, text) {
        Ok(_) => 0,
        Err(Refused::Code(code)) => code,
        Err(Refused::Memory) => 1,
    }
}

#[test]
fn lengths_have_limits(rt: HostRuntime) -> Result<(), Fail> {
    let alloc: Global = rt.alloc();
    let subscribe = "{\"event\":\"pusher:subscribe\",\"data\":{\"channel\":\"";
    let say = "{\"event\":\"client-x\",\"channel\":\"a\",\"data\":\"";
    let table = [
        (subscribe, "a", 200, "\"}}", 0),
        (subscribe, "a", 201, "\"}}", 4312),
        ("{\"event\":\"client-", "e", 193, "\",\"channel\":\"a\"}", 0),
        (
            "{\"event\":\"client-",
            "e",
            194,
            "\",\"channel\":\"a\"}",
            4318,
        ),
        (
            "{\"event\":\"client-",
            "e",
            194,
            "\",\"channel\":\"a b\"}",
            4312,
        ),
        (say, "d", 10238, "\"}", 0),
        (say, "d", 10239, "\"}", 4318),
        ("{\"event\":\"pusher:ping\"}", " ", 65513, "", 0),
        ("{\"event\":\"pusher:ping\"}", " ", 65514, "", 4318),
        ("", "[", 65536, "", 4310),
        ("", "[", 65537, "", 4318),
    ];
    for (front, filling, count, end, want) in table {
        let text = filled(alloc, front, filling, count, end)?;
        assert_eq!(rt; code(alloc, text.as_str()), want, "with {count}");
    }
    Ok(())
}

#[test]
fn an_object_may_have_many_members(rt: HostRuntime) -> Result<(), Fail> {
    let alloc: Global = rt.alloc();
    let mut text = String::from_str(alloc, "{\"event\":\"pusher:ping\"")?;
    for i in 0..6500 {
        let member = format!(in alloc; ",\"{i}\":0")?;
        text.push_str(member.as_str())?;
    }
    text.push_str("}")?;
    assert_eq!(rt; code(alloc, text.as_str()), 0);
    Ok(())
}

/// The member, in words.
fn member(alloc: Global, text: &str) -> Result<String, Fail> {
    let words = match member_of(alloc, text) {
        Ok(member) => {
            let (id, info) = (member.user_id.as_str(), member.info.as_str());
            format!(in alloc; "{id}|{info}")?
        }
        Err(Unread::Bad) => String::from_str(alloc, "bad")?,
        Err(Unread::Memory) => String::from_str(alloc, "out of memory")?,
    };
    Ok(words)
}

const LONGEST_ID: &str =
    "uuuuuuuuuuuuuuuuuuuuuuuuuuuuuuuuuuuuuuuuuuuuuuuuuuuuuuuuuuuuuuuuuuuuuuuuuuuuuuuuuuuuuuuuuuuuuuuuuuuuuuuuuuuuuuuuuuuuuuuuuuuuuuuu|null";

const LONGEST_NUMBER: &str =
    "11111111111111111111111111111111111111111111111111111111111111111111111111111111111111111111111111111111111111111111111111111111|null";

#[test]
fn members_are_read(rt: HostRuntime) -> Result<(), Fail> {
    let alloc: Global = rt.alloc();
    let table = [
        ("{\"user_id\":\"u\"}", "", 0, "", "u|null"),
        (
            " {\"user_id\" : \"\\u0075\" , \"user_info\" : [ 1.50 ] } ",
            "",
            0,
            "",
            "u|[ 1.50 ]",
        ),
        (
            "{\"user_id\":10,\"user_info\":{\"a\":1,\"a\":2}}",
            "",
            0,
            "",
            "10|{\"a\":1,\"a\":2}",
        ),
        ("{\"user_id\":-0}", "", 0, "", "-0|null"),
        ("{\"user_id\":1.0}", "", 0, "", "bad"),
        ("{\"user_id\":1E1}", "", 0, "", "bad"),
        ("{\"user_id\":\"\"}", "", 0, "", "bad"),
        ("{\"user_id\":null}", "", 0, "", "bad"),
        ("{\"user_info\":1}", "", 0, "", "bad"),
        ("{\"user_id\":\"u\",\"a\":1,\"a\":2}", "", 0, "", "bad"),
        ("[\"u\"]", "", 0, "", "bad"),
        ("", "", 0, "", "bad"),
        ("{\"user_id\":\"u\"}", " ", 2033, "", "u|null"),
        ("{\"user_id\":\"u\"}", " ", 2034, "", "bad"),
        ("{\"user_id\":\"", "u", 128, "\"}", LONGEST_ID),
        ("{\"user_id\":\"", "u", 129, "\"}", "bad"),
        ("{\"user_id\":", "1", 128, "}", LONGEST_NUMBER),
        ("{\"user_id\":", "1", 129, "}", "bad"),
    ];
    for (front, filling, count, end, want) in table {
        let text = filled(alloc, front, filling, count, end)?;
        let got = member(alloc, text.as_str())?;
        assert_eq!(rt; got.as_str(), want, "in {front} with {count}");
    }
    Ok(())
}

/// The user and the watchlist, in words.
fn user(alloc: Global, text: &str) -> Result<String, Fail> {
    match user_of(alloc, text) {
        Ok(user) => {
            let mut words = String::from_str(alloc, user.id.as_str())?;
            for id in user.watchlist.as_slice() {
                words.push_str("|")?;
                words.push_str(id.as_str())?;
            }
            Ok(words)
        }
        Err(Unread::Bad) => Ok(String::from_str(alloc, "bad")?),
        Err(Unread::Memory) => Ok(String::from_str(alloc, "out of memory")?),
    }
}

#[test]
fn users_are_read(rt: HostRuntime) -> Result<(), Fail> {
    let alloc: Global = rt.alloc();
    let watchlist = "{\"id\":\"u\",\"watchlist\":[";
    let table = [
        ("{\"id\":\"u\"}", 0, "", "u"),
        ("{\"id\":\"u\",\"watchlist\":null}", 0, "", "u"),
        ("{\"id\":\"u\",\"watchlist\":[]}", 0, "", "u"),
        (
            "{\"id\":\"u\",\"user_info\":1,\"watchlist\":[\"b\",\"a\",\"\\u0062\",\"c\",\"a\"]}",
            0,
            "",
            "u|b|a|c",
        ),
        ("{\"id\":1}", 0, "", "bad"),
        ("{\"id\":\"\"}", 0, "", "bad"),
        ("{\"watchlist\":[]}", 0, "", "bad"),
        ("{\"id\":\"u\",\"id\":\"u\"}", 0, "", "bad"),
        ("{\"id\":\"u\",\"watchlist\":[1]}", 0, "", "bad"),
        ("{\"id\":\"u\",\"watchlist\":[\"\"]}", 0, "", "bad"),
        ("{\"id\":\"u\",\"watchlist\":{}}", 0, "", "bad"),
        (
            "{\"id\":\"u\",\"watchlist\":[],\"watchlist\":[]}",
            0,
            "",
            "bad",
        ),
        ("", 0, "", "bad"),
        (watchlist, 99, "\"b\"]}", "u|a|b"),
        (watchlist, 100, "\"b\"]}", "bad"),
    ];
    for (front, count, end, want) in table {
        let text = filled(alloc, front, "\"a\",", count, end)?;
        let got = user(alloc, text.as_str())?;
        assert_eq!(rt; got.as_str(), want, "in {front} with {count}");
    }
    Ok(())
}
