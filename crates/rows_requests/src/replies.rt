use ch_api::{REPLY_503, finish, plan, refusal, reply_bytes};
use ch_base::{Bytes, ChanAnswer, Memory, NameRow, NameRows, Text};
use ch_config::Config;
use ch_protocol::{AnswerList, Made};
use ch_requests::{Plan, Planned, Request, Route};
use ch_sig::Params;
use std::alloc::Global;
use std::test::Fail;

/// A signed request for the presence channels with their users, of the app that is built in.
fn channels_request(alloc: Global) -> Result<Request, Memory> {
    let rows = [
        ("auth_key", "k"),
        ("auth_timestamp", "1353088179"),
        ("auth_version", "1.0"),
        ("filter_by_prefix", "presence-"),
        ("info", "user_count"),
        (
            "auth_signature",
            "1c467c6ffa6fd31841adba734dc026554331df717864de0f53feaa46301e2beb",
        ),
    ];
    let mut params = Params::new(alloc);
    for (name, value) in rows {
        let _ = params.insert(Text::of(alloc, name)?, Text::of(alloc, value)?)?;
    }
    Ok(Request {
        route: Route::Channels,
        path: Text::of(alloc, "/apps/1/channels")?,
        params,
        doubled: false,
        body: Bytes::new(alloc),
    })
}

/// The row of a channel with 3 subscriptions and 2 users.
fn row(alloc: Global, name: &str) -> Result<NameRow, Memory> {
    Ok(NameRow {
        channel: Text::of(alloc, name)?,
        subs: 3,
        users: 2,
    })
}

/// The rows of two shards.
fn two_answers(alloc: Global) -> Result<AnswerList, Memory> {
    let mut first = NameRows::new(alloc);
    first.push(row(alloc, "presence-b")?)?;
    first.push(row(alloc, "presence-d")?)?;
    let mut second = NameRows::new(alloc);
    second.push(row(alloc, "presence-a")?)?;
    second.push(row(alloc, "presence-c")?)?;
    let mut answers = AnswerList::new(alloc);
    answers.push(Made::Chan(ChanAnswer::Rows(first)))?;
    answers.push(Made::Chan(ChanAnswer::Rows(second)))?;
    Ok(answers)
}

/// The plan of a request that isn't refused.
fn plan_of(planned: Planned) -> Result<Plan, Fail> {
    match planned {
        Planned::Ask(plan) => Ok(plan),
        Planned::Answer(_) => Err(Fail::from("refused")),
    }
}

#[test]
fn the_channels_of_all_shards_ascend(rt: HostRuntime) -> Result<(), Fail> {
    let alloc: Global = rt.alloc();
    let config = Config::built_in(alloc)?;
    let planned = plan(
        alloc,
        &config,
        1,
        &channels_request(alloc)?,
        1_353_088_179_000,
    )?;
    let plan = plan_of(planned)?;
    assert_eq!(rt; plan.asks.len(), 1);
    let reply = finish(alloc, &plan, &two_answers(alloc)?)?;
    let bytes = reply_bytes(alloc, &reply)?;
    let expected =
        b"HTTP/1.1 200 OK\r\nContent-Type: application/json\r\nContent-Length: 134\r\nConnection: close\r\n\r\n{\"channels\":{\"presence-a\":{\"user_count\":2},\"presence-b\":{\"user_count\":2},\"presence-c\":{\"user_count\":2},\"presence-d\":{\"user_count\":2}}}";
    assert_eq!(rt; bytes.as_slice(), expected.as_slice());
    Ok(())
}

#[test]
fn refusals_are_whole_replies(rt: HostRuntime) -> Result<(), Fail> {
    let alloc: Global = rt.alloc();
    let bytes = reply_bytes(alloc, &refusal(alloc, 426)?)?;
    let expected =
        b"HTTP/1.1 426 Upgrade Required\r\nContent-Type: application/json\r\nContent-Length: 31\r\nConnection: close\r\n\r\n{\"error\":\"version 13 required\"}";
    assert_eq!(rt; bytes.as_slice(), expected.as_slice());
    let bytes = reply_bytes(alloc, &refusal(alloc, 503)?)?;
    assert_eq!(rt; bytes.as_slice(), REPLY_503);
    Ok(())
}
