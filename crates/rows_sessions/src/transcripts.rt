//! Transcripts that are read to their end, and what is written.
//!
//! A signature is the HMAC-SHA256 under the secret `s` of `<socket id>:<channel>`.
use crate::runs::{BUILT_IN, Run, replayed};
use ch_base::Text;
use std::alloc::Global;
use std::test::Fail;

/// An app with the key `other`.
const OTHER_APP: &str = r#"{"app_id":"1","key":"other","secret":"s"}"#;

/// Configurations, lines, and what is written of them.
const TRANSCRIPTS: [(&str, &str, &str); 20] = [
    // a published event reaches both sockets
    (
        BUILT_IN,
        r#"0 open /app/k?protocol=7
0 open /app/k?protocol=7
1 say 1 {"event":"pusher:subscribe","data":{"auth":"","channel":"a"}}
1 say 2 {"event":"pusher:subscribe","data":{"channel":"a"}}
2 publish a e "hi"
"#,
        r#"1 {"event":"pusher:connection_established","data":"{\"socket_id\":\"1.1\",\"activity_timeout\":120}"}
2 {"event":"pusher:connection_established","data":"{\"socket_id\":\"1.2\",\"activity_timeout\":120}"}
1 {"event":"pusher_internal:subscription_succeeded","channel":"a","data":"{}"}
2 {"event":"pusher_internal:subscription_succeeded","channel":"a","data":"{}"}
sent 2 0
1 {"event":"e","channel":"a","data":"hi"}
2 {"event":"e","channel":"a","data":"hi"}
"#,
    ),
    // an excepted socket gets no frame
    (
        BUILT_IN,
        r#"0 open /app/k?protocol=7
0 say 1 {"event":"pusher:subscribe","data":{"channel":"a"}}
1 except 1 a e "x"
"#,
        r#"1 {"event":"pusher:connection_established","data":"{\"socket_id\":\"1.1\",\"activity_timeout\":120}"}
1 {"event":"pusher_internal:subscription_succeeded","channel":"a","data":"{}"}
sent 1 0
"#,
    ),
    // a socket subscribes once and leaves what it is on
    (
        BUILT_IN,
        r#"0 open /app/k?protocol=7
1 say 1 {"event":"pusher:subscribe","data":{"channel":"a"}}
1 say 1 {"event":"pusher:subscribe","data":{"channel":"a"}}
1 say 1 {"event":"pusher:unsubscribe","data":{"channel":"b"}}
5 hooks
6 hooks
"#,
        r#"1 {"event":"pusher:connection_established","data":"{\"socket_id\":\"1.1\",\"activity_timeout\":120}"}
1 {"event":"pusher_internal:subscription_succeeded","channel":"a","data":"{}"}
1 {"event":"pusher:error","data":{"message":"already subscribed","code":4313}}
1 {"event":"pusher:error","data":{"message":"not subscribed","code":4314}}
hook 1 f61aa864a1de85cf2f2a2faddf30c613afb428cffe7e3512b567c675549827fb {"time_ms":5,"events":[{"name":"channel_occupied","channel":"a"}]}
"#,
    ),
    // two sockets of a user are one member
    (
        BUILT_IN,
        r#"0 open /app/k?protocol=7
0 open /app/k?protocol=7
0 open /app/k?protocol=7
1 join 1 presence-r {"user_id":"u","user_info":1}
1 join 2 presence-r {"user_id":"u","user_info":2}
1 say 1 {"event":"pusher:unsubscribe","data":{"channel":"presence-r"}}
1 join 3 presence-r {"user_id":"v"}
1 say 2 {"event":"pusher:unsubscribe","data":{"channel":"presence-r"}}
"#,
        r#"1 {"event":"pusher:connection_established","data":"{\"socket_id\":\"1.1\",\"activity_timeout\":120}"}
2 {"event":"pusher:connection_established","data":"{\"socket_id\":\"1.2\",\"activity_timeout\":120}"}
3 {"event":"pusher:connection_established","data":"{\"socket_id\":\"1.3\",\"activity_timeout\":120}"}
1 {"event":"pusher_internal:subscription_succeeded","channel":"presence-r","data":"{\"presence\":{\"ids\":[\"u\"],\"hash\":{\"u\":1},\"count\":1}}"}
2 {"event":"pusher_internal:subscription_succeeded","channel":"presence-r","data":"{\"presence\":{\"ids\":[\"u\"],\"hash\":{\"u\":1},\"count\":1}}"}
3 {"event":"pusher_internal:subscription_succeeded","channel":"presence-r","data":"{\"presence\":{\"ids\":[\"u\",\"v\"],\"hash\":{\"u\":2,\"v\":null},\"count\":2}}"}
2 {"event":"pusher_internal:member_added","channel":"presence-r","data":"{\"user_id\":\"v\",\"user_info\":null}"}
3 {"event":"pusher_internal:member_removed","channel":"presence-r","data":"{\"user_id\":\"u\"}"}
"#,
    ),
    // a newcomer gets the latest event of a cache channel
    (
        BUILT_IN,
        r#"0 open /app/k?protocol=7
0 say 1 {"event":"pusher:subscribe","data":{"channel":"cache-c"}}
1 publish cache-c e "1"
2 lose 1
3 open /app/k?protocol=7
3 say 2 {"event":"pusher:subscribe","data":{"channel":"cache-c"}}
"#,
        r#"1 {"event":"pusher:connection_established","data":"{\"socket_id\":\"1.1\",\"activity_timeout\":120}"}
1 {"event":"pusher_internal:subscription_succeeded","channel":"cache-c","data":"{}"}
1 {"event":"pusher:cache_miss","channel":"cache-c"}
sent 1 0
1 {"event":"e","channel":"cache-c","data":"1"}
2 {"event":"pusher:connection_established","data":"{\"socket_id\":\"1.2\",\"activity_timeout\":120}"}
2 {"event":"pusher_internal:subscription_succeeded","channel":"cache-c","data":"{}"}
2 {"event":"e","channel":"cache-c","data":"1"}
"#,
    ),
    // a cached event ends 1,800,000 ms after it was published
    (
        BUILT_IN,
        r#"0 open /app/k?protocol=7
0 say 1 {"event":"pusher:subscribe","data":{"channel":"cache-c"}}
1 publish cache-c e "1"
1800000 open /app/k?protocol=7
1800000 say 2 {"event":"pusher:subscribe","data":{"channel":"cache-c"}}
1800000 api GET /apps/1/channels/cache-c info=cache
1800001 open /app/k?protocol=7
1800001 say 3 {"event":"pusher:subscribe","data":{"channel":"cache-c"}}
1800001 api GET /apps/1/channels/cache-c info=cache
1800001 api GET /apps/1/channels/a info=cache
"#,
        r#"1 {"event":"pusher:connection_established","data":"{\"socket_id\":\"1.1\",\"activity_timeout\":120}"}
1 {"event":"pusher_internal:subscription_succeeded","channel":"cache-c","data":"{}"}
1 {"event":"pusher:cache_miss","channel":"cache-c"}
sent 1 0
1 {"event":"e","channel":"cache-c","data":"1"}
2 {"event":"pusher:connection_established","data":"{\"socket_id\":\"1.2\",\"activity_timeout\":120}"}
2 {"event":"pusher_internal:subscription_succeeded","channel":"cache-c","data":"{}"}
2 {"event":"e","channel":"cache-c","data":"1"}
http 200 {"occupied":true,"cache":{"data":"1","ttl":1}}
3 {"event":"pusher:connection_established","data":"{\"socket_id\":\"1.3\",\"activity_timeout\":120}"}
3 {"event":"pusher_internal:subscription_succeeded","channel":"cache-c","data":"{}"}
3 {"event":"pusher:cache_miss","channel":"cache-c"}
http 200 {"occupied":true,"cache":null}
http 400 {"error":"bad request"}
"#,
    ),
    // ten client events are accepted in a second
    (
        BUILT_IN,
        r#"0 open /app/k?protocol=7
0 join 1 private-p
0 say 1 {"event":"client-m","channel":"private-p","data":1}
0 say 1 {"event":"client-m","channel":"private-p","data":1}
0 say 1 {"event":"client-m","channel":"private-p","data":1}
0 say 1 {"event":"client-m","channel":"private-p","data":1}
0 say 1 {"event":"client-m","channel":"private-p","data":1}
0 say 1 {"event":"client-m","channel":"private-p","data":1}
0 say 1 {"event":"client-m","channel":"private-p","data":1}
0 say 1 {"event":"client-m","channel":"private-p","data":1}
0 say 1 {"event":"client-m","channel":"private-p","data":1}
0 say 1 {"event":"client-m","channel":"private-p","data":1}
999 say 1 {"event":"client-m","channel":"private-p","data":1}
999 open /app/k?protocol=7
999 join 2 private-p
1000 say 1 {"event":"client-m","channel":"private-p","data":1}
"#,
        r#"1 {"event":"pusher:connection_established","data":"{\"socket_id\":\"1.1\",\"activity_timeout\":120}"}
1 {"event":"pusher_internal:subscription_succeeded","channel":"private-p","data":"{}"}
1 {"event":"pusher:error","data":{"message":"client event rate limit reached","code":4301}}
2 {"event":"pusher:connection_established","data":"{\"socket_id\":\"1.2\",\"activity_timeout\":120}"}
2 {"event":"pusher_internal:subscription_succeeded","channel":"private-p","data":"{}"}
2 {"event":"client-m","channel":"private-p","data":1}
"#,
    ),
    // a client event names the member that says it
    (
        BUILT_IN,
        r#"0 open /app/k?protocol=7
0 open /app/k?protocol=7
1 join 1 presence-r {"user_id":"u"}
1 join 2 presence-r {"user_id":"v"}
2 say 1 {"event":"client-m","channel":"presence-r"}
"#,
        r#"1 {"event":"pusher:connection_established","data":"{\"socket_id\":\"1.1\",\"activity_timeout\":120}"}
2 {"event":"pusher:connection_established","data":"{\"socket_id\":\"1.2\",\"activity_timeout\":120}"}
1 {"event":"pusher_internal:subscription_succeeded","channel":"presence-r","data":"{\"presence\":{\"ids\":[\"u\"],\"hash\":{\"u\":null},\"count\":1}}"}
2 {"event":"pusher_internal:subscription_succeeded","channel":"presence-r","data":"{\"presence\":{\"ids\":[\"u\",\"v\"],\"hash\":{\"u\":null,\"v\":null},\"count\":2}}"}
1 {"event":"pusher_internal:member_added","channel":"presence-r","data":"{\"user_id\":\"v\",\"user_info\":null}"}
2 {"event":"client-m","channel":"presence-r","data":null,"user_id":"u"}
"#,
    ),
    // client events keep their spelling
    (
        BUILT_IN,
        r#"0 open /app/k?protocol=7
0 open /app/k?protocol=7
1 join 1 private-p
1 join 2 private-p
2 say 1 {"event":"client-m","channel":"private-p","data":{"x":1.50}}
"#,
        r#"1 {"event":"pusher:connection_established","data":"{\"socket_id\":\"1.1\",\"activity_timeout\":120}"}
2 {"event":"pusher:connection_established","data":"{\"socket_id\":\"1.2\",\"activity_timeout\":120}"}
1 {"event":"pusher_internal:subscription_succeeded","channel":"private-p","data":"{}"}
2 {"event":"pusher_internal:subscription_succeeded","channel":"private-p","data":"{}"}
2 {"event":"client-m","channel":"private-p","data":{"x":1.50}}
"#,
    ),
    // messages are refused with their codes
    (
        BUILT_IN,
        r#"0 open /app/k?protocol=7
0 say 1 {"event":"client-m","channel":"private-p","data":"\ud800"}
0 say 1 {"event":"nope"}
0 say 1 {"event":"pusher:subscribe","data":{"channel":"a b"}}
0 say 1 {"event":"pusher:subscribe","data":{"channel":"private-p"}}
0 say 1 {"event":"client-m","channel":"a","data":1}
0 say 1 
"#,
        r#"1 {"event":"pusher:connection_established","data":"{\"socket_id\":\"1.1\",\"activity_timeout\":120}"}
1 {"event":"pusher:error","data":{"message":"malformed message","code":4310}}
1 {"event":"pusher:error","data":{"message":"unknown event","code":4311}}
1 {"event":"pusher:error","data":{"message":"invalid channel name","code":4312}}
1 {"event":"pusher:error","data":{"message":"invalid signature","code":4315}}
1 {"event":"pusher:error","data":{"message":"client events are not allowed here","code":4317}}
1 {"event":"pusher:error","data":{"message":"malformed message","code":4310}}
"#,
    ),
    // a watcher is told who comes and goes
    (
        BUILT_IN,
        r#"0 open /app/k?protocol=7
0 open /app/k?protocol=7
0 open /app/k?protocol=7
1 signin 1 {"id":"me","watchlist":["w","me"]}
2 signin 2 {"id":"w"}
2 signin 3 {"id":"w"}
3 lose 2
4 lose 3
5 signin 1 {"id":"me"}
"#,
        r#"1 {"event":"pusher:connection_established","data":"{\"socket_id\":\"1.1\",\"activity_timeout\":120}"}
2 {"event":"pusher:connection_established","data":"{\"socket_id\":\"1.2\",\"activity_timeout\":120}"}
3 {"event":"pusher:connection_established","data":"{\"socket_id\":\"1.3\",\"activity_timeout\":120}"}
1 {"event":"pusher:signin_success","data":{"user_data":"{\"id\":\"me\",\"watchlist\":[\"w\",\"me\"]}"}}
1 {"event":"pusher_internal:watchlist_events","data":{"events":[{"name":"online","user_ids":["me"]}]}}
2 {"event":"pusher:signin_success","data":{"user_data":"{\"id\":\"w\"}"}}
1 {"event":"pusher_internal:watchlist_events","data":{"events":[{"name":"online","user_ids":["w"]}]}}
3 {"event":"pusher:signin_success","data":{"user_data":"{\"id\":\"w\"}"}}
1 {"event":"pusher_internal:watchlist_events","data":{"events":[{"name":"offline","user_ids":["w"]}]}}
1 {"event":"pusher:error","data":{"message":"already signed in","code":4322}}
"#,
    ),
    // a wrong sign in is refused
    (
        BUILT_IN,
        r#"0 open /app/k?protocol=7
1 signin 1 {"id":""}
2 say 1 {"event":"pusher:signin","data":{"auth":"k:00","user_data":"{\"id\":\"w\"}"}}
3 say 1 {"event":"pusher:subscribe","data":{"channel":"a"}}
"#,
        r#"1 {"event":"pusher:connection_established","data":"{\"socket_id\":\"1.1\",\"activity_timeout\":120}"}
1 {"event":"pusher:error","data":{"message":"invalid user data","code":4321}}
1 {"event":"pusher:error","data":{"message":"connection is unauthorized","code":4009}}
1 close 4009
"#,
    ),
    // targets are refused with their codes
    (
        BUILT_IN,
        r#"0 open /app/k?protocol=6
0 open /app/x?protocol=7
0 open /ap
0 open /app/k
0 open /app/k?protocol=x
0 open /other
0 open /app/?protocol=7
0 open /app/k/?protocol=7
0 open /app/x?protocol=6
0 open /app/k?protocol=7a
0 open /app/k?proto%63ol=7&protocol=8
"#,
        r#"1 {"event":"pusher:error","data":{"message":"unsupported protocol version","code":4007}}
1 close 4007
2 {"event":"pusher:error","data":{"message":"application does not exist","code":4001}}
2 close 4001
3 {"event":"pusher:error","data":{"message":"path not found","code":4005}}
3 close 4005
4 {"event":"pusher:error","data":{"message":"no protocol version supplied","code":4008}}
4 close 4008
5 {"event":"pusher:error","data":{"message":"invalid version string format","code":4006}}
5 close 4006
6 {"event":"pusher:error","data":{"message":"path not found","code":4005}}
6 close 4005
7 {"event":"pusher:error","data":{"message":"path not found","code":4005}}
7 close 4005
8 {"event":"pusher:error","data":{"message":"path not found","code":4005}}
8 close 4005
9 {"event":"pusher:error","data":{"message":"application does not exist","code":4001}}
9 close 4001
10 {"event":"pusher:error","data":{"message":"invalid version string format","code":4006}}
10 close 4006
11 {"event":"pusher:connection_established","data":"{\"socket_id\":\"1.11\",\"activity_timeout\":120}"}
"#,
    ),
    // a user hears only its own messages
    (
        BUILT_IN,
        r##"0 open /app/k?protocol=7
1 signin 1 {"id":"w"}
1 say 1 {"event":"pusher:subscribe","data":{"channel":"#server-to-user-w"}}
1 say 1 {"event":"pusher:subscribe","data":{"channel":"#server-to-user-x"}}
"##,
        r##"1 {"event":"pusher:connection_established","data":"{\"socket_id\":\"1.1\",\"activity_timeout\":120}"}
1 {"event":"pusher:signin_success","data":{"user_data":"{\"id\":\"w\"}"}}
1 {"event":"pusher_internal:subscription_succeeded","channel":"#server-to-user-w","data":"{}"}
1 {"event":"pusher:error","data":{"message":"invalid signature","code":4315}}
"##,
    ),
    // a silent socket is asked and then closed
    (
        BUILT_IN,
        r#"0 open /app/k?protocol=7
119999 tick 1
120000 tick 1
149999 tick 1
150000 tick 1
"#,
        r#"1 {"event":"pusher:connection_established","data":"{\"socket_id\":\"1.1\",\"activity_timeout\":120}"}
1 {"event":"pusher:ping","data":{}}
1 {"event":"pusher:error","data":{"message":"pong reply not received","code":4201}}
1 close 4201
"#,
    ),
    // a socket that answers stays
    (
        BUILT_IN,
        r#"0 open /app/k?protocol=7
120000 tick 1
140000 say 1 {"event":"pusher:pong","data":{}}
150000 tick 1
150000 say 1 {"event":"pusher:ping"}
"#,
        r#"1 {"event":"pusher:connection_established","data":"{\"socket_id\":\"1.1\",\"activity_timeout\":120}"}
1 {"event":"pusher:ping","data":{}}
1 {"event":"pusher:pong","data":{}}
"#,
    ),
    // the last calls of a shard are shown
    (
        BUILT_IN,
        r#"0 open /app/k?protocol=7
0 say 1 {"event":"pusher:subscribe","data":{"channel":"a"}}
0 tail 0
"#,
        r#"1 {"event":"pusher:connection_established","data":"{\"socket_id\":\"1.1\",\"activity_timeout\":120}"}
1 {"event":"pusher_internal:subscription_succeeded","channel":"a","data":"{}"}
tail TJT
"#,
    ),
    // a subscribe is refused by its first fault
    (
        BUILT_IN,
        r##"0 open /app/k?protocol=7
0 say 1 {"event":"pusher:subscribe","data":{"channel":"a b"}}
0 say 1 {"event":"pusher:subscribe","data":{"channel":"#server-to-user-u"}}
0 say 1 {"event":"pusher:subscribe","data":{"channel":"private-foobar"}}
0 say 1 {"event":"pusher:subscribe","data":{"channel":"private-foobar","auth":"k:BA19D0DE9D54CF4EF8883F1564322FC7A986424CE8532A464718B2966ED31D8A"}}
0 say 1 {"event":"pusher:subscribe","data":{"channel":"private-foobar","auth":"k:ba19d0de9d54cf4ef8883f1564322fc7a986424ce8532a464718b2966ed31d8"}}
0 say 1 {"event":"pusher:subscribe","data":{"channel":"private-foobar","auth":"l:ba19d0de9d54cf4ef8883f1564322fc7a986424ce8532a464718b2966ed31d8a"}}
0 say 1 {"event":"pusher:subscribe","data":{"channel":"private-foobar","auth":"k:ba19d0de9d54cf4ef8883f1564322fc7a986424ce8532a464718b2966ed31d8a"}}
0 say 1 {"event":"pusher:subscribe","data":{"channel":"presence-foobar"}}
0 say 1 {"event":"pusher:subscribe","data":{"channel":"presence-foobar","channel_data":"{}"}}
"##,
        r#"1 {"event":"pusher:connection_established","data":"{\"socket_id\":\"1.1\",\"activity_timeout\":120}"}
1 {"event":"pusher:error","data":{"message":"invalid channel name","code":4312}}
1 {"event":"pusher:error","data":{"message":"invalid signature","code":4315}}
1 {"event":"pusher:error","data":{"message":"invalid signature","code":4315}}
1 {"event":"pusher:error","data":{"message":"invalid signature","code":4315}}
1 {"event":"pusher:error","data":{"message":"invalid signature","code":4315}}
1 {"event":"pusher:error","data":{"message":"invalid signature","code":4315}}
1 {"event":"pusher_internal:subscription_succeeded","channel":"private-foobar","data":"{}"}
1 {"event":"pusher:error","data":{"message":"invalid channel data","code":4316}}
1 {"event":"pusher:error","data":{"message":"invalid channel data","code":4316}}
"#,
    ),
    // users and counts are told
    (
        BUILT_IN,
        r#"0 open /app/k?protocol=7
0 join 1 presence-q {"user_id":"a\"b"}
0 api GET /apps/1/channels/presence-q/users -
0 api GET /apps/1/channels/presence-z info=user_count,subscription_count
"#,
        r#"1 {"event":"pusher:connection_established","data":"{\"socket_id\":\"1.1\",\"activity_timeout\":120}"}
1 {"event":"pusher_internal:subscription_succeeded","channel":"presence-q","data":"{\"presence\":{\"ids\":[\"a\\\"b\"],\"hash\":{\"a\\\"b\":null},\"count\":1}}"}
http 200 {"users":[{"id":"a\"b"}]}
http 200 {"occupied":false,"user_count":0,"subscription_count":0}
"#,
    ),
    // the configuration names the app
    (
        OTHER_APP,
        r#"0 open /app/k?protocol=7
0 open /app/other?protocol=7
"#,
        r#"1 {"event":"pusher:error","data":{"message":"application does not exist","code":4001}}
1 close 4001
2 {"event":"pusher:connection_established","data":"{\"socket_id\":\"1.2\",\"activity_timeout\":120}"}
"#,
    ),
];

#[test]
fn transcripts_are_answered(rt: HostRuntime) -> Result<(), Fail> {
    let alloc: Global = rt.alloc();
    for (config, input, output) in TRANSCRIPTS {
        let run = Run::of(config, input);
        assert_eq!(rt; replayed(alloc, &run)?, (0, Text::of(alloc, output)?));
    }
    Ok(())
}

/// A configuration with several shards of each kind.
const SEVERAL_SHARDS: &str =
    r#"{"app_id":"1","key":"k","secret":"s","chan_shards":4,"user_shards":3}"#;

/// Sockets on several channels, and users who watch one another.
const TRANSCRIPT: &str = r#"0 open /app/k?protocol=7
0 open /app/k?protocol=7
0 say 1 {"event":"pusher:subscribe","data":{"channel":"a"}}
0 say 1 {"event":"pusher:subscribe","data":{"channel":"b"}}
0 say 2 {"event":"pusher:subscribe","data":{"channel":"c"}}
1 join 1 presence-d {"user_id":"u"}
1 join 2 presence-d {"user_id":"v"}
2 signin 1 {"id":"u","watchlist":["v"]}
3 signin 2 {"id":"v"}
4 publish a e "1"
4 publish b e "2"
4 publish c e "3"
5 lose 2
"#;

#[test]
fn shards_change_no_output(rt: HostRuntime) -> Result<(), Fail> {
    let alloc: Global = rt.alloc();
    let one = replayed(alloc, &Run::of(BUILT_IN, TRANSCRIPT))?;
    let several = replayed(alloc, &Run::of(SEVERAL_SHARDS, TRANSCRIPT))?;
    assert_eq!(rt; one.0, 0);
    assert!(rt;
        one.1
            .as_str()
            .contains(r#"{"name":"offline","user_ids":["v"]}"#)
    );
    assert_eq!(rt; several, one);
    Ok(())
}

/// 102 connections, of which the first 101 join a presence channel as users of their own. The last one then
/// joins it as one of these users.
fn crowd(alloc: Global) -> Result<Text, Fail> {
    let mut text = Text::new(alloc);
    for _socket in 0..102_u64 {
        text.push_str("0 open /app/k?protocol=7\n")?;
    }
    for n in 1..102_u64 {
        let line = format!(in alloc; "0 join {n} presence-r {{\"user_id\":\"u{n}\"}}\n")?;
        text.push_str(line.as_str())?;
    }
    text.push_str("1 join 102 presence-r {\"user_id\":\"u7\"}\n")?;
    Ok(text)
}

/// One connection that subscribes to 1,025 channels.
fn subscriber(alloc: Global) -> Result<Text, Fail> {
    let mut text = Text::of(alloc, "0 open /app/k?protocol=7\n")?;
    for n in 1..1_026_u64 {
        let line = format!(in alloc;
            "0 say 1 {{\"event\":\"pusher:subscribe\",\"data\":{{\"channel\":\"c{n}\"}}}}\n"
        )?;
        text.push_str(line.as_str())?;
    }
    Ok(text)
}

const FULL: &str =
    "\n101 {\"event\":\"pusher:error\",\"data\":{\"message\":\"presence channel is full\",\"code\":4320}}\n102 {\"event\":\"pusher_internal:subscription_succeeded\"";

const TOO_MANY: &str =
    "\n1 {\"event\":\"pusher_internal:subscription_succeeded\",\"channel\":\"c1024\",\"data\":\"{}\"}\n1 {\"event\":\"pusher:error\",\"data\":{\"message\":\"too many subscriptions\",\"code\":4319}}\n";

#[test]
fn a_room_has_100_users_and_a_socket_1024_subscriptions(rt: HostRuntime) -> Result<(), Fail> {
    let alloc: Global = rt.alloc();
    for (input, part) in [(crowd(alloc)?, FULL), (subscriber(alloc)?, TOO_MANY)] {
        let (status, output) = replayed(alloc, &Run::of(BUILT_IN, input.as_str()))?;
        assert_eq!(rt; status, 0);
        assert!(rt; output.as_str().contains(part));
    }
    Ok(())
}
