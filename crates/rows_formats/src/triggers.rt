//! What bodies trigger, with ample memory.
use ch_base::Text;
use ch_requests::Route;
use ch_triggers::{Trigger, read_triggers};
use std::alloc::Global;
use std::test::Fail;

fn or_none(text: &Option<Text>) -> &str {
    match text {
        Some(text) => text.as_str(),
        None => "none",
    }
}

/// What an event is, in words.
fn push_words(out: &mut String, alloc: Global, trigger: &Trigger) -> Result<(), Fail> {
    let event = trigger.event.as_str();
    let body = trigger.body.as_str();
    let size = trigger.size;
    let socket_id = or_none(&trigger.socket_id);
    let info = or_none(&trigger.info);
    let words = format!(in alloc; "{event} {body} {size} {socket_id} {info}")?;
    out.push_str(words.as_str())?;
    for channel in trigger.channels.as_slice() {
        out.push(' ')?;
        out.push_str(channel.as_str())?;
    }
    out.push(';')?;
    Ok(())
}

/// What the body triggers, in words.
fn words(alloc: Global, route: &Route, body: &[u8]) -> Result<String, Fail> {
    let Some(triggers) = read_triggers(alloc, route, body)? else {
        return Ok(String::from_str(alloc, "fault")?);
    };
    let mut out = String::new(alloc);
    for trigger in triggers.as_slice() {
        push_words(&mut out, alloc, trigger)?;
    }
    Ok(out)
}

#[test]
fn bodies_trigger_events_or_have_a_fault(rt: HostRuntime) -> Result<(), Fail> {
    let alloc: Global = rt.alloc();
    let table: [(Route, &[u8], &str); 27] = [
        (
            Route::Events,
            br#"{"name":"a","channel":"c","data":"x\u0079"}"#,
            r#"a "x\u0079" 2 none none c;"#,
        ),
        (
            Route::Events,
            br##"{"data":"","info":"user_count","socket_id":"1.2","channels":["c","#server-to-user-7","c"],"name":"a","more":[]}"##,
            r#"a "" 0 1.2 user_count c #server-to-user-7;"#,
        ),
        (
            Route::Events,
            br#"{"name":"a","channel":"c","data":"","socket_id":null,"info":null}"#,
            r#"a "" 0 none none c;"#,
        ),
        (Route::Events, br#"["name"]"#, "fault"),
        (
            Route::Events,
            br#"{"name":"a","channel":"c","data":"""#,
            "fault",
        ),
        (Route::Events, br#"{"channel":"c","data":""}"#, "fault"),
        (
            Route::Events,
            br#"{"name":"","channel":"c","data":""}"#,
            "fault",
        ),
        (Route::Events, br#"{"name":"a","channel":"c"}"#, "fault"),
        (
            Route::Events,
            br#"{"name":"a","channel":"c","data":{}}"#,
            "fault",
        ),
        (Route::Events, br#"{"name":"a","data":""}"#, "fault"),
        (
            Route::Events,
            br#"{"name":"a","channel":"c d","data":""}"#,
            "fault",
        ),
        (
            Route::Events,
            br#"{"name":"a","channel":"c","channels":["c"],"data":""}"#,
            "fault",
        ),
        (
            Route::Events,
            br#"{"name":"a","channels":[],"data":""}"#,
            "fault",
        ),
        (
            Route::Events,
            br#"{"name":"a","channels":["c",1],"data":""}"#,
            "fault",
        ),
        (
            Route::Events,
            br#"{"name":"a","channel":"c","data":"","socket_id":"1"}"#,
            "fault",
        ),
        (
            Route::Events,
            br#"{"name":"a","channel":"c","data":"","info":1}"#,
            "fault",
        ),
        (
            Route::Events,
            br#"{"name":"a","channel":"c","data":"","x":1,"x":2}"#,
            "fault",
        ),
        (
            Route::Events,
            br#"{"batch":[{"name":"a","channel":"c","data":""}]}"#,
            "fault",
        ),
        (
            Route::Events,
            b"{\"name\":\"a\",\"channel\":\"c\",\"data\":\"\xff\"}",
            "fault",
        ),
        (
            Route::BatchEvents,
            br#"{"batch":[{"name":"a","channel":"c","data":"x"},{"name":"b","channel":"d","data":"","info":"i"}]}"#,
            r#"a "x" 1 none none c;b "" 0 none i d;"#,
        ),
        (
            Route::BatchEvents,
            br#"{"x":1,"x":2,"batch":[{"name":"a","channel":"c","data":""}]}"#,
            r#"a "" 0 none none c;"#,
        ),
        (Route::BatchEvents, br#"{"batch":[]}"#, "fault"),
        (Route::BatchEvents, br#"{"batch":{}}"#, "fault"),
        (
            Route::BatchEvents,
            br#"{"batch":[{"name":"a","channel":"c","data":""},1]}"#,
            "fault",
        ),
        (
            Route::BatchEvents,
            br#"{"batch":[{"name":"a","channels":["c"],"data":""}]}"#,
            "fault",
        ),
        (
            Route::BatchEvents,
            br#"{"name":"a","channel":"c","data":""}"#,
            "fault",
        ),
        (Route::Channels, b"{", ""),
    ];
    for (route, body, told) in table {
        let read = words(alloc, &route, body)?;
        assert_eq!(rt; read.as_str(), told);
    }
    Ok(())
}
