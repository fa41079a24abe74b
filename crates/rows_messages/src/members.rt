//! What is read of the members of an object, with ample memory.
ghost use Rattle.ch_members.specs.Readings.{IsObjectDoc};

use ch_base::{Memory, Text, TextList};
use ch_json::Doc;
use ch_members::{
    array_member, first_places, is_absent, object_member, object_of, optional_member,
    spelled_member, string_member, strings_of,
};
use std::alloc::Global;
use std::test::Fail;

fn or_none(text: &Option<Text>) -> &str {
    match text {
        Some(text) => text.as_str(),
        None => "none",
    }
}

fn or_left_out(text: &Option<Option<Text>>) -> &str {
    match text {
        Some(text) => or_none(text),
        None => "bad",
    }
}

/// The members `name`, `auth` and `number`, and whether there is no `other`.
fn plain_words(alloc: Global, text: &str, doc: &Doc) -> Result<String, Fail>
    requires { IsObjectDoc text.now doc.now }
{
    let top = doc.top();
    let name = string_member(alloc, text, doc, top, "name")?;
    let auth = optional_member(alloc, text, doc, top, "auth")?;
    let number = spelled_member(alloc, text, doc, top, "number")?;
    let absent = is_absent(text, doc, top, "other");
    let name = or_none(&name);
    let auth = or_left_out(&auth);
    let number = or_none(&number);
    Ok(format!(in alloc; "{name}|{auth}|{number}|{absent}")?)
}

/// The name in the member `inner`.
fn inner_name(alloc: Global, text: &str, doc: &Doc) -> Result<Option<Text>, Memory>
    requires { IsObjectDoc text.now doc.now }
{
    let top = doc.top();
    match object_member(text, doc, top, "inner") {
        Some(inner) => string_member(alloc, text, doc, inner, "name"),
        None => Ok(None),
    }
}

/// The strings of the member `list`, each at its first place alone.
fn list_strings(alloc: Global, text: &str, doc: &Doc) -> Result<TextList, Memory>
    requires { IsObjectDoc text.now doc.now }
{
    let top = doc.top();
    let Some(array) = array_member(text, doc, top, "list") else {
        return Ok(TextList::new(alloc));
    };
    let Some(strings) = strings_of(alloc, text, doc, array)? else {
        return Ok(TextList::new(alloc));
    };
    first_places(alloc, strings.as_slice())
}

fn joined(alloc: Global, texts: &[Text]) -> Result<String, Fail> {
    let mut all = String::new(alloc);
    for text in texts {
        all.push_str(text.as_str())?;
        all.push(';')?;
    }
    Ok(all)
}

/// What is read of the text, in words.
fn words(alloc: Global, text: &str) -> Result<String, Fail> {
    let Some(doc) = object_of(alloc, text)? else {
        return Ok(String::from_str(alloc, "no object")?);
    };
    let plain = plain_words(alloc, text, &doc)?;
    let name = inner_name(alloc, text, &doc)?;
    let list = list_strings(alloc, text, &doc)?;
    let name = or_none(&name);
    let list = joined(alloc, list.as_slice())?;
    Ok(format!(in alloc; "{plain}|{name}|{list}")?)
}

#[test]
fn members_are_read(rt: HostRuntime) -> Result<(), Fail> {
    let alloc: Global = rt.alloc();
    let table = [
        (
            r#"{"name":"a\u0062","auth":"k","number":1.0e2,"inner":{"name":"c"},"list":["x","y","x"]}"#,
            "ab|k|1.0e2|true|c|x;y;",
        ),
        (
            r#"{"n\u0061me":"a","auth":null,"other":null,"inner":["name"],"list":["x",1]}"#,
            "a|none|null|false|none|",
        ),
        (
            r#"{"name":1,"auth":2,"number":[],"inner":{},"list":{}}"#,
            "none|bad|[]|true|none|",
        ),
        (
            r#"{"name":"\"\\\/\b\f\n\r\t","number": 1E+0 ,"nam":1,"names":2}"#,
            "\"\\/\u{8}\u{c}\n\r\t|none|1E+0|true|none|",
        ),
        (
            r#"{"name":"\u00e9\u00E9éx\uD83D\ude00y","number":[ ] }"#,
            "\u{e9}\u{e9}\u{e9}x\u{1f600}y|none|[ ]|true|none|",
        ),
        (
            r#"{"name":"\u0000\ud7ff\ue000\uffff\udbff\udfff\ud800\udc00","\ud83d\ude00":1}"#,
            "\u{0}\u{d7ff}\u{e000}\u{ffff}\u{10ffff}\u{10000}|none|null|true|none|",
        ),
        (r#"{"name":"a","n\u0061me":"b"}"#, "no object"),
        (r#"["name"]"#, "no object"),
        (r#"{"name":"a""#, "no object"),
    ];
    for (text, told) in table {
        let read = words(alloc, text)?;
        assert_eq!(rt; read.as_str(), told);
    }
    Ok(())
}
