//! The configuration that a server is started with.
use ch_base::{Memory, Text};
use ch_io::MemSink;
use ch_serve::serve_config;
use std::alloc::Global;
use std::test::Fail;

/// The words of a command line, as texts.
fn texts(alloc: Global, words: &[&str]) -> Result<Vec<Text>, Memory> {
    let mut all = Vec::new(alloc);
    for word in words {
        all.push(Text::of(alloc, word)?)?;
    }
    Ok(all)
}

/// Whether these words and this configuration end with the status, 0 where it is read, and print this.
fn ends_with(
    alloc: Global,
    words: &[&str],
    config: Option<&str>,
    status: u8,
    printed: &str,
) -> Result<bool, Memory> {
    let words = texts(alloc, words)?;
    let mut sink = MemSink::new(alloc, Vec::new(alloc), Vec::new(alloc));
    let bytes = match config {
        Some(text) => Some(text.as_bytes()),
        None => None,
    };
    let ended = match serve_config(alloc, words.as_slice(), bytes, &mut sink) {
        Ok(config) => {
            drop(config);
            0
        }
        Err(status) => status,
    };
    Ok(ended == status && sink.as_slice() == printed.as_bytes())
}

#[test]
fn a_server_is_configured(rt: HostRuntime) -> Result<(), Fail> {
    let alloc = rt.alloc();
    let good = r#"{"app_id":"1","key":"k","secret":"s"}"#;
    let usage = "usage: channelsd serve <config>\n";
    let missing = "config missing app_id\n";
    assert!(rt; ends_with(alloc, &["serve", "a"], Some(good), 0, "")?);
    assert!(rt; ends_with(alloc, &["serve", "a"], Some("{}"), 3, missing)?);
    assert!(rt; ends_with(alloc, &["serve", "a"], Some("{"), 3, "config not json\n")?);
    assert!(rt; ends_with(alloc, &["serve", "a"], None, 3, "config unread\n")?);
    assert!(rt; ends_with(alloc, &["serve"], Some(good), 2, usage)?);
    assert!(rt; ends_with(alloc, &["serve", "a", "b"], Some(good), 2, usage)?);
    assert!(rt; ends_with(alloc, &["replay", "a"], Some(good), 2, usage)?);
    Ok(())
}
