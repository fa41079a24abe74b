use ch_script::read_line;
use ch_transcript::{Command, Line};
use std::alloc::Global;
use std::test::Fail;

/// What a line is, in words: the last part of a command that has a text, which goes to the line's end.
fn told(alloc: Global, line: &[u8]) -> Result<String, Fail> {
    let words = match read_line(alloc, line)? {
        Line::Skipped => String::from_str(alloc, "skipped")?,
        Line::Bad => String::from_str(alloc, "bad")?,
        Line::Timed { command, .. } => String::from_str(alloc, last_part(&command))?,
    };
    Ok(words)
}

fn last_part(command: &Command) -> &str {
    match command {
        Command::Say { text, .. } => text.as_str(),
        Command::Publish { body, .. } => body.as_str(),
        _ => "good",
    }
}

#[test]
fn lines_are_read(rt: HostRuntime) -> Result<(), Fail> {
    let table: [(&[u8], &str); 26] = [
        (b"", "skipped"),
        (b"# 1 x", "skipped"),
        (b"# \xff", "bad"),
        (b"0 open ", "good"),
        (b"0 signin 1 ", "good"),
        (b"0 join 1 presence-r {}", "good"),
        (b"7 say 2  a b ", " a b "),
        (b"1 except 3 a e\tf \"x y\"", "\"x y\""),
        (b"x", "bad"),
        (b"0", "bad"),
        (b"00 open a", "bad"),
        (b"0 open", "bad"),
        (b"0 open a b", "bad"),
        (b"1 say 1", "bad"),
        (b"0 say x y", "bad"),
        (b"0 join 1 a!", "bad"),
        (b"0 lose 01", "bad"),
        (b"0 lose", "bad"),
        (b"0 publish a e", "bad"),
        (b"0 publish a!  \"x\"", "bad"),
        (b"0 publish a  \"x\"", "bad"),
        (b"0 except a e \"x\"", "bad"),
        (b"1000000000000001 open a", "bad"),
        (b"0 signin 1", "bad"),
        (b"0 tail", "bad"),
        (b"0 open a\r b", "bad"),
    ];
    for (line, want) in table {
        let got = told(rt.alloc(), line)?;
        assert_eq!(rt; got.as_str(), want);
    }
    Ok(())
}
