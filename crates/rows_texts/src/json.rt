//! The texts that are read, over tables.
use ch_base::Text;
use ch_json::{JsonError, escape_into, quoted, read};
use std::alloc::Global;
use std::test::Fail;

/// The place of the fault, or nothing.
fn fault(alloc: Global, text: &str) -> Result<String, Fail> {
    let said = match read(alloc, text) {
        Ok(_) => format!(in alloc; "")?,
        Err(JsonError::Syntax(at)) => format!(in alloc; "syntax {at}")?,
        Err(JsonError::Deep(at)) => format!(in alloc; "deep {at}")?,
        Err(JsonError::Memory) => format!(in alloc; "memory")?,
    };
    Ok(said)
}

/// So many opening brackets, the middle, and so many closing ones.
fn nested(alloc: Global, open: u32, middle: &str, close: u32) -> Result<String, Fail> {
    let mut text = String::new(alloc);
    for _ in 0..open {
        text.push_str("[")?;
    }
    text.push_str(middle)?;
    for _ in 0..close {
        text.push_str("]")?;
    }
    Ok(text)
}

#[test]
fn texts_are_read_or_have_a_first_fault(rt: HostRuntime) -> Result<(), Fail> {
    let table = [
        (0, "", 0, "syntax 0"),
        (0, " \n\t\r", 0, "syntax 4"),
        (0, "[1,]", 0, "syntax 3"),
        (0, "{\"a\":1,}", 0, "syntax 7"),
        (0, "{\"a\" 1}", 0, "syntax 5"),
        (0, "{1:1}", 0, "syntax 1"),
        (0, "01", 0, "syntax 1"),
        (0, "-", 0, "syntax 1"),
        (0, "+1", 0, "syntax 0"),
        (0, "1.", 0, "syntax 2"),
        (0, ".5", 0, "syntax 0"),
        (0, "1e", 0, "syntax 2"),
        (0, "1E+0", 0, ""),
        (0, " -0.50e-1 ", 0, ""),
        (0, "nul", 0, "syntax 3"),
        (0, "True", 0, "syntax 0"),
        (0, "\"a\u{1}\"", 0, "syntax 2"),
        (0, "\"\u{7f}\u{e9}\"", 0, ""),
        (0, "\"\\x\"", 0, "syntax 2"),
        (0, "\"\\u00g0\"", 0, "syntax 5"),
        (0, "\"\\ud83d\\uDE00\"", 0, ""),
        (0, "\"\\uDC00\"", 0, "syntax 4"),
        (0, "\"\\ud83d\"", 0, "syntax 7"),
        (0, "\"\\ud83d\\u0041\"", 0, "syntax 9"),
        (0, "\"a", 0, "syntax 2"),
        (0, "[1] 2", 0, "syntax 4"),
        (0, "[1]]", 0, "syntax 3"),
        (64, "", 64, ""),
        (64, "", 0, "syntax 64"),
        (65, "", 65, "deep 64"),
    ];
    for (open, middle, close, want) in table {
        let text = nested(rt.alloc(), open, middle, close)?;
        let got = fault(rt.alloc(), text.as_str())?;
        assert_eq!(rt; got.as_str(), want, "in {text}");
    }
    Ok(())
}

#[test]
fn escapes(rt: HostRuntime) -> Result<(), Fail> {
    let table = [
        ("", ""),
        ("a/\u{7f}\u{e9}", "a/\u{7f}\u{e9}"),
        ("\"\\", "\\\"\\\\"),
        ("\u{8}\t\n\u{c}\r", "\\b\\t\\n\\f\\r"),
        ("\u{0}\u{b}\u{1f}x", "\\u0000\\u000b\\u001fx"),
    ];
    for (text, want) in table {
        let mut out = Text::new(rt.alloc());
        escape_into(&mut out, text)?;
        assert_eq!(rt; out.as_str(), want, "of {text}");
    }
    Ok(())
}

#[test]
fn quotes(rt: HostRuntime) -> Result<(), Fail> {
    let string = quoted(rt.alloc(), "a\"b\n")?;
    assert_eq!(rt; string.as_str(), "\"a\\\"b\\n\"");
    Ok(())
}
