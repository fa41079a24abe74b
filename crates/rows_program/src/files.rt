use ch_base::Text;
use ch_program::named_config;
use std::alloc::Global;
use std::test::Fail;

/// How many bytes the configuration of this path has; none where it can't be read.
fn config_len(rt: &HostRuntime, path: &str) -> Result<Option<usize>, Fail> {
    let alloc: Global = rt.alloc();
    let mut words = Vec::new(alloc);
    words.push(Text::of(alloc, "replay")?)?;
    words.push(Text::of(alloc, path)?)?;
    let given = named_config(rt, words.as_slice())?;
    Ok(given.bytes().map(|bytes| bytes.len()))
}

#[test]
fn what_is_no_short_file_gives_nothing(rt: HostRuntime) -> Result<(), Fail> {
    for path in ["", "no/such/file", "/dev", "/dev/zero"] {
        assert_eq!(rt; config_len(&rt, path)?, None, "{path}");
    }
    assert_eq!(rt; config_len(&rt, "/dev/null")?, Some(0));
    Ok(())
}
