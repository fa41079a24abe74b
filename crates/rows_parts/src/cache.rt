use ch_base::Text;
use ch_cache::Cache;
use std::alloc::Global;
use std::test::Fail;

#[test]
fn the_latest_event_of_each_channel_is_kept_until_it_ends(rt: HostRuntime) -> Result<(), Fail> {
    let alloc: Global = rt.alloc();
    let mut cache = Cache::new(alloc);
    let rows = [
        ("cache-a", "e", "\"1\""),
        ("cache-b", "e", "\"2\""),
        ("cache-a", "f", "\"3\""),
    ];
    for (channel, event, body) in rows {
        let channel = Text::of(alloc, channel)?;
        let event = Text::of(alloc, event)?;
        let body = Text::of(alloc, body)?;
        cache.put(&channel, &event, &body, 1_000)?;
    }
    cache.sweep(1_800_999);
    let kept = [
        ("cache-a", 1_800_999, Some(("f", "\"3\""))),
        ("cache-b", 1_800_999, Some(("e", "\"2\""))),
        ("cache-c", 1_800_999, None),
        ("cache-a", 1_801_000, None),
    ];
    for (channel, now, latest) in kept {
        let channel = Text::of(alloc, channel)?;
        let found = cache.latest(&channel, now);
        assert_eq!(rt; found.map(|c| c.event.as_str()), latest.map(|l| l.0));
        assert_eq!(rt; found.map(|c| c.body.as_str()), latest.map(|l| l.1));
        assert_eq!(rt; found.map(|c| c.ends), latest.map(|_| 1_801_000_u64));
    }
    Ok(())
}
