use ch_base::Text;
use ch_config::{Address, Config, Target};
use ch_config_text::{ConfigFault, Field, read_config};
use std::alloc::Global;
use std::test::Fail;

/// The fields that have to be there, as the front of an object.
const APP: &str = r#"{"app_id":"1","key":"k","secret":"s""#;

/// The configuration with all fields that `whole_text` spells.
fn whole(alloc: Global) -> Result<Config, Fail> {
    Ok(Config {
        app_id: Text::of(alloc, "App1")?,
        key: Text::of(alloc, "278d425b")?,
        secret: Text::of(alloc, "ä b")?,
        client_events: false,
        chan_shards: 64,
        user_shards: 3,
        workers: 63,
        listen: Address {
            host: [10, 0, 255, 1],
            port: 80,
        },
        webhook: Some(Target {
            host: Text::of(alloc, "hooks.example-1.org")?,
            port: 8080,
            path: Text::of(alloc, "/in?a=b")?,
        }),
    })
}

const WHOLE_TEXT: &str =
    r#" {"app_id":"App1", "key":"278d425b", "secret":"ä b", "client_events":false, "chan_shards":64,
        "user_shards":3, "workers":63, "listen":"10.0.255.1:80", "webhook":"http://hooks.example-1.org:8080/in?a=b",
        "more":[null]} "#;

#[test]
fn configurations_are_read(rt: HostRuntime) -> Result<(), Fail> {
    let alloc: Global = rt.alloc();
    assert!(rt; read_config(alloc, WHOLE_TEXT.as_bytes())? == whole(alloc)?);
    let least = read_config(alloc, br#"{"secret":"s","key":"k","app_id":"1"}"#)?;
    let mut defaults = Config::built_in(alloc)?;
    defaults.chan_shards = 4;
    defaults.user_shards = 4;
    assert!(rt; least == defaults);
    let text = br#"{"app_id":"1","key":"k","secret":"s","chan_shards":1,"user_shards":1}"#;
    assert!(rt; read_config(alloc, text)? == Config::built_in(alloc)?);
    Ok(())
}

/// The fault of a text.
fn fault(alloc: Global, text: &[u8]) -> Option<ConfigFault> {
    read_config(alloc, text).err()
}

#[test]
fn texts_have_a_first_fault(rt: HostRuntime) -> Result<(), Fail> {
    let alloc: Global = rt.alloc();
    let rows: [(&[u8], ConfigFault); 17] = [
        (b"", ConfigFault::NotJson),
        (b"[]", ConfigFault::NotJson),
        (b"1", ConfigFault::NotJson),
        (b"null", ConfigFault::NotJson),
        (b"{", ConfigFault::NotJson),
        (b"{} {}", ConfigFault::NotJson),
        (br#"{"x":1e999}"#, ConfigFault::NotJson),
        (b"{'app_id':1}", ConfigFault::NotJson),
        (b"{\"app_id\":\"\xff\"}", ConfigFault::NotJson),
        (b"{}", ConfigFault::Missing(Field::AppId)),
        (br#"{"app_id":""}"#, ConfigFault::Bad(Field::AppId)),
        (br#"{"app_id":null}"#, ConfigFault::Bad(Field::AppId)),
        (
            br#"{"app_id":"1","app_id":"-"}"#,
            ConfigFault::Bad(Field::AppId),
        ),
        (
            br#"{"app_id":"-","app_id":"1"}"#,
            ConfigFault::Missing(Field::Key),
        ),
        (
            b"{\"app_id\":\"1\",\"key\":\"\xc3\xa4\",\"secret\":\"\"}",
            ConfigFault::Bad(Field::Key),
        ),
        (
            br#"{"app_id":"1","key":"k","listen":""}"#,
            ConfigFault::Missing(Field::Secret),
        ),
        (
            br#"{"app_id":"1","key":"k","secret":"","workers":0}"#,
            ConfigFault::Bad(Field::Secret),
        ),
    ];
    for (text, want) in rows {
        assert_eq!(rt; fault(alloc, text), Some(want));
    }
    Ok(())
}

/// The field at fault of an object with the fields that have to be there, and with these members.
fn bad_field(alloc: Global, members: &str) -> Result<Option<ConfigFault>, Fail> {
    let text = format!(in alloc; "{APP},{members}}}")?;
    Ok(fault(alloc, text.as_bytes()))
}

/// Members, and the first field at fault.
const VALUES: [(&str, Option<Field>); 50] = [
    (r#""client_events":1"#, Some(Field::ClientEvents)),
    (
        r#""chan_shards":0,"user_shards":0"#,
        Some(Field::ChanShards),
    ),
    (
        r#""chan_shards":1,"user_shards":65"#,
        Some(Field::UserShards),
    ),
    (r#""chan_shards":64,"user_shards":64,"workers":1"#, None),
    (r#""chan_shards":65"#, Some(Field::ChanShards)),
    (r#""user_shards":"4""#, Some(Field::UserShards)),
    (r#""user_shards":4.0"#, Some(Field::UserShards)),
    (r#""user_shards":4e0"#, Some(Field::UserShards)),
    (r#""workers":-0"#, Some(Field::Workers)),
    (r#""workers":64"#, Some(Field::Workers)),
    (
        r#""app_id":"xxxxxxxxxxxxxxxxxxxxxxxxxxxxxxxxxxxxxxxxxxxxxxxxxxxxxxxxxxxxxxxx","key":"xxxxxxxxxxxxxxxxxxxxxxxxxxxxxxxxxxxxxxxxxxxxxxxxxxxxxxxxxxxxxxxx","secret":"éééééééééééééééééééééééééééééééééééééééééééééééééééééééééééééééé""#,
        None,
    ),
    (
        r#""app_id":"xxxxxxxxxxxxxxxxxxxxxxxxxxxxxxxxxxxxxxxxxxxxxxxxxxxxxxxxxxxxxxxxx""#,
        Some(Field::AppId),
    ),
    (
        r#""key":"xxxxxxxxxxxxxxxxxxxxxxxxxxxxxxxxxxxxxxxxxxxxxxxxxxxxxxxxxxxxxxxxx""#,
        Some(Field::Key),
    ),
    (
        r#""secret":"éééééééééééééééééééééééééééééééééééééééééééééééééééééééééééééééés""#,
        Some(Field::Secret),
    ),
    (r#""listen":"0.0.0.0:1""#, None),
    (r#""listen":"255.255.255.255:65535""#, None),
    (r#""listen":"""#, Some(Field::Listen)),
    (r#""listen":"127.0.0.1""#, Some(Field::Listen)),
    (r#""listen":"127.0.0.1:""#, Some(Field::Listen)),
    (r#""listen":"127.0.0.1:0""#, Some(Field::Listen)),
    (r#""listen":"127.0.0.1:65536""#, Some(Field::Listen)),
    (r#""listen":"127.0.0.1:06001""#, Some(Field::Listen)),
    (r#""listen":"127.0.0.1:+1""#, Some(Field::Listen)),
    (r#""listen":"127.0.0.1:80:80""#, Some(Field::Listen)),
    (r#""listen":"127.0.0:80""#, Some(Field::Listen)),
    (r#""listen":"127.0.0.1.1:80""#, Some(Field::Listen)),
    (r#""listen":"127.0.0.256:80""#, Some(Field::Listen)),
    (r#""listen":"127.0.0.01:80""#, Some(Field::Listen)),
    (r#""listen":"127..0.1:80""#, Some(Field::Listen)),
    (r#""listen":"localhost:80""#, Some(Field::Listen)),
    (r#""listen":" 127.0.0.1:80""#, Some(Field::Listen)),
    (r#""webhook":"http://h:1/""#, None),
    (r#""webhook":"http://127.0.0.1:65535/a:b/c""#, None),
    (r#""webhook":"""#, Some(Field::Webhook)),
    (r#""webhook":"http://""#, Some(Field::Webhook)),
    (r#""webhook":"https://h:1/""#, Some(Field::Webhook)),
    (r#""webhook":"h:1/""#, Some(Field::Webhook)),
    (r#""webhook":"http://h/""#, Some(Field::Webhook)),
    (r#""webhook":"http://h:1""#, Some(Field::Webhook)),
    (r#""webhook":"http://:1/""#, Some(Field::Webhook)),
    (r#""webhook":"http://h:/""#, Some(Field::Webhook)),
    (r#""webhook":"http://h:0/""#, Some(Field::Webhook)),
    (r#""webhook":"http://h:080/""#, Some(Field::Webhook)),
    (r#""webhook":"http://h:65536/""#, Some(Field::Webhook)),
    (r#""webhook":"http://h_h:1/""#, Some(Field::Webhook)),
    (r#""webhook":"http://u@h:1/""#, Some(Field::Webhook)),
    (r#""webhook":"http://h:1/a b""#, Some(Field::Webhook)),
    (r#""webhook":"http://h:1/ä""#, Some(Field::Webhook)),
    (r#""webhook":"HTTP://h:1/""#, Some(Field::Webhook)),
    (r#""webhook":null"#, Some(Field::Webhook)),
];

#[test]
fn values_have_bounds(rt: HostRuntime) -> Result<(), Fail> {
    let alloc: Global = rt.alloc();
    for (members, field) in VALUES {
        let want = field.map(ConfigFault::Bad);
        assert_eq!(rt; bad_field(alloc, members)?, want, "{members}");
    }
    Ok(())
}
