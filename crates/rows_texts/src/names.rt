use ch_names::{
    Kind, NameFault, SocketId, event_name, kind, shard_of, socket_number, user_channel, user_id,
};
use std::str::from_utf8;
use std::test::Fail;

#[test]
fn a_name_has_a_kind_or_a_first_fault(rt: HostRuntime) -> Result<(), Fail> {
    let rows = [
        ("a", Ok(Kind::Public)),
        ("private", Ok(Kind::Public)),
        ("private-", Ok(Kind::Private)),
        ("private-presence-a", Ok(Kind::Private)),
        ("presence-a", Ok(Kind::Presence)),
        ("private-encrypted-a", Ok(Kind::Encrypted)),
        ("cache-a", Ok(Kind::Cache)),
        ("private-cache-a", Ok(Kind::PrivateCache)),
        ("presence-cache-a", Ok(Kind::PresenceCache)),
        ("private-encrypted-cache-a", Ok(Kind::EncryptedCache)),
        (from_utf8(&[b'a'; 200])?, Ok(Kind::Public)),
        (from_utf8(&[b' '; 201])?, Err(NameFault::Long(201))),
        ("", Err(NameFault::Empty)),
        ("a b", Err(NameFault::Byte(1))),
        ("ab#c d", Err(NameFault::Byte(2))),
        ("\u{e9}", Err(NameFault::Byte(0))),
    ];
    for (name, expected) in rows {
        assert!(rt; kind(name) == expected, "at {name}");
    }
    Ok(())
}

#[test]
fn kinds_are_as_in_the_table(rt: HostRuntime) {
    let rows = [
        (Kind::Public, [false, false, false, false]),
        (Kind::Private, [true, false, false, true]),
        (Kind::Presence, [true, true, false, true]),
        (Kind::Encrypted, [true, false, false, false]),
        (Kind::Cache, [false, false, true, false]),
        (Kind::PrivateCache, [true, false, true, true]),
        (Kind::PresenceCache, [true, true, true, true]),
        (Kind::EncryptedCache, [true, false, true, false]),
    ];
    for (kind, [needs_auth, presence, cached, may_say]) in rows {
        assert!(rt; kind.needs_auth() == needs_auth);
        assert!(rt; kind.presence() == presence);
        assert!(rt; kind.cached() == cached);
        assert!(rt; kind.may_say() == may_say);
    }
}

#[test]
fn events_and_users_have_lengths(rt: HostRuntime) -> Result<(), Fail> {
    let blanks = [b' '; 201];
    assert!(rt; event_name(from_utf8(&blanks[..200])?) == Ok(()));
    assert!(rt; event_name(from_utf8(&blanks)?) == Err(NameFault::Long(201)));
    assert!(rt; event_name("") == Err(NameFault::Empty));
    assert!(rt; user_id(from_utf8(&blanks[..128])?) == Ok(()));
    assert!(rt; user_id(from_utf8(&blanks[..129])?) == Err(NameFault::Long(129)));
    assert!(rt; user_id("") == Err(NameFault::Empty));
    assert!(rt; user_channel("#server-to-user-u").is_some_and(|id| id == "u"));
    assert!(rt; user_channel("#server-to-user-").is_none());
    assert!(rt; user_channel("server-to-user-u").is_none());
    Ok(())
}

#[test]
fn socket_ids_are_two_numbers(rt: HostRuntime) {
    let rows = [
        ("1.2", SocketId::Here(2)),
        (
            "1.9999999999999999999",
            SocketId::Here(9_999_999_999_999_999_999),
        ),
        ("1.02", SocketId::Stranger),
        ("01.2", SocketId::Stranger),
        ("2.2", SocketId::Stranger),
        ("", SocketId::Bad),
        ("1", SocketId::Bad),
        ("1.", SocketId::Bad),
        (".2", SocketId::Bad),
        ("1.+2", SocketId::Bad),
        ("1.2.3", SocketId::Bad),
        ("1.10000000000000000000", SocketId::Bad),
    ];
    for (id, expected) in rows {
        assert!(rt; socket_number(id, 1) == expected, "at {id}");
    }
}

#[test]
fn names_have_their_places(rt: HostRuntime) {
    for (name, shards, expected) in [("a", 4, 0), ("foobar", 64, 40), ("drill-0", 2, 1)] {
        assert!(rt; shard_of(name, shards) == expected, "at {name}");
    }
}
