use ch_base::{Member, Memory, Text};
use ch_presence::Presence;
use std::alloc::Global;
use std::test::Fail;

fn member(alloc: Global, user_id: &str, info: &str) -> Result<Member, Memory> {
    Ok(Member {
        user_id: Text::of(alloc, user_id)?,
        info: Text::of(alloc, info)?,
    })
}

/// Whether the user is new; none where the socket is on the channel already.
fn join(
    presence: &mut Presence,
    channel: &Text,
    socket: u64,
    member: &Member,
) -> Result<Option<bool>, Memory> {
    if presence.is_present(channel, socket) {
        return Ok(None);
    }
    Ok(Some(presence.join(channel, socket, member)?))
}

fn row<'a>(presence: &'a Presence, channel: &Text, i: u64) -> Option<&'a Member> {
    if i < presence.count(channel) {
        Some(presence.row(channel, i))
    } else {
        None
    }
}

#[test]
fn a_user_has_the_info_of_its_oldest_socket(rt: HostRuntime) -> Result<(), Fail> {
    let alloc: Global = rt.alloc();
    let room = Text::of(alloc, "presence-r")?;
    let mut presence = Presence::new(alloc);
    let one = join(&mut presence, &room, 1, &member(alloc, "u", "1")?)?;
    let two = join(&mut presence, &room, 2, &member(alloc, "u", "2")?)?;
    assert_eq!(rt; (one, two), (Some(true), Some(false)));
    for (socket, info) in [(7, "1"), (1, "2")] {
        presence.lost(socket);
        let user = row(&presence, &room, 0);
        assert_eq!(rt; user.map(|m| m.info.as_str()), Some(info));
    }
    Ok(())
}

#[test]
fn users_ascend_by_their_ids(rt: HostRuntime) -> Result<(), Fail> {
    let alloc: Global = rt.alloc();
    let room = Text::of(alloc, "presence-r")?;
    let mut presence = Presence::new(alloc);
    for (socket, id) in [(1, "v"), (2, "u10"), (3, "u2"), (4, "u10"), (5, "V")] {
        let is_new = join(&mut presence, &room, socket, &member(alloc, id, "null")?)?;
        assert_eq!(rt; is_new, Some(socket != 4));
    }
    for (place, id) in [(0, "V"), (1, "u10"), (2, "u2"), (3, "v")] {
        let user = row(&presence, &room, place);
        assert_eq!(rt; user.map(|m| m.user_id.as_str()), Some(id));
    }
    Ok(())
}
