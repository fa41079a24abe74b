use ch_base::{Items, Member, Memory, Text};
use std::alloc::{AllocError, Global};
use std::cmp::Ordering;
use std::test::Fail;

#[test]
fn texts_are_made_and_changed(rt: HostRuntime) -> Result<(), Fail> {
    let alloc: Global = rt.alloc();
    let mut text = Text::of(alloc, "presence-")?;
    assert!(rt; Text::new(alloc).is_empty());
    text.push_str("r")?;
    let copy = text.copy(alloc)?;
    assert_eq!(rt; copy.as_str(), "presence-r");
    assert_eq!(rt; copy.len(), 10);
    text.truncate(0);
    assert_eq!(rt; text.as_str(), "");
    let string = String::from_str(alloc, "a")?;
    assert_eq!(rt; Text::from_string(string).as_str(), "a");
    Ok(())
}

#[test]
fn texts_stand_in_the_order_of_their_bytes(rt: HostRuntime) -> Result<(), Fail> {
    let alloc: Global = rt.alloc();
    let rows = [("a", "b"), ("a", "ab"), ("Z", "a"), ("", "a"), ("z", "é")];
    for (first, second) in rows {
        let first = Text::of(alloc, first)?;
        let second = Text::of(alloc, second)?;
        assert!(rt; first < second);
        assert!(rt; first != second);
        assert!(rt; second.cmp(&first) == Ordering::Greater);
    }
    let one = Text::of(alloc, "a")?;
    let other = Text::of(alloc, "a")?;
    assert!(rt; one == other);
    Ok(())
}

#[test]
fn members_are_copied(rt: HostRuntime) -> Result<(), Fail> {
    let alloc: Global = rt.alloc();
    let member = Member {
        user_id: Text::of(alloc, "u")?,
        info: Text::of(alloc, "1.50")?,
    };
    let copy = member.copy(alloc)?;
    assert_eq!(rt; copy.user_id.as_str(), "u");
    assert_eq!(rt; copy.info.as_str(), "1.50");
    Ok(())
}

#[test]
fn lists_keep_their_order(rt: HostRuntime) -> Result<(), Fail> {
    let alloc: Global = rt.alloc();
    let mut numbers: Items<u64> = Items::new(alloc);
    assert!(rt; numbers.is_empty());
    numbers.push(7)?;
    numbers.push(5)?;
    assert_eq!(rt; numbers.len(), 2);
    assert_eq!(rt; numbers.get(1).copied(), Some(5));
    assert_eq!(rt; numbers.get(2).copied(), None);
    let same = Items::from_vec(numbers.as_slice().to_vec(alloc)?);
    assert!(rt; same == numbers);
    let numbers = numbers.into_vec();
    assert_eq!(rt; numbers.as_slice(), [7_u64, 5].as_slice());
    Ok(())
}

#[test]
fn a_refused_allocation_is_want_of_memory(rt: HostRuntime) -> Result<(), Fail> {
    assert!(rt; Memory::from(AllocError) == Memory);
    let told = format!(in rt.alloc(); "{}", Memory)?;
    assert_eq!(rt; told.as_str(), "out of memory");
    Ok(())
}
