// Packed lists: lengths around the bounds of one and of two bytes, and every way to cut a list short.
use std::test::Fail;
use util::packed::{Items, PackError, count_items, is_well_formed, items_are_text, push_item};
use util::text::is_text;

// Whether the list is the two length bytes and the item, and the reader gives the item and nothing more.
fn holds_one(list: &[u8], high: u8, low: u8, item: &[u8]) -> bool {
    let mut items = Items::new(list);
    let (Some(read), [a, b, rest @ ..]) = (items.next(), list) else {
        return false;
    };
    *a == high
        && *b == low
        && rest == item
        && read == item
        && items.next().is_none()
        && count_items(list) == 1
        && is_well_formed(list)
        && items_are_text(list)
}

#[test]
fn lengths(rt: HostRuntime) -> Result<(), Fail> {
    for (n, high, low) in [
        (0, 0x00, 0x00),
        (1, 0x00, 0x01),
        (255, 0x00, 0xff),
        (256, 0x01, 0x00),
        (65535, 0xff, 0xff),
    ] {
        let item = vec![in rt.alloc(); b'x'; n]?;
        let mut list = Vec::new(rt.alloc());
        push_item(&mut list, &item)?;
        assert!(rt; holds_one(&list, high, low, &item), "{n} bytes");
    }
    Ok(())
}

// An item that is too long is refused, and the list stays.
#[test]
fn too_long(rt: HostRuntime) -> Result<(), Fail> {
    let heap = rt.alloc();
    let item = vec![in heap; b'x'; 65536]?;
    let mut list = Vec::new(heap);
    assert_eq!(rt; push_item(&mut list, b"a"), Ok(()));
    assert_eq!(rt; push_item(&mut list, &item), Err(PackError::Long));
    assert!(rt; list.as_slice() == b"\x00\x01a".as_slice());
    Ok(())
}

// The items `ab`, none and `c`.
const LIST: &[u8] = b"\x00\x02ab\x00\x00\x00\x01c";

#[test]
fn three_items(rt: HostRuntime) -> Result<(), Fail> {
    let mut list = Vec::new(rt.alloc());
    push_item(&mut list, b"ab")?;
    push_item(&mut list, b"")?;
    push_item(&mut list, b"c")?;
    assert!(rt; list.as_slice() == LIST);
    Ok(())
}

// Of that list, which is nine bytes long, the cuts after 0, 4, 6 and 9 bytes are well formed.
#[test]
fn cuts(rt: HostRuntime) -> Result<(), Fail> {
    for (n, count, whole) in [
        (0, 0, true),
        (1, 0, false),
        (2, 0, false),
        (3, 0, false),
        (4, 1, true),
        (5, 1, false),
        (6, 2, true),
        (7, 2, false),
        (8, 2, false),
        (9, 3, true),
    ] {
        let part = LIST.get(..n).ok_or("short")?;
        assert!(rt;
            count_items(part) == count && is_well_formed(part) == whole,
            "{n} bytes"
        );
    }
    Ok(())
}

// A length byte above 7F is no matter; a byte of an item is. What follows a malformed place is not read.
#[test]
fn texts(rt: HostRuntime) -> Result<(), Fail> {
    assert!(rt; is_text(b"") && is_text(b"\x00\x7f") && !is_text(b"a\x80"));
    assert!(rt;
        items_are_text(b"\x00\x01a\x00\x02\x80") && !items_are_text(b"\x00\x01\x80\x00\x01a")
    );
    let long = vec![in rt.alloc(); b'x'; 200]?;
    let mut list = Vec::new(rt.alloc());
    push_item(&mut list, &long)?;
    assert!(rt; items_are_text(&list) && !is_text(&list));
    Ok(())
}
