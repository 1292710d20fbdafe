// A map with three places: entries come, are replaced and go, and the places that are set free are cleared.
ghost use Rattle.std.proofs.Common.{rules};

use flat_map::{FlatMap, Full, Key};
use std::process::Abort;
use std::test::Fail;

#[derive(Clone, Copy, Debug, PartialEq, Eq)]
struct Id(u8);

impl Key for Id {
    ghost exact = { Prim.search rules };
}

// Adds three entries, of which the first is then replaced; a fourth finds no place.
fn fill(rt: &impl Abort, map: &mut FlatMap<Id, u16>) {
    assert_eq!(rt; map.insert(Id(1), 10), Ok(None));
    assert_eq!(rt; map.insert(Id(2), 20), Ok(None));
    assert_eq!(rt; map.insert(Id(1), 11), Ok(Some(10)));
    assert_eq!(rt; map.insert(Id(3), 30), Ok(None));
    assert_eq!(rt; map.insert(Id(4), 40), Err(Full));
}

#[test]
fn entries_come_and_go(rt: HostRuntime) {
    let mut keys = [Id(9); 3];
    let mut values = [99u16; 3];
    {
        let mut map = FlatMap::new(&mut keys[..], &mut values[..], (Id(0), 0));
        assert!(rt; map.is_empty());
        fill(&rt, &mut map);
        assert!(rt; map.keys() == &[Id(1), Id(2), Id(3)][..] && map.values() == &[11, 20, 30][..]);
        assert_eq!(rt; map.remove(Id(2)), Some(20));
        assert_eq!(rt; map.remove(Id(2)), None);
        assert!(rt; map.contains_key(Id(1)) && !map.contains_key(Id(2)) && map.len() == 2);
    }
    assert!(rt; keys == [Id(1), Id(3), Id(0)] && values == [11, 30, 0]);
}

// A count beyond the places means all of them.
#[test]
fn counts(rt: HostRuntime) {
    let mut keys = [Id(1), Id(2), Id(7), Id(7)];
    let mut values = [10u16, 20, 77];
    let mut map = FlatMap::holding(&mut keys[..], &mut values[..], 9, (Id(0), 0));
    assert_eq!(rt; map.len(), 3);
    assert_eq!(rt; map.insert_unchecked(Id(1), 12), Err(Full));
    assert_eq!(rt; map.remove_entry(Id(7)), Some((Id(7), 77)));
    assert_eq!(rt; map.len(), 2);
}

// An entry that is added without a search stands twice, and the first counts.
#[test]
fn duplicates(rt: HostRuntime) -> Result<(), Fail> {
    let mut keys = [Id(0); 2];
    let mut values = [0u16; 2];
    let mut map = FlatMap::new(&mut keys[..], &mut values[..], (Id(0), 0));
    assert_eq!(rt; map.insert_unchecked(Id(1), 10), Ok(()));
    assert_eq!(rt; map.insert_unchecked(Id(1), 12), Ok(()));
    assert_eq!(rt; map.get(Id(1)).copied(), Some(10));
    assert_eq!(rt; map.remove(Id(1)), Some(10));
    let mut entries = map.iter();
    let (key, value) = entries.next().ok_or("no entry")?;
    assert!(rt; *key == Id(1) && *value == 12);
    assert!(rt; entries.next().is_none());
    Ok(())
}
