// Sinks on examples. What is expected follows from the rules: the check of a block is the sum of its first 510 bytes and
// the sum of its running values, both modulo 255.
use crate::block_file::BlockFile;
use crate::byte_area::ByteArea;
use crate::fault::{Refusal, SinkFault, Unopened};
use crate::{Sink, room};
use std::process::Abort;
use std::test::Fail;

// Two blocks of zeros but for some bytes, each with its place.
fn blocks(rt: &impl AllocGlobal, bytes: &[(usize, u8)]) -> Result<Vec<u8>, Fail> {
    let mut all = vec![in rt.alloc(); 0; 1024]?;
    for (at, byte) in bytes {
        if let Some(place) = all.get_mut(*at) {
            *place = *byte;
        }
    }
    Ok(all)
}

// Checks why bytes were not opened, and that they come back as they were; a failure tells what was wrong with them.
fn came_back<T: Drop>(
    rt: &impl Abort,
    opened: Result<T, Unopened>,
    same: &Vec<u8>,
    why: Refusal,
    wrong: &str,
) -> Result<(), Fail> {
    match opened {
        Ok(_) => Err(Fail::new("opened")),
        Err(unopened) => {
            assert_eq!(rt; unopened.refusal, why, "{wrong}, {} bytes", same.len());
            assert!(rt; unopened.bytes == *same, "{wrong}, {} bytes", same.len());
            Ok(())
        }
    }
}

// Checks that the bytes are no block file.
fn unopened(rt: &impl Abort, bytes: Vec<u8>, why: Refusal, wrong: &str) -> Result<(), Fail> {
    let same = bytes.clone()?;
    came_back(rt, BlockFile::open(bytes), &same, why, wrong)
}

// Checks what the file holds.
fn holds(rt: &(impl Abort + AllocGlobal), file: &BlockFile, text: &[u8]) -> Result<(), Fail> {
    assert_eq!(rt; file.len(), text.len());
    let mut out = vec![in rt.alloc(); 0; text.len()]?;
    assert_eq!(rt; file.read(0, out.as_mut_slice()), text.len());
    assert!(rt; out.as_slice() == text);
    Ok(())
}

// Puts `held` bytes `a` into two blocks, at once and byte by byte: `left` are left then, and the blocks end in `first` and
// `second`, each a count and a check. Opened again, they hold the text.
fn stands(
    rt: &(impl Abort + AllocGlobal),
    held: usize,
    left: u64,
    first: &[u8],
    second: &[u8],
) -> Result<(), Fail> {
    let text = vec![in rt.alloc(); b'a'; held]?;
    let mut file = BlockFile::open(blocks(rt, &[])?)?;
    file.put(text.as_slice())?;
    let mut slow = BlockFile::open(blocks(rt, &[])?)?;
    for byte in text.iter() {
        slow.put(&[*byte])?;
    }
    assert_eq!(rt; file.bytes_left(), left);
    holds(rt, &file, text.as_slice())?;
    let bytes = file.into_bytes();
    assert!(rt; bytes == slow.into_bytes());
    assert_eq!(rt; bytes.get(508..512), Some(first));
    assert_eq!(rt; bytes.get(1020..1024), Some(second));
    holds(rt, &BlockFile::open(bytes)?, text.as_slice())
}

#[test]
fn counts_and_checks(rt: HostRuntime) -> Result<(), Fail> {
    stands(&rt, 0, 1016, &[0, 0, 0, 0], &[0, 0, 0, 0])?;
    stands(&rt, 1, 1015, &[0, 1, 98, 1], &[0, 0, 0, 0])?;
    stands(&rt, 507, 509, &[1, 251, 216, 181], &[0, 0, 0, 0])?;
    stands(&rt, 508, 508, &[1, 252, 59, 218], &[0, 0, 0, 0])?;
    stands(&rt, 509, 507, &[1, 252, 59, 218], &[0, 1, 98, 1])?;
    stands(&rt, 1016, 0, &[1, 252, 59, 218], &[1, 252, 59, 218])
}

#[test]
fn no_more_than_is_left(rt: HostRuntime) -> Result<(), Fail> {
    let mut file = BlockFile::open(blocks(&rt, &[])?)?;
    file.put(vec![in rt.alloc(); b'a'; 1014]?.as_slice())?;
    let before = file.bytes().to_vec(rt.alloc())?;
    assert_eq!(rt; file.put(b"abc"), Err(SinkFault { wanted: 3, left: 2 }));
    assert!(rt; file.bytes() == before.as_slice());
    file.put(b"ab")?;
    assert_eq!(rt; file.put(b"c"), Err(SinkFault { wanted: 1, left: 0 }));
    assert_eq!(rt; file.put(b""), Ok(()));
    assert_eq!(rt; file.len(), 1016);
    Ok(())
}

#[test]
fn reads_a_part(rt: HostRuntime) -> Result<(), Fail> {
    let mut file = BlockFile::open(blocks(&rt, &[])?)?;
    file.put(vec![in rt.alloc(); b'a'; 506]?.as_slice())?;
    file.put(b"bcde")?;
    let mut out = [b'-'; 6];
    assert_eq!(rt; file.read(505, &mut out), 5);
    assert_eq!(rt; &out, b"abcde-");
    assert_eq!(rt; file.read(510, &mut out), 0);
    assert_eq!(rt; file.read(usize::MAX, &mut out), 0);
    assert_eq!(rt; &out, b"abcde-");
    assert_eq!(rt; file.read(507, &mut out[0..2]), 2);
    assert_eq!(rt; &out, b"cdcde-");
    Ok(())
}

#[test]
fn other_sizes(rt: HostRuntime) -> Result<(), Fail> {
    for size in [0, 511, 513, 1_049_088] {
        let bytes = vec![in rt.alloc(); 0; size]?;
        unopened(&rt, bytes, Refusal::Size, "the size")?;
    }
    Ok(())
}

#[test]
fn zeros_are_empty(rt: HostRuntime) -> Result<(), Fail> {
    let one = BlockFile::open(vec![in rt.alloc(); 0; 512]?)?;
    assert_eq!(rt; (one.len(), one.blocks(), one.bytes_left()), (0, 1, 508));
    let most = BlockFile::open(vec![in rt.alloc(); 0; 1_048_576]?)?;
    assert_eq!(rt;
        (most.len(), most.blocks(), most.bytes_left()),
        (0, 2048, 1_040_384)
    );
    Ok(())
}

#[test]
fn damaged(rt: HostRuntime) -> Result<(), Fail> {
    // The block that holds `a` stands first, or after an empty one.
    let first = [(0, 97), (509, 1), (510, 98), (511, 1)];
    let second = [(512, 97), (1021, 1), (1022, 98), (1023, 1)];
    holds(&rt, &BlockFile::open(blocks(&rt, &first)?)?, b"a")?;
    unopened(&rt, blocks(&rt, &second)?, Refusal::Damaged, "a gap")?;
    unopened(&rt, blocks(&rt, &[(510, 1)])?, Refusal::Damaged, "the sum")?;
    unopened(
        &rt,
        blocks(&rt, &[(1023, 1)])?,
        Refusal::Damaged,
        "the running sum",
    )?;
    // A count of 509, and a byte that no count covers: their checks are right.
    let count = [(508, 1), (509, 253), (510, 254), (511, 0)];
    unopened(&rt, blocks(&rt, &count)?, Refusal::Damaged, "the count")?;
    let unused = [(507, 1), (510, 1), (511, 3)];
    unopened(
        &rt,
        blocks(&rt, &unused)?,
        Refusal::Damaged,
        "an unused byte",
    )
}

#[test]
fn area_sizes(rt: HostRuntime) -> Result<(), Fail> {
    assert_eq!(rt; ByteArea::open(vec![in rt.alloc(); 9; 0]?)?.bytes_left(), 0);
    assert_eq!(rt;
        ByteArea::open(vec![in rt.alloc(); 9; 1_048_576]?)?.bytes_left(),
        1_048_576
    );
    let more = vec![in rt.alloc(); 9; 1_048_577]?;
    let same = more.clone()?;
    came_back(&rt, ByteArea::open(more), &same, Refusal::Size, "the size")
}

#[test]
fn area_takes(rt: HostRuntime) -> Result<(), Fail> {
    let mut area = ByteArea::open(vec![in rt.alloc(); 9; 5]?)?;
    area.put(b"ab")?;
    assert_eq!(rt; area.put(b"cdef"), Err(SinkFault { wanted: 4, left: 3 }));
    assert_eq!(rt; area.held_bytes(), b"ab".as_slice());
    assert_eq!(rt; area.bytes_left(), 3);
    area.put(b"c")?;
    assert_eq!(rt; area.into_bytes().as_slice(), b"abc\x09\x09".as_slice());
    Ok(())
}

#[test]
fn area_full(rt: HostRuntime) -> Result<(), Fail> {
    let mut area = ByteArea::open(vec![in rt.alloc(); 9; 3]?)?;
    assert_eq!(rt; room(&area, Some(3)), Ok(()));
    assert_eq!(rt; room(&area, Some(4)), Err(SinkFault { wanted: 4, left: 3 }));
    assert_eq!(rt;
        room(&area, None),
        Err(SinkFault {
            wanted: u64::MAX,
            left: 3,
        })
    );
    area.put(b"abc")?;
    assert_eq!(rt; area.put(b"d"), Err(SinkFault { wanted: 1, left: 0 }));
    assert_eq!(rt; area.into_bytes().as_slice(), b"abc".as_slice());
    Ok(())
}

#[test]
fn numbers(rt: HostRuntime) {
    let fault = SinkFault { wanted: 1, left: 0 };
    assert_eq!(rt; Refusal::from(fault), Refusal::Room(fault));
    assert_eq!(rt; Refusal::Size.number(), 1);
    assert_eq!(rt; Refusal::Room(fault).number(), 7);
    assert_eq!(rt; Refusal::Damaged.number(), 8);
}
