// Values and records on examples.
use crate::record::{Touched, append, holds, seal_of, text_of};
use crate::values::{Unlisted, pack};
use sink::block_file::BlockFile;
use sink::fault::SinkFault;
use std::alloc::Global;
use std::test::Fail;

// One empty block.
fn record(heap: Global) -> Result<BlockFile, Fail> {
    Ok(BlockFile::open(vec![in heap; 0; 512]?)?)
}

// A value that cannot be listed is named by its place, and to be no text comes first.
#[test]
fn unlisted(rt: HostRuntime) -> Result<(), Fail> {
    let heap = rt.alloc();
    let mut values = Vec::new(heap);
    values.push(String::from_str(heap, "par")?)?;
    assert!(rt; pack(heap, &values)?.as_slice() == &b"\0\x03par"[..]);
    values.push(String::from_str(heap, "café")?)?;
    assert_eq!(rt; pack(heap, &values).err(), Some(Unlisted::NoText(2)));
    Ok(())
}

// A block has place for 508 bytes; what does not fit is refused, and the text stays.
#[test]
fn a_record_fills(rt: HostRuntime) -> Result<(), Fail> {
    let heap = rt.alloc();
    let mut file = record(heap)?;
    assert_eq!(rt; append(&mut file, b"a"), Ok(Touched { from: 0, to: 1 }));
    assert_eq!(rt; append(&mut file, b""), Ok(Touched { from: 0, to: 0 }));
    assert!(rt; seal_of(&file, 0) == [0, 1, 0x62, 1] && seal_of(&file, 1) == [0; 4]);
    let long = vec![in heap; b'a'; 507]?;
    assert_eq!(rt; append(&mut file, &long), Ok(Touched { from: 0, to: 1 }));
    assert_eq!(rt;
        append(&mut file, b"b"),
        Err(SinkFault { wanted: 1, left: 0 })
    );
    let text = vec![in heap; b'a'; 508]?;
    assert!(rt; text_of(heap, &file)? == text);
    assert!(rt; holds(heap, &file, &text)? && !holds(heap, &file, &long)?);
    Ok(())
}
