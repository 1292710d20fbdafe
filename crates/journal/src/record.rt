// Lines in a record: a block file whose text they are.
ghost use Rattle.std.specs.Prelude.{◌≡◌, length, IfOk, Decides};
ghost use Rattle.journal.specs.Touching.{Touches, seal_at};
ghost use Rattle.sink.specs.File.{file_held, file_left, Kept};
ghost use Rattle.sink.specs.Outcome.{Adds};

use sink::Sink;
use sink::block_file::BlockFile;
use sink::fault::SinkFault;
use std::alloc::{AllocError, Global};

// The blocks from `from` up to `to`; no `Range`, which cannot be copied.
#[derive(Clone, Copy, Debug, PartialEq, Eq)]
pub struct Touched {
    pub from: usize,
    pub to: usize,
}

// Adds a line to the record, and tells which blocks that touched: all others stay.
pub fn append(file: &mut BlockFile, line: &[u8]) -> Result<Touched, SinkFault>
    ensures adds { Adds (λ e. e) file_held file_left file.old line.now file.new result }
    ensures touched { IfOk result (λ t. Touches (length (file_held file.old)) (length line.now) t) }
    ensures kept { IfOk result (λ t. Kept t.from t.to file.old.bytes.items file.new.bytes.items) }
{
    let from = file.len() / 508;
    if line.is_empty() {
        return Ok(Touched { from, to: from });
    }
    file.put(line)?;
    let to = file.len().div_ceil(508);
    Ok(Touched { from, to })
}

// All the text of a record.
pub fn text_of(heap: Global, file: &BlockFile) -> Result<Vec<u8>, AllocError>
    ensures { IfOk result (λ text. text.items ≡ file_held file.now) }
{
    let mut text = vec![in heap; 0u8; file.len()]?;
    let _ = file.read(0, &mut text);
    Ok(text)
}

// Whether the record holds just that text.
pub fn holds(heap: Global, file: &BlockFile, text: &[u8]) -> Result<bool, AllocError>
    ensures { IfOk result (λ b. Decides b (file_held file.now ≡ text.now)) }
{
    let held = text_of(heap, file)?;
    Ok(held.as_slice() == text)
}

// The count and the check of a block. Zeros stand for no such block: the call promises four bytes and cannot fail.
pub fn seal_of(file: &BlockFile, block: usize) -> [u8; 4]
    ensures { result ≡ seal_at file.now.bytes.items block }
{
    if block >= file.blocks() {
        return [0; 4];
    }
    let bytes = file.bytes();
    let at = 512 * block + 508;
    [bytes[at], bytes[at + 1], bytes[at + 2], bytes[at + 3]]
}
