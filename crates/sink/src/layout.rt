// How a text is written into blocks and found in them.
ghost use Rattle.std.specs.Prelude.{◌≡◌, ℕ, ◌+◌, ◌-◌, ◌*◌, ◌/◌, ◌<◌, ◌≤◌, List, ◌++◌, length, take, drop, replicate, All, IsTrue, ◌↔◌, MatchOption, ◌≢◌};
ghost use Rattle.std.specs.List.{concat};
ghost use Rattle.sink.specs.Layout.{block_of, encode, texts};

use crate::check::check_of;

// A block: its first 508 bytes are for text.
pub(crate) type Block = [u8; 512];

// Writes the count and the check of a block whose text stands.
fn seal(block: &mut Block, count: usize)
    requires fits { count ≤ 508 }
    requires text { take 508 block.old ≡ take count block.old ++ replicate (508 - count) 0 }
    ensures { block.new ≡ block_of (take count block.old) }
{
    let [high, low] = (count as u16).to_be_bytes();
    block[508] = high;
    block[509] = low;
    let (sum, run) = check_of(block);
    block[510] = sum;
    block[511] = run;
}

// Adds text to the first of the blocks, which holds `used` bytes of it.
fn add_text(bytes: &mut [u8], used: usize, text: &[u8])
    requires sound { take 512 bytes.old ≡ block_of (take used bytes.old) }
    requires room { used + length text.now ≤ 508 }
    ensures { bytes.new ≡ block_of (take used bytes.old ++ text.now) ++ drop 512 bytes.old }
{
    let block: &mut Block = bytes.first_chunk_mut().unwrap();
    let end = used + text.len();
    block[used..end].copy_from_slice(text);
    seal(block, end);
}

// Adds text to blocks that hold `held` bytes of it, and writes to no block that the text does not reach.
// The blocks are no `&mut [Block]`: std's contract does not say what bytes end as once they were lent as that.
pub(crate) fn add_all(bytes: &mut [u8], held: usize, text: &[u8])
    requires sound { let n = length bytes.old / 512 in bytes.old ≡ encode n (take held (texts n bytes.old)) }
    requires room { held + length text.now ≤ 508 * (length bytes.old / 512) }
    ensures { let n = length bytes.old / 512 in bytes.new ≡ encode n (take held (texts n bytes.old) ++ text.now) }
{
    let mut held = held;
    let mut left = text;
    while !left.is_empty() {
        let used = held % 508;
        let (now, later) = left.split_at(left.len().min(508 - used));
        add_text(&mut bytes[512 * (held / 508)..], used, now);
        held += now.len();
        left = later;
    }
}

// Whether all bytes are zero.
fn blank(bytes: &[u8]) -> bool
    ensures { IsTrue result ↔ All (λ byte. byte ≡ 0) bytes.now }
{
    bytes.iter().all(|byte| *byte == 0)
}

// How many bytes of text a block holds, if it is sound.
fn count_of(block: &Block) -> Option<usize>
    ensures { MatchOption result ((u : List ℕ) → length u ≤ 508 → block.now ≢ block_of u) (λ k. (k ≤ 508) × (block.now ≡ block_of (take k block.now))) }
{
    let count = usize::from(u16::from_be_bytes([block[508], block[509]]));
    let check = (block[510], block[511]);
    if count > 508 || !blank(&block[count..508]) || check_of(block) != check {
        return None;
    }
    Some(count)
}

// How many bytes of text the blocks hold, if they are sound, and each is filled before the next is used.
pub(crate) fn held_of(blocks: &[Block]) -> Option<usize>
    ensures { let n = length blocks.now in let bytes = concat blocks.now in MatchOption result
        ((t : List ℕ) → length t ≤ 508 * n → bytes ≢ encode n t)
        (λ k. (k ≤ 508 * n) × (bytes ≡ encode n (take k (texts n bytes)))) }
{
    let mut held = 0;
    for (i, block) in blocks.iter().enumerate() {
        let count = count_of(block)?;
        if count > 0 && held < 508 * i {
            return None;
        }
        held += count;
    }
    Some(held)
}

// Reads the text from `from` on, over block after block.
// What was read is counted in `done`: of memory that a loop splits off piece by piece, nothing is proved after the loop.
pub(crate) fn read_all(blocks: &[Block], from: usize, out: &mut [u8])
    requires { from + length out.old ≤ 508 * length blocks.now }
    ensures { out.new ≡ take (length out.old) (drop from (texts (length blocks.now) (concat blocks.now))) }
{
    let mut done = 0;
    for block in &blocks[from / 508..(from + out.len()).div_ceil(508)] {
        let used = (from + done) % 508;
        let more = (508 - used).min(out.len() - done);
        out[done..done + more].copy_from_slice(&block[used..used + more]);
        done += more;
    }
}
