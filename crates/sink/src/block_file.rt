// A block file: blocks of 512 bytes that hold one text, each block filled before the next is used.
ghost use Rattle.std.specs.Prelude.{◌≡◌, ◌+◌, ◌-◌, ◌*◌, ◌/◌, ◌≤◌, min, ◌++◌, length, take, drop, vec_len, MatchResult, OnOk};
ghost use Rattle.sink.specs.Layout.{encode, texts, full, used};
ghost use Rattle.sink.specs.Opening.{Holds, Why, OneText};
ghost use Rattle.sink.specs.Outcome.{Adds, Took};

use crate::fault::{Refusal, SinkFault, Unopened};
use crate::layout::{add_all, held_of, read_all};
use crate::{Sink, within};

// The first `held` bytes of the blocks' places for text are the text, so their number is no length of the `Vec`.
#[derive(Drop)]
pub struct BlockFile {
    bytes: Vec<u8>,
    held: usize,
    ghost some: { 1 ≤ vec_len bytes / 512 },
    ghost few: { vec_len bytes / 512 ≤ 2048 },
    ghost size: { vec_len bytes ≡ 512 * (vec_len bytes / 512) },
    ghost room: { held ≤ 508 * (vec_len bytes / 512) },
    ghost sound: { bytes.items ≡ encode (vec_len bytes / 512) (take held (texts (vec_len bytes / 512) bytes.items)) },
}

impl BlockFile {
    ghost use Rattle.sink.specs.File.{file_blocks, file_held, file_left, Kept};

    // Opens the file that the bytes are: they hold one text at most.
    #[tactic(auto, using(crate::proofs::Opening::one_text))]
    pub fn open(bytes: Vec<u8>) -> Result<BlockFile, Unopened>
        ensures cases { MatchResult result
            (λ f. (f.bytes ≡ bytes) × Holds bytes.items (file_blocks f) (file_held f))
            (λ e. (e.bytes ≡ bytes) × Why bytes.items e.refusal) }
        ensures only { OneText bytes.items }
    {
        let (blocks, rest) = bytes.as_slice().as_chunks::<512>();
        if !rest.is_empty() || blocks.is_empty() || blocks.len() > 2048 {
            return Err(Unopened {
                refusal: Refusal::Size,
                bytes,
            });
        }
        // A `match`, as each case takes the bytes.
        match held_of(blocks) {
            Some(held) => Ok(BlockFile { bytes, held }),
            None => Err(Unopened {
                refusal: Refusal::Damaged,
                bytes,
            }),
        }
    }

    // How many bytes of text it holds.
    pub fn len(&self) -> usize
        ensures { result ≡ length (file_held self.now) }
    {
        self.held
    }

    // How many blocks it has.
    pub fn blocks(&self) -> usize
        ensures { result ≡ file_blocks self.now }
    {
        self.bytes.len() / 512
    }

    // The file's own bytes, block after block.
    pub fn bytes(&self) -> &[u8]
        ensures value { result.now ≡ self.now.bytes.items }
        ensures encoded { Holds result.now (file_blocks self.now) (file_held self.now) }
    {
        self.bytes.as_slice()
    }

    // Copies the text from `from` on, as much as there is and `out` has room for, and tells how much that is.
    pub fn read(&self, from: usize, out: &mut [u8]) -> usize
        ensures value { result ≡ min (length out.old) (length (file_held self.now) - from) }
        ensures front { take result out.new ≡ take result (drop from (file_held self.now)) }
        ensures back { drop result out.new ≡ drop result out.old }
    {
        let start = from.min(self.held);
        let n = (self.held - start).min(out.len());
        let (blocks, _) = self.bytes.as_slice().as_chunks::<512>();
        read_all(blocks, start, &mut out[0..n]);
        n
    }

    // Gives the memory back.
    pub fn into_bytes(self) -> Vec<u8>
        ensures value { result ≡ self.bytes }
        ensures encoded { Holds result.items (file_blocks self) (file_held self) }
    {
        let BlockFile { bytes, held: _ } = self;
        bytes
    }

    // Adds text that fits.
    fn add(&mut self, bytes: &[u8])
        requires { length bytes.now ≤ file_left self.old }
        ensures took { Took file_held file_left self.old bytes.now self.new }
        ensures bytes { self.new.bytes.items ≡ encode (file_blocks self.old) (file_held self.old ++ bytes.now) }
        ensures kept { Kept (full self.old.held) (used self.new.held) self.old.bytes.items self.new.bytes.items }
        ensures blocks { file_blocks self.new ≡ file_blocks self.old }
    {
        add_all(self.bytes.as_mut_slice(), self.held, bytes);
        self.held += bytes.len();
    }
}

impl Sink for BlockFile {
    ghost use Rattle.sink.specs.File.{file_blocks, file_held, file_left, Kept};

    ghost held = { file_held };

    ghost left = { file_left };

    fn bytes_left(&self) -> u64 {
        (508 * self.blocks() - self.held) as u64
    }

    // Blocks that are full stay, and so do those that are not reached.
    fn put(&mut self, bytes: &[u8]) -> Result<(), SinkFault>
        ensures adds { Adds (λ e. e) file_held file_left self.old bytes.now self.new result }
        ensures bytes { OnOk result (self.new.bytes.items ≡ encode (file_blocks self.old) (file_held self.old ++ bytes.now)) }
        ensures kept { Kept (full self.old.held) (used self.new.held) self.old.bytes.items self.new.bytes.items }
        ensures blocks { file_blocks self.new ≡ file_blocks self.old }
    {
        // In each sink anew, as `within` says.
        within(Some(bytes.len() as u64), self.bytes_left())?;
        self.add(bytes);
        Ok(())
    }
}
