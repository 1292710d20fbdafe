// A byte area: memory whose first bytes are held, and whose others are left.
ghost use Rattle.std.specs.Prelude.{◌≡◌, ◌+◌, ◌<◌, ◌≤◌, [], ◌++◌, length, take, drop, vec_len, MatchResult};
ghost use Rattle.sink.specs.Outcome.{Adds, Took};

use crate::fault::{Refusal, SinkFault, Unopened};
use crate::{Sink, within};

// How much of an area is held: its first `held` bytes. It is a small record of its own, so that it can be lent without the bytes.
#[derive(Clone, Copy)]
pub struct Fill {
    held: usize,
}

// The bytes beyond the held ones keep their values, so they are no spare capacity of the `Vec`.
#[derive(Drop)]
pub struct ByteArea {
    fill: Fill,
    bytes: Vec<u8>,
    ghost within: { fill.held ≤ vec_len bytes },
    ghost size: { vec_len bytes ≤ 1048576 },
}

// Copies `src` to the front of `dst`.
fn write_front(dst: &mut [u8], src: &[u8])
    requires { length src.now ≤ length dst.old }
    ensures { dst.new ≡ src.now ++ drop (length src.now) dst.old }
{
    dst[0..src.len()].copy_from_slice(src);
}

impl ByteArea {
    ghost use Rattle.sink.specs.Area.{area_held, area_left};

    // Opens an area that holds nothing and has its whole length left. Nothing is written.
    pub fn open(bytes: Vec<u8>) -> Result<ByteArea, Unopened>
        ensures { MatchResult result
            (λ a. (vec_len bytes ≤ 1048576) × (area_held a ≡ []) × (area_left a ≡ vec_len bytes) × (a.bytes ≡ bytes))
            (λ e. (1048576 < vec_len bytes) × (e.refusal ≡ Refusal.Size) × (e.bytes ≡ bytes)) }
    {
        if bytes.len() > 1048576 {
            return Err(Unopened {
                refusal: Refusal::Size,
                bytes,
            });
        }
        Ok(ByteArea {
            fill: Fill { held: 0 },
            bytes,
        })
    }

    // The held bytes, as a part of the area.
    pub fn held_bytes(&self) -> &[u8]
        ensures { result.now ≡ area_held self.now }
    {
        &self.bytes.as_slice()[0..self.fill.held]
    }

    // Gives the memory back, the held bytes and those beyond them.
    pub fn into_bytes(self) -> Vec<u8>
        ensures { result ≡ self.bytes }
    {
        let ByteArea { fill: _, bytes } = self;
        bytes
    }

    // Writes behind the held bytes, and nowhere else.
    fn add(&mut self, bytes: &[u8])
        requires { length bytes.now ≤ area_left self.old }
        ensures took { Took area_held area_left self.old bytes.now self.new }
        ensures beyond { drop self.new.fill.held self.new.bytes.items ≡ drop self.new.fill.held self.old.bytes.items }
    {
        let held = self.fill.held;
        write_front(&mut self.bytes.as_mut_slice()[held..], bytes);
        self.fill.held = held + bytes.len();
    }
}

impl Sink for ByteArea {
    ghost use Rattle.sink.specs.Area.{area_held, area_left};

    ghost held = { area_held };

    ghost left = { area_left };

    fn bytes_left(&self) -> u64 {
        (self.bytes.len() - self.fill.held) as u64
    }

    fn put(&mut self, bytes: &[u8]) -> Result<(), SinkFault>
        ensures adds { Adds (λ e. e) area_held area_left self.old bytes.now self.new result }
        ensures beyond { drop self.new.fill.held self.new.bytes.items ≡ drop self.new.fill.held self.old.bytes.items }
    {
        // In each sink anew, as `within` says.
        within(Some(bytes.len() as u64), self.bytes_left())?;
        self.add(bytes);
        Ok(())
    }
}
