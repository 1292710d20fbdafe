// Texts in a style, and ready text that is built in lent memory piece by piece.
ghost use Rattle.std.specs.Prelude.{◌≡◌, ◌≤◌, [], length, take};
ghost use Rattle.builder.specs.Marks.{styled_text};
ghost use Rattle.builder.specs.Writing.{Writes};
ghost use Rattle.sink.specs.Outcome.{Adds};
ghost use Rattle.util.specs.Lengths.{exact};

use crate::styling::Style;
use sink::fault::SinkFault;
use sink::{Sink, room, within};

// What ends a style.
const RESET: &[u8] = b"\x1b[0m";

// How long a text is in a style, if 64 bits hold that.
pub fn styled_len(style: Style, text: &[u8]) -> Option<u64>
    ensures { result ≡ exact (length (styled_text style text.now)) }
{
    if style.is_plain() {
        return Some(text.len() as u64);
    }
    let marks = style.render().as_bytes().len() as u64;
    (text.len() as u64).checked_add(marks + 4)
}

// Puts a text in a style, or nothing where that is more than is left.
pub fn put_styled<K: Sink>(style: Style, text: &[u8], sink: &mut K) -> Result<(), SinkFault>
    ensures { Adds (λ e. e) K.Sink.held K.Sink.left sink.old (styled_text style text.now) sink.new result }
{
    room(sink, styled_len(style, text))?;
    if style.is_plain() {
        return sink.put(text);
    }
    sink.put(style.render().as_bytes())?;
    sink.put(text)?;
    sink.put(RESET)
}

// Ready text, which may carry marks of its own: the first `len` bytes of lent memory, which is all that there is without heap.
// It refuses what does not fit; util's `Front`, which is written likewise, leaves it to its caller to know.
#[derive(Drop)]
pub struct StyledStr<'m> {
    bytes: &'m mut [u8],
    len: usize,
    ghost within: { len ≤ length bytes.now },
}

impl<'m> StyledStr<'m> {
    ghost use Rattle.builder.specs.Written.{text_of, room_of, Stays};

    // A text with no byte yet. Nothing is written.
    pub fn new(bytes: &'m mut [u8]) -> StyledStr<'m>
        ensures text { text_of result ≡ [] }
        ensures bytes { (result.bytes.now ≡ bytes.old) × (result.bytes.ghost_name ≡ bytes.entry.ghost_name) }
    {
        StyledStr { bytes, len: 0 }
    }

    // The text that the first `len` bytes are; where there are fewer, all are.
    pub fn holding(bytes: &'m mut [u8], len: usize) -> StyledStr<'m>
        ensures text { text_of result ≡ take len bytes.old }
        ensures bytes { (result.bytes.now ≡ bytes.old) × (result.bytes.ghost_name ≡ bytes.entry.ghost_name) }
    {
        let len = len.min(bytes.len());
        StyledStr { bytes, len }
    }

    // The text so far.
    pub fn as_bytes(&self) -> &[u8]
        ensures { result.now ≡ text_of self.now }
    {
        &self.bytes[..self.len]
    }

    // Adds text at the end, or nothing where that is more than is left.
    pub fn push_str(&mut self, text: &[u8]) -> Result<(), SinkFault>
        ensures adds { Adds (λ e. e) text_of room_of self.old text.now self.new result }
        ensures stays { Stays self.old self.new }
    {
        within(Some(text.len() as u64), self.bytes_left())?;
        let end = self.len + text.len();
        self.bytes[self.len..end].copy_from_slice(text);
        self.len = end;
        Ok(())
    }

    // Adds text in a style, as `put_styled` does, and stays in its memory as `push_str` does.
    // The steps stand here again: a sink means what it holds and has left, so of `put_styled` nothing is known of which memory that is in.
    pub fn push_styled(&mut self, style: Style, text: &[u8]) -> Result<(), SinkFault>
        ensures adds { Adds (λ e. e) text_of room_of self.old (styled_text style text.now) self.new result }
        ensures stays { Stays self.old self.new }
    {
        room(self, styled_len(style, text))?;
        if style.is_plain() {
            return self.push_str(text);
        }
        self.push_str(style.render().as_bytes())?;
        self.push_str(text)?;
        self.push_str(RESET)
    }
}

impl Sink for StyledStr<'_> {
    ghost use Rattle.builder.specs.Written.{text_of, room_of, Stays};

    ghost held = { text_of };

    ghost left = { room_of };

    fn bytes_left(&self) -> u64 {
        (self.bytes.len() - self.len) as u64
    }

    fn put(&mut self, text: &[u8]) -> Result<(), SinkFault>
        ensures adds { Adds (λ e. e) text_of room_of self.old text.now self.new result }
        ensures stays { Stays self.old self.new }
    {
        self.push_str(text)
    }
}

// Writes text at a place of lent memory, and tells where it ends; none, and nothing is written, where it does not fit.
// By itself, and not over a `StyledStr`: for a short text that takes several times the instructions.
pub fn push_str(out: &mut [u8], at: usize, text: &[u8]) -> Option<usize>
    ensures { Writes out.old at text.now out.new result }
{
    let end = at.checked_add(text.len())?;
    if end > out.len() {
        return None;
    }
    out[at..end].copy_from_slice(text);
    Some(end)
}

// Writes text in a style at a place of lent memory, as `push_str` does.
pub fn push_styled(out: &mut [u8], at: usize, style: Style, text: &[u8]) -> Option<usize>
    ensures { Writes out.old at (styled_text style text.now) out.new result }
{
    if style.is_plain() {
        return push_str(out, at, text);
    }
    let end = at.checked_add(styled_len(style, text)? as usize)?;
    if end > out.len() {
        return None;
    }
    let marks = style.render();
    let at = push_str(out, at, marks.as_bytes())?;
    let at = push_str(out, at, text)?;
    push_str(out, at, RESET)
}
