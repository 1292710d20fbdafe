// Sheets that frame a text: something before it, something after it, and the text byte by byte, most bytes as they are and some by a code.
ghost use Rattle.std.specs.Prelude.{◌≡◌, ◌≢◌, ℕ, ◌<◌, ◌≤◌, List, [], ◌∷◌, length, slice_index, MatchOption, MatchResult};
ghost use Rattle.std.specs.List.{flat_map};
ghost use Rattle.sheet.specs.Coded.{code_bytes};
ghost use Rattle.sheet.specs.Frames.{framing, edge, ShortCodes, ShortEdges, Puts, Leaves};
ghost use Rattle.sheet.specs.Kept.{framing_joins, framing_bounded};
ghost use Rattle.sheet.specs.Parts.{Label};
ghost use Rattle.sheet.specs.Roles.{part_of, told_part};

use crate::Sheet;
use crate::fault::SheetFault;
use crate::part::Part;
use crate::role::Role;
use sink::fault::SinkFault;
use sink::{Sink, room};

// What a byte is written as where it is not shown as it is.
#[derive(Clone, Copy)]
pub enum Code {
    // bytes that are always the same
    Constant(&'static [u8]),
    // an element s, which holds the byte's two hexadecimal digits
    Struck([u8; 9]),
}

impl Code {
    // The bytes themselves.
    pub fn as_bytes(&self) -> &[u8]
        ensures { result.now ≡ code_bytes self.now }
    {
        match self {
            Code::Constant(bytes) => bytes,
            Code::Struck(bytes) => bytes,
        }
    }
}

// What a sheet writes around the texts of each role, and for the bytes of a text. What has a markup is a sheet.
pub trait Markup {
    ghost before: { Self → Label → List ℕ };

    ghost coded: { Self → ℕ → List ℕ };

    ghost after: { Self → Label → List ℕ };

    // A byte becomes 16 bytes at most.
    ghost short: { ShortCodes coded };

    // What stands around a text is at most 64 bytes long.
    ghost edges: { ShortEdges before after };

    // What stands before a text of the role.
    fn opening(&self, role: Role) -> &[u8]
        ensures { result.now ≡ edge (before self.now) (part_of role []) };

    // What stands after it.
    fn closing(&self, role: Role) -> &[u8]
        ensures { result.now ≡ edge (after self.now) (part_of role []) };

    // What a byte is written as; `None` is a plain byte, which is shown as it is.
    fn code(&self, b: u8) -> Option<Code>
        ensures { MatchOption result (coded self.now b ≡ b ∷ []) (λ c. (coded self.now b ≡ code_bytes c) × (coded self.now b ≢ b ∷ [])) };
}

// How many bytes a byte becomes.
fn shown_len<M: Markup>(markup: &M, b: u8) -> u64
    ensures { result ≡ length (M.coded markup.now b) }
{
    match markup.code(b) {
        Some(code) => code.as_bytes().len() as u64,
        None => 1,
    }
}

// How many bytes at the front are plain: up to the first that is not.
fn plain_run<M: Markup>(markup: &M, text: &[u8]) -> usize
    ensures bound { result ≤ length text.now }
    ensures plain { (k : ℕ) → k < result → M.coded markup.now (slice_index text.now k) ≡ slice_index text.now k ∷ [] }
    ensures longest { result < length text.now → M.coded markup.now (slice_index text.now result) ≢ slice_index text.now result ∷ [] }
{
    text.iter()
        .position(|b| markup.code(*b).is_some())
        .unwrap_or(text.len())
}

// Puts bytes, if there are any.
fn put_some<K: Sink>(bytes: &[u8], sink: &mut K) -> Result<(), SinkFault>
    ensures { Puts K.held K.left sink.old bytes.now sink.new result }
{
    if bytes.is_empty() {
        return Ok(());
    }
    sink.put(bytes)
}

// Puts the longest run of plain bytes that the text begins with, or else the code of its first byte, and hands back the rest of the text.
fn put_front<'a, M: Markup, K: Sink>(
    markup: &M,
    text: &'a [u8],
    sink: &mut K,
) -> Result<&'a [u8], SinkFault>
    requires { 0 < length text.now }
    ensures { let coded = flat_map (M.coded markup.now) in
        MatchResult result
        (λ rest. (length rest.now < length text.now) × Leaves K.held K.left sink.old (coded text.now) sink.new (coded rest.now))
        (λ _. K.left sink.old < length (coded text.now)) }
{
    match markup.code(text[0]) {
        Some(code) => {
            sink.put(code.as_bytes())?;
            Ok(&text[1..])
        }
        None => {
            let (run, rest) = text.split_at(plain_run(markup, text));
            sink.put(run)?;
            Ok(rest)
        }
    }
}

// Puts a text as it is shown.
fn put_text<M: Markup, K: Sink>(markup: &M, text: &[u8], sink: &mut K) -> Result<(), SinkFault>
    ensures { Puts K.held K.left sink.old (flat_map (M.coded markup.now) text.now) sink.new result }
{
    let mut rest = text;
    while !rest.is_empty() {
        rest = put_front(markup, rest, sink)?;
    }
    Ok(())
}

// Puts a framed text.
fn put_framed<M: Markup, K: Sink>(markup: &M, part: Part<'_>, sink: &mut K) -> Result<(), SinkFault>
    ensures { Puts K.held K.left sink.old (framing (M.before markup.now) (M.coded markup.now) (M.after markup.now) (told_part part.entry)) sink.new result }
{
    put_some(markup.opening(part.role), sink)?;
    put_text(markup, part.text, sink)?;
    put_some(markup.closing(part.role), sink)
}

impl<M: Markup> Sheet for M {
    ghost shows = { λ m. framing (M.before m) (M.coded m) (M.after m) };

    ghost joins = { λ m. framing_joins (M.before m) (M.coded m) (M.after m) };

    ghost bounded = { λ m. framing_bounded (M.before m) (M.coded m) (M.after m) (M.short m) (M.edges m) };

    fn measure(&self, part: Part<'_>) -> Option<u64> {
        let mut total = self.opening(part.role).len() as u64;
        for b in part.text {
            total = total.checked_add(shown_len(self, *b))?;
        }
        total.checked_add(self.closing(part.role).len() as u64)
    }

    fn print<K: Sink>(&self, part: Part<'_>, sink: &mut K) -> Result<(), SheetFault> {
        room(sink, self.measure(part))?;
        put_framed(self, part, sink)?;
        Ok(())
    }
}
