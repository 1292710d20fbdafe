// The values to be listed, as a packed list.
ghost use Rattle.std.specs.Prelude.{◌≡◌, ◌++◌, map, string_bytes, Some, MatchResult};
ghost use Rattle.journal.specs.Listable.{Listable, WhyNot, Fault, unlisted_text};
ghost use Rattle.util.specs.Packed.{pack_item, pack as packed};

use std::alloc::Global;
use std::error::Error;
use std::fmt;
use util::packed::{PackError, push_item};
use util::text::is_text;

// Why values are not listed; a value goes by its number, from 1 on.
#[derive(Clone, Copy, Debug, PartialEq, Eq)]
pub enum Unlisted {
    // It is no text.
    NoText(usize),
    // It has more than 65,535 bytes.
    Long(usize),
    NoMemory,
}

impl fmt::Display for Unlisted {
    ghost output = { λ e. Some (unlisted_text e) };

    fn fmt<W: fmt::Write>(&self, f: &mut fmt::Formatter<W>) -> fmt::Result {
        match self {
            Unlisted::NoText(n) => write!(f, "value {n} is no text"),
            Unlisted::Long(n) => write!(f, "value {n} has more than 65,535 bytes"),
            Unlisted::NoMemory => write!(f, "no memory"),
        }
    }
}

impl Error for Unlisted {}

// Adds a value, which goes by its number, to the list.
fn push_value(list: &mut Vec<u8>, value: &[u8], number: usize) -> Result<(), Unlisted>
    ensures { MatchResult result
        (λ _. Listable value.now × (list.new.items ≡ list.old.items ++ pack_item value.now))
        (λ e. WhyNot value.now number e) }
{
    if !is_text(value) {
        return Err(Unlisted::NoText(number));
    }
    push_item(list, value).map_err(|error| match error {
        PackError::Long => Unlisted::Long(number),
        PackError::NoMemory => Unlisted::NoMemory,
    })
}

// The packed list of the values.
pub fn pack(heap: Global, values: &[String]) -> Result<Vec<u8>, Unlisted>
    ensures { MatchResult result
        (λ list. list.items ≡ packed (map string_bytes values.now))
        (λ e. Fault (map string_bytes values.now) e) }
{
    let mut list = Vec::new(heap);
    for (i, value) in values.iter().enumerate() {
        push_value(&mut list, value.as_bytes(), i + 1)?;
    }
    Ok(list)
}
