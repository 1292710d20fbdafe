// Packed lists: item after item, each a length of two bytes, high byte first, and then that many bytes.
ghost use Rattle.std.specs.Prelude.{◌≡◌, ℕ, ◌≤◌, true, List, [], ◌∷◌, ◌++◌, length, is_some, is_ok, if◌then◌else◌, Some, MatchResult};
ghost use Rattle.std.specs.Iterator.{item_count};
ghost use Rattle.util.specs.declared.packed.PackError.TheVariants.{NoMemory};
ghost use Rattle.util.specs.Packed.{items, unpack, pack_item, pack, all_text, unread, ReadsItem, Unpacked};

use crate::text::is_text;
use std::alloc::AllocError;

// Reads a packed list item by item, while its bytes are well formed.
#[derive(Drop)]
pub struct Items<'a> {
    rest: &'a [u8],
}

impl<'a> Items<'a> {
    // Reads the list from its front.
    pub fn new(list: &'a [u8]) -> Items<'a>
        ensures { result.rest.now ≡ list.now }
    {
        Items { rest: list }
    }

    // What has not been read.
    pub fn rest(&self) -> &'a [u8]
        ensures { result.now ≡ self.now.rest.now }
    {
        self.rest
    }
}

impl<'a> Iterator for Items<'a> {
    type Item = &'a [u8];

    ghost next_gives = { ReadsItem };

    ghost remaining = { item_count unread };

    // The next item, as a part of the list; none, now and later, where no item follows.
    fn next(&mut self) -> Option<&'a [u8]> {
        let [high, low, rest @ ..] = self.rest else {
            return None;
        };
        let count = u16::from_be_bytes([*high, *low]);
        let (item, after) = rest.split_at_checked(usize::from(count))?;
        self.rest = after;
        Some(item)
    }
}

// Whether the bytes are a packed list: whether its items fill it.
pub fn is_well_formed(list: &[u8]) -> bool
    ensures value { result ≡ is_some (unpack list.now) }
    ensures back { (ts : List (List ℕ)) → unpack list.now ≡ Some ts → (items list.now ≡ ts) × (pack ts ≡ list.now) }
{
    let filled: usize = Items::new(list).map(|item| 2 + item.len()).sum();
    filled == list.len()
}

// Whether each item is a text.
pub fn items_are_text(list: &[u8]) -> bool
    ensures { result ≡ all_text (items list.now) }
{
    Items::new(list).all(|item| is_text(item))
}

// How many items there are.
pub fn count_items(list: &[u8]) -> usize
    ensures { result ≡ length (items list.now) }
{
    Items::new(list).count()
}

// Why an item is not added to a packed list.
#[derive(Clone, Copy, Debug, PartialEq, Eq)]
pub enum PackError {
    // It has more than 65,535 bytes.
    Long,
    // There is no memory for it.
    NoMemory,
}

impl From<AllocError> for PackError {
    ghost from_gives = { λ _ e. e ≡ NoMemory };

    fn from(_error: AllocError) -> PackError {
        PackError::NoMemory
    }
}

// Adds an item to the end of a packed list.
pub fn push_item(list: &mut Vec<u8>, item: &[u8]) -> Result<(), PackError>
    ensures cases { MatchResult result (λ _. length item.now ≤ 65535) (λ e. Unpacked item.now e) }
    ensures items { list.new.items ≡ (if is_ok result then list.old.items ++ pack_item item.now else list.old.items) }
    ensures unpacks { (ts : List (List ℕ)) → unpack list.old.items ≡ Some ts → is_ok result ≡ true → unpack list.new.items ≡ Some (ts ++ item.now ∷ []) }
{
    let count = u16::try_from(item.len()).map_err(|_| PackError::Long)?;
    list.reserve(2 + item.len())?;
    list.extend_from_slice(&count.to_be_bytes())?;
    list.extend_from_slice(item)?;
    Ok(())
}
