// The line that lists values, each in its shown form.
ghost use Rattle.std.specs.Prelude.{◌≡◌, ◌++◌, IfOk, OnOk};
ghost use Rattle.journal.specs.Listing.{others, listing as listed};
ghost use Rattle.journal.specs.Numbered.{quoted_from};
ghost use Rattle.util.specs.Packed.{items as items_of, unread};
ghost use Rattle.util.specs.Shown.{shown};

use std::alloc::{AllocError, Global};
use util::escape::Escape;
use util::packed::Items;

// Adds the shown form of a value to a line.
pub(crate) fn push_shown(heap: Global, line: &mut Vec<u8>, value: &[u8]) -> Result<(), AllocError>
    ensures { OnOk result (line.new.items ≡ line.old.items ++ shown value.now) }
{
    let len = Escape(value).shown_len().ok_or(AllocError)?;
    let mut form = vec![in heap; 0u8; len]?;
    let _ = Escape(value).write_shown(&mut form);
    line.extend_from_slice(&form)?;
    Ok(())
}

// Adds the values that the reader has yet to give, each after a comma.
fn push_others(heap: Global, line: &mut Vec<u8>, values: Items<'_>) -> Result<(), AllocError>
    ensures { OnOk result (line.new.items ≡ line.old.items ++ others (unread values.entry)) }
{
    for value in values {
        line.extend_from_slice(b", ")?;
        push_shown(heap, line, value)?;
    }
    Ok(())
}

// The line that lists the values of a packed list.
pub fn listing(heap: Global, list: &[u8]) -> Result<Vec<u8>, AllocError>
    ensures { IfOk result (λ line. line.items ≡ listed (items_of list.now)) }
{
    let mut line = Vec::new(heap);
    let mut items = Items::new(list);
    let Some(first) = items.next() else {
        return Ok(line);
    };
    line.extend_from_slice(b"[possible values: ")?;
    push_shown(heap, &mut line, first)?;
    push_others(heap, &mut line, items)?;
    line.extend_from_slice(b"]")?;
    Ok(line)
}

// The numbers of the values that are quoted, from 1 on.
pub fn quoted_values(heap: Global, list: &[u8]) -> Result<Vec<usize>, AllocError>
    ensures { IfOk result (λ v. v.items ≡ quoted_from 1 (items_of list.now)) }
{
    let mut quoted = Vec::new(heap);
    for (i, value) in Items::new(list).enumerate() {
        if Escape(value).needs_escaping() {
            quoted.push(i + 1)?;
        }
    }
    Ok(quoted)
}
