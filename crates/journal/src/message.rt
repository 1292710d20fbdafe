// The line that lists values as a message, for any sheet: its values stand as valid words, in their shown forms.
ghost use Rattle.std.specs.Prelude.{◌≡◌, [], ◌∷◌, map, MatchResult};
ghost use Rattle.journal.specs.Shown.{next as next_part, line, NotPacked};
ghost use Rattle.parts.specs.Takers.{Tells};
ghost use Rattle.sheet.specs.Parts.{fixed, labelled, valid};
ghost use Rattle.std.specs.List.{flat_map};
ghost use Rattle.util.specs.Packed.{items as items_of, pack as packed, unread};
ghost use Rattle.util.specs.Shown.{shown};

use crate::listing::push_shown;
use parts::{Message, Taker, say};
use sheet::fault::SheetFault;
use sheet::part::Part;
use sheet::role::Role;
use std::alloc::Global;
use util::packed::{Items, PackError, push_item};

// The shown forms of the values of a packed list, packed.
pub fn shown_forms(heap: Global, list: &[u8]) -> Result<Vec<u8>, PackError>
    ensures { MatchResult result (λ v. v.items ≡ packed (map shown (items_of list.now))) (λ e. NotPacked (items_of list.now) e) }
{
    let mut forms = Vec::new(heap);
    for value in Items::new(list) {
        let mut form = Vec::new(heap);
        push_shown(heap, &mut form, value)?;
        push_item(&mut forms, &form)?;
    }
    Ok(forms)
}

// The line that lists the values whose shown forms are given, packed.
#[derive(Clone, Copy)]
pub struct Line<'a> {
    pub forms: &'a [u8],
}

// Tells a value, behind the wording that leads to it.
// Inlined in both its places, so that a compiler knows each role there: to measure a line of 5,000 values on a terminal then took a third of the instructions.
#[inline(always)]
fn say_value<T: Taker>(lead: &[u8], value: &[u8], to: &mut T) -> Result<(), SheetFault>
    ensures { Tells T.Taker.steps T.Taker.fails to.old (fixed lead.now ∷ labelled valid value.now ∷ []) to.new result }
{
    say(
        to,
        &[
            Part {
                role: Role::Fixed,
                text: lead,
            },
            Part {
                role: Role::Valid,
                text: value,
            },
        ],
    )
}

// Tells the values that the reader has yet to give.
fn tell_others<T: Taker>(values: Items<'_>, to: &mut T) -> Result<(), SheetFault>
    ensures { Tells T.Taker.steps T.Taker.fails to.old (flat_map next_part (unread values.entry)) to.new result }
{
    for value in values {
        say_value(b", ", value, to)?;
    }
    Ok(())
}

impl Message for Line<'_> {
    ghost parts = { λ m. line (items_of m.forms.now) };

    fn tell<T: Taker>(&self, to: &mut T) -> Result<(), SheetFault> {
        let mut items = Items::new(self.forms);
        let Some(first) = items.next() else {
            return Ok(());
        };
        say_value(b"[possible values: ", first, to)?;
        tell_others(items, to)?;
        say(
            to,
            &[Part {
                role: Role::Fixed,
                text: b"]",
            }],
        )
    }
}
