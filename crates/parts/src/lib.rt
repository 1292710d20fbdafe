// Messages as parts that are told one by one: to a meter, which adds up how long they are, or to a printer, which puts them into a sink.
#![tactic(auto)]

ghost use Rattle.std.specs.Prelude.{◌≡◌, List, [], ◌∷◌, length};
ghost use Rattle.parts.specs.Takers.{Laws, Tells};
ghost use Rattle.parts.specs.Told.{parts_of};
ghost use Rattle.sheet.specs.Parts.{Part as Told, tidy};
ghost use Rattle.sheet.specs.Roles.{told_part};
ghost use Rattle.sheet.specs.Sheets.{showing};
ghost use Rattle.sink.specs.Outcome.{Adds};
ghost use Rattle.util.specs.Lengths.{exact};

use printing::{Meter, print_all};
use sheet::Sheet;
use sheet::fault::SheetFault;
use sheet::part::Part;
use sink::{Sink, room};

pub mod printing;

// What takes the parts of a message one by one.
pub trait Taker {
    // What these parts make of it.
    ghost steps: { Self → List Told → Self → Type 0 };

    // That it may refuse one of these parts.
    ghost fails: { Self → List Told → Type 0 };

    // Parts are taken in their order, and neighbouring fixed parts are as good as one.
    ghost laws: { Laws steps fails };

    fn part(&mut self, part: Part<'_>) -> Result<(), SheetFault>
        ensures { Tells steps fails self.old (told_part part.entry ∷ []) self.new result };
}

// Tells some parts, in their order. Inlined, so that a compiler knows their roles where it is called.
#[inline(always)]
pub fn say<T: Taker>(to: &mut T, parts: &[Part<'_>]) -> Result<(), SheetFault>
    ensures { Tells T.Taker.steps T.Taker.fails to.old (parts_of parts.now) to.new result }
{
    for part in parts {
        to.part(*part)?;
    }
    Ok(())
}

// What can be told as parts.
pub trait Message {
    ghost parts: { Self → List Told };

    fn tell<T: Taker>(&self, to: &mut T) -> Result<(), SheetFault>
        ensures { Tells T.Taker.steps T.Taker.fails to.old (parts self.now) to.new result };
}

// How long a message is on a sheet, if 64 bits hold that.
pub fn measure<M: Message, S: Sheet>(message: &M, sheet: &S) -> Option<u64>
    ensures { result ≡ exact (length (showing (S.Sheet.shows sheet.now) (tidy (M.Message.parts message.now)))) }
{
    let mut meter = Meter {
        sheet,
        total: Some(0),
    };
    let _ = message.tell(&mut meter);
    meter.total
}

// Prints a message, all of it or, where it is longer than what is left, nothing.
pub fn print<M: Message, S: Sheet, K: Sink>(
    message: &M,
    sheet: &S,
    sink: &mut K,
) -> Result<(), SheetFault>
    ensures { Adds (λ e. e.sink) K.Sink.held K.Sink.left sink.old (showing (S.Sheet.shows sheet.now) (tidy (M.Message.parts message.now))) sink.new result }
{
    room(sink, measure(message, sheet))?;
    print_all(message, sheet, sink)
}
