// Sheets show the parts of a message as bytes: what a sheet is, when it is legible, and the three sheets.
#![tactic(auto)]

ghost use Rattle.std.specs.Prelude.{◌≡◌, ℕ, List, length};
ghost use Rattle.sheet.specs.Parts.{Part as Told};
ghost use Rattle.sheet.specs.Roles.{told_part};
ghost use Rattle.sheet.specs.Sheets.{Joins, Bounded, Legible};
ghost use Rattle.sink.specs.Outcome.{Adds};
ghost use Rattle.util.specs.Lengths.{exact, told};

use fault::SheetFault;
use part::Part;
use sink::Sink;

pub mod fault;
pub mod laws;
mod markup;
pub mod page;
pub mod part;
pub mod role;
pub mod tag;
pub mod terminal;

// How the parts of a message are shown. Its meaning is the bytes that it shows for each part; no question and no print changes it.
pub trait Sheet {
    ghost shows: { Self → Told → List ℕ };

    // Two fixed texts joined show as their showings joined.
    ghost joins: { Joins shows };

    // A showing is at most 16 times its text and 64 bytes long.
    ghost bounded: { Bounded shows };

    // How long the showing is, if 64 bits hold that.
    fn measure(&self, part: Part<'_>) -> Option<u64>
        ensures { result ≡ exact (length (shows self.now (told_part part.entry))) };

    // How long the showing is; a length beyond 64 bits is told as their largest number.
    fn width(&self, part: Part<'_>) -> u64
        ensures { result ≡ told (length (shows self.now (told_part part.entry))) }
    {
        self.measure(part).unwrap_or(u64::MAX)
    }

    // Puts the showing into the sink, all of it or, where it is longer than what is left, nothing.
    fn print<K: Sink>(&self, part: Part<'_>, sink: &mut K) -> Result<(), SheetFault>
        ensures { Adds (λ e. e.sink) K.Sink.held K.Sink.left sink.old (shows self.now (told_part part.entry)) sink.new result };
}

// A sheet that can be read back: two tidy lists of texts that it shows alike are one list.
pub trait LegibleSheet: Sheet {
    ghost legible: { (s : Self) → Legible (Self.Sheet.shows s) };
}
