// The two takers of parts.
ghost use Rattle.std.specs.Prelude.{◌≡◌, ℕ, ◌+◌, ◌<◌, ◌≤◌, length, MatchResult};
ghost use Rattle.parts.specs.Kept.{counts_laws, prints_laws};
ghost use Rattle.parts.specs.Takers.{Counts, Prints};
ghost use Rattle.sheet.specs.Sheets.{showing};
ghost use Rattle.sink.specs.Outcome.{Took};
ghost use Rattle.util.specs.Lengths.{exact};

use crate::{Message, Taker};
use sheet::Sheet;
use sheet::fault::SheetFault;
use sheet::part::Part;
use sink::Sink;

// Adds two lengths, if 64 bits hold the sum.
fn add_exact(a: Option<u64>, b: Option<u64>) -> Option<u64>
    ensures { (m n : ℕ) → a ≡ exact m → b ≡ exact n → result ≡ exact (m + n) }
{
    a?.checked_add(b?)
}

// Adds up how long the parts are on a sheet; `None` is beyond 64 bits.
#[derive(Drop)]
pub struct Meter<'a, S> {
    pub sheet: &'a S,
    pub total: Option<u64>,
}

impl<S: Sheet> Taker for Meter<'_, S> {
    ghost steps = { λ s l t. Counts S.Sheet.shows s.sheet.now s.total l t.sheet.now t.total };

    ghost fails = { λ _ _. ⊥ };

    ghost laws = { counts_laws S.Sheet.shows S.Sheet.joins (λ s. s.sheet.now) (λ s. s.total) };

    fn part(&mut self, part: Part<'_>) -> Result<(), SheetFault> {
        self.total = add_exact(self.total, self.sheet.measure(part));
        Ok(())
    }
}

// Prints the parts into a sink.
#[derive(Drop)]
pub struct Printer<'a, 'b, S, K> {
    pub sheet: &'a S,
    pub sink: &'b mut K,
}

impl<S: Sheet, K: Sink> Taker for Printer<'_, '_, S, K> {
    ghost steps = { λ s l t. Prints S.Sheet.shows s.sheet.now s.sink.ghost_name (K.Sink.held s.sink.now) (K.Sink.left s.sink.now) l t.sheet.now t.sink.ghost_name (K.Sink.held t.sink.now) (K.Sink.left t.sink.now) };

    ghost fails = { λ s l. K.Sink.left s.sink.now < length (showing (S.Sheet.shows s.sheet.now) l) };

    ghost laws = { prints_laws S.Sheet.shows S.Sheet.joins (λ s. s.sheet.now) (λ s. s.sink.ghost_name) (λ s. K.Sink.held s.sink.now) (λ s. K.Sink.left s.sink.now) };

    fn part(&mut self, part: Part<'_>) -> Result<(), SheetFault> {
        self.sheet.print(part, self.sink)
    }
}

// Prints a message that fits into what is left.
pub(crate) fn print_all<M: Message, S: Sheet, K: Sink>(
    message: &M,
    sheet: &S,
    sink: &mut K,
) -> Result<(), SheetFault>
    requires { length (showing (S.Sheet.shows sheet.now) (M.Message.parts message.now)) ≤ K.Sink.left sink.old }
    ensures { MatchResult result (λ _. Took K.Sink.held K.Sink.left sink.old (showing (S.Sheet.shows sheet.now) (M.Message.parts message.now)) sink.new) (λ _. ⊥) }
{
    let mut printer = Printer { sheet, sink };
    message.tell(&mut printer)
}
