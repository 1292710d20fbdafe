// A message has one reading: what calls ensure of accounts and of printed messages.
ghost use Rattle.account.specs.Laws.{OneReading, ReadingWithoutRoles, GapAsLine, MessagesTell, LegibleTells, TerminalMessages, StandardMessages};

use sheet::LegibleSheet;

// Proper accounts that are said alike are equal; one that is not proper may be said like another.
pub fn one_reading()
    ensures tidy { OneReading }
    ensures erased { ReadingWithoutRoles }
    ensures proper { GapAsLine }
{}

// On a legible sheet, messages print alike exactly if their accounts are equal.
pub fn legible_messages()
    ensures { LegibleTells }
{}

// On this one.
pub fn messages_tell<S: LegibleSheet>(sheet: &S)
    ensures { MessagesTell (S.Sheet.shows sheet.now) }
{}

// On a terminal with no plain style they do so too, if they have no loose text and no byte 1B; as in the standard colours.
pub fn terminal_messages()
    ensures styled { TerminalMessages }
    ensures standard { StandardMessages }
{}
