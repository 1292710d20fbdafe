// Laws of parts and of the three sheets, as what calls ensure.
ghost use Rattle.std.specs.Prelude.{◌≡◌};
ghost use Rattle.sheet.specs.Laws.{TidyTidies, TidySays, TidyShows, PagesLegible, PageElements, TerminalRenders, TerminalIllegible, TerminalTells, StandardTells};
ghost use Rattle.sheet.specs.Page.{page};
ghost use Rattle.sheet.specs.Parts.{Part as Told};
ghost use Rattle.sheet.specs.Tag.{tag};
ghost use Rattle.sheet.specs.declared.page.Page.{Page as PageSheet};
ghost use Rattle.sheet.specs.declared.tag.Tag.{Tag as TagSheet};

use crate::Sheet;
use crate::page::Page;
use crate::tag::Tag;

// Tidying is what its rule says, and on a sheet that keeps the rule of fixed texts it changes nothing.
pub fn part_laws()
    ensures tidies { TidyTidies }
    ensures says { TidySays }
    ensures shows { TidyShows }
{}

// A page is legible under any six element names that it may have, and the page sheet's are such.
pub fn page_laws()
    ensures legible { PagesLegible }
    ensures elements { PageElements }
{}

// A terminal shows each text in its rendition; what it can tell, and what it cannot.
pub fn terminal_laws()
    ensures renders { TerminalRenders }
    ensures illegible { TerminalIllegible }
    ensures tells { TerminalTells }
    ensures standard { StandardTells }
{}

// What the page sheet and the tag sheet show for a part, in their own words.
pub fn sheet_laws()
    ensures pages { (s : PageSheet) (p : Told) → ⟦<Page as Sheet>⟧.shows s p ≡ page p }
    ensures tags { (s : TagSheet) (p : Told) → ⟦<Tag as Sheet>⟧.shows s p ≡ tag p }
{}
