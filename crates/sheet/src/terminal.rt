// The terminal sheet, for people: the four styled roles stand in their styles, everything else as it is. It is not legible.
ghost use Rattle.std.specs.Prelude.{◌≡◌, []};
ghost use Rattle.sheet.specs.Kept.{terminal_joins, terminal_bounded};
ghost use Rattle.sheet.specs.Roles.{part_of};
ghost use Rattle.sheet.specs.Terminal.{terminal, style_in};

use crate::Sheet;
use crate::fault::SheetFault;
use crate::part::Part;
use crate::role::Role;
use builder::styled_str::{put_styled, styled_len};
use builder::styling::{Style, Styles};
use sink::Sink;

// The terminal sheet, with the style of each styled role.
#[derive(Clone, Copy, Debug)]
pub struct Terminal {
    pub styles: Styles,
}

impl Terminal {
    // The style of a role; fixed, given and ready texts have none. Inlined, as `measure` is, so that a compiler can search once where one role is asked for again and again.
    #[inline]
    pub fn style(&self, role: Role) -> Style
        ensures { result ≡ style_in self.now.styles (part_of role []) }
    {
        match role {
            Role::Error => self.styles.get_error(),
            Role::Valid => self.styles.get_valid(),
            Role::Invalid => self.styles.get_invalid(),
            Role::Literal => self.styles.get_literal(),
            Role::Fixed | Role::Given | Role::Ready => Style::new(),
        }
    }
}

impl Sheet for Terminal {
    ghost shows = { λ s. terminal s.styles };

    ghost joins = { λ s. terminal_joins s.styles };

    ghost bounded = { λ s. terminal_bounded s.styles };

    #[inline(always)]
    fn measure(&self, part: Part<'_>) -> Option<u64> {
        styled_len(self.style(part.role), part.text)
    }

    fn print<K: Sink>(&self, part: Part<'_>, sink: &mut K) -> Result<(), SheetFault> {
        put_styled(self.style(part.role), part.text, sink)?;
        Ok(())
    }
}
