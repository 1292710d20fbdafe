// The tag sheet, for programs that read messages: a labelled text stands between 1B with its role's initial and 1B z, and the byte 1B is doubled in every text.
ghost use Rattle.sheet.specs.Kept.{tag_byte_short, tag_edges};
ghost use Rattle.sheet.specs.Tag.{start_mark, tag_byte, end_mark};
ghost use Rattle.sheet.specs.Tags.{tag_legible};

use crate::LegibleSheet;
use crate::markup::{Code, Markup};
use crate::role::Role;

// The tag sheet; it needs no setting.
#[derive(Clone, Copy, Debug)]
pub struct Tag;

impl Markup for Tag {
    ghost before = { λ _. start_mark };

    ghost coded = { λ _. tag_byte };

    ghost after = { λ _. end_mark };

    ghost short = { λ _. tag_byte_short };

    ghost edges = { λ _. tag_edges };

    fn opening(&self, role: Role) -> &[u8] {
        match role {
            Role::Error => b"\x1be",
            Role::Valid => b"\x1bv",
            Role::Invalid => b"\x1bi",
            Role::Literal => b"\x1bl",
            Role::Fixed => b"",
            Role::Given => b"\x1bg",
            Role::Ready => b"\x1br",
        }
    }

    fn closing(&self, role: Role) -> &[u8] {
        match role {
            Role::Fixed => b"",
            _ => b"\x1bz",
        }
    }

    fn code(&self, b: u8) -> Option<Code> {
        match b {
            0x1b => Some(Code::Constant(b"\x1b\x1b")),
            _ => None,
        }
    }
}

impl LegibleSheet for Tag {
    ghost legible = { λ s. tag_legible };
}
