// The page sheet, for readers: each role is an element of HTML, and what would be read as markup, or not be seen, is written out.
ghost use Rattle.sheet.specs.Kept.{page_byte_short, page_edges};
ghost use Rattle.sheet.specs.Page.{element, start_tag, page_byte, end_tag};
ghost use Rattle.sheet.specs.Pages.{page_legible};

use crate::LegibleSheet;
use crate::markup::{Code, Markup};
use crate::role::Role;
use util::escape::hex_digits;

// The page sheet; it needs no setting.
#[derive(Clone, Copy, Debug)]
pub struct Page;

impl Markup for Page {
    ghost before = { λ _ l. start_tag (element l) };

    ghost coded = { λ _. page_byte };

    ghost after = { λ _ l. end_tag (element l) };

    ghost short = { λ _. page_byte_short };

    ghost edges = { λ _. page_edges };

    fn opening(&self, role: Role) -> &[u8] {
        match role {
            Role::Error => b"<b>",
            Role::Valid => b"<i>",
            Role::Invalid => b"<u>",
            Role::Literal => b"<kbd>",
            Role::Fixed => b"",
            Role::Given => b"<q>",
            Role::Ready => b"<samp>",
        }
    }

    fn closing(&self, role: Role) -> &[u8] {
        match role {
            Role::Error => b"</b>",
            Role::Valid => b"</i>",
            Role::Invalid => b"</u>",
            Role::Literal => b"</kbd>",
            Role::Fixed => b"",
            Role::Given => b"</q>",
            Role::Ready => b"</samp>",
        }
    }

    fn code(&self, b: u8) -> Option<Code> {
        match b {
            b'&' => Some(Code::Constant(b"&amp;")),
            b'<' => Some(Code::Constant(b"&lt;")),
            b'>' => Some(Code::Constant(b"&gt;")),
            b'\n' => None,
            0..=0x1f | 0x7f => {
                let [high, low] = hex_digits(b);
                Some(Code::Struck([b'<', b's', b'>', high, low, b'<', b'/', b's', b'>']))
            }
            _ => None,
        }
    }
}

impl LegibleSheet for Page {
    ghost legible = { λ s. page_legible };
}
