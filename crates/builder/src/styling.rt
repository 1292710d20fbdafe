// Terminal styles: how each of the four styled roles is shown.
ghost use Rattle.std.specs.Prelude.{◌≡◌, ◌≢◌, ◌+◌, ◌≤◌, true, ◌++◌, length, Some};
ghost use Rattle.builder.specs.Marks.{is_plain, marks, color_mark};
ghost use Rattle.builder.specs.Styling.{plain_style, all_roles};
ghost use Rattle.std.proofs.Common.{rules};

use flat_map::{FlatMap, Key, get_in};

// The eight colours of a terminal, in the order of their numbers.
#[derive(Clone, Copy, Debug)]
pub enum AnsiColor {
    Black,
    Red,
    Green,
    Yellow,
    Blue,
    Magenta,
    Cyan,
    White,
}

// Whether a text is bold, whether it is underlined, and its colour, if it has one.
#[derive(Clone, Copy, Debug)]
pub struct Style {
    bold: bool,
    underline: bool,
    color: Option<AnsiColor>,
}

// The marks that a text in a style begins with: the first `len` of `bytes`.
// An array with its length: marks can be copied, there is no heap, and this crate rests on no list of a fixed capacity.
#[derive(Clone, Copy, Debug)]
pub struct Marks {
    bytes: [u8; 13],
    len: usize,
    ghost within: { len ≤ 13 },
}

impl Marks {
    ghost use Rattle.builder.specs.Rendered.{marks_bytes};

    pub fn as_bytes(&self) -> &[u8]
        ensures { result.now ≡ marks_bytes self.now }
    {
        &self.bytes[..self.len]
    }

    // These marks, and then more.
    fn and(self, more: &[u8]) -> Marks
        requires { self.len + length more.now ≤ 13 }
        ensures bytes { marks_bytes result ≡ marks_bytes self ++ more.now }
        ensures len { result.len ≡ self.len + length more.now }
    {
        let mut bytes = self.bytes;
        let len = self.len;
        let end = len + more.len();
        bytes[len..end].copy_from_slice(more);
        Marks { bytes, len: end }
    }
}

// A colour as a mark.
fn color_mark(color: AnsiColor) -> [u8; 5]
    ensures { result ≡ color_mark (Some color) }
{
    [0x1b, b'[', b'3', b'0' + color as u8, b'm']
}

impl Style {
    ghost use Rattle.builder.specs.Rendered.{marks_bytes};

    // The plain style.
    pub fn new() -> Style
        ensures { result ≡ plain_style }
    {
        Style {
            bold: false,
            underline: false,
            color: None,
        }
    }

    // The same, and bold.
    pub fn bold(self) -> Style
        ensures { result ≡ record { bold = true; underline = self.underline; color = self.color } }
    {
        Style { bold: true, ..self }
    }

    // The same, and underlined.
    pub fn underline(self) -> Style
        ensures { result ≡ record { bold = self.bold; underline = true; color = self.color } }
    {
        Style {
            underline: true,
            ..self
        }
    }

    // With this colour, or with none.
    pub fn fg_color(self, color: Option<AnsiColor>) -> Style
        ensures { result ≡ record { bold = self.bold; underline = self.underline; color = color } }
    {
        Style { color, ..self }
    }

    // Whether the style has no mark.
    pub fn is_plain(&self) -> bool
        ensures { result ≡ is_plain self.now }
    {
        !self.bold && !self.underline && self.color.is_none()
    }

    // The marks of the style.
    pub fn render(&self) -> Marks
        ensures { marks_bytes result ≡ marks self.now }
    {
        let mut marks = Marks {
            bytes: [0; 13],
            len: 0,
        };
        if self.bold {
            marks = marks.and(b"\x1b[1m");
        }
        if self.underline {
            marks = marks.and(b"\x1b[4m");
        }
        match self.color {
            Some(color) => marks.and(&color_mark(color)),
            None => marks,
        }
    }
}

// The roles whose texts have a style.
#[derive(Clone, Copy, Debug, PartialEq, Eq)]
pub enum StyledRole {
    Error,
    Valid,
    Invalid,
    Literal,
}

impl Key for StyledRole {
    ghost exact = { Prim.search rules };
}

// The styles by role: a map over its own two arrays, in which every role has its entry. Two, as the map takes keys and values.
#[derive(Clone, Copy, Debug)]
pub struct Styles {
    roles: [StyledRole; 4],
    styles: [Style; 4],
    ghost whole: { roles ≡ all_roles },
}

impl Styles {
    ghost use Rattle.builder.specs.Roles.{style_of, standard, Changed};

    // Every role is plain.
    pub fn plain() -> Styles
        ensures { (q : StyledRole) → style_of result q ≡ plain_style }
    {
        Styles {
            roles: [
                StyledRole::Error,
                StyledRole::Valid,
                StyledRole::Invalid,
                StyledRole::Literal,
            ],
            styles: [Style::new(); 4],
        }
    }

    // The style of a role.
    pub fn get(&self, role: StyledRole) -> Style
        ensures { result ≡ style_of self.now role }
    {
        get_in(&self.roles, &self.styles, 4, role)
            .copied()
            .unwrap_or(Style::new())
    }

    // The same styles but for one role.
    fn with(self, role: StyledRole, style: Style) -> Styles
        ensures { Changed self role style result }
    {
        let Styles {
            mut roles,
            mut styles,
        } = self;
        let cleared = (StyledRole::Error, Style::new());
        let _ = FlatMap::holding(&mut roles, &mut styles, 4, cleared).insert(role, style);
        Styles { roles, styles }
    }

    // A call that changes and one that tells, for each role: the Rust's names.
    pub fn error(self, style: Style) -> Styles
        ensures { Changed self StyledRole.Error style result }
    {
        self.with(StyledRole::Error, style)
    }

    pub fn valid(self, style: Style) -> Styles
        ensures { Changed self StyledRole.Valid style result }
    {
        self.with(StyledRole::Valid, style)
    }

    pub fn invalid(self, style: Style) -> Styles
        ensures { Changed self StyledRole.Invalid style result }
    {
        self.with(StyledRole::Invalid, style)
    }

    pub fn literal(self, style: Style) -> Styles
        ensures { Changed self StyledRole.Literal style result }
    {
        self.with(StyledRole::Literal, style)
    }

    pub fn get_error(&self) -> Style
        ensures { result ≡ style_of self.now StyledRole.Error }
    {
        self.get(StyledRole::Error)
    }

    pub fn get_valid(&self) -> Style
        ensures { result ≡ style_of self.now StyledRole.Valid }
    {
        self.get(StyledRole::Valid)
    }

    pub fn get_invalid(&self) -> Style
        ensures { result ≡ style_of self.now StyledRole.Invalid }
    {
        self.get(StyledRole::Invalid)
    }

    pub fn get_literal(&self) -> Style
        ensures { result ≡ style_of self.now StyledRole.Literal }
    {
        self.get(StyledRole::Literal)
    }

    // The standard colours: errors bold red, valid words green, invalid ones yellow, literals bold.
    pub fn styled() -> Styles
        ensures { (q : StyledRole) → style_of result q ≡ standard q }
    {
        Styles::plain()
            .error(Style::new().bold().fg_color(Some(AnsiColor::Red)))
            .valid(Style::new().fg_color(Some(AnsiColor::Green)))
            .invalid(Style::new().fg_color(Some(AnsiColor::Yellow)))
            .literal(Style::new().bold())
    }
}
