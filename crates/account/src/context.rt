// What an error holds beside its kind: entries, each a key and a value.
ghost use Rattle.std.specs.Prelude.{◌≡◌, [], Some};
ghost use Rattle.account.specs.Keys.{name_of};
ghost use Rattle.std.specs.Option.{option_map, unwrap_or};
ghost use Rattle.std.proofs.Common.{rules};

use flat_map::Key;
use std::fmt;

// What an entry tells.
#[derive(Clone, Copy, Debug, PartialEq, Eq)]
pub enum ContextKind {
    InvalidSubcommand,
    InvalidArg,
    PriorArg,
    ValidSubcommand,
    ValidValue,
    InvalidValue,
    ActualNumValues,
    ExpectedNumValues,
    MinValues,
    SuggestedCommand,
    SuggestedSubcommand,
    SuggestedArg,
    SuggestedValue,
    TrailingArg,
    Suggested,
    Usage,
    Custom,
}

impl ContextKind {
    // The name of the key, if it has one.
    pub fn as_str(self) -> Option<&'static str>
        ensures { option_map (λ x. x.now) result ≡ name_of self }
    {
        match self {
            ContextKind::InvalidSubcommand => Some("Invalid Subcommand"),
            ContextKind::InvalidArg => Some("Invalid Argument"),
            ContextKind::PriorArg => Some("Prior Argument"),
            ContextKind::ValidSubcommand => Some("Valid Subcommand"),
            ContextKind::ValidValue => Some("Valid Value"),
            ContextKind::InvalidValue => Some("Invalid Value"),
            ContextKind::ActualNumValues => Some("Actual Number of Values"),
            ContextKind::ExpectedNumValues => Some("Expected Number of Values"),
            ContextKind::MinValues => Some("Minimum Number of Values"),
            ContextKind::SuggestedCommand => Some("Suggested Command"),
            ContextKind::SuggestedSubcommand => Some("Suggested Subcommand"),
            ContextKind::SuggestedArg => Some("Suggested Argument"),
            ContextKind::SuggestedValue => Some("Suggested Value"),
            ContextKind::TrailingArg => Some("Trailing Argument"),
            ContextKind::Suggested => Some("Suggested"),
            ContextKind::Usage | ContextKind::Custom => None,
        }
    }
}

// The name of the key, or nothing.
// An impl here and one for `ErrorKind`: no impl of another crate's trait may be for every type.
impl fmt::Display for ContextKind {
    ghost output = { λ k. Some (unwrap_or (name_of k) []) };

    fn fmt<W: fmt::Write>(&self, f: &mut fmt::Formatter<W>) -> fmt::Result {
        self.as_str().unwrap_or("").fmt(f)
    }
}

impl Key for ContextKind {
    ghost exact = { Prim.search rules };
}

// What an entry holds: a text or a packed list of texts lies where it is borrowed from.
#[derive(Clone, Copy, Debug)]
pub enum ContextValue<'a> {
    None,
    Bool(bool),
    String(&'a [u8]),
    Strings(&'a [u8]),
    StyledStr(&'a [u8]),
    StyledStrs(&'a [u8]),
    Number(i64),
}
