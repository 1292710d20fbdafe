// What went wrong.
ghost use Rattle.std.specs.Prelude.{◌≡◌, [], Some};
ghost use Rattle.account.specs.Kinds.{wording_of};
ghost use Rattle.std.specs.Option.{option_map, unwrap_or};

use std::fmt;

#[derive(Clone, Copy, Debug, PartialEq, Eq)]
pub enum ErrorKind {
    InvalidValue,
    UnknownArgument,
    InvalidSubcommand,
    NoEquals,
    ValueValidation,
    TooManyValues,
    TooFewValues,
    WrongNumberOfValues,
    ArgumentConflict,
    MissingRequiredArgument,
    MissingSubcommand,
    InvalidUtf8,
    DisplayHelp,
    DisplayHelpOnMissingArgumentOrSubcommand,
    DisplayVersion,
    Io,
    Format,
}

impl ErrorKind {
    // The crate's wording for the kind, if it has one.
    pub fn as_str(self) -> Option<&'static str>
        ensures { option_map (λ x. x.now) result ≡ wording_of self }
    {
        match self {
            ErrorKind::InvalidValue => Some("one of the values isn't valid for an argument"),
            ErrorKind::UnknownArgument => Some("unexpected argument found"),
            ErrorKind::InvalidSubcommand => Some("unrecognized subcommand"),
            ErrorKind::NoEquals => Some(
                "equal is needed when assigning values to one of the arguments",
            ),
            ErrorKind::ValueValidation => Some("invalid value for one of the arguments"),
            ErrorKind::TooManyValues => Some("unexpected value for an argument found"),
            ErrorKind::TooFewValues => Some("more values required for an argument"),
            ErrorKind::WrongNumberOfValues => Some("too many or too few values for an argument"),
            ErrorKind::ArgumentConflict => {
                Some("an argument cannot be used with one or more of the other specified arguments")
            }
            ErrorKind::MissingRequiredArgument => Some(
                "one or more required arguments were not provided",
            ),
            ErrorKind::MissingSubcommand => Some(
                "a subcommand is required but one was not provided",
            ),
            ErrorKind::InvalidUtf8 => Some("invalid UTF-8 was detected in one or more arguments"),
            ErrorKind::DisplayHelp
            | ErrorKind::DisplayHelpOnMissingArgumentOrSubcommand
            | ErrorKind::DisplayVersion
            | ErrorKind::Io
            | ErrorKind::Format => None,
        }
    }
}

// The kind's wording, or nothing. An impl here and one for `ContextKind`: no impl of another crate's trait may be for every type.
impl fmt::Display for ErrorKind {
    ghost output = { λ k. Some (unwrap_or (wording_of k) []) };

    fn fmt<W: fmt::Write>(&self, f: &mut fmt::Formatter<W>) -> fmt::Result {
        self.as_str().unwrap_or("").fmt(f)
    }
}
