// Kinds and keys: the wording of the one and the names of the other. The tables were printed by clap_builder 4.6.7's own kind.rs and context.rs.
use account::context::ContextKind;
use account::kind::ErrorKind;
use std::fmt::Display;
use std::process::Abort;
use std::test::Fail;

const KINDS: [(ErrorKind, Option<&str>); 17] = [
    (
        ErrorKind::InvalidValue,
        Some("one of the values isn't valid for an argument"),
    ),
    (
        ErrorKind::UnknownArgument,
        Some("unexpected argument found"),
    ),
    (
        ErrorKind::InvalidSubcommand,
        Some("unrecognized subcommand"),
    ),
    (
        ErrorKind::NoEquals,
        Some("equal is needed when assigning values to one of the arguments"),
    ),
    (
        ErrorKind::ValueValidation,
        Some("invalid value for one of the arguments"),
    ),
    (
        ErrorKind::TooManyValues,
        Some("unexpected value for an argument found"),
    ),
    (
        ErrorKind::TooFewValues,
        Some("more values required for an argument"),
    ),
    (
        ErrorKind::WrongNumberOfValues,
        Some("too many or too few values for an argument"),
    ),
    (
        ErrorKind::ArgumentConflict,
        Some("an argument cannot be used with one or more of the other specified arguments"),
    ),
    (
        ErrorKind::MissingRequiredArgument,
        Some("one or more required arguments were not provided"),
    ),
    (
        ErrorKind::MissingSubcommand,
        Some("a subcommand is required but one was not provided"),
    ),
    (
        ErrorKind::InvalidUtf8,
        Some("invalid UTF-8 was detected in one or more arguments"),
    ),
    (ErrorKind::DisplayHelp, None),
    (ErrorKind::DisplayHelpOnMissingArgumentOrSubcommand, None),
    (ErrorKind::DisplayVersion, None),
    (ErrorKind::Io, None),
    (ErrorKind::Format, None),
];

const KEYS: [(ContextKind, Option<&str>); 17] = [
    (ContextKind::InvalidSubcommand, Some("Invalid Subcommand")),
    (ContextKind::InvalidArg, Some("Invalid Argument")),
    (ContextKind::PriorArg, Some("Prior Argument")),
    (ContextKind::ValidSubcommand, Some("Valid Subcommand")),
    (ContextKind::ValidValue, Some("Valid Value")),
    (ContextKind::InvalidValue, Some("Invalid Value")),
    (
        ContextKind::ActualNumValues,
        Some("Actual Number of Values"),
    ),
    (
        ContextKind::ExpectedNumValues,
        Some("Expected Number of Values"),
    ),
    (ContextKind::MinValues, Some("Minimum Number of Values")),
    (ContextKind::SuggestedCommand, Some("Suggested Command")),
    (
        ContextKind::SuggestedSubcommand,
        Some("Suggested Subcommand"),
    ),
    (ContextKind::SuggestedArg, Some("Suggested Argument")),
    (ContextKind::SuggestedValue, Some("Suggested Value")),
    (ContextKind::TrailingArg, Some("Trailing Argument")),
    (ContextKind::Suggested, Some("Suggested")),
    (ContextKind::Usage, None),
    (ContextKind::Custom, None),
];

// Checks that each shows as its word, or as nothing, and is equal to itself alone.
fn told_apart<T: PartialEq + Display>(
    rt: &(impl Abort + AllocGlobal),
    table: &[(T, Option<&str>)],
) -> Result<(), Fail> {
    for (i, (one, word)) in table.iter().enumerate() {
        assert!(rt; format!(in rt.alloc(); "{one}")?.as_str() == word.unwrap_or(""));
        for (j, (other, _)) in table.iter().enumerate() {
            assert!(rt; (*one == *other) == (i == j));
        }
    }
    Ok(())
}

// One test for kinds and one for keys: no trait has `as_str`, and a closure that answers text gets no proof where it is called.
#[test]
fn kinds(rt: HostRuntime) -> Result<(), Fail> {
    for (kind, wording) in KINDS {
        assert_eq!(rt; kind.as_str(), wording);
    }
    told_apart(&rt, &KINDS)
}

#[test]
fn keys(rt: HostRuntime) -> Result<(), Fail> {
    for (key, name) in KEYS {
        assert_eq!(rt; key.as_str(), name);
    }
    told_apart(&rt, &KEYS)
}
