// Why the program did not do what it was asked for.
use sink::fault::{Refusal, SinkFault};
use std::error::Error;
use std::fmt;
use util::packed::PackError;

// What was refused, and why. An `anyhow::Error` has room for 120 bytes of an error's text; the others are told whole.
#[derive(Drop)]
pub(crate) enum Failure<'a> {
    // No sheet has this name.
    NoSheet(&'a str),
    // There is no file of this name.
    NoFile(&'a str),
    // The shown forms are not packed.
    Unshown(PackError),
    // The line has this many bytes on a sheet, more than an area may.
    Overlong(u64),
    // A record is refused.
    Record { path: &'a str, refusal: Refusal },
    // The area for the line was refused.
    NoArea,
    // The line did not fit into its area.
    NoFit,
    // The record on disk does not hold what was put.
    Lost,
    // A call failed.
    Call(anyhow::Error),
}

impl fmt::Display for Failure<'_> {
    fn fmt<W: fmt::Write>(&self, f: &mut fmt::Formatter<W>) -> fmt::Result {
        match self {
            Failure::NoSheet(word) => write!(f, "{word}: no such sheet"),
            Failure::NoFile(path) => write!(f, "{path}: no such file"),
            Failure::Unshown(PackError::Long) => {
                write!(f, "a shown form has more than 65,535 bytes")
            }
            Failure::Unshown(PackError::NoMemory) => write!(f, "no memory"),
            Failure::Overlong(wanted) => write!(
                f,
                "the line has {wanted} bytes on this sheet, and an area 1048576 at most"
            ),
            Failure::Record { path, refusal } => {
                let number = refusal.number();
                write!(f, "{path} is refused with {number}: ")?;
                fmt_refusal(*refusal, f)
            }
            Failure::NoArea => write!(f, "the area for the line was refused"),
            Failure::NoFit => {
                write!(f, "the line did not fit into the area that was made for it")
            }
            Failure::Lost => write!(f, "the record on disk does not hold what was put"),
            Failure::Call(error) => write!(f, "{error}"),
        }
    }
}

// Why a record is refused, in words.
fn fmt_refusal<W: fmt::Write>(refusal: Refusal, f: &mut fmt::Formatter<W>) -> fmt::Result {
    match refusal {
        Refusal::Size => write!(f, "it is not 1 to 2048 blocks of 512 bytes"),
        Refusal::Room(SinkFault { wanted, left }) => {
            write!(f, "{wanted} bytes wanted, {left} left")
        }
        Refusal::Damaged => write!(f, "its blocks hold no text"),
    }
}

impl<E: Error> From<E> for Failure<'_> {
    fn from(error: E) -> Self {
        Failure::Call(error.into())
    }
}
