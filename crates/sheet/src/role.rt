// What a part of a message is.

// A part's role. The first four are styled on a terminal; fixed is the crate's own wording; given are raw messages and sources, ready are texts with marks of their own.
#[derive(Clone, Copy, Debug, PartialEq, Eq)]
pub enum Role {
    Error,
    Valid,
    Invalid,
    Literal,
    Fixed,
    Given,
    Ready,
}
