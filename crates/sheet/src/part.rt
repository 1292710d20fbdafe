// A part of a message, as sheets are given it.
use crate::role::Role;

// A part: its role and its text.
#[derive(Clone, Copy)]
pub struct Part<'a> {
    pub role: Role,
    pub text: &'a [u8],
}
