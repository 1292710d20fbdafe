// What the messages are made of: text, packed lists and shown forms.
#![tactic(auto)]

pub mod escape;
pub mod laws;
pub mod packed;
pub mod text;
