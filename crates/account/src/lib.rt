// What a message says: the kinds of errors, the entries that tell more, and the account of a message, which has one reading.
#![tactic(auto)]

pub mod context;
pub mod kind;
pub mod laws;
pub mod reading;
