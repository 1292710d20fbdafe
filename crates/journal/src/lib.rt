// Values as a message lists them, and the record that keeps the line.
#![tactic(auto)]

pub mod listing;
pub mod message;
pub mod record;
#[cfg(test)]
mod tests;
pub mod values;
