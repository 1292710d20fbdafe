// Examples by table: sheets, messages of several parts, kinds and keys.
#![tactic(auto)]

#[cfg(test)]
mod kinds;
#[cfg(test)]
mod messages;
#[cfg(test)]
mod sheets;
