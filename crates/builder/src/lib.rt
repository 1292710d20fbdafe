// Terminal styles by role.
#![tactic(auto)]

pub mod styled_str;
pub mod styling;
