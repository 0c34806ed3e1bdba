// The machine of references in an IP literal: the states from 48 on, one octet at a time.
#![tactic(auto)]

pub mod dotted;
pub mod groups;
pub mod literals;
mod numbers;
