// What the steps of the machine of references ask of an octet: tests of its sets, and a state picked by a test.
#![tactic(auto)]

pub mod picking;
pub mod sets;
