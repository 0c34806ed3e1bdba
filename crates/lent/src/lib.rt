// A table as a caller lends it: a text, the slots of its links and of their parameters, and how many records they hold. What goes over a
// table takes it whole, and promises speak of it by one definition. Text and slots are lent apart, so that a part of the text may be kept
// when the slots are written again.
#![tactic(auto)]

use kinds::Counts;

#[derive(Clone, Copy)]
pub struct Table<'a, 's> {
    pub text: &'a [u8],
    pub links: &'s [usize],
    pub params: &'s [usize],
    pub counts: Counts,
}
