// Octets: the editions of the grammar, by their sets of octets; and the law of how many pairs of octets tell whether two texts are the
// same.
#![tactic(auto)]

ghost use Rattle.octets.specs.Laws.{PairsTell};

pub mod editions;

// Texts are the same exactly if their lengths are equal, and all pairs of octets are compared and agree.
pub fn pairs_tell()
    ensures { PairsTell }
{}
