// Rules as ABNF writes them, and the law of trying them octet by octet, held by the gate.
#![tactic(auto)]

ghost use Rattle.std.specs.Prelude.{ℕ};
ghost use Rattle.rules.specs.Laws.{MatchesExact};

// Whether a rule derives a text is computed; here for sets that are named by numbers.
pub fn matches_exact()
    ensures { MatchesExact ℕ }
{}
