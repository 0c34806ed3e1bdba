// UTF-8 by RFC 3629: laws of its definition, held by the gate. Each function promises one statement of specs/ and does nothing.
#![tactic(auto)]

ghost use Rattle.rules.specs.Laws.{MatchesExact};
ghost use Rattle.utf8.specs.Sequences.{Range};
ghost use Rattle.utf8.specs.Laws.{EncodesNumbers};

// Whether a text is well formed is computed.
pub fn matches_exact()
    ensures { MatchesExact Range }
{}

// A text is well formed just if it encodes a list of numbers, each in its shortest form; and it encodes just one.
pub fn encodes_numbers()
    ensures { EncodesNumbers }
{}
