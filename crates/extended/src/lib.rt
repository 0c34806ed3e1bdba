// Extended values: laws of their definition, held by the gate. Each function promises one statement of specs/ and does nothing.
#![tactic(auto)]

ghost use Rattle.extended.specs.Laws.{DecodedExact, OneText};
ghost use Rattle.extended.specs.Rows.{RowsHold};

// Whether a value is right, and what it gives, is computed.
pub fn decoded_exact()
    ensures { DecodedExact }
{}

// A value gives no two texts.
pub fn one_text()
    ensures { OneText }
{}

// Values are right, or not, as they were judged by hand.
pub fn rows_hold()
    ensures { RowsHold }
{}
