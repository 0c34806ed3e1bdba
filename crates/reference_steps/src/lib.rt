// References judged one octet at a time: the law that the machine is exact, held by the gate.
#![tactic(auto)]

ghost use Rattle.reference_steps.specs.Laws.{StepsExact};

// The machine accepts just what RFC 3986's grammar derives.
pub fn steps_exact()
    ensures { StepsExact }
{}
