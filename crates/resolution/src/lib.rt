// RFC 3986's resolution of references: laws of its definitions, held by the gate. Each function promises one statement of specs/ and does
// nothing.
#![tactic(auto)]

ghost use Rattle.resolution.specs.Laws.{CannotClimb, DotsRemoved, ItselfResolved, OneResult, FromTheRight};
ghost use Rattle.resolution.specs.Examples.{ExamplesHold};

// How a path is gone through from its right end: how many `..` wait for a segment, what the open segment is so far (0 nothing, 1 `.`,
// 2 `..`, 3 any other), and how many octets are kept.
#[derive(Clone, Copy)]
pub struct Walk {
    pub pending: usize,
    pub kind: usize,
    pub kept: usize,
}

// Left of a result's path stands what the base or the reference has there, and no dots are left in the path.
pub fn cannot_climb()
    ensures { CannotClimb }
{}

// Removing dots leaves none, and doing it again changes nothing.
pub fn dots_removed()
    ensures { DotsRemoved }
{}

// A reference with a scheme and no dots is its own result.
pub fn itself_resolved()
    ensures { ItselfResolved }
{}

// A right base and a right reference have one result.
pub fn one_result()
    ensures { OneResult }
{}

// Dots are removed the same way from a path's right end, without a buffer.
pub fn from_the_right()
    ensures { FromTheRight }
{}

// RFC 3986's examples and others have the results that they were read to have.
pub fn examples_hold()
    ensures { ExamplesHold }
{}
