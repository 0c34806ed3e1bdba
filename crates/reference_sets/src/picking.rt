// States: the one that nothing follows, and one of two by a test, so that a step reads as its definition does.
ghost use Rattle.std.specs.Prelude.{◌≡◌, cond};

// The state that nothing follows.
pub const NOWHERE: usize = 54;

pub fn pick(test: bool, yes: usize, no: usize) -> usize
    ensures { result ≡ cond test yes no }
{
    if test { yes } else { no }
}
