// The arguments that a program was called with.
#![tactic(auto)]

ghost use Rattle.std.specs.Prelude.{◌+◌, ◌<◌, ◌^◌, IfOk};
ghost use Rattle.io.specs.Counts.{IsPrefixLen as Within};

use std::env::{Env, FillError};

// Whether there is an argument of that number; the program's name has number 0.
fn has_arg<R: Env>(rt: &R, i: usize) -> bool {
    let mut one = [0u8; 1];
    !matches!(rt.arg(i, &mut one), Err(FillError::NotPresent))
}

// Puts the argument of that number at the start of the buffer, and answers its length. Where another one stands behind it, it counts as
// missing.
pub fn read_last<R: Env>(rt: &R, i: usize, room: &mut [u8]) -> Result<usize, FillError>
    requires { i + 1 < 2 ^ 64 }
    ensures { IfOk result (λ n. Within n room.new) }
{
    if has_arg(rt, i + 1) {
        return Err(FillError::NotPresent);
    }
    rt.arg(i, room)
}
