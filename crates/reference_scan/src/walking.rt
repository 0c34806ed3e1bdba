// On from any state: runs that keep it, and between them a step.
ghost use Rattle.std.specs.Prelude.{◌≤◌, length};
ghost use Rattle.reference_scan.specs.Judges.{Judges};

use crate::passing::past_run;
use crate::{Judged, judged_up_to};
use reference_octet::next;
use reference_sets::picking::NOWHERE;

// No state takes a `>`, which ends most targets.
pub fn walk(s: &[u8], from: usize, state: usize) -> Judged
    requires { from ≤ length s.now }
    ensures { Judges s.now from state result }
{
    let mut i = from;
    let mut q = state;
    loop {
        i = past_run(s, i, q);
        if i == s.len() {
            return judged_up_to(i, q);
        }
        let c = s[i];
        if c == b'>' {
            return judged_up_to(i, q);
        }
        let n = next(q, c);
        if n == NOWHERE {
            return judged_up_to(i, q);
        }
        q = n;
        i += 1;
    }
}
