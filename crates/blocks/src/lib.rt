// Past blocks of 16 octets in which one octet doesn't stand.
#![tactic(auto)]

ghost use Rattle.std.specs.Prelude.{◌≡◌, ◌+◌, ◌≤◌, length};
ghost use Rattle.std.proofs.Math.Seq.{slice};
ghost use Rattle.octets.specs.Sets.{all};
ghost use Rattle.cursor.proofs.RunSoFar.{RunSoFar};
ghost use Rattle.blocks.specs.Others.{other_than};

use kinds::Place;

// Whether no octet of a block of 16 is C. No test branches, so that it becomes vector code.
fn none_is<const C: u8>(s: &[u8], at: usize) -> bool
    requires { at + 16 ≤ length s.now }
    ensures { result ≡ all (other_than C) (slice at (at + 16) s.now) }
{
    let mut none = true;
    for k in 0..16 {
        none = none & (s[at + k] != C);
    }
    none
}

// Past whole blocks without a C.
pub fn past_blocks_without<const C: u8>(s: &[u8], from: Place) -> Place
    requires { from.0 ≤ length s.now }
    ensures { RunSoFar (other_than C) s.now from.0 result.0 }
{
    let mut i = from.0;
    while 16 <= s.len() - i && none_is::<C>(s, i) {
        i += 16;
    }
    Place(i)
}
