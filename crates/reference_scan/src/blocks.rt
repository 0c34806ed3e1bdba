// Blocks of 16 octets, tested by comparisons that become vector code: no test of an octet branches, and a block is gone through to its end.
ghost use Rattle.std.specs.Prelude.{◌≡◌, ◌+◌, ◌≤◌, length};
ghost use Rattle.std.proofs.Math.Seq.{slice};
ghost use Rattle.octets.specs.Sets.{all};
ghost use Rattle.reference_sets.specs.Sets.{is_path};
ghost use Rattle.reference_scan.specs.Common.{is_common};
ghost use Rattle.reference_scan.specs.Passed.{Passed};

// Most octets of a path or a query: all but `!` and `$`, so that the test stays short.
fn is_common(c: u8) -> bool
    ensures { result ≡ is_common c }
{
    let letter = ((b'A' <= c) & (c <= b'Z')) | ((b'a' <= c) & (c <= b'z'));
    let other = (c == b'=') | (c == b'?') | (c == b'_') | (c == b'@') | (c == b'~');
    letter | ((b'&' <= c) & (c <= b';')) | other
}

// Whether all octets of a block are such. Not by the crate `blocks`, whose test asks for one octet, a const parameter: a set's test would go
// in as a closure, with a ghost function for what it tells, which is no plainer.
pub fn all_common(s: &[u8], at: usize) -> bool
    requires { at + 16 ≤ length s.now }
    ensures { result ≡ all is_common (slice at (at + 16) s.now) }
{
    let mut all = true;
    for k in 0..16 {
        all = all & is_common(s[at + k]);
    }
    all
}

fn least(m: u8, n: u8) -> u8
    ensures { (result ≤ m) × (result ≤ n) }
{
    if n < m { n } else { m }
}

// How many octets of a block stand before the first that is none.
pub fn count_common(s: &[u8], at: usize) -> usize
    requires { at + 16 ≤ length s.now }
    ensures { Passed is_path s.now at (at + result) }
{
    let mut first: u8 = 16;
    for n in 0..16 {
        first = least(first, (is_common(s[at + n]) as u8) * 16 + (n as u8));
    }
    first as usize
}
