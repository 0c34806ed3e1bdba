// Runs of octets, and of triples, that keep a state.
ghost use Rattle.std.specs.Prelude.{◌≡◌, true, ◌||◌, ◌+◌, ◌≤◌, eqb, length};
ghost use Rattle.reference_sets.specs.Sets.{is_path};
ghost use Rattle.reference_sets.specs.Runs.{in_run};
ghost use Rattle.reference_scan.specs.Passed.{Passed};
ghost use Rattle.reference_scan.specs.Comes.{Comes};

use crate::blocks::{all_common, count_common};
use octet_classes::{Set, is_in};
use reference_sets::sets::{Run, is_in_run};

// Past a run of octets.
fn past_each(s: &[u8], from: usize, run: Run) -> usize
    requires { from ≤ length s.now }
    ensures { Passed (in_run run) s.now from result }
{
    let mut i = from;
    while i < s.len() && is_in_run(run, s[i]) {
        i += 1;
    }
    i
}

// Past whole blocks of octets of a path or a query.
pub fn past_blocks(s: &[u8], from: usize) -> usize
    requires { from ≤ length s.now }
    ensures { Passed is_path s.now from result }
{
    let mut i = from;
    while 16 <= s.len() - i && all_common(s, i) {
        i += 16;
    }
    i
}

// Where a block begins that holds the octet at i or, at the text's end, the last octets before it too.
fn block_at(i: usize, end: usize) -> usize
    requires { (i ≤ end) × (16 ≤ end) }
    ensures { (result ≤ i) × (result + 16 ≤ end) }
{
    if 16 <= end - i {
        return i;
    }
    end - 16
}

// Past octets of a path or a query, block by block. Where fewer are left than a block has, the text's last block is looked at, some of
// which is passed already; only where that tells nothing, they go octet by octet.
fn past_path(s: &[u8], from: usize) -> usize
    requires { from ≤ length s.now }
    ensures { Passed is_path s.now from result }
{
    let i = past_blocks(s, from);
    let end = s.len();
    if 16 <= end {
        let at = block_at(i, end);
        let k = at + count_common(s, at);
        if i <= k {
            return k;
        }
    }
    past_each(s, i, Run::Path)
}

// Whether a triple stands here, in a path, a query or a fragment.
fn sees_triple(s: &[u8], i: usize, q: usize) -> bool
    requires { (i ≤ length s.now) × ((eqb q 13 || eqb q 15) ≡ true) }
    ensures { result ≡ true → (i + 3 ≤ length s.now) × Comes s.now i q (i + 3) q }
{
    if s.len() - i < 3 {
        return false;
    }
    (s[i] == b'%') & is_in(Set::Hex, s[i + 1]) & is_in(Set::Hex, s[i + 2])
}

// Past octets and triples of a path or a query, or of a fragment.
fn past_units(s: &[u8], from: usize, q: usize) -> usize
    requires { (from ≤ length s.now) × ((eqb q 13 || eqb q 15) ≡ true) }
    ensures { Comes s.now from q result q }
{
    let mut i = past_path(s, from);
    while sees_triple(s, i, q) {
        i = past_path(s, i + 3);
    }
    i
}

// Past what keeps the state, where it has such a run: a path, a query or a fragment; an authority, or the host in it; its port, which is
// of digits; a scheme; a first segment that can't be a scheme, of plain octets and `@`.
pub fn past_run(s: &[u8], i: usize, q: usize) -> usize
    requires { i ≤ length s.now }
    ensures { Comes s.now i q result q }
{
    if (q == 13) | (q == 15) {
        return past_units(s, i, q);
    }
    if (q == 6) | (q == 10) {
        return past_each(s, i, Run::Host);
    }
    if (q == 7) | (q == 11) {
        return past_each(s, i, Run::Port);
    }
    if q == 1 {
        return past_each(s, i, Run::Scheme);
    }
    if q == 2 {
        return past_each(s, i, Run::Segment);
    }
    i
}
