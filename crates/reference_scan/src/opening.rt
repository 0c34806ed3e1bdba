// How most references begin: with a slash and a path, or with `https://` or `http://` and behind it a block of 16 octets that holds the
// host and, mostly, where its path begins.
ghost use Rattle.std.specs.Prelude.{◌≡◌, true, ◌+◌, ◌≤◌, length};
ghost use Rattle.reference_scan.specs.Common.{is_hosted};
ghost use Rattle.reference_scan.specs.Comes.{Comes};

use crate::{Judged, judged_up_to};
use reference_sets::sets::is_path;

fn sees_http(s: &[u8], i: usize) -> bool
    requires { i + 4 ≤ length s.now }
    ensures { result ≡ true → Comes s.now i 0 (i + 4) 1 }
{
    (s[i] == b'h') & (s[i + 1] == b't') & (s[i + 2] == b't') & (s[i + 3] == b'p')
}

fn sees_slashes(s: &[u8], i: usize) -> bool
    requires { i + 3 ≤ length s.now }
    ensures { result ≡ true → Comes s.now i 1 (i + 3) 5 }
{
    (s[i] == b':') & (s[i + 1] == b'/') & (s[i + 2] == b'/')
}

// How many octets such a beginning has; 0 where there is none.
fn opening(s: &[u8], i: usize) -> usize
    requires { i + 8 ≤ length s.now }
    ensures { (result ≡ 0 → ⊥) → Comes s.now i 0 (i + result) 5 }
{
    if !sees_http(s, i) {
        return 0;
    }
    if s[i + 4] == b's' {
        if sees_slashes(s, i + 5) {
            return 8;
        }
        return 0;
    }
    if sees_slashes(s, i + 4) {
        return 7;
    }
    0
}

// Whether a path begins here with its slash, and no authority.
fn sees_root(s: &[u8], i: usize) -> bool
    requires { i ≤ length s.now }
    ensures { result ≡ true → Comes s.now i 0 (i + 2) 13 }
{
    if s.len() - i < 2 {
        return false;
    }
    let c = s[i + 1];
    (s[i] == b'/') & (c != b'/') & is_path(c)
}

// Past what begins a reference here, if that is one of these.
pub fn past_opening(s: &[u8], i: usize, q: usize) -> Judged
    requires { i ≤ length s.now }
    ensures { Comes s.now i q result.at.at.0 result.state }
{
    if q != 0 {
        return judged_up_to(i, q);
    }
    if sees_root(s, i) {
        return judged_up_to(i + 2, 13);
    }
    if s.len() - i < 8 {
        return judged_up_to(i, q);
    }
    let n = opening(s, i);
    if n == 0 {
        return judged_up_to(i, q);
    }
    judged_up_to(i + n, 5)
}

// Most octets of a host and of the path behind it, without the colon.
fn is_hosted(c: u8) -> bool
    ensures { result ≡ is_hosted c }
{
    let letter = ((b'A' <= c) & (c <= b'Z')) | ((b'a' <= c) & (c <= b'z'));
    letter | ((b'&' <= c) & (c <= b'9')) | (c == b'=') | (c == b'?') | (c == b'_')
}

// The state behind a block that holds nothing else: a host still, or a path; and 5 for any other block.
fn state_behind(s: &[u8], at: usize) -> usize
    requires { at + 16 ≤ length s.now }
    ensures { (result ≡ 5 → ⊥) → Comes s.now at 5 (at + 16) result }
{
    let mut all = true;
    let mut host = true;
    for k in 0..16 {
        let c = s[at + k];
        all = all & is_hosted(c);
        host = host & (c != b'/') & (c != b'?');
    }
    if !all {
        return 5;
    }
    if host {
        return 6;
    }
    13
}

// Past a block behind the slashes, if it holds nothing but octets of a host and of a path.
pub fn past_first_block(s: &[u8], i: usize, q: usize) -> Judged
    requires { i ≤ length s.now }
    ensures { Comes s.now i q result.at.at.0 result.state }
{
    if q != 5 {
        return judged_up_to(i, q);
    }
    if s.len() - i < 16 {
        return judged_up_to(i, q);
    }
    let behind = state_behind(s, i);
    if behind == 5 {
        return judged_up_to(i, q);
    }
    judged_up_to(i + 16, behind)
}
