// Attribute characters and triples of an extended value, read in place: without the backslashes of a quoted string, or as they stand.
#![tactic(auto)]

ghost use Rattle.std.specs.Prelude.{◌≡◌, true, ◌≤◌, ◌<◌, length};
ghost use Rattle.octets.specs.Sets.{is_hex};
ghost use Rattle.extended.specs.Value.{is_attribute, hex_value, tripled};
ghost use Rattle.extended.specs.Decoded.{no_triple, behind_percent, behind_digit};
ghost use Rattle.units.specs.Seen.{ReadAt, Looked};
ghost use Rattle.units.specs.Units.{IsTriple, IsUnit};

use kinds::Place;
use octet_classes::{Set, is_in};
use values::meant_at;

// How a text is read: without its backslashes, so that the octet behind each stands for itself, or as it stands.
#[derive(Clone, Copy)]
pub enum Reading {
    Unescaped,
    AsItStands,
}

// An octet given and the place behind what gave it; or that nothing is left; or that something else stands there. No Result of an Option
// stands here, since it is no plainer: its `Ok(None)` and its `Err` wouldn't tell by their names which of these is the end.
#[derive(Clone, Copy)]
pub enum Given {
    Gives(u8, Place),
    Done,
    Wrong,
}

// Where the octet stands that is read at place k: behind a backslash, unless the text is read as it stands.
fn read_at(s: &[u8], k: Place, e: Place, how: Reading) -> Place
    requires { (k.0 < e.0) × (e.0 ≤ length s.now) }
    ensures { ReadAt how s.now e.0 k.0 result.0 }
{
    match how {
        Reading::Unescaped => meant_at(s, k, e),
        Reading::AsItStands => k,
    }
}

// The octet that is read at place k of a part that ends at e, and the place behind it. But for a backslash it is the one there.
pub fn look(s: &[u8], k: Place, e: Place, how: Reading) -> Option<(u8, Place)>
    requires { e.0 ≤ length s.now }
    ensures { Looked how s.now e.0 k.0 result }
{
    if k.0 >= e.0 {
        return None;
    }
    let here = k.0;
    let c = s[here];
    if c != b'\\' {
        return Some((c, k.next()));
    }
    let p = read_at(s, k, e, how);
    if p.0 >= e.0 {
        return None;
    }
    let at = p.0;
    Some((s[at], p.next()))
}

// An attribute character: an octet of a token, but none of `*`, `'` and `%`.
pub fn is_attribute(c: u8) -> bool
    ensures { result ≡ is_attribute c }
{
    is_in(Set::Token, c) & (c != b'*') & (c != b'\'') & (c != b'%')
}

// The number of a hex digit: a letter's last four bits count from 1, and stand for 10 on.
fn hex_value(c: u8) -> u8
    requires { is_hex c ≡ true }
    ensures { (result ≡ hex_value c) × (result ≤ 15) }
{
    c % 16 + 9 * (c / 64)
}

// The octet that a triple with these digits gives.
fn tripled_octet(a: u8, b: u8) -> u8
    requires { (is_hex a ≡ true) × (is_hex b ≡ true) }
    ensures { result ≡ tripled a b }
{
    16 * hex_value(a) + hex_value(b)
}

// The octet of a triple, behind its `%` and its first digit a, and the place behind it.
fn second_digit(s: &[u8], k: Place, e: Place, how: Reading, a: u8) -> Option<(u8, Place)>
    requires { (e.0 ≤ length s.now) × (is_hex a ≡ true) }
    ensures { IsTriple (behind_digit a) how s.now e.0 k.0 result }
{
    let (b, n) = look(s, k, e, how)?;
    if !is_in(Set::Hex, b) {
        return None;
    }
    Some((tripled_octet(a, b), n))
}

// The octet of a triple, behind its `%`, and the place behind it.
fn first_digit(s: &[u8], k: Place, e: Place, how: Reading) -> Option<(u8, Place)>
    requires { e.0 ≤ length s.now }
    ensures { IsTriple behind_percent how s.now e.0 k.0 result }
{
    let (a, n) = look(s, k, e, how)?;
    if !is_in(Set::Hex, a) {
        return None;
    }
    second_digit(s, n, e, how, a)
}

// What stands at place k.
pub fn unit(s: &[u8], k: Place, e: Place, how: Reading) -> Given
    requires { e.0 ≤ length s.now }
    ensures { IsUnit no_triple how s.now e.0 k.0 result }
{
    let Some((c, n)) = look(s, k, e, how) else {
        return Given::Done;
    };
    if c == b'%' {
        return match first_digit(s, n, e, how) {
            Some((x, m)) => Given::Gives(x, m),
            None => Given::Wrong,
        };
    }
    if !is_attribute(c) {
        return Given::Wrong;
    }
    Given::Gives(c, n)
}
