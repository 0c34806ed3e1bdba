// The states outside of triples and IP literals.
ghost use Rattle.std.specs.Prelude.{◌≡◌, ◌≤◌, ◌<◌};
ghost use Rattle.reference_steps.specs.Machine.{step, behind_path, path_on, port_on, first_segment, in_path, in_authority, in_host};
ghost use Rattle.reference_sets.specs.Sets.{of};

use reference_sets::picking::{NOWHERE, pick};
use reference_sets::sets::{is_alpha, is_digit, is_path, is_plain, is_scheme};

fn behind_path(c: u8) -> usize
    ensures { result ≡ behind_path (of c) }
{
    pick(c == b'?', 13, pick(c == b'#', 15, NOWHERE))
}

// Behind an authority, and behind a first segment.
fn path_on(c: u8) -> usize
    ensures { result ≡ path_on (of c) }
{
    pick(c == b'/', 13, behind_path(c))
}

fn port_on(c: u8) -> usize
    ensures { result ≡ port_on (of c) }
{
    pick(c == b':', 11, path_on(c))
}

fn first_segment(c: u8) -> usize
    ensures { result ≡ first_segment (of c) }
{
    pick(
        is_plain(c) | (c == b'@'),
        2,
        pick(c == b'%', 18, path_on(c)),
    )
}

// In a path or a query.
fn in_path(c: u8) -> usize
    ensures { result ≡ in_path (of c) }
{
    pick(
        is_path(c),
        13,
        pick(c == b'%', 29, pick(c == b'#', 15, NOWHERE)),
    )
}

fn in_authority(c: u8) -> usize
    ensures { result ≡ in_authority (of c) }
{
    pick(
        is_plain(c),
        6,
        pick(
            c == b'%',
            22,
            pick(c == b':', 7, pick(c == b'@', 9, path_on(c))),
        ),
    )
}

fn in_host(c: u8) -> usize
    ensures { result ≡ in_host (of c) }
{
    pick(is_plain(c), 10, pick(c == b'%', 26, port_on(c)))
}

fn at_start(c: u8) -> usize
    ensures { result ≡ step 0 c }
{
    let segment = pick(
        is_plain(c) | (c == b'@'),
        2,
        pick(c == b'%', 18, pick(c == b'/', 4, behind_path(c))),
    );
    pick(is_alpha(c), 1, segment)
}

// Behind a colon and digits of an authority, and where it has become userinfo.
fn in_port_or_user(c: u8) -> usize
    ensures { result ≡ step 7 c }
{
    let behind = pick(c == b'%', 24, pick(c == b'@', 9, path_on(c)));
    pick(is_digit(c), 7, pick(is_plain(c) | (c == b':'), 8, behind))
}

fn in_user(c: u8) -> usize
    ensures { result ≡ step 8 c }
{
    pick(
        is_plain(c) | (c == b':'),
        8,
        pick(c == b'%', 24, pick(c == b'@', 9, NOWHERE)),
    )
}

fn in_fragment(c: u8) -> usize
    ensures { result ≡ step 15 c }
{
    pick(is_path(c), 15, pick(c == b'%', 31, NOWHERE))
}

// Up to the slashes before an authority.
fn in_beginning(q: usize, c: u8) -> usize
    requires { q < 5 }
    ensures { result ≡ step q c }
{
    match q {
        0 => at_start(c),
        1 => pick(is_scheme(c), 1, pick(c == b':', 3, first_segment(c))),
        2 => first_segment(c),
        3 => pick(c == b'/', 4, in_path(c)),
        _ => pick(c == b'/', 5, in_path(c)),
    }
}

// Where userinfo may still come, or has come.
fn before_at(q: usize, c: u8) -> usize
    requires { (5 ≤ q) × (q < 9) }
    ensures { result ≡ step q c }
{
    match q {
        5 => pick(c == b'[', 48, in_authority(c)),
        6 => in_authority(c),
        7 => in_port_or_user(c),
        _ => in_user(c),
    }
}

fn behind_at(q: usize, c: u8) -> usize
    requires { (9 ≤ q) × (q < 13) }
    ensures { result ≡ step q c }
{
    match q {
        9 => pick(c == b'[', 48, in_host(c)),
        10 => in_host(c),
        11 => pick(is_digit(c), 11, path_on(c)),
        _ => port_on(c),
    }
}

// Each of the states below 16; 14 is none.
pub fn outer(q: usize, c: u8) -> usize
    requires { q < 16 }
    ensures { result ≡ step q c }
{
    if q == 13 {
        return in_path(c);
    }
    if q < 5 {
        return in_beginning(q, c);
    }
    if q < 9 {
        return before_at(q, c);
    }
    if q < 13 {
        return behind_at(q, c);
    }
    if q == 15 {
        return in_fragment(c);
    }
    NOWHERE
}
