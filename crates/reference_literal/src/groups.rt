// An IPv6 address: z is 1 behind `::`, g groups are finished, d digits of the next are read, t is how its number may go on.
ghost use Rattle.std.specs.Prelude.{◌≡◌, ◌≤◌, ◌<◌};
ghost use Rattle.reference_steps.specs.Machine.{step, grouped, fits4, group_begins, group_goes_on, more_digits, group_ends, address_ends, in_group};
ghost use Rattle.reference_sets.specs.Sets.{of};
ghost use Rattle.reference_literal.specs.Groups.{Grouped};

use crate::numbers::number;
use octet_classes::{Set, is_in};
use reference_sets::picking::{NOWHERE, pick};

fn state_at(z: usize, g: usize, d: usize, t: usize) -> usize
    requires { (z < 10) × (g < 10) × (d < 10) × (t < 10) }
    ensures { result ≡ grouped z g d t }
{
    100 + ((8 * z + g) * 5 + d) * 6 + t
}

// Whether an IPv4 address may take the place of the last two groups.
fn dotted_may(z: usize, g: usize) -> bool
    ensures { result ≡ fits4 z g }
{
    if z == 0 {
        return g == 6;
    }
    g <= 5
}

// Behind the first hex digit of a group, and behind a later one.
fn first_digit(z: usize, g: usize, c: u8) -> usize
    requires { (z ≤ 1) × (g ≤ 7) }
    ensures { result ≡ group_begins (of c) z g }
{
    pick(
        g + z <= 7,
        state_at(z, g, 1, pick(dotted_may(z, g), number(0, c), 0)),
        NOWHERE,
    )
}

fn later_digit(z: usize, g: usize, d: usize, t: usize, c: u8) -> usize
    requires { Grouped z g d t }
    ensures { result ≡ group_goes_on (of c) z g d t }
{
    pick(
        d < 4,
        state_at(z, g, d + 1, pick(t == 0, 0, number(t, c))),
        NOWHERE,
    )
}

pub fn more_digits(z: usize, g: usize, d: usize, t: usize, c: u8) -> usize
    requires { Grouped z g d t }
    ensures { result ≡ more_digits (of c) z g d t }
{
    pick(d == 0, first_digit(z, g, c), later_digit(z, g, d, t, c))
}

// Behind a colon.
fn group_ends(z: usize, g: usize, d: usize, t: usize) -> usize
    requires { Grouped z g d t }
    ensures { result ≡ group_ends z g d t }
{
    let elided = pick((t == 0) & (z == 0), state_at(1, g, 0, 1), NOWHERE);
    let ended = pick(g + 1 + z <= 7, state_at(z, g + 1, 0, 0), NOWHERE);
    pick(d == 0, elided, ended)
}

// Behind a bracket.
fn address_ends(z: usize, g: usize, d: usize, t: usize) -> usize
    ensures { result ≡ address_ends z g d t }
{
    if d == 0 {
        return pick(t == 1, 12, NOWHERE);
    }
    pick((z == 1) | (g == 7), 12, NOWHERE)
}

fn group_at(z: usize, g: usize, d: usize, t: usize, c: u8) -> usize
    requires { Grouped z g d t }
    ensures { result ≡ in_group (of c) z g d t }
{
    if is_in(Set::Hex, c) {
        return more_digits(z, g, d, t, c);
    }
    if c == b':' {
        return group_ends(z, g, d, t);
    }
    if c == b']' {
        return address_ends(z, g, d, t);
    }
    pick((c == b'.') & (0 < d) & (0 < t), 66, NOWHERE)
}

pub fn in_group(q: usize, c: u8) -> usize
    requires { (100 ≤ q) × (q < 580) }
    ensures { result ≡ step q c }
{
    let p = q - 100;
    group_at(p / 240, p / 30 % 8, p / 6 % 5, p % 6, c)
}
