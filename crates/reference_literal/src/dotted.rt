// The IPv4 address at the end of an IPv6 address: behind n dots, t says how its number may go on.
ghost use Rattle.std.specs.Prelude.{◌≡◌, ◌≤◌, ◌<◌};
ghost use Rattle.reference_steps.specs.Machine.{step, number, dotted, number_ends, in_dotted};
ghost use Rattle.reference_sets.specs.Sets.{of};

use crate::numbers::number;
use reference_sets::picking::{NOWHERE, pick};
use reference_sets::sets::is_digit;

fn one_digit_more(n: usize, t: usize, c: u8) -> usize
    requires { n < 10 }
    ensures { result ≡ dotted n (number (of c) t) }
{
    let u = number(t, c);
    pick(u == 0, NOWHERE, 60 + 6 * n + u)
}

// Behind a number.
fn number_ends(n: usize, c: u8) -> usize
    requires { n < 10 }
    ensures { result ≡ number_ends (of c) n }
{
    pick(
        (c == b'.') & (n < 3),
        60 + 6 * (n + 1),
        pick((c == b']') & (n == 3), 12, NOWHERE),
    )
}

fn dotted_at(n: usize, t: usize, c: u8) -> usize
    requires { n < 10 }
    ensures { result ≡ in_dotted (of c) n t }
{
    pick(
        is_digit(c),
        one_digit_more(n, t, c),
        pick(t == 0, NOWHERE, number_ends(n, c)),
    )
}

pub fn in_dotted(q: usize, c: u8) -> usize
    requires { (60 ≤ q) × (q < 100) }
    ensures { result ≡ step q c }
{
    let p = q - 60;
    dotted_at(p / 6, p % 6, c)
}
