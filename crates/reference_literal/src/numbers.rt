// A number up to 255 without leading zeros, as an IPv4 address has four of.
ghost use Rattle.std.specs.Prelude.{◌≡◌};
ghost use Rattle.reference_steps.specs.Machine.{first_digit, second_digit, later_digit, number};
ghost use Rattle.reference_sets.specs.Sets.{of};

use reference_sets::picking::pick;
use reference_sets::sets::is_digit;

// How the number may go on behind its first digit.
fn first_digit(c: u8) -> usize
    ensures { result ≡ first_digit (of c) }
{
    pick(
        (b'1' <= c) & (c <= b'9'),
        pick(c == b'1', 4, pick(c == b'2', 5, 2)),
        1,
    )
}

// The same behind a `2`.
fn second_digit(c: u8) -> usize
    ensures { result ≡ second_digit (of c) }
{
    pick((b'0' <= c) & (c <= b'4'), 2, pick(c == b'5', 3, 1))
}

// The same behind any digits.
fn later_digit(t: usize, c: u8) -> usize
    ensures { result ≡ later_digit (of c) t }
{
    let third = pick((b'0' <= c) & (c <= b'5'), 1, 0);
    pick(
        t == 2,
        1,
        pick(
            t == 3,
            third,
            pick(t == 4, 2, pick(t == 5, second_digit(c), 0)),
        ),
    )
}

// How the number may go on behind one digit more, by how it might before.
pub fn number(t: usize, c: u8) -> usize
    ensures { result ≡ number (of c) t }
{
    pick(
        is_digit(c),
        pick(t == 0, first_digit(c), later_digit(t, c)),
        0,
    )
}
