// The start and the steps that two words ask for. A word that is no number asks for one that no walk takes.
#![tactic(auto)]

ghost use Rattle.std.specs.Prelude.{◌≡◌, true, ◌+◌, ◌-◌, ◌*◌, ◌≤◌, min};
ghost use Rattle.octets.specs.Sets.{is_digit};
ghost use Rattle.walk_words.specs.Words.{number_up_to, start_of, steps_of};

use kinds::PackNumber;

// The most digits of a start, and of steps.
pub const START_DIGITS: usize = 20;

pub const STEPS_DIGITS: usize = 10;

// More steps than a walk may have.
const MANY: usize = 65;

fn is_digit(c: u8) -> bool
    ensures { result ≡ is_digit c }
{
    (b'0' <= c) & (c <= b'9')
}

// The number with one digit more, but no more than `most`.
fn with_digit(n: usize, c: u8, most: usize) -> usize
    requires { is_digit c ≡ true }
    ensures { result ≡ min (10 * n + (c - 48)) most }
{
    let digit = (c - b'0') as usize;
    if n > most / 10 {
        return most;
    }
    let tens = 10 * n;
    if digit > most - tens {
        return most;
    }
    tens + digit
}

// The number of a word of so many digits, but no more than `most`.
fn number_up_to(word: &[u8], digits: usize, most: usize) -> usize
    ensures { (result ≡ number_up_to digits most word.now) × (result ≤ most) }
{
    if word.len() == 0 {
        return most;
    }
    if word.len() > digits {
        return most;
    }
    let mut n = 0;
    for &c in word {
        if !is_digit(c) {
            return most;
        }
        n = with_digit(n, c, most);
    }
    n
}

// The pack to start from.
pub fn start_of(word: &[u8]) -> PackNumber
    ensures { result.0 ≡ start_of word.now }
{
    PackNumber(number_up_to(word, START_DIGITS, usize::MAX))
}

// How many steps to take, and which way.
pub fn steps_of(word: &[u8]) -> i32
    ensures { result ≡ steps_of word.now }
{
    if word.len() == 0 {
        return MANY as i32;
    }
    if word[0] == b'-' {
        return -(number_up_to(&word[1..], STEPS_DIGITS, MANY) as i32);
    }
    number_up_to(word, STEPS_DIGITS, MANY) as i32
}
