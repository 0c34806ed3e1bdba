// Tests of the sets of octets that the machine's states share, and of those that are passed in runs.
ghost use Rattle.std.specs.Prelude.{◌≡◌};
ghost use Rattle.references.specs.Octets.{has, ALPHA, DIGIT};
ghost use Rattle.reference_steps.specs.Machine.{plain, in_scheme};
ghost use Rattle.reference_sets.specs.Sets.{of, is_path};
ghost use Rattle.reference_sets.specs.Runs.{in_run};

use octet_classes::{Set, is_in};

pub fn is_digit(c: u8) -> bool
    ensures { result ≡ has DIGIT c }
{
    (b'0' <= c) & (c <= b'9')
}

pub fn is_alpha(c: u8) -> bool
    ensures { result ≡ has ALPHA c }
{
    ((b'A' <= c) & (c <= b'Z')) | ((b'a' <= c) & (c <= b'z'))
}

// An octet of a path or a query, and so of a fragment: what a target may hold, but none of three delimiters.
pub fn is_path(c: u8) -> bool
    ensures { result ≡ is_path c }
{
    is_in(Set::Target, c) & (c != b'#') & (c != b'[') & (c != b']')
}

// Userinfo, host and segments have these in common: no delimiter that stands in a path or a query.
pub fn is_plain(c: u8) -> bool
    ensures { result ≡ plain (of c) }
{
    is_path(c) & (c != b':') & (c != b'@') & (c != b'/') & (c != b'?')
}

pub fn is_scheme(c: u8) -> bool
    ensures { result ≡ in_scheme (of c) }
{
    is_alpha(c) | is_digit(c) | (c == b'+') | (c == b'-') | (c == b'.')
}

// The runs that keep a state: of a path, a query or a fragment; of an authority, or the host in it; its port; a scheme; a first segment
// that can't be a scheme.
#[derive(Clone, Copy)]
pub enum Run {
    Path,
    Host,
    Port,
    Scheme,
    Segment,
}

// Whether the octet is of such a run.
pub fn is_in_run(run: Run, c: u8) -> bool
    ensures { result ≡ in_run run c }
{
    match run {
        Run::Path => is_path(c),
        Run::Host => is_plain(c),
        Run::Port => is_digit(c),
        Run::Scheme => is_scheme(c),
        Run::Segment => is_plain(c) | (c == b'@'),
    }
}
