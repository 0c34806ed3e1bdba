// The five components of a text (RFC 3986, section 3) as places in it, found through its backslashes: the text is cut at the first of
// some octets, the way of RFC 3986's Appendix B. Each octet is looked at a few times at most.
#![tactic(auto)]

ghost use Rattle.std.specs.Prelude.{◌≡◌, ◌≤◌, length};
ghost use Rattle.octets.specs.Sets.{one_of};
ghost use Rattle.tables.specs.Good.{InText};
ghost use Rattle.components.specs.Cuts.{CutsOf};
ghost use Rattle.components.specs.Looks.{stops_of, TellsAt, Plain, Found};
ghost use Rattle.components.specs.Steps.{SchemeCut, AuthorityCut, QueryCut};

use bare::past;
use kinds::{Place, Span};

// Where a text's first octet is, and where it goes on behind its scheme, behind its authority, behind its path, and behind its query. The
// first three are moved past backslashes, so that two places are the same just if what lies between them isn't there.
#[derive(Clone, Copy)]
pub struct Cuts {
    pub from: Place,
    pub scheme: Place,
    pub path: Place,
    pub query: Place,
    pub fragment: Place,
}

// What ends a component: for a scheme one of `:/?#`, for an authority one of `/?#`, for a path one of `?#`, for a query `#`.
#[derive(Clone, Copy)]
enum Stops {
    Scheme,
    Authority,
    Path,
    Query,
}

// Whether the octet is one of those that end the component.
fn stops_at(stops: Stops, c: u8) -> bool
    ensures { result ≡ one_of (stops_of stops) c }
{
    match stops {
        Stops::Scheme => (c == b':') | (c == b'/') | (c == b'?') | (c == b'#'),
        Stops::Authority => (c == b'/') | (c == b'?') | (c == b'#'),
        Stops::Path => (c == b'?') | (c == b'#'),
        Stops::Query => c == b'#',
    }
}

// Where the first octet that ends the component stands, or `to`.
fn find(s: &[u8], from: Place, to: Place, stops: Stops) -> Place
    requires { InText s.now from.0 to.0 }
    ensures { Found (stops_of stops) s.now from.0 to.0 result.0 }
{
    for i in from.0..to.0 {
        if stops_at(stops, s[i]) {
            return Place(i);
        }
    }
    to
}

// Whether the octet c stands at this place, and before `to`.
fn is_at(s: &[u8], at: Place, to: Place, c: u8) -> bool
    requires { to.0 ≤ length s.now }
    ensures { TellsAt result s.now at.0 to.0 c }
{
    let i = at.0;
    i < to.0 && s[i] == c
}

// Where a text goes on behind its scheme, which ends at the first of `:/?#` if that is a colon; without one, `from`.
fn past_scheme(s: &[u8], from: Place, to: Place) -> Place
    requires { InText s.now from.0 to.0 × Plain s.now from.0 to.0 }
    ensures { SchemeCut s.now from.0 to.0 result.0 }
{
    let end = find(s, from, to, Stops::Scheme);
    if !is_at(s, end, to, b':') {
        return from;
    }
    past(s, end.next(), to)
}

// Where a text goes on behind two slashes and an authority; without them, `from`.
fn past_authority(s: &[u8], from: Place, to: Place) -> Place
    requires { InText s.now from.0 to.0 × Plain s.now from.0 to.0 }
    ensures { AuthorityCut s.now from.0 to.0 result.0 }
{
    if !is_at(s, from, to, b'/') {
        return from;
    }
    let second = past(s, from.next(), to);
    if !is_at(s, second, to, b'/') {
        return from;
    }
    let end = find(s, second.next(), to, Stops::Authority);
    past(s, end, to)
}

// Where a text goes on behind a question mark and a query; without them, `from`.
fn past_query(s: &[u8], from: Place, to: Place) -> Place
    requires { InText s.now from.0 to.0 × Plain s.now from.0 to.0 }
    ensures { QueryCut s.now from.0 to.0 result.0 }
{
    if !is_at(s, from, to, b'?') {
        return from;
    }
    find(s, from.next(), to, Stops::Query)
}

// The components of a part of a text, read without its backslashes.
pub fn cut(s: &[u8], part: Span) -> Cuts
    requires { InText s.now part.from.0 part.to.0 }
    ensures { CutsOf s.now part.from.0 part.to.0 result }
{
    let to = part.to;
    let from = past(s, part.from, to);
    let scheme = past_scheme(s, from, to);
    let path = past_authority(s, scheme, to);
    let query = find(s, path, to, Stops::Path);
    let fragment = past_query(s, query, to);
    Cuts {
        from,
        scheme,
        path,
        query,
        fragment,
    }
}
