// How a value is written: bare or in quotes, and in how many octets.
#![tactic(auto)]

ghost use Rattle.std.specs.Prelude.{◌≡◌, ◌+◌, ◌≤◌, length};
ghost use Rattle.grammar.specs.Grammar.{Inside};
ghost use Rattle.octets.specs.Editions.{further};
ghost use Rattle.octets.specs.declared.editions.Edition.TheVariants.{Rfc5988};
ghost use Rattle.outcomes.specs.Number.{limit};
ghost use Rattle.records.specs.Slots.{to_param};
ghost use Rattle.tables.specs.Good.{InText, GoodParam};
ghost use Rattle.tables.specs.Meaning.{value_of};
ghost use Rattle.tables.specs.Written.{is_token_text, written_value};
ghost use Rattle.values.specs.Rest.{rest};
ghost use Rattle.shape.specs.Shape.{escaped_len, len_for};

use kinds::Span;
use octet_classes::{Set, is_in};
use records::ParamParts;

// The form of a value that is a token.
const TOKEN: usize = 1;

// The form of a quoted string.
const QUOTED: usize = 2;

// How many octets a value takes that has n when it is escaped, and whose octets are all token octets or not.
fn len_for(n: usize, tokens: bool) -> usize
    requires { n ≤ limit }
    ensures { result ≡ len_for n tokens }
{
    if (n > 0) & tokens { n } else { n + 2 }
}

// How many backslashes are dropped before an octet: `"` and a backslash keep the one that they stand behind.
fn dropped_before(c: u8) -> usize
    ensures { result + escaped_len c ≡ 2 }
{
    if (c == b'"') | (c == b'\\') { 0 } else { 1 }
}

// How many octets the inside of a quoted string takes, once written: those of its span, less the backslashes that are dropped.
fn quoted_len(s: &[u8], part: Span) -> usize
    requires in_text { InText s.now part.from.0 part.to.0 }
    requires inside { Inside s.now part.from.0 part.to.0 }
    requires s_len_bound { length s.now ≤ limit }
    ensures { result ≡ length (written_value (rest s.now part.to.0 part.from.0)) }
{
    let e = part.to;
    let mut dropped = 0;
    let mut tokens = true;
    let mut k = part.from;
    // A turn passes one octet, or a backslash and the octet behind it, so no `for` fits.
    while k.0 < e.0 {
        let h = k.0;
        let c = s[h];
        if c == b'\\' {
            let p = k.next();
            let i = p.0;
            let d = s[i];
            dropped += dropped_before(d);
            tokens = tokens & is_in(Set::Token, d);
            k = p.next();
            continue;
        }
        tokens = tokens & is_in(Set::Token, c);
        k = k.next();
    }
    len_for(part.len() - dropped, tokens)
}

// How many octets a parameter's value takes. A token takes as many as it has; an empty value where there is none, and a bare one that is
// no token, 2 more for quotes: none of them is looked at.
pub fn value_len(text: &[u8], p: ParamParts) -> usize
    requires good_param { GoodParam (further Rfc5988) text.now (to_param p) }
    requires text_len_bound { length text.now ≤ limit }
    ensures { result ≡ length (written_value (value_of text.now (to_param p))) }
{
    if p.form == TOKEN {
        return p.value.len();
    }
    if p.form == QUOTED {
        return quoted_len(text, p.value);
    }
    p.value.len() + 2
}

// Whether what the part means is a token. The first octet that isn't a token's decides.
fn means_token(s: &[u8], part: Span) -> bool
    requires { InText s.now part.from.0 part.to.0 }
    ensures { result ≡ is_token_text (rest s.now part.to.0 part.from.0) }
{
    let a = part.from;
    let e = part.to;
    let mut k = a;
    // A turn passes one octet, or a backslash and the octet behind it, so no `for` fits.
    while k.0 < e.0 {
        let h = k.0;
        let c = s[h];
        if is_in(Set::Token, c) {
            k = k.next();
            continue;
        }
        if c != b'\\' {
            return false;
        }
        let p = k.next();
        if p.0 >= e.0 {
            return k.0 > a.0;
        }
        let i = p.0;
        if !is_in(Set::Token, s[i]) {
            return false;
        }
        k = p.next();
    }
    k.0 > a.0
}

// Whether a parameter's value stands bare.
pub fn is_bare(text: &[u8], p: ParamParts) -> bool
    requires { GoodParam (further Rfc5988) text.now (to_param p) }
    ensures { result ≡ is_token_text (value_of text.now (to_param p)) }
{
    if p.form == TOKEN {
        return true;
    }
    means_token(text, p.value)
}
