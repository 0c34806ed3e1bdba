// The phases of reading by their numbers, and what one octet leads to in each of them: where a header stands of which only a part has
// arrived. Numbers and no enum, since a feeding's state, which C holds from call to call, has its phase as a number that may be any.
#![tactic(auto)]

ghost use Rattle.std.specs.Prelude.{◌≡◌, cond};
ghost use Rattle.octets.specs.Editions.{further};
ghost use Rattle.octet_classes.specs.Sets.{is_in};
ghost use Rattle.octets.specs.Sets.{is_token};
ghost use Rattle.phases.specs.Steps.{first_of, token_or_blank, link_end_in, name_end_in, value_start_in, or_in, step_in, FollowsMachine};

use octet_classes::{Set, is_further, is_in};
use octets::editions::Edition;

pub mod spot;

// Between links.
pub const GAP: usize = 0;

// In a target, behind its `%`, and behind the first hex digit.
pub const TARGET: usize = 1;

pub const PERCENT: usize = 2;

pub const HEX: usize = 3;

// Behind a target or a parameter that is whole.
pub const AFTER: usize = 4;

// Behind `;`.
pub const SEMI: usize = 5;

// In a name, and in the blanks behind it.
pub const NAME: usize = 6;

pub const NAMED: usize = 7;

// Behind `=`.
pub const EQUALS: usize = 8;

// In a value without quotes, in one with quotes, and behind a backslash there.
pub const BARE: usize = 9;

pub const QUOTE: usize = 10;

pub const ESCAPE: usize = 11;

// Behind an octet that leads nowhere.
pub const STUCK: usize = 12;

// One of two octets, or one of a set, each with the phase that it leads to.
fn first_of(c: u8, a: u8, to_a: usize, b: u8, to_b: usize, set: Set, to_set: usize) -> usize
    ensures { result ≡ first_of a to_a b to_b (is_in set) to_set c }
{
    if c == a {
        return to_a;
    }
    if c == b {
        return to_b;
    }
    if is_in(set, c) {
        return to_set;
    }
    STUCK
}

// The one phase that may follow, if it does.
fn only(yes: bool, to: usize) -> usize
    ensures { result ≡ cond yes to 12 }
{
    if yes { to } else { STUCK }
}

// A token's octet, or a blank.
fn token_or_blank(c: u8, token: usize, blanks: usize) -> usize
    ensures { result ≡ token_or_blank token blanks c }
{
    if is_in(Set::Token, c) {
        return token;
    }
    if is_in(Set::Blank, c) {
        return blanks;
    }
    STUCK
}

// Where a link may be whole, with the phase of blanks there.
fn link_end(c: u8, blanks: usize) -> usize
    ensures { result ≡ link_end_in blanks c }
{
    first_of(c, b';', SEMI, b',', GAP, Set::Blank, blanks)
}

// Behind a name.
fn name_end(c: u8) -> usize
    ensures { result ≡ name_end_in c }
{
    if c == b'=' {
        return EQUALS;
    }
    link_end(c, NAMED)
}

// `to` where it leads on, else a bare value's phase, for an octet that the edition allows there beside a token's.
fn or_further(edition: Edition, to: usize, c: u8) -> usize
    ensures { result ≡ or_in (further edition) to c 9 }
{
    if to != STUCK {
        return to;
    }
    if is_further(edition, c) {
        return BARE;
    }
    STUCK
}

// Behind `=`.
fn value_start(edition: Edition, c: u8) -> usize
    ensures { result ≡ value_start_in (further edition) c }
{
    if c == b'"' {
        return QUOTE;
    }
    or_further(edition, token_or_blank(c, BARE, EQUALS), c)
}

// `end` where it leads on, else the token's phase, for an octet of a token.
fn or_token(end: usize, c: u8, token: usize) -> usize
    ensures { result ≡ or_in is_token end c token }
{
    if end != STUCK {
        return end;
    }
    if is_in(Set::Token, c) {
        return token;
    }
    STUCK
}

// The phase behind the octet. From a number that is no phase's nothing leads on. Mostly a run has just ended here, so single octets are
// tested before sets.
pub fn on(edition: Edition, phase: usize, c: u8) -> usize
    ensures { result ≡ step_in (further edition) phase c }
{
    match phase {
        GAP => first_of(c, b'<', TARGET, b',', GAP, Set::Blank, GAP),
        TARGET => first_of(c, b'>', AFTER, b'%', PERCENT, Set::Target, TARGET),
        PERCENT => only(is_in(Set::Hex, c), HEX),
        HEX => only(is_in(Set::Hex, c), TARGET),
        AFTER => link_end(c, AFTER),
        SEMI => token_or_blank(c, NAME, SEMI),
        NAME => or_token(name_end(c), c, NAME),
        NAMED => name_end(c),
        EQUALS => value_start(edition, c),
        BARE => or_further(edition, or_token(link_end(c, AFTER), c, BARE), c),
        QUOTE => first_of(c, b'"', AFTER, b'\\', ESCAPE, Set::Plain, QUOTE),
        ESCAPE => only(is_in(Set::Escapable, c), QUOTE),
        _ => STUCK,
    }
}

// A law, held by the gate: a phase goes on as the grammar's machine does.
pub fn follows_machine()
    ensures { FollowsMachine }
{}
