// Where a reading stands. A cursor goes by value, and each move hands back the moved cursor.
#![tactic(auto)]

ghost use Rattle.std.specs.Prelude.{◌≡◌, ◌+◌, ◌≤◌, ◌<◌, length};
ghost use Rattle.octets.specs.Sets.{is_blank, is_token, is_plain, is_target};
ghost use Rattle.octets.specs.Editions.{further};
ghost use Rattle.octet_classes.specs.Sets.{is_in};
ghost use Rattle.grammar.specs.Grammar.{is_bare};
ghost use Rattle.cursor.specs.Passed.{Passed, Ended, Looked, LookedIn};

use kinds::{Place, Span};
use octet_classes::{Set, is_in};
use octets::editions::Edition;

#[derive(Clone, Copy)]
pub struct Cursor {
    pub at: Place,
}

impl Cursor {
    // At the text's first octet.
    pub fn start() -> Cursor
        ensures { result.at.0 ≡ 0 }
    {
        Cursor { at: Place(0) }
    }

    // Whether the octet c stands here.
    pub fn sees(self, s: &[u8], c: u8) -> bool
        ensures { Looked s.now self.at.0 c result }
    {
        let i = self.at.0;
        if i < s.len() {
            return s[i] == c;
        }
        false
    }

    // Whether an octet of the set stands here.
    pub fn sees_in(self, s: &[u8], set: Set) -> bool
        ensures { LookedIn (is_in set) s.now self.at.0 result }
    {
        let i = self.at.0;
        if i < s.len() {
            return is_in(set, s[i]);
        }
        false
    }

    // What stands from here up to another cursor.
    pub fn span_to(self, to: Cursor) -> Span
        ensures { (result.from.0 ≡ self.at.0) × (result.to.0 ≡ to.at.0) }
    {
        Span {
            from: Place(self.at.0),
            to: Place(to.at.0),
        }
    }

    // Past one octet.
    pub fn past_octet(self, s: &[u8]) -> Cursor
        requires { self.at.0 < length s.now }
        ensures { result.at.0 ≡ self.at.0 + 1 }
    {
        Cursor {
            at: Place(self.at.0 + 1),
        }
    }

    // Past a run of octets of a set. The place is counted beside the loop, so that both ways out of it have the same one: with two, the
    // compiler counts several numbers up in each turn.
    fn past(self, s: &[u8], set: Set) -> Cursor
        requires { self.at.0 ≤ length s.now }
        ensures { Passed (is_in set) s.now self.at.0 result.at.0 }
    {
        let mut end = self.at.0;
        for i in self.at.0..s.len() {
            if !is_in(set, s[i]) {
                return Cursor { at: Place(end) };
            }
            end += 1;
        }
        Cursor { at: Place(end) }
    }

    // Past a run of SP and HTAB.
    pub fn past_blanks(self, s: &[u8]) -> Cursor
        requires { self.at.0 ≤ length s.now }
        ensures { Passed is_blank s.now self.at.0 result.at.0 }
    {
        self.past(s, Set::Blank)
    }

    // Past a run of token octets.
    pub fn past_token(self, s: &[u8]) -> Cursor
        requires { self.at.0 ≤ length s.now }
        ensures { Passed is_token s.now self.at.0 result.at.0 }
    {
        self.past(s, Set::Token)
    }

    // Past what a value without quotes holds behind its token octets: in the older edition a run that begins with a further octet.
    pub fn past_further(self, s: &[u8], edition: Edition) -> Cursor
        requires { Ended is_token s.now self.at.0 }
        ensures { Passed (is_bare (further edition)) s.now self.at.0 result.at.0 }
    {
        match edition {
            Edition::Rfc8288 => self,
            Edition::Rfc5988 => self.past(s, Set::Ptoken),
        }
    }

    // Past a run of octets that stand for themselves in a target.
    pub fn past_target(self, s: &[u8]) -> Cursor
        requires { self.at.0 ≤ length s.now }
        ensures { Passed is_target s.now self.at.0 result.at.0 }
    {
        self.past(s, Set::Target)
    }

    // Past a run of octets that stand for themselves in a quoted string.
    pub fn past_plain(self, s: &[u8]) -> Cursor
        requires { self.at.0 ≤ length s.now }
        ensures { Passed is_plain s.now self.at.0 result.at.0 }
    {
        self.past(s, Set::Plain)
    }
}
