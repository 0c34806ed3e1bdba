// Outside of targets, from phase to phase: past a run of octets that leave the phase as it is, and past the one behind them, which mostly
// doesn't. A phase is all that is carried from octet to octet, so that the compiled loop keeps it in a register.
ghost use Rattle.std.specs.Prelude.{◌≡◌, false, ℕ, ◌≤◌, length};
ghost use Rattle.grammar.specs.Grammar.{Extra};
ghost use Rattle.octets.specs.Editions.{further};
ghost use Rattle.phases.specs.Spots.{is_open};
ghost use Rattle.part_scan.specs.Moved.{Stays};
ghost use Rattle.part_scan.specs.Stepping.{Stepped};

use cursor::Cursor;
use kinds::Place;
use octet_classes::Set;
use octets::editions::Edition;
use phases::on;

// The phase at the text's end, the place of an octet that leads nowhere, the cursor behind the `<` of a target, or the phase and the cursor
// behind another octet.
// A `Result` would be no plainer: to open a target ends the way outside as well as it goes on, and whoever calls takes all four apart.
#[derive(Clone, Copy)]
pub enum Step {
    End(usize),
    Halt(Place),
    Open(Cursor),
    To(usize, Cursor),
}

// Inside quotes, past octets that stand for themselves and past pairs, as in every edition.
fn past_quoted(s: &[u8], from: Cursor) -> Cursor
    requires { from.at.0 ≤ length s.now }
    ensures { (extra : Extra) (base : ℕ) → Stays extra s.now base 10 from.at.0 result.at.0 }
{
    let mut c = from.past_plain(s);
    while c.sees(s, b'\\') {
        let d = c.past_octet(s);
        if !d.sees_in(s, Set::Escapable) {
            return c;
        }
        c = d.past_octet(s).past_plain(s);
    }
    c
}

// Past the octet that stands here.
fn beyond(edition: Edition, s: &[u8], phase: usize, c: Cursor) -> Step
    requires { (c.at.0 ≤ length s.now) × (is_open phase ≡ false) }
    ensures { Stepped (further edition) s.now phase c.at.0 result }
{
    let at = c.at;
    let i = at.0;
    if i >= s.len() {
        return Step::End(phase);
    }
    let next = on(edition, phase, s[i]);
    if next == phases::STUCK {
        return Step::Halt(at);
    }
    if next == phases::TARGET {
        return Step::Open(c.past_octet(s));
    }
    Step::To(next, c.past_octet(s))
}

// Each phase by itself, so that what follows a run is compiled for the phase that it is in.
fn pass(edition: Edition, s: &[u8], phase: usize, c: Cursor) -> Step
    requires { (c.at.0 ≤ length s.now) × (is_open phase ≡ false) }
    ensures { Stepped (further edition) s.now phase c.at.0 result }
{
    match phase {
        phases::GAP => beyond(edition, s, phase, c.past_blanks(s)),
        phases::AFTER => beyond(edition, s, phase, c.past_blanks(s)),
        phases::SEMI => beyond(edition, s, phase, c.past_blanks(s)),
        phases::NAME => beyond(edition, s, phase, c.past_token(s)),
        phases::NAMED => beyond(edition, s, phase, c.past_blanks(s)),
        phases::EQUALS => beyond(edition, s, phase, c.past_blanks(s)),
        phases::BARE => beyond(edition, s, phase, c.past_token(s)),
        phases::QUOTE => beyond(edition, s, phase, past_quoted(s, c)),
        _ => beyond(edition, s, phase, c),
    }
}

// On to where a target opens, if nothing ends the way before.
pub fn outside(edition: Edition, s: &[u8], from: usize, start: Cursor) -> Step
    requires { (start.at.0 ≤ length s.now) × (is_open from ≡ false) }
    ensures { Stepped (further edition) s.now from start.at.0 result }
{
    let mut phase = from;
    let mut c = start;
    loop {
        match pass(edition, s, phase, c) {
            Step::End(last) => {
                return Step::End(last);
            }
            Step::Halt(at) => {
                return Step::Halt(at);
            }
            Step::Open(d) => {
                return Step::Open(d);
            }
            Step::To(next, d) => {
                phase = next;
                c = d;
            }
        }
    }
}
