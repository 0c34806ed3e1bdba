// The line of a walk's answer, put into a buffer. Nothing is written out here.
#![tactic(auto)]

ghost use Rattle.std.specs.Prelude.{[], ◌∷◌, ◌++◌, ◌+◌, ◌≤◌, length};
ghost use Rattle.kinds.specs.Put.{Put};
ghost use Rattle.columns.specs.Line.{tab};
ghost use Rattle.answers.specs.Refusal.{refusal_number};
ghost use Rattle.answers.specs.Walk.{end_of};
ghost use Rattle.walk_lines.specs.Line.{word_of, ended_line, refused_line};
ghost use Rattle.walk_lines.specs.Put.{PutLine};

use answers::Refusal;
use answers::walk_answer::{End, Ended, WalkAnswer};
use kinds::{OutPlace, PackNumber};
use pack_uri::uri_of;
use put_columns::{put_column, put_number};

// The most octets of a line but for its URI: the longest word, two numbers of 20 digits, and the octet behind each of the four columns.
pub const BESIDE_URI: usize = 53;

// The word of an end, and the tab behind it, at the line's start.
fn put_word(end: End, line: &mut [u8]) -> OutPlace
    requires { 10 ≤ length line.old }
    ensures put { Put line.old line.new 0 result.0 (word_of (end_of end) ++ (tab ∷ [])) }
    ensures result_bound { result.0 ≤ 10 }
{
    let start = OutPlace::start();
    match end {
        End::Arrived => put_column(b"arrived", b'\t', line, start),
        End::NoLink => put_column(b"no-link", b'\t', line, start),
        End::NoTarget => put_column(b"no-target", b'\t', line, start),
        End::NoPack => put_column(b"no-pack", b'\t', line, start),
    }
}

// The line of a walk that ended.
fn put_ended(end: End, pack: PackNumber, uri: &[u8], steps: usize, line: &mut [u8]) -> usize
    requires { length uri.now + 53 ≤ length line.old }
    ensures put { Put line.old line.new 0 result (ended_line (end_of end) pack.0 uri.now steps) }
    ensures upper_bound { result ≤ length line.new }
{
    let worded = put_word(end, line);
    let numbered = put_number(pack.0, b'\t', line, worded);
    let named = put_column(uri, b'\t', line, numbered);
    put_number(steps, b'\n', line, named).0
}

// The line of a walk that is refused.
fn put_refused(why: Refusal, line: &mut [u8]) -> usize
    requires { 53 ≤ length line.old }
    ensures put { Put line.old line.new 0 result (refused_line (refusal_number why)) }
    ensures upper_bound { result ≤ length line.new }
{
    let worded = put_column(b"refused", b'\t', line, OutPlace::start());
    put_number(why.into(), b'\n', line, worded).0
}

// Puts the line of a walk over the text at a buffer's start, and answers its length.
pub fn put_answer(text: &[u8], answer: WalkAnswer, line: &mut [u8]) -> usize
    requires { length text.now + 53 ≤ length line.old }
    ensures put_line { PutLine text.now line.old line.new result answer }
    ensures upper_bound { result ≤ length line.new }
{
    match answer {
        Ok(Ended { end, pack, steps }) => {
            let part = uri_of(text, pack);
            let from = part.from.0;
            let to = part.to.0;
            put_ended(end, pack, &text[from..to], steps, line)
        }
        Err(why) => put_refused(why, line),
    }
}
