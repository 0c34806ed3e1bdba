// The line of a link that is resolved on a base, with its number, its target and its context, or why it is refused. Nothing is written out
// here.
#![tactic(auto)]

ghost use Rattle.std.specs.Prelude.{◌+◌, ◌≤◌, length};
ghost use Rattle.io.specs.Counts.{IsPrefixLen as Within};
ghost use Rattle.kinds.specs.Put.{Put};
ghost use Rattle.columns.specs.LineHolds.{octets_of, LineHolds};
ghost use Rattle.lines.specs.Line.{refusal_line};
ghost use Rattle.answers.specs.Refusal.{refusal_number};
ghost use Rattle.link_lines.specs.Held.{TargetHeld};
ghost use Rattle.link_lines.specs.Line.{answer_line, Holds, LineOn};
ghost use Rattle.link_lines.specs.Link.{LinkOn};
ghost use Rattle.lent.specs.Lent.{lent};

use answers::Refusal;
use answers::read_answer::ReadError;
use columns::Line;
use kinds::{Counts, LinkNumber, OutPlace, Span};
use lent::Table;
use putting::part::put_part;
use resolved::resolved_context;
use resolved_lines::put_line;
use resolving::resolve;

// How many octets a link's target and its context have, resolved; or why one of them is refused.
pub type LinkResolved = Result<(usize, usize), Refusal>;

// Resolves a link's target, and then its context.
pub fn resolve_link(
    edition: usize,
    t: &Table,
    base: &[u8],
    link: LinkNumber,
    target: &mut [u8],
    context: &mut [u8],
) -> LinkResolved
    requires { TargetHeld t.now.text.now t.now.links.now link.0 }
    ensures { LinkOn edition
        (lent t.now)
        base.now link.0 target.old context.old result target.new context.new }
{
    let part = records::link_at(t.links, link).target;
    let from = part.from.0;
    let to = part.to.0;
    let n = resolve(&t.text[from..to], base, target)?;
    let m = resolved_context(edition, t, base, link, context)?;
    Ok((n, m))
}

// The line of a link whose answer refuses, and of a base that is refused: that of such a header.
pub fn refused_line(why: Refusal) -> Line
    ensures { LineHolds result (refusal_line (refusal_number why) 0) }
{
    lines::refusal_line(Err(ReadError::Refused(why)).into())
}

// Puts a line that is known at a buffer's start, and answers its length.
fn copy_line(from: Line, line: &mut [u8]) -> usize
    requires { Within from.len from.octets × (from.len ≤ length line.old) }
    ensures put { Put line.old line.new 0 result (octets_of from) }
    ensures upper_bound { result ≤ length line.new }
{
    let octets = from.octets;
    let n = from.len;
    put_part(&octets[..n], Span::up_to(n), line, OutPlace::start()).0
}

// Puts the line of a link's answer at a buffer's start, and answers its length.
fn put_answer(
    link: LinkNumber,
    answer: LinkResolved,
    target: &[u8],
    context: &[u8],
    line: &mut [u8],
) -> usize
    requires holds { Holds answer target.now context.now }
    requires context_in_bounds { length target.now + length context.now + 160 ≤ length line.old }
    ensures put { Put line.old line.new 0 result (answer_line link.0 answer target.now context.now) }
    ensures upper_bound { result ≤ length line.new }
{
    match answer {
        Ok((n, m)) => put_line(link.0, &target[..n], &context[..m], line),
        Err(why) => copy_line(refused_line(why), line),
    }
}

// Resolves a link and puts its line at a buffer's start, and answers the line's length.
pub fn put_link(
    edition: usize,
    t: &Table,
    base: &[u8],
    link: LinkNumber,
    target: &mut [u8],
    context: &mut [u8],
    line: &mut [u8],
) -> usize
    requires target_held { TargetHeld t.now.text.now t.now.links.now link.0 }
    requires context_in_bounds { length target.old + length context.old + 160 ≤ length line.old }
    ensures line_on { LineOn edition
        (lent t.now)
        base.now link.0 target.old context.old target.new context.new
        line.old line.new result }
    ensures upper_bound { result ≤ length line.new }
{
    let answer = resolve_link(edition, t, base, link, target, context);
    put_answer(link, answer, target, context, line)
}
