// Resolves the links of a header on a base, and lists them on standard output: each with its number, its target and its context, or why it
// is refused. The lines are those of the crate `link_lines`; what is done here is to hand them out.
#![tactic(auto)]

ghost use Rattle.std.specs.Prelude.{◌+◌, ◌≤◌, length};
ghost use Rattle.outcomes.specs.Read.{Read};
ghost use Rattle.answers.specs.Read.{read_numbers, read_out};
ghost use Rattle.link_lines.specs.Held.{TargetsHeld};
ghost use Rattle.resolve_listing.specs.Base.{TellsBase};

use answers::read_answer::ReadAnswer;
use answers::{LIMIT, Refusal};
use judging::is_uri;
use kinds::LinkNumber;
use lent::Table;
use link_lines::{put_link, refused_line};

// Whether links can be resolved on the base, or why not.
pub fn tell_base(base: &[u8]) -> Result<(), Refusal>
    ensures { TellsBase base.now result }
{
    if base.len() > LIMIT {
        return Err(Refusal::TooLong);
    }
    if !is_uri(base) {
        return Err(Refusal::BadBase);
    }
    Ok(())
}

// Hands out the line of each link.
fn put_links(
    edition: usize,
    t: &Table,
    base: &[u8],
    target: &mut [u8],
    context: &mut [u8],
    line: &mut [u8],
)
    requires targets_held { TargetsHeld t.now.text.now t.now.links.now t.now.counts.links }
    requires context_in_bounds { length target.old + length context.old + 160 ≤ length line.old }
{
    let first = LinkNumber::first();
    for i in 0..t.counts.links {
        let link = first.plus(i);
        let n = put_link(edition, t, base, link, target, context, line);
        io::write_all(1, &line[..n]);
    }
}

// Hands out the line of each link, or why there is none.
fn put_on_base(
    edition: usize,
    t: &Table,
    base: &[u8],
    target: &mut [u8],
    context: &mut [u8],
    line: &mut [u8],
)
    requires targets_held { TargetsHeld t.now.text.now t.now.links.now t.now.counts.links }
    requires context_in_bounds { length target.old + length context.old + 160 ≤ length line.old }
{
    match tell_base(base) {
        Err(why) => listing::put(refused_line(why)),
        Ok(()) => put_links(edition, t, base, target, context, line),
    }
}

// Reads the header into the lent tables, lists its links resolved on the base, and hands reading's answer on. A target, a context and a
// line are made in the lent buffers.
pub fn list(
    edition: usize,
    header: &[u8],
    base: &[u8],
    links: &mut [usize],
    params: &mut [usize],
    target: &mut [u8],
    context: &mut [u8],
    line: &mut [u8],
) -> ReadAnswer
    requires { length target.old + length context.old + 160 ≤ length line.old }
    ensures { Read edition header.now links.old params.old
        (read_out (read_numbers result) links.new params.new) }
{
    let answer = reader::read(edition, header, links, params);
    if let Ok(counts) = answer {
        let t = Table {
            text: header,
            links,
            params,
            counts,
        };
        put_on_base(edition, &t, base, target, context, line);
        return answer;
    }
    listing::put(lines::refusal_line(answer.into()));
    answer
}
