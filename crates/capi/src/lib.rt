// The entries for C. Each asks an entry of the library and hands on the numbers of its answer. A slice is passed as a pointer and
// a count, and bare numbers become link numbers and counts here.
#![tactic(auto)]

ghost use Rattle.std.specs.Prelude.{cond, ◌≡◌};
ghost use Rattle.answers.specs.Feed.{feed_out, state_of};
ghost use Rattle.answers.specs.Length.{length_out};
ghost use Rattle.answers.specs.Read.{read_out};
ghost use Rattle.answers.specs.Search.{search_out};
ghost use Rattle.capi.specs.ContextTold.{ContextTold};
ghost use Rattle.grammar.specs.Kept.{code_of};
ghost use Rattle.octets.specs.Fold.{folded, same_folded, pairs_compared};
ghost use Rattle.outcomes.specs.Copy.{Copy};
ghost use Rattle.outcomes.specs.Decode.{Decode};
ghost use Rattle.outcomes.specs.Feeding.{start, Feeds, Finishes};
ghost use Rattle.outcomes.specs.Read.{Read};
ghost use Rattle.outcomes.specs.Resolve.{Resolve};
ghost use Rattle.outcomes.specs.ResolvedContext.{ResolvedContext};
ghost use Rattle.outcomes.specs.Search.{Search};
ghost use Rattle.outcomes.specs.Title.{Titles};
ghost use Rattle.outcomes.specs.Write.{Write};
ghost use Rattle.tables.specs.Table.{table_of};
ghost use Rattle.catalogues.specs.Outcome.{Walk, room_of, LeftFree};
ghost use Rattle.pack_walk.specs.Walked.{walk_out};

use answers::context_answer::ContextNumbers;
use answers::feed_answer::{FeedNumbers, Feeding};
use answers::length_answer::LengthNumbers;
use answers::read_answer::ReadNumbers;
use answers::search_answer::SearchNumbers;
use answers::walk_answer::WalkNumbers;
use folding::CompareNumbers;
use kinds::{Counts, LinkNumber, PackNumber};
use lent::Table;

// Both counts of a table.
fn counts_of(links: usize, params: usize) -> Counts
    ensures { result ≡ record { links = links; params = params } }
{
    Counts { links, params }
}

// Reads a header.
#[unsafe(no_mangle)]
pub extern "C" fn capstan_read(
    edition: usize,
    header: &[u8],
    links: &mut [usize],
    params: &mut [usize],
) -> ReadNumbers
    ensures { Read edition header.now links.old params.old
        (read_out result links.new params.new) }
{
    reader::read(edition, header, links, params).into()
}

// Searches a table for a link by relation.
#[unsafe(no_mangle)]
pub extern "C" fn capstan_search(
    edition: usize,
    text: &[u8],
    links: &[usize],
    params: &[usize],
    link_count: usize,
    param_count: usize,
    relation: &[u8],
) -> SearchNumbers
    ensures { Search edition
        (table_of text.now links.now params.now link_count param_count)
        relation.now (search_out result) }
{
    let counts = counts_of(link_count, param_count);
    let t = Table {
        text,
        links,
        params,
        counts,
    };
    search::search(edition, &t, relation).into()
}

// Tells where a link's context lies, in the text or in the base.
#[unsafe(no_mangle)]
pub extern "C" fn capstan_context(
    edition: usize,
    text: &[u8],
    base: &[u8],
    links: &[usize],
    params: &[usize],
    link_count: usize,
    param_count: usize,
    link: usize,
) -> ContextNumbers
    ensures { ContextTold edition
        (table_of text.now links.now params.now link_count param_count)
        base.now link result }
{
    let counts = counts_of(link_count, param_count);
    let t = Table {
        text,
        links,
        params,
        counts,
    };
    let number = LinkNumber(link);
    let answer = context::context_number(edition, &t, base, number);
    ContextNumbers::of(answer, base.len())
}

// Copies the meaning of the value of the parameter at `place` within the link, counted from 0.
#[unsafe(no_mangle)]
pub extern "C" fn capstan_value(
    edition: usize,
    text: &[u8],
    links: &[usize],
    params: &[usize],
    link_count: usize,
    param_count: usize,
    link: usize,
    place: usize,
    out: &mut [u8],
) -> LengthNumbers
    ensures { Copy edition
        (table_of text.now links.now params.now link_count param_count)
        link place out.old (length_out result out.new) }
{
    let counts = counts_of(link_count, param_count);
    let t = Table {
        text,
        links,
        params,
        counts,
    };
    let number = LinkNumber(link);
    copy::value(edition, &t, number, place, out).into()
}

// Writes a table.
#[unsafe(no_mangle)]
pub extern "C" fn capstan_write(
    edition: usize,
    text: &[u8],
    links: &[usize],
    params: &[usize],
    link_count: usize,
    param_count: usize,
    out: &mut [u8],
) -> LengthNumbers
    ensures { Write edition
        (table_of text.now links.now params.now link_count param_count)
        out.old (length_out result out.new) }
{
    let counts = counts_of(link_count, param_count);
    let t = Table {
        text,
        links,
        params,
        counts,
    };
    writer::write(edition, &t, out).into()
}

// Writes the title of a link: what its `title*` gives, or its `title` means.
#[unsafe(no_mangle)]
pub extern "C" fn capstan_title(
    edition: usize,
    text: &[u8],
    links: &[usize],
    params: &[usize],
    link_count: usize,
    param_count: usize,
    link: usize,
    out: &mut [u8],
) -> LengthNumbers
    ensures { Titles edition
        (table_of text.now links.now params.now link_count param_count)
        link out.old (length_out result out.new) }
{
    let counts = counts_of(link_count, param_count);
    let t = Table {
        text,
        links,
        params,
        counts,
    };
    let number = LinkNumber(link);
    titles::title(edition, &t, number, out).into()
}

// Writes what one extended value gives.
#[unsafe(no_mangle)]
pub extern "C" fn capstan_decode(value: &[u8], out: &mut [u8]) -> LengthNumbers
    ensures { Decode value.now out.old (length_out result out.new) }
{
    titles::decode(value, out).into()
}

// Writes what a reference gives on a base.
#[unsafe(no_mangle)]
pub extern "C" fn capstan_resolve(reference: &[u8], base: &[u8], out: &mut [u8]) -> LengthNumbers
    ensures { Resolve reference.now base.now out.old (length_out result out.new) }
{
    resolving::resolve(reference, base, out).into()
}

// Writes the resolved context of a link.
#[unsafe(no_mangle)]
pub extern "C" fn capstan_resolved_context(
    edition: usize,
    text: &[u8],
    base: &[u8],
    links: &[usize],
    params: &[usize],
    link_count: usize,
    param_count: usize,
    link: usize,
    out: &mut [u8],
) -> LengthNumbers
    ensures { ResolvedContext edition
        (table_of text.now links.now params.now link_count param_count)
        base.now link out.old (length_out result out.new) }
{
    let counts = counts_of(link_count, param_count);
    let t = Table {
        text,
        links,
        params,
        counts,
    };
    let number = LinkNumber(link);
    resolved::resolved_context(edition, &t, base, number, out).into()
}

// Walks so many steps over a catalogue, from the pack numbered `start`.
#[unsafe(no_mangle)]
pub extern "C" fn capstan_walk(
    catalogue: &[u8],
    start: usize,
    steps: i32,
    links: &mut [usize],
    params: &mut [usize],
    work: &mut [u8],
) -> WalkNumbers
    ensures walk { Walk catalogue.now (room_of links.old params.old work.old) start steps (walk_out result) }
    ensures left_free { LeftFree links.old params.old work.old links.new params.new work.new }
{
    let from = PackNumber(start);
    walking::walk(catalogue, from, steps, links, params, work).into()
}

// Begins a feeding.
#[unsafe(no_mangle)]
pub extern "C" fn capstan_start(edition: usize) -> Feeding
    ensures { state_of result ≡ start edition }
{
    feeding::start(edition)
}

// Takes one part more of a header.
#[unsafe(no_mangle)]
pub extern "C" fn capstan_feed(state: Feeding, part: &[u8], buffer: &mut [u8]) -> FeedNumbers
    ensures { Feeds (state_of state) part.now buffer.old (feed_out result buffer.new)
        (state_of result.next) }
{
    feeding::feed(state, part, buffer).into()
}

// Reads the header whose parts were taken.
#[unsafe(no_mangle)]
pub extern "C" fn capstan_finish(
    state: Feeding,
    buffer: &[u8],
    links: &mut [usize],
    params: &mut [usize],
) -> ReadNumbers
    ensures { Finishes (state_of state) buffer.now links.old params.old
        (read_out result links.new params.new) }
{
    feeding::finish(state, buffer, links, params).into()
}

// Tells the code of a parameter's name.
#[unsafe(no_mangle)]
pub extern "C" fn capstan_name_code(name: &[u8]) -> usize
    ensures { result ≡ code_of (folded name.now) }
{
    names::code_of(name)
}

// Compares two texts as names compare, and tells how many pairs of octets were compared.
#[unsafe(no_mangle)]
pub extern "C" fn capstan_compare(a: &[u8], b: &[u8]) -> CompareNumbers
    ensures same_value { result.same ≡ cond (same_folded a.now b.now) 1 0 }
    ensures pairs_value { result.pairs ≡ pairs_compared a.now b.now }
{
    folding::compare(a, b).into()
}
