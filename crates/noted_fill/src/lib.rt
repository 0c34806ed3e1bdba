// Fills in the records of a header that was judged and noted: from the notes, where they hold all records, and else by a second pass.
#![tactic(auto)]

ghost use Rattle.std.specs.Prelude.{◌<◌, length};
ghost use Rattle.octets.specs.Editions.{further};
ghost use Rattle.filling.specs.Filling.{ReadingFits, TablesFilled};
ghost use Rattle.noted_fill.specs.HeaderNoted.{HeaderNoted};

use kinds::Counts;
use octets::editions::Edition;
use records::{LINK_SLOTS, PARAM_SLOTS};

// Copies the notes if they are whole. The records of a header with more links or parameters than that are written by the second pass.
pub fn fill(
    edition: Edition,
    s: &[u8],
    counts: Counts,
    link_notes: &[u16],
    param_notes: &[u16],
    links: &mut [usize],
    params: &mut [usize],
)
    requires reading_fits { ReadingFits (further edition) s.now links.old params.old }
    requires header_noted { HeaderNoted (further edition) s.now counts link_notes.now param_notes.now × (length s.now < 65536) }
    ensures { TablesFilled (further edition) s.now
        links.old links.new params.old params.new }
{
    if counts.links <= link_notes.len() / LINK_SLOTS {
        if counts.params <= param_notes.len() / PARAM_SLOTS {
            notes::copy(link_notes, LINK_SLOTS * counts.links, links);
            notes::copy(param_notes, PARAM_SLOTS * counts.params, params);
            return;
        }
    }
    filling::fill(edition, s, links, params)
}
