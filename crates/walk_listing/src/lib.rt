// A walk that is asked for by words, and the line that tells it. Nothing is written out here.
#![tactic(auto)]

ghost use Rattle.std.specs.Prelude.{◌+◌, ◌≤◌, length};
ghost use Rattle.io.specs.Counts.{IsPrefixLen as Within};
ghost use Rattle.catalogues.specs.Outcome.{room_of};
ghost use Rattle.walk_words.specs.Words.{start_of, steps_of};
ghost use Rattle.walk_listing.specs.Told.{WalkTold};

use walk_lines::put_answer;
use walk_words::{start_of, steps_of};
use walking::walk;

// Walks over the text, puts the line at a buffer's start, and answers its length.
pub fn tell_walk(
    text: &[u8],
    start: &[u8],
    steps: &[u8],
    links: &mut [usize],
    params: &mut [usize],
    work: &mut [u8],
    line: &mut [u8],
) -> usize
    requires { length text.now + 53 ≤ length line.old }
    ensures walk_told { WalkTold text.now (room_of links.old params.old work.old)
        (start_of start.now) (steps_of steps.now) line.old line.new result }
    ensures within { Within result line.new }
{
    let answer = walk(text, start_of(start), steps_of(steps), links, params, work);
    put_answer(text, answer, line)
}
