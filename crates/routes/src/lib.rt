// A result laid out in parts of a base and of a text with the reference: measured first, then written once.
#![tactic(auto)]

ghost use Rattle.std.specs.Prelude.{◌≡◌, ◌-◌, ◌≤◌, ◌++◌, length};
ghost use Rattle.kinds.specs.Put.{Put};
ghost use Rattle.resolution.specs.Walking.{run, at_end};
ghost use Rattle.routes.specs.Laid.{part, path_laid, laid, Lies, Measured};

use bare::{bare_len, put_bare};
use dot_walk::{walk, write};
use kinds::{OutPlace, Place, Span};
use putting::part::put_part;
use resolution::Walk;

// The base up to `head`; of the text what stands before the path; the path, of which `folder` stands in the base and `own` behind it in the
// text; and of the text what stands behind the path. Backslashes of the text are passed over.
#[derive(Clone, Copy)]
pub struct Route {
    pub head: Place,
    pub front: Span,
    pub folder: Span,
    pub own: Span,
    pub tail: Span,
}

// Where the path ends in the result, and how long the result is.
#[derive(Clone, Copy)]
pub struct Lengths {
    pub path: usize,
    pub whole: usize,
}

// How a path's right end is left.
const AT_END: Walk = Walk {
    pending: 0,
    kind: 0,
    kept: 0,
};

// Left of the whole path.
fn left_of_path(base: &[u8], s: &[u8], r: Route) -> Walk
    requires { Lies base.now s.now r × (length base.now ≤ 8192) × (length s.now ≤ 8192) }
    ensures { result ≡ run (part base.now r.folder ++ part s.now r.own) at_end }
{
    let own = walk(s, r.own, AT_END);
    walk(base, r.folder, own)
}

// Measures the result.
pub fn measure(base: &[u8], s: &[u8], r: Route) -> Lengths
    requires { Lies base.now s.now r × (length base.now ≤ 8192) × (length s.now ≤ 8192) }
    ensures { Measured base.now s.now r result }
{
    let path = left_of_path(base, s, r).kept;
    let behind_path = r.head.0 + bare_len(s, r.front) + path;
    Lengths {
        path: behind_path,
        whole: behind_path + bare_len(s, r.tail),
    }
}

// Writes the path so that it ends at `end`.
fn put_path(base: &[u8], s: &[u8], r: Route, out: &mut [u8], end: OutPlace)
    requires lies { Lies base.now s.now r × (length base.now ≤ 8192) × (length s.now ≤ 8192) }
    requires r_len_bound { (length (path_laid base.now s.now r) ≤ end.0) × (end.0 ≤ length out.old) }
    ensures { Put out.old out.new (end.0 - length (path_laid base.now s.now r)) end.0
        (path_laid base.now s.now r) }
{
    let own = write(s, r.own, AT_END, out, end);
    write(base, r.folder, own, out, end);
}

// Writes the result.
pub fn put_result(base: &[u8], s: &[u8], r: Route, n: Lengths, out: &mut [u8])
    requires lies { Lies base.now s.now r × (length base.now ≤ 8192) × (length s.now ≤ 8192) }
    requires measured { Measured base.now s.now r n × (n.whole ≤ length out.old) }
    ensures { Put out.old out.new 0 n.whole (laid base.now s.now r) }
{
    // by its fields: with `Span::up_to` the proof of each part behind it would rewrite this span
    let head = Span {
        from: Place(0),
        to: r.head,
    };
    let front = r.front;
    let tail = r.tail;
    let end = OutPlace(n.path);
    let begin = OutPlace(0);
    let behind = put_part(base, head, out, begin);
    put_bare(s, front, out, behind);
    put_path(base, s, r, out, end);
    put_bare(s, tail, out, end);
}
