// Where the octets of a resolved reference stand (RFC 3986, section 5.2): in the base, and in the text with the reference.
#![tactic(auto)]

ghost use Rattle.std.specs.Prelude.{◌≡◌, ◌<◌, [], ◌∷◌, length};
ghost use Rattle.tables.specs.Good.{InText};
ghost use Rattle.references.proofs.Clear.{Free};
ghost use Rattle.references.specs.Components.{split};
ghost use Rattle.bare.specs.Bare.{bare_of};
ghost use Rattle.components.specs.Cuts.{CutsOf};
ghost use Rattle.routing.specs.Folders.{FolderEnds, Roots};
ghost use Rattle.routing.specs.Plans.{Plans, up_to, route_of};
ghost use Rattle.routing.specs.Routed.{Routed};

use components::{Cuts, cut};
use kinds::{Place, Span};
use leading_dots::trim;
use routes::Route;

// What a base gives to a result: its octets up to `head`, and what is put before the reference's path.
#[derive(Clone, Copy)]
struct Plan {
    head: Place,
    folder: Span,
}

// The place behind the last slash of the part, or `from`.
fn folder_end(s: &[u8], from: Place, to: Place) -> Place
    requires { InText s.now from.0 to.0 }
    ensures { FolderEnds s.now from.0 to.0 result.0 }
{
    for i in (from.0..to.0).rev() {
        if s[i] == b'/' {
            return Place(i + 1);
        }
    }
    from
}

// What is put before a path that is merged with the base's: the base's folder; or, behind an authority and no path, a slash, for which the
// authority's first stands.
fn root(base: &[u8], b: Cuts) -> Span
    requires { CutsOf base.now 0 (length base.now) b × Free (92 ∷ []) base.now }
    ensures { Roots base.now (split base.now) result }
{
    let scheme = b.scheme;
    let path = b.path;
    let query = b.query;
    if query.0 == path.0 && scheme.0 < path.0 {
        return Span {
            from: scheme,
            to: scheme.next(),
        };
    }
    Span {
        from: path,
        to: folder_end(base, path, query),
    }
}

// The base up to a place, and nothing before the path.
fn up_to(head: Place) -> Plan
    ensures { result ≡ up_to head }
{
    Plan {
        head,
        folder: Span {
            from: head,
            to: head,
        },
    }
}

// What the base gives to a reference whose path isn't empty and that has neither scheme nor authority.
fn by_path(base: &[u8], b: Cuts, s: &[u8], part: Span, r: Cuts) -> Plan
    requires cuts_of { CutsOf base.now 0 (length base.now) b × Free (92 ∷ []) base.now }
    requires in_text { InText s.now part.from.0 part.to.0 × CutsOf s.now part.from.0 part.to.0 r }
    requires scheme_value { (r.scheme.0 ≡ r.from.0) × (r.path.0 ≡ r.scheme.0) × (r.path.0 < r.query.0) }
    ensures { Plans base.now (bare_of s.now part.from.0 part.to.0) result }
{
    let head = b.path;
    let at = r.path.0;
    if s[at] == b'/' {
        return up_to(head);
    }
    Plan {
        head,
        folder: root(base, b),
    }
}

// What the base gives to a reference.
fn planned(base: &[u8], b: Cuts, s: &[u8], part: Span, r: Cuts) -> Plan
    requires cuts_of { CutsOf base.now 0 (length base.now) b × Free (92 ∷ []) base.now }
    requires in_text { InText s.now part.from.0 part.to.0 × CutsOf s.now part.from.0 part.to.0 r }
    ensures { Plans base.now (bare_of s.now part.from.0 part.to.0) result }
{
    if r.scheme.0 != r.from.0 {
        return up_to(Place(0));
    }
    if r.path.0 != r.scheme.0 {
        return up_to(b.scheme);
    }
    if r.path.0 < r.query.0 {
        return by_path(base, b, s, part, r);
    }
    if r.query.0 < r.fragment.0 {
        return up_to(b.query);
    }
    up_to(b.fragment)
}

// The parts of a result by its plan, its path from these places on.
fn route_of(part: Span, r: Cuts, p: Plan, folder: Place, own: Place) -> Route
    ensures { result ≡ route_of part r p folder own }
{
    let head = p.head;
    let merged = p.folder;
    let last = merged.to;
    let begin = part.from;
    let path = r.path;
    let query = r.query;
    let end = part.to;
    Route {
        head,
        front: Span {
            from: begin,
            to: path,
        },
        folder: Span {
            from: folder,
            to: last,
        },
        own: Span {
            from: own,
            to: query,
        },
        tail: Span {
            from: query,
            to: end,
        },
    }
}

// The parts of a result without the dots that its path begins with: those of the folder, and, only if all of it goes, of the reference's own
// path too.
fn lay(base: &[u8], s: &[u8], part: Span, r: Cuts, p: Plan) -> Route
    requires free { Free (92 ∷ []) base.now }
    requires in_text { InText s.now part.from.0 part.to.0 × CutsOf s.now part.from.0 part.to.0 r }
    requires plans { Plans base.now (bare_of s.now part.from.0 part.to.0) p }
    ensures { Routed base.now s.now part.from.0 part.to.0 result }
{
    let folder = p.folder;
    let path = r.path;
    let query = r.query;
    let from = trim(base, folder);
    if from.0 < folder.to.0 {
        return route_of(part, r, p, from, path);
    }
    let own = Span {
        from: path,
        to: query,
    };
    route_of(part, r, p, from, trim(s, own))
}

// Where the octets of the resolved reference stand: in the base, and in the part of the text s with the reference.
pub fn route(base: &[u8], s: &[u8], part: Span) -> Route
    requires { InText s.now part.from.0 part.to.0 × Free (92 ∷ []) base.now }
    ensures { Routed base.now s.now part.from.0 part.to.0 result }
{
    let whole = Span {
        from: Place(0),
        to: Place(base.len()),
    };
    let b = cut(base, whole);
    let r = cut(s, part);
    let p = planned(base, b, s, part, r);
    lay(base, s, part, r, p)
}
