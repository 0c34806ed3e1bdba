// The line of a pack: an absolute-URI, a tab, a Link value and LF. The Link value isn't judged here.
#![tactic(auto)]

ghost use Rattle.std.specs.Prelude.{◌≡◌, ◌+◌, ◌≤◌, length};
ghost use Rattle.cursor.specs.Passed.{Passed};
ghost use Rattle.pack_lines.specs.Lines.{in_uri, in_value, LineRead};

use blocks::past_blocks_without;
use judging::is_uri;
use kinds::Place;
use pack_index::PackPlaces;

// Whether the octet may stand in the URI of a line: the tab ends it, and no absolute-URI has an LF or a `#`.
fn is_in_uri(c: u8) -> bool
    ensures { result ≡ in_uri c }
{
    (c != b'\t') & (c != b'\n') & (c != b'#')
}

// Past octets of a URI.
fn past_uri(s: &[u8], from: Place) -> Place
    requires { from.0 ≤ length s.now }
    ensures { Passed in_uri s.now from.0 result.0 }
{
    for i in from.0..s.len() {
        if !is_in_uri(s[i]) {
            return Place(i);
        }
    }
    Place(s.len())
}

// Past all octets of a Link value, up to the LF that ends its line.
fn past_value(s: &[u8], from: Place) -> Place
    requires { from.0 ≤ length s.now }
    ensures { Passed in_value s.now from.0 result.0 }
{
    let passed = past_blocks_without::<b'\n'>(s, from);
    for i in passed.0..s.len() {
        if s[i] == b'\n' {
            return Place(i);
        }
    }
    Place(s.len())
}

// The places of the pack whose line begins here, or none if no line does.
pub fn line_at(s: &[u8], from: Place) -> Option<PackPlaces>
    requires { from.0 ≤ length s.now }
    ensures { LineRead s.now from.0 result }
{
    let n = s.len();
    let tab = past_uri(s, from);
    let t = tab.0;
    if t >= n {
        return None;
    }
    if s[t] != b'\t' {
        return None;
    }
    let end = past_value(s, Place(t + 1));
    if end.0 >= n {
        return None;
    }
    let f = from.0;
    if !is_uri(&s[f..t]) {
        return None;
    }
    Some(PackPlaces { from, tab, end })
}
