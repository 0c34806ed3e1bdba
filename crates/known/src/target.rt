// A target that is known to be derived.
ghost use Rattle.grammar.specs.Grammar.{At, Target};
ghost use Rattle.known.specs.Known.{KnownTarget};

use blocks::past_blocks_without;
use cursor::Cursor;

// The `>` behind a target: none stands within it.
pub fn target_end(s: &[u8], from: Cursor) -> Cursor
    requires { KnownTarget s.now from.at.0 }
    ensures { Target s.now from.at.0 result.at.0 × At s.now result.at.0 62 }
{
    let mut c = Cursor {
        at: past_blocks_without::<b'>'>(s, from.at),
    };
    loop {
        if c.sees(s, b'>') {
            return c;
        }
        c = c.past_octet(s);
    }
}
