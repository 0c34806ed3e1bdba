// The pack that a link's target leads to.
#![tactic(auto)]

ghost use Rattle.std.specs.Prelude.{[], ◌∷◌, ◌≤◌, length};
ghost use Rattle.tables.specs.Good.{InText};
ghost use Rattle.grammar.specs.Targets.{ReferenceAt};
ghost use Rattle.references.proofs.Clear.{Free};
ghost use Rattle.outcomes.specs.Number.{limit};
ghost use Rattle.target_steps.specs.Stepped.{Stands, LeadsTo};

use answers::LIMIT;
use answers::walk_answer::End;
use kinds::{PackNumber, Span};
use pack_index::Packs;
use resolving::put_resolved;

// The pack that a target leads to, resolved on the URI of another, or why there is none.
pub fn target_pack(
    p: &Packs,
    uri: &[u8],
    value: &[u8],
    target: Span,
    work: &mut [u8],
) -> Result<PackNumber, End>
    requires stands { Stands p.now.text.now p.now.index.now p.now.count × Free (92 ∷ []) uri.now × (limit ≤ length work.old) }
    requires in_text { InText value.now target.from.0 target.to.0 × ReferenceAt value.now target.from.0 target.to.0
        × (length value.now ≤ limit) }
    ensures { LeadsTo p.now.text.now p.now.index.now p.now.count uri.now value.now target.from.0 target.to.0 result }
{
    if uri.len() > LIMIT {
        return Err(End::NoTarget);
    }
    let Ok(n) = put_resolved(uri, value, target, work) else {
        return Err(End::NoTarget);
    };
    p.find(&work[..n]).ok_or(End::NoPack)
}
