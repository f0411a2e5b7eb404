//! Laws of the definitions that the contracts cite. Each function is empty, and its contract is the
//! law.

ghost use Rattle.filter_explain.specs.Laws.{TheLastDecides, PrimitivesHaveCauses, RelationsHaveCauses};

/// Of the primitives and relations that are asked, the last decides.
pub fn the_last_decides()
    ensures { TheLastDecides }
{}

/// A primitive or a relation that aborts has a cause.
pub fn aborts_have_causes()
    ensures primitives { PrimitivesHaveCauses }
    ensures relations { RelationsHaveCauses }
{}
