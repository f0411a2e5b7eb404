//! Laws of the definitions. Each function is empty, and its contract is the law.

ghost use Rattle.filter_meaning.specs.Laws.{PrimitivesAnswerAsMeant, RelationsAnswerAsMeant, PrimitivesAnswerByLooks, RelationsAnswerByLooks, PrimitivesEnd, RelationsEnd};

/// The table of looks answers as the meaning does.
pub fn answers_as_meant()
    ensures primitives { PrimitivesAnswerAsMeant }
    ensures relations { RelationsAnswerAsMeant }
{}

/// What a primitive or a relation answers, and what it looks at, depends on nothing but what it
/// looks at.
pub fn answers_by_looks()
    ensures primitives { PrimitivesAnswerByLooks }
    ensures relations { RelationsAnswerByLooks }
{}

/// A primitive or a relation that answers Yes or No looked at captured bytes only. One that aborts
/// ended at the first look that lacks a byte, which its cause names, or divided by 0.
pub fn aborts_at_the_last_look()
    ensures primitives { PrimitivesEnd }
    ensures relations { RelationsEnd }
{}
