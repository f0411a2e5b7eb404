//! Laws of the files LISTENERS and SCRIPT, and of the reasons for answers.

ghost use Rattle.tap_text.specs.Laws.{NoneIsBad, FirstBadIsOne, FlushReasonsAgree, ReadReasonsAgree};
ghost use Rattle.tap_text.specs.Listeners.{IsListenerLine};
ghost use Rattle.tap_text.specs.Script.{IsStepLine};

/// A file whose lines all have their form has no bad line: so it is read, or its first bad line is
/// reported, and never both.
pub fn none_is_bad()
    ensures listeners { NoneIsBad IsListenerLine }
    ensures script { NoneIsBad IsStepLine }
{}

/// A file has one first bad line: so the number that is reported is the only one that could be.
pub fn first_bad_is_one()
    ensures listeners { FirstBadIsOne IsListenerLine }
    ensures script { FirstBadIsOne IsStepLine }
{}

/// The reasons of a flush and of a read follow from the listener's state before it. If the answer
/// is right, they agree with it: the store became the hold, or the hold was taken, or not.
pub fn reasons_agree()
    ensures flushes { FlushReasonsAgree }
    ensures reads { ReadReasonsAgree }
{}
