//! Laws of the plain list. Each function is empty, and its contract is the law.

ghost use Rattle.listener.specs.Laws.{AnswersAreRight, AnswersAreLegal, ImmediateIsFlushed, RunsAppend, LegalAppends, BatchesAppend, HeldStaysWithin, BuffersFollow, BuffersStayWithin, KeptFits, CountsFollow, CountsStayOrdered, ReadsCommute, RunsAreKept, MatchedAreKeptOrDropped, KeptIsThinned, KeptAreAccepted};
ghost use Rattle.listener.specs.Positions.{LoadIsByPositions, HoldIsByPositions, DropIsByPositions};

/// Each request has one right answer, and a list of requests one legal run.
pub fn answers()
    ensures is_right { AnswersAreRight }
    ensures legal { AnswersAreLegal }
{}

/// An accepted arrival at an Immediate list, of a message that fits the capacity, is one at a
/// Buffered list and then a flush, as one step.
pub fn immediate()
    ensures { ImmediateIsFlushed }
{}

/// A run goes on from where another one ended.
pub fn runs()
    ensures state { RunsAppend }
    ensures legal { LegalAppends }
    ensures batches { BatchesAppend }
{}

/// What pends is the hold and then the store; how an event changes them, and that neither grows
/// past the capacity.
pub fn buffers()
    ensures held { HeldStaysWithin }
    ensures follow { BuffersFollow }
    ensures within { BuffersStayWithin }
{}

/// What a filter keeps of a packet fits the capacity of each listener of its snapshot length.
pub fn fitting()
    ensures { KeptFits }
{}

/// What an event adds to the counts, and that the dropped are some of the matched, and these some
/// of the received.
pub fn counts()
    ensures follow { CountsFollow }
    ensures ordered { CountsStayOrdered }
{}

/// A read commutes with an event that only the store decides.
pub fn reads()
    ensures { ReadsCommute }
{}

/// If each message fits the capacity, what was read in a run and then what pends is what looking
/// back keeps, and the counts are those of looking back.
pub fn looking_back()
    ensures { RunsAreKept }
{}

/// Looking back by positions gives the same: the positions of earlier steps say what is still in
/// the store, whether the hold is full, and what is a drop.
pub fn positions()
    ensures load { LoadIsByPositions }
    ensures held { HoldIsByPositions }
    ensures drops { DropIsByPositions }
{}

/// What is kept are accepted arrivals, in order, each once; the others that matched were dropped.
pub fn kept()
    ensures matched { MatchedAreKeptOrDropped }
    ensures thinned { KeptIsThinned }
    ensures accepted { KeptAreAccepted }
{}
