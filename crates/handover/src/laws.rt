//! Laws of the two lists of calls, of the history that they make, and of the steps, of a pair that
//! is settled. Each function is empty, and its contract is the law.

ghost use Rattle.handover.specs.Laws.{MergesHaveBoth, HistoriesAreSettled, StoredAreReadOrPend, KeptAreStored, OnlyDroppedAreMissing, OwnRunsAreRight, SeatsKeepTheRule, FeederLooksAtClosed, FeederLooksAtTurn, FeederGives, FeederEnds, DrainLooksAtEnded, DrainLooksAtTurn, DrainClears, DrainCloses};
ghost use Rattle.handover.specs.Fresh.{FeederStepsAreFresh, DrainStepsAreFresh, SilentStepsChangeNothing, NoEndIsOverlooked, NoHoldIsOverlooked, NoCloseIsOverlooked, NoHoldIsMadeUp, NoEndIsMadeUp, NoCloseIsMadeUp, NoSightSuitsBoth};

/// Each call of the feeder and each read of the drain is in the merged list once, in its order,
/// and the close in its place.
pub fn merges()
    ensures { MergesHaveBoth }
{}

/// What the reads took and then what pends is what looking back keeps, and the counts are those of
/// the feeder's calls. In each legal history, however its reads are placed, it is the messages of
/// the arrivals that were stored, and, if each message is within the capacity, what looking back
/// keeps. Of the accepted arrivals that did not find the pair closed, exactly those that were
/// answered Dropped are missing in it.
pub fn histories()
    ensures settled { HistoriesAreSettled }
    ensures stored { StoredAreReadOrPend }
    ensures kept { KeptAreStored }
    ensures missing { OnlyDroppedAreMissing }
{}

/// What the feeder knows only by its own calls: they are right by themselves, and give its store
/// and its counts.
pub fn own_runs()
    ensures { OwnRunsAreRight }
{}

/// The rule of the table holds at its start, and stays where the seat is cut in two, where the two
/// are joined, and where what the joined one knows is copied.
pub fn seats()
    ensures { SeatsKeepTheRule }
{}

/// Each step of the feeder keeps the rule, and says what it found.
pub fn feeder_steps()
    ensures closed { FeederLooksAtClosed }
    ensures turn { FeederLooksAtTurn }
    ensures gives { FeederGives }
    ensures ends { FeederEnds }
{}

/// Each step of the drain keeps the rule, and says what it found.
pub fn drain_steps()
    ensures ended { DrainLooksAtEnded }
    ensures turn { DrainLooksAtTurn }
    ensures clears { DrainClears }
    ensures closes { DrainCloses }
{}

/// Whatever private code says of a step: if the rule holds before and after it, a load in its entry
/// answered the number that its word had at this very step, and a store in it was made. A step
/// without an entry changes no word.
pub fn fresh_steps()
    ensures feeder { FeederStepsAreFresh }
    ensures drain { DrainStepsAreFresh }
    ensures silent { SilentStepsChangeNothing }
{}

/// So, if the rule holds before and after a step, none can claim what these would have to: a drain
/// that answers Nothing for ever after the end or while the hold is full, a feeder that stores
/// after the close or drops without a look, an `end` or a `close` that stores nothing.
pub fn wrong_steps()
    ensures end_overlooked { NoEndIsOverlooked }
    ensures hold_overlooked { NoHoldIsOverlooked }
    ensures close_overlooked { NoCloseIsOverlooked }
    ensures hold_made_up { NoHoldIsMadeUp }
    ensures end_made_up { NoEndIsMadeUp }
    ensures close_made_up { NoCloseIsMadeUp }
{}

/// What a feeder has seen when it has ended was fixed before the drain's next call: it doesn't suit
/// both a drain that closes then and one whose next read finds 0 in `ended`, as each read does that
/// answers Nothing. So no body whose calls keep their clauses, whatever is called next, answers
/// Nothing to a read after `end`.
pub fn no_foresight()
    ensures { NoSightSuitsBoth }
{}
