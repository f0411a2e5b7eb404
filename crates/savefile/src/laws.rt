//! What follows from the definitions. Each function does nothing: its contract is the law.

ghost use Rattle.savefile.specs.Laws.{ReadsInOneWay, HoldsOneList, RefusesForOneFault, RefusedHoldsNothing, IsRefusedOrHolds, EndsCleanly, ReadsAgain, BeginsMore, AddsARecord, RecordsTakeRoom, WrittenTakesRoom, GivesABeginning, JoinsParts};

use crate::device::Source;
use crate::reader::Reader;

/// A text is a savefile in one way: two readings of it with equally many packets have the same
/// header, packets and rest.
pub fn one_reading()
    ensures { ReadsInOneWay }
{}

/// A savefile holds one list of packets, and one fault or none.
pub fn one_content()
    ensures { HoldsOneList }
{}

/// A header is refused for at most one fault, and a text with such a header holds nothing.
pub fn one_refusal()
    ensures fault { RefusesForOneFault }
    ensures nothing { RefusedHoldsNothing }
{}

/// The header of a text is refused, or the text holds something: the definitions cover each text.
pub fn every_text()
    ensures { IsRefusedOrHolds }
{}

/// A savefile has no fault if and only if its records end with the text.
pub fn clean_end()
    ensures { EndsCleanly }
{}

/// What the written text of a list holds is that list, without fault. With microseconds the
/// nanoseconds are rounded down to a multiple of 1,000.
pub fn round_trip()
    ensures { ReadsAgain }
{}

/// The written text grows with its list. What begins the text of some packets begins the text of
/// more; and one packet more adds 16 bytes and its own.
pub fn growing_text()
    ensures begins { BeginsMore }
    ensures adds { AddsARecord }
{}

/// Each packet takes 16 bytes at least, so there are fewer packets than bytes.
pub fn packets_take_room()
    ensures read { RecordsTakeRoom }
    ensures written { WrittenTakesRoom }
{}

/// A capture that ends clean, and records after it, is the capture of both: where one part ends
/// clean, the next one begins at a record.
pub fn joined_parts()
    ensures { JoinsParts }
{}

/// What a reader has given so far begins what the text holds that its source had left, whatever
/// comes.
pub fn given_so_far<R: Source>(_reader: &Reader<R>)
    ensures { GivesABeginning R.left _reader.now }
{}
