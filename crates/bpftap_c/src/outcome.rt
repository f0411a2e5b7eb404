//! What a call returns: 0 or the number of a fault, a size and a place.

ghost use Rattle.std.specs.Prelude.{◌≡◌};
ghost use Rattle.bpftap_c.specs.declared.outcome.Failure.TheVariants.{Lines, NoMemory, Replay};
ghost use Rattle.bpftap_c.specs.Outcome.{invalid_code, invalid_place, listing_code, listing_place, text_code, text_place, tree_code, open_code, capture_code, capture_place, line_code, line_place, replay_code, replay_place, replay_number, code_of, number_of, place_of, size_of, done, failed};

use bpfvm::{Invalid, ListingFault};
use filtergen::{ExpressionFault, Refusal};
use line_text::LineFault;
use listener::OpenFault;
use std::alloc::AllocError;

/// What most calls return.
#[repr(C)]
#[derive(Clone, Copy, Debug, PartialEq, Eq)]
pub struct BpftapResult {
    /// 0, or the number of a fault.
    pub fault: u32,
    /// How many items the call put into the caller's memory, or how many there are, if they found
    /// no room.
    pub size: usize,
    /// Where the fault is.
    pub place: usize,
}

/// Why a call did not do what it was asked.
#[derive(Clone, Copy, Debug, PartialEq, Eq)]
pub enum Failure {
    /// Memory was refused.
    NoMemory,
    /// The caller's memory has no room for this many items.
    NoRoom(usize),
    /// From this byte on the text is not UTF-8.
    NotText(usize),
    /// The instructions are no program.
    Program(Invalid),
    /// The text is not the listing of a program.
    Listing(ListingFault),
    /// The text is not an expression, or has no program.
    Expression(ExpressionFault),
    /// The bytes are not a capture, or not a further record of one.
    Capture(savefile::Fault),
    /// A listener is not opened, or a buffer is not of its capacity.
    Open(OpenFault),
    /// A line of LISTENERS or SCRIPT is bad.
    Lines(LineFault),
    /// Steps cannot be played.
    Replay(tap::Fault),
}

impl From<AllocError> for Failure {
    ghost from_gives = { λ _ failure. failure ≡ NoMemory };

    fn from(_refused: AllocError) -> Failure {
        Failure::NoMemory
    }
}

impl From<LineFault> for Failure {
    ghost from_gives = { λ fault failure. failure ≡ Lines fault };

    fn from(fault: LineFault) -> Failure {
        Failure::Lines(fault)
    }
}

impl From<tap::Fault> for Failure {
    ghost from_gives = { λ fault failure. failure ≡ Replay fault };

    fn from(fault: tap::Fault) -> Failure {
        Failure::Replay(fault)
    }
}

fn invalid_code(fault: Invalid) -> u32
    ensures { result ≡ invalid_code fault }
{
    match fault {
        Invalid::Empty => 16,
        Invalid::TooMany => 17,
        Invalid::UnknownCode(_) => 18,
        Invalid::JumpOut(_) => 19,
        Invalid::Cell(_) => 20,
        Invalid::ZeroDivisor(_) => 21,
        Invalid::NoReturn => 22,
    }
}

fn invalid_place(fault: Invalid) -> usize
    ensures { result ≡ invalid_place fault }
{
    match fault {
        Invalid::Empty | Invalid::TooMany | Invalid::NoReturn => 0,
        Invalid::UnknownCode(place) => place,
        Invalid::JumpOut(place) => place,
        Invalid::Cell(place) => place,
        Invalid::ZeroDivisor(place) => place,
    }
}

fn listing_code(fault: ListingFault) -> u32
    ensures { result ≡ listing_code fault }
{
    match fault {
        ListingFault::BadLine(_) => 24,
        ListingFault::Count => 25,
        ListingFault::Program(invalid) => invalid_code(invalid),
    }
}

fn listing_place(fault: ListingFault) -> usize
    ensures { result ≡ listing_place fault }
{
    match fault {
        ListingFault::BadLine(line) => line,
        ListingFault::Count => 0,
        ListingFault::Program(invalid) => invalid_place(invalid),
    }
}

fn text_code(fault: filterlang::Fault) -> u32
    ensures { result ≡ text_code fault }
{
    match fault {
        filterlang::Fault::NoMemory => 1,
        filterlang::Fault::TextTooLong => 32,
        filterlang::Fault::BadByte(_) => 33,
        filterlang::Fault::BadWord(_) => 34,
        filterlang::Fault::BadNumber(_) => 35,
        filterlang::Fault::Syntax(_) => 36,
        filterlang::Fault::NoQualifier(_) => 37,
        filterlang::Fault::BadQualifier(_) => 38,
        filterlang::Fault::BadIdentifier(_) => 39,
        filterlang::Fault::NetBits(_) => 40,
        filterlang::Fault::OutOfRange(_) => 41,
        filterlang::Fault::DivideByZero(_) => 42,
        filterlang::Fault::TooNested(_) => 43,
    }
}

fn text_place(fault: filterlang::Fault) -> usize
    ensures { result ≡ text_place fault }
{
    match fault {
        filterlang::Fault::NoMemory | filterlang::Fault::TextTooLong => 0,
        filterlang::Fault::BadByte(place) => place,
        filterlang::Fault::BadWord(place) => place,
        filterlang::Fault::BadNumber(place) => place,
        filterlang::Fault::Syntax(place) => place,
        filterlang::Fault::NoQualifier(place) => place,
        filterlang::Fault::BadQualifier(place) => place,
        filterlang::Fault::BadIdentifier(place) => place,
        filterlang::Fault::NetBits(place) => place,
        filterlang::Fault::OutOfRange(place) => place,
        filterlang::Fault::DivideByZero(place) => place,
        filterlang::Fault::TooNested(place) => place,
    }
}

fn tree_code(refusal: Refusal) -> u32
    ensures { result ≡ tree_code refusal }
{
    match refusal {
        Refusal::NoMemory => 1,
        Refusal::TooLong => 48,
        Refusal::TooDeep => 49,
        Refusal::BadSnap => 50,
    }
}

fn open_code(fault: OpenFault) -> u32
    ensures { result ≡ open_code fault }
{
    match fault {
        OpenFault::NoMemory => 1,
        OpenFault::BadSnap => 50,
        OpenFault::BadCapacity => 80,
    }
}

fn capture_code(fault: savefile::Fault) -> u32
    ensures { result ≡ capture_code fault }
{
    match fault {
        savefile::Fault::NoMemory => 1,
        savefile::Fault::ShortHeader => 64,
        savefile::Fault::NotSavefile => 65,
        savefile::Fault::Version => 66,
        savefile::Fault::LinkType => 67,
        savefile::Fault::TornRecord(_) => 68,
        savefile::Fault::BadFraction(_) => 69,
        savefile::Fault::TooLong(_) => 70,
        savefile::Fault::Device => 71,
        savefile::Fault::Failed => 72,
        savefile::Fault::CountFull => 73,
    }
}

fn capture_place(fault: savefile::Fault) -> usize
    ensures { result ≡ capture_place fault }
{
    match fault {
        savefile::Fault::TornRecord(place) => place as usize,
        savefile::Fault::BadFraction(place) => place as usize,
        savefile::Fault::TooLong(place) => place as usize,
        savefile::Fault::ShortHeader
        | savefile::Fault::NotSavefile
        | savefile::Fault::Version
        | savefile::Fault::LinkType
        | savefile::Fault::NoMemory
        | savefile::Fault::Device
        | savefile::Fault::Failed
        | savefile::Fault::CountFull => 0,
    }
}

fn line_code(fault: LineFault) -> u32
    ensures { result ≡ line_code fault }
{
    match fault {
        LineFault::NoMemory => 1,
        LineFault::Listeners(_) => 88,
        LineFault::Script(_) => 89,
    }
}

fn line_place(fault: LineFault) -> usize
    ensures { result ≡ line_place fault }
{
    match fault {
        LineFault::NoMemory => 0,
        LineFault::Listeners(line) => line,
        LineFault::Script(line) => line,
    }
}

fn replay_code(fault: tap::Fault) -> u32
    ensures { result ≡ replay_code fault }
{
    match fault {
        tap::Fault::NoMemory => 1,
        tap::Fault::TooMany => 90,
        tap::Fault::NoListener(_) => 91,
        tap::Fault::Capture(_, fault) => capture_code(fault),
        tap::Fault::Expression(_, fault) => text_code(fault),
        tap::Fault::Compile(_, refusal) => tree_code(refusal),
        tap::Fault::Open(_, fault) => open_code(fault),
    }
}

fn replay_place(fault: tap::Fault) -> usize
    ensures { result ≡ replay_place fault }
{
    match fault {
        tap::Fault::NoMemory
        | tap::Fault::TooMany
        | tap::Fault::Compile(_, _)
        | tap::Fault::Open(_, _) => 0,
        tap::Fault::NoListener(step) => step,
        tap::Fault::Capture(_, fault) => capture_place(fault),
        tap::Fault::Expression(_, fault) => text_place(fault),
    }
}

fn replay_number(fault: tap::Fault) -> u32
    ensures { result ≡ replay_number fault }
{
    match fault {
        tap::Fault::NoMemory | tap::Fault::TooMany | tap::Fault::NoListener(_) => 0,
        tap::Fault::Capture(capture, _) => capture,
        tap::Fault::Expression(listener, _) => listener,
        tap::Fault::Compile(listener, _) => listener,
        tap::Fault::Open(listener, _) => listener,
    }
}

/// Which listener or capture a fault is of.
pub(crate) fn number_of(failure: Failure) -> u32
    ensures { result ≡ number_of failure }
{
    match failure {
        Failure::Replay(fault) => replay_number(fault),
        _ => 0,
    }
}

/// The number of a fault, which stays from version to version.
pub(crate) fn code_of(failure: Failure) -> u32
    ensures { result ≡ code_of failure }
{
    match failure {
        Failure::NoMemory => 1,
        Failure::NoRoom(_) => 2,
        Failure::NotText(_) => 3,
        Failure::Program(fault) => invalid_code(fault),
        Failure::Listing(fault) => listing_code(fault),
        Failure::Expression(ExpressionFault::Text(fault)) => text_code(fault),
        Failure::Expression(ExpressionFault::Tree(refusal)) => tree_code(refusal),
        Failure::Capture(fault) => capture_code(fault),
        Failure::Open(fault) => open_code(fault),
        Failure::Lines(fault) => line_code(fault),
        Failure::Replay(fault) => replay_code(fault),
    }
}

fn place_of(failure: Failure) -> usize
    ensures { result ≡ place_of failure }
{
    match failure {
        Failure::NoMemory | Failure::NoRoom(_) => 0,
        Failure::NotText(place) => place,
        Failure::Program(fault) => invalid_place(fault),
        Failure::Listing(fault) => listing_place(fault),
        Failure::Expression(ExpressionFault::Text(fault)) => text_place(fault),
        Failure::Expression(ExpressionFault::Tree(_)) => 0,
        Failure::Capture(fault) => capture_place(fault),
        Failure::Open(_) => 0,
        Failure::Lines(fault) => line_place(fault),
        Failure::Replay(fault) => replay_place(fault),
    }
}

fn size_of(failure: Failure) -> usize
    ensures { result ≡ size_of failure }
{
    match failure {
        Failure::NoRoom(size) => size,
        Failure::NoMemory
        | Failure::NotText(_)
        | Failure::Program(_)
        | Failure::Listing(_)
        | Failure::Expression(_)
        | Failure::Capture(_)
        | Failure::Open(_)
        | Failure::Lines(_)
        | Failure::Replay(_) => 0,
    }
}

/// The result of a call that put this many items.
pub(crate) fn done(size: usize) -> BpftapResult
    ensures { result ≡ done size }
{
    BpftapResult {
        fault: 0,
        size,
        place: 0,
    }
}

/// The result of a call that failed.
pub(crate) fn failed(failure: Failure) -> BpftapResult
    ensures { result ≡ failed failure }
{
    BpftapResult {
        fault: code_of(failure),
        size: size_of(failure),
        place: place_of(failure),
    }
}
