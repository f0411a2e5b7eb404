//! Numbers and addresses, as they are spelled.

ghost use Rattle.std.specs.Prelude.{◌≡◌, ◌≤◌, ◌<◌, ◌==◌, List, ℕ, Some, length, take, IfSome, IfNone};
ghost use Rattle.std.specs.List.{prefix_len, slice_split};
ghost use Rattle.filterlang.specs.Numbers.{is_in_run, numeral, octet, octets, at_most, number_of, dotted_of, ethernet_of, number_or_dotted_at, ethernet_at};
ghost use Rattle.filterlang.specs.Finding.{IsLengthWithin};

use crate::token::{Kind, Parts};
use filter_tree::EthernetAddress;

/// The most bytes of an Ethernet address.
const MAX_ETHERNET: usize = 17;

/// How many bytes at the front of the text are letters, digits or this mark.
fn run_length(text: &[u8], mark: u8) -> usize
    ensures value { result ≡ prefix_len (is_in_run mark) text.now }
    ensures within { result ≤ length text.now }
{
    text.iter()
        .take_while(|byte| byte.is_ascii_alphanumeric() || **byte == mark)
        .count()
}

/// The number that these bytes spell in a base, if each is a digit of it and the number fits.
fn numeral(bytes: &[u8], base: u32) -> Option<u32>
    requires low { 2 ≤ base }
    requires high { base ≤ 36 }
    ensures { result ≡ at_most 4294967295 (numeral base bytes.now) }
{
    if bytes.is_empty() {
        return None;
    }
    let mut value = 0u32;
    for byte in bytes {
        let digit = char::from(*byte).to_digit(base)?;
        value = value.checked_mul(base)?.checked_add(digit)?;
    }
    Some(value)
}

/// A part of an address: a number up to 255 of at most `most` digits.
fn octet(part: &[u8], base: u32, most: usize) -> Option<u8>
    requires low { 2 ≤ base }
    requires high { base ≤ 36 }
    ensures { result ≡ octet base most part.now }
{
    if part.len() > most {
        return None;
    }
    u8::try_from(numeral(part, base)?).ok()
}

/// The numbers between the marks of a run, and how many they are: at most six, each a part of an
/// address.
fn octets(run: &[u8], mark: u8, base: u32, most: usize) -> Option<([u8; 6], usize)>
    requires low { 2 ≤ base }
    requires high { base ≤ 36 }
    ensures within { IfSome result (λ found. found.1 ≤ 6) }
    ensures found { IfSome result (λ found.
        octets base most (slice_split (λ b. b == mark) run.now) ≡ Some (take found.1 found.0)) }
    ensures none { IfNone result ((numbers : List ℕ) →
        octets base most (slice_split (λ b. b == mark) run.now) ≡ Some numbers → 6 < length numbers) }
{
    let mut numbers = [0u8; 6];
    let mut count = 0;
    for part in run.split(|byte| *byte == mark) {
        if count == 6 {
            return None;
        }
        numbers[count] = octet(part, base, most)?;
        count += 1;
    }
    Some((numbers, count))
}

/// A number: decimal, octal after `0`, or hexadecimal after `0x`.
fn number_of(run: &[u8]) -> Option<u32>
    ensures { result ≡ number_of run.now }
{
    if run.starts_with(b"0x") || run.starts_with(b"0X") {
        numeral(&run[2..], 16)
    } else if run.starts_with(b"0") {
        numeral(run, 8)
    } else {
        numeral(run, 10)
    }
}

/// A dotted address of two to four parts.
fn dotted_of(run: &[u8]) -> Option<Kind>
    ensures { result ≡ dotted_of run.now }
{
    let (numbers, count) = octets(run, b'.', 10, 3)?;
    let (address, parts) = match &numbers[..count] {
        [a, b] => ([*a, *b, 0, 0], Parts::Two),
        [a, b, c] => ([*a, *b, *c, 0], Parts::Three),
        [a, b, c, d] => ([*a, *b, *c, *d], Parts::Four),
        _ => return None,
    };
    Some(Kind::Dotted {
        address: u32::from_be_bytes(address),
        parts,
    })
}

/// An Ethernet address: six groups.
fn ethernet_of(run: &[u8]) -> Option<Kind>
    ensures { result ≡ ethernet_of run.now }
{
    let (octets, count) = octets(run, b':', 16, 2)?;
    (count == 6).then_some(Kind::Ethernet(EthernetAddress { octets }))
}

/// The number or dotted address at the front of the text, and how many bytes it has.
#[tactic(auto, unfolding(crate::specs::Numbers::number_or_dotted_at), using(crate::proofs::Within::number_within))]
pub(crate) fn number_or_dotted_at(text: &[u8]) -> Option<(Kind, usize)>
    ensures value { result ≡ number_or_dotted_at text.now }
    ensures within { IfSome result (λ token. IsLengthWithin token.1 (length text.now)) }
{
    let length = run_length(text, b'.');
    let run = &text[..length];
    let kind = if run.contains(&b'.') {
        dotted_of(run)?
    } else {
        Kind::Number(number_of(run)?)
    };
    Some((kind, length))
}

/// The Ethernet address at the front of the text, and how many bytes it has.
#[tactic(auto, unfolding(crate::specs::Numbers::ethernet_at), using(crate::proofs::Within::ethernet_within))]
pub(crate) fn ethernet_at(text: &[u8]) -> Option<(Kind, usize)>
    ensures value { result ≡ ethernet_at text.now }
    ensures within { IfSome result (λ token. IsLengthWithin token.1 (length text.now)) }
{
    // A longer run is no address, whatever its length, so that no more of it is looked at.
    let front = &text[..text.len().min(MAX_ETHERNET + 1)];
    let length = run_length(front, b':');
    if length > MAX_ETHERNET {
        return None;
    }
    let address = ethernet_of(&text[..length])?;
    Some((address, length))
}
