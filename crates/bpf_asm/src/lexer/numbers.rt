//! Numbers, as they are spelled.

ghost use Rattle.std.specs.Prelude.{◌≡◌, ◌≤◌};
ghost use Rattle.bpf_asm.specs.Numbers.{numeral, decimal_of, number_of, negative, at_most};

/// The greatest number that a negative one is the negation of.
const MAX_NEGATED: u32 = 0x8000_0000;

/// The number that these bytes spell in a base, if each is a digit of it and the number fits.
fn numeral(bytes: &[u8], base: u32) -> Option<u32>
    requires low { 2 ≤ base }
    requires high { base ≤ 36 }
    ensures { result ≡ at_most 4294967295 (numeral base bytes.now) }
{
    if bytes.is_empty() {
        return None;
    }
    let mut value = 0u32;
    for byte in bytes {
        let digit = char::from(*byte).to_digit(base)?;
        value = value.checked_mul(base)?.checked_add(digit)?;
    }
    Some(value)
}

/// A number of decimal digits.
pub(crate) fn decimal_of(digits: &[u8]) -> Option<u32>
    ensures { result ≡ decimal_of digits.now }
{
    numeral(digits, 10)
}

/// The negation of a number in two's complement.
fn negative(number: u32) -> Option<u32>
    ensures { result ≡ negative number }
{
    if number == 0 {
        Some(0)
    } else if number <= MAX_NEGATED {
        Some(u32::MAX - number + 1)
    } else {
        None
    }
}

/// A number: decimal with a `-` or without, octal after `0`, or hexadecimal after `0x`.
pub(crate) fn number_of(run: &[u8]) -> Option<u32>
    ensures { result ≡ number_of run.now }
{
    if run.starts_with(b"-") {
        negative(numeral(&run[1..], 10)?)
    } else if run.starts_with(b"0x") || run.starts_with(b"0X") {
        numeral(&run[2..], 16)
    } else if run.starts_with(b"0") {
        numeral(run, 8)
    } else {
        numeral(run, 10)
    }
}
