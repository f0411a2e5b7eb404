//! Ports, as a comparison means them.

/// The number of a digit; nothing if there is no such digit in this base, 10 or 16.
fn digit_of(byte: u8, base: u32) -> Option<u32> {
    if byte.is_ascii_digit() {
        Some(u32::from(byte & 15))
    } else if base == 16 && byte.is_ascii_hexdigit() {
        Some(u32::from(byte & 15).saturating_add(9))
    } else {
        None
    }
}

/// A port of these digits in this base.
fn port_in(digits: &[u8], base: u32) -> Option<u16> {
    if digits.is_empty() || digits.len() > 5 {
        return None;
    }
    let mut number: u32 = 0;
    for digit in digits {
        number = number
            .saturating_mul(base)
            .saturating_add(digit_of(*digit, base)?);
    }
    if number > 65535 {
        None
    } else {
        Some(number as u16)
    }
}

/// A port of these digits: in base 16 after `0x`, else in base 10. One that begins with 0 is
/// octal, and is not read.
pub fn port_of(digits: &[u8]) -> Option<u16> {
    match digits.strip_prefix(b"0x") {
        Some(digits) => port_in(digits, 16),
        None if digits.len() > 1 && digits.starts_with(b"0") => None,
        None => port_in(digits, 10),
    }
}

/// The first and the last port that this sign and this number mean.
pub fn ports_of(sign: &[u8], port: u16) -> Option<(u16, u16)> {
    match sign {
        b"=" | b"==" => Some((port, port)),
        b">" => Some((port.checked_add(1)?, 65535)),
        b">=" => Some((port, 65535)),
        b"<" => Some((0, port.checked_sub(1)?)),
        b"<=" => Some((0, port)),
        _ => None,
    }
}
