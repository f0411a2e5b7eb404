//! The bytes of a packet as `tcpdump -XX` prints them, with those marked that a test looked at.

ghost use Rattle.std.specs.Prelude.{◌≡◌, ◌++◌, ◌<◌, ◌≤◌, length, [], replicate, IfOk, OnOk, string_bytes, false, true};
ghost use Rattle.std.specs.List.{flat_map};
ghost use Rattle.cli_answers.specs.Dumps.{digits_text, dump_text, group_text, hex_text, offset_text, row_text, shown};

use bpfvm::NoMemory;
use filter_meaning::Look;
use std::alloc::AllocError;

/// How many bytes a line shows.
const ROW: usize = 16;

/// How wide the digits of a line are.
const DIGITS: usize = 40;

/// Appends N blanks.
pub fn put_blanks(text: &mut String, count: usize) -> Result<(), NoMemory>
    ensures { OnOk result (string_bytes text.new ≡ string_bytes text.old ++ replicate count 32) }
{
    for _ in 0..count {
        text.push(' ')?;
    }
    Ok(())
}

/// Appends a byte as two digits, after a blank if it begins a group.
fn put_byte(text: &mut String, begins: bool, byte: u8) -> Result<(), AllocError>
    ensures { OnOk result (string_bytes text.new ≡ string_bytes text.old ++ group_text begins byte) }
{
    if begins {
        write!(text, " {byte:02x}")
    } else {
        write!(text, "{byte:02x}")
    }
}

/// Appends bytes as digits, two bytes to a group.
fn put_digits(text: &mut String, bytes: &[u8]) -> Result<(), AllocError>
    ensures { OnOk result (string_bytes text.new ≡ string_bytes text.old ++ digits_text true bytes.now) }
{
    let mut begins = true;
    for byte in bytes {
        put_byte(text, begins, *byte)?;
        begins = !begins;
    }
    Ok(())
}

/// Appends bytes as digits, without a blank.
pub fn put_hex(text: &mut String, bytes: &[u8]) -> Result<(), AllocError>
    ensures { OnOk result (string_bytes text.new ≡ string_bytes text.old ++ hex_text bytes.now) }
{
    for byte in bytes {
        put_byte(text, false, *byte)?;
    }
    Ok(())
}

/// Appends a byte as a character: a dot stands for what is no graphic character of ASCII.
fn put_character(text: &mut String, byte: u8) -> Result<(), AllocError>
    ensures { OnOk result (string_bytes text.new ≡ string_bytes text.old ++ shown byte) }
{
    let shown = if byte.is_ascii_graphic() { byte } else { b'.' };
    text.push(char::from(shown))
}

/// Appends bytes as characters.
fn put_characters(text: &mut String, bytes: &[u8]) -> Result<(), AllocError>
    ensures { OnOk result (string_bytes text.new ≡ string_bytes text.old ++ flat_map shown bytes.now) }
{
    for byte in bytes {
        put_character(text, *byte)?;
    }
    Ok(())
}

/// Appends an offset.
fn put_offset(text: &mut String, at: usize) -> Result<(), AllocError>
    ensures { OnOk result (string_bytes text.new ≡ string_bytes text.old ++ offset_text at) }
{
    write!(text, "0x{at:04x}: ")
}

/// Appends the line of up to 16 bytes, and returns how wide its offset is.
fn put_row(text: &mut String, at: usize, bytes: &[u8]) -> Result<usize, NoMemory>
    ensures { OnOk result (string_bytes text.new ≡ string_bytes text.old ++ row_text at bytes.now) }
{
    text.push('\t')?;
    let head = text.len();
    put_offset(text, at)?;
    let start = text.len();
    put_digits(text, bytes)?;
    let width = text.len().saturating_sub(start);
    put_blanks(text, DIGITS.saturating_sub(width))?;
    text.push_str("  ")?;
    put_characters(text, bytes)?;
    text.push('\n')?;
    Ok(start.saturating_sub(head))
}

/// Whether a test looked at the byte at an offset.
fn is_marked(looks: &[Look], at: usize) -> bool
    ensures { looks.now ≡ [] → result ≡ false }
{
    for look in looks {
        if let Look::Bytes { offset, size } = *look {
            if offset <= at && at - offset < size {
                return true;
            }
        }
    }
    false
}

/// How many of the bytes from an offset on end with the last one that a test looked at; 0 if it
/// looked at none of them.
fn marked_until(looks: &[Look], at: usize, count: usize) -> usize
    ensures { looks.now ≡ [] → result ≡ 0 }
{
    let mut until = 0;
    for n in 0..count {
        if is_marked(looks, at.saturating_add(n)) {
            until = n + 1;
        }
    }
    until
}

/// Appends carets under the bytes that a test looked at, if it looked at any of this line, whose
/// offset is so wide.
fn put_marks(
    text: &mut String,
    looks: &[Look],
    at: usize,
    count: usize,
    width: usize,
) -> Result<(), NoMemory>
    ensures { OnOk result (looks.now ≡ [] → string_bytes text.new ≡ string_bytes text.old) }
{
    let until = marked_until(looks, at, count);
    if until == 0 {
        return Ok(());
    }
    text.push('\t')?;
    put_blanks(text, width)?;
    for n in 0..until {
        if n % 2 == 0 {
            text.push(' ')?;
        }
        text.push_str(if is_marked(looks, at.saturating_add(n)) {
            "^^"
        } else {
            "  "
        })?;
    }
    text.push('\n')?;
    Ok(())
}

/// Appends the bytes of a packet, each line with marks under the bytes that a test looked at.
pub fn put_dump(text: &mut String, looks: &[Look], packet: &[u8]) -> Result<(), NoMemory>
    ensures { OnOk result (looks.now ≡ [] → string_bytes text.new ≡ string_bytes text.old ++ dump_text packet.now) }
{
    let mut at: usize = 0;
    for bytes in packet.chunks(ROW) {
        let width = put_row(text, at, bytes)?;
        put_marks(text, looks, at, bytes.len(), width)?;
        at = at.saturating_add(ROW);
    }
    Ok(())
}
