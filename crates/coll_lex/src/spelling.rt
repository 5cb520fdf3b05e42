//! The canonical spellings, written to a device.
//!
//! A name stands between `<` and `>`, with `/` before each `>` and `/` in it; a character stands as `<U`, its code
//! point in upper-case hexadecimal, and `>`. Under the comment character `%` and the escape character `/` the
//! lexer reads both back as what was written. A spelling is gathered on the stack and handed to the device as one
//! write; only a text longer than any name is written in parts. None of this takes memory. A change of a spelling is
//! a change of its definition in `specs/`, and of the law that it is read back.
ghost use Rattle.arrayvec.specs.ArrayVec.{array_vec_len};
ghost use Rattle.coll_lex.specs.Characters.{less_than, greater_than};
ghost use Rattle.std.specs.Prelude.{◌≡◌, ◌+◌, ◌*◌, ◌<◌, ◌≤◌, [], ◌∷◌, ◌++◌, All, length, take, slice_index};
ghost use Rattle.std.specs.Prelude.{chars, encode_utf8_all, IfNone, IfSome, true, false};
ghost use Rattle.coll_devices.specs.Devices.{Writes};
ghost use Rattle.coll_lex.specs.ReadingBack.{NamesReadBack, NamesReadBackQuoted, CodesReadBack, CodesReadBackQuoted};
ghost use Rattle.coll_lex.specs.Spelling.{is_escaped, spelled_char, spelled_name, spelled_symbol, spelled_code, hex_digit, hex_digits};

use crate::limits::MOST_NAME_CHARS;
use arrayvec::ArrayVec;
use coll_devices::{Sink, WriteStop, write_bytes};

// Most bytes of a name, whose characters have four at most.
const MOST_NAME_BYTES: usize = 4 * MOST_NAME_CHARS;

// Most bytes of a symbol: its two brackets, and its name with an escape before each byte.
const MOST_SYMBOL_BYTES: usize = 2 * MOST_NAME_BYTES + 2;

// As many bytes as nearly all names have: their symbols are gathered in so much less room, which is cleared for each.
const FEW_NAME_BYTES: usize = 15;

// Most bytes of the symbol of such a name.
const FEW_SYMBOL_BYTES: usize = 2 * FEW_NAME_BYTES + 2;

/// Writes a name between `<` and `>`, with `/` before each `>` and `/` in it, as one write where it is short enough for
/// a name.
///
/// Where it stops, the device has taken a prefix of this.
pub fn write_symbol<W: Sink>(out: &mut W, name: &str) -> Result<(), WriteStop>
    ensures { Writes (W.taken out.old) (W.taken out.new) (W.failed out.old) (W.failed out.new)
        (encode_utf8_all (spelled_symbol (chars name.now) [])) result }
{
    if name.len() > MOST_NAME_BYTES {
        return write_long_symbol(out, name);
    }
    if name.len() > FEW_NAME_BYTES {
        let bytes: ArrayVec<u8, MOST_SYMBOL_BYTES> = symbol_bytes(name.as_bytes());
        return write_bytes(out, bytes.as_slice());
    }
    let bytes: ArrayVec<u8, FEW_SYMBOL_BYTES> = symbol_bytes(name.as_bytes());
    write_bytes(out, bytes.as_slice())
}

/// Writes a character as `<U`, its code point in upper-case hexadecimal, and `>`. There are four
/// digits up to FFFF, and eight above. It is one write.
///
/// Where it stops, the device has taken a prefix of this.
pub fn write_char<W: Sink>(out: &mut W, c: char) -> Result<(), WriteStop>
    ensures { Writes (W.taken out.old) (W.taken out.new) (W.failed out.old) (W.failed out.new)
        (encode_utf8_all (spelled_code c [])) result }
{
    let code = c as u32;
    let d = upper_hex(code);
    if code < 0x1_0000 {
        write_bytes(out, &[b'<', b'U', d[0], d[1], d[2], d[3], b'>'])
    } else {
        let h = upper_hex(code / 0x1_0000);
        write_bytes(
            out,
            &[
                b'<', b'U', h[0], h[1], h[2], h[3], d[0], d[1], d[2], d[3], b'>',
            ],
        )
    }
}

/// The law of the spellings: under the escape character `/`, and under any comment character, what `write_symbol` and
/// `write_char` write is read back as the name or the character that was written, whatever follows it.
///
/// It does nothing; its contract is the law.
pub fn spellings_are_read_back()
    ensures names { NamesReadBack }
    ensures names_in_strings { NamesReadBackQuoted }
    ensures codes { CodesReadBack }
    ensures codes_in_strings { CodesReadBackQuoted }
{}

// The spelling of a symbol whose name has these bytes, where there is room for an escape before each.
fn symbol_bytes<const ROOM: usize>(name: &[u8]) -> ArrayVec<u8, ROOM>
    requires { 2 * length name.now + 2 ≤ ROOM }
    ensures { result.items ≡ less_than ∷ (spelled_name name.now [] ++ greater_than ∷ []) }
{
    let mut bytes = ArrayVec::new();
    bytes.push(b'<');
    'name: for byte in name {
        push_spelled(&mut bytes, *byte);
    }
    bytes.push(b'>');
    bytes
}

// Puts a byte of a name at the end, with `/` before it if it is `>` or `/`.
fn push_spelled<const ROOM: usize>(bytes: &mut ArrayVec<u8, ROOM>, byte: u8)
    requires { array_vec_len bytes.old + 2 ≤ ROOM }
    ensures spelled { bytes.new.items ≡ bytes.old.items ++ spelled_char byte [] }
    ensures room { array_vec_len bytes.new ≤ array_vec_len bytes.old + 2 }
{
    if byte == b'>' || byte == b'/' {
        bytes.push(b'/');
    }
    bytes.push(byte);
}

// Writes a symbol in parts, whatever its length.
fn write_long_symbol<W: Sink>(out: &mut W, name: &str) -> Result<(), WriteStop>
    ensures { Writes (W.taken out.old) (W.taken out.new) (W.failed out.old) (W.failed out.new)
        (encode_utf8_all (spelled_symbol (chars name.now) [])) result }
{
    write_bytes(out, b"<")?;
    write_name(out, name.as_bytes())?;
    write_bytes(out, b">")
}

// Writes the bytes of a name, with `/` before each `>` and `/`.
fn write_name<W: Sink>(out: &mut W, name: &[u8]) -> Result<(), WriteStop>
    ensures { Writes (W.taken out.old) (W.taken out.new) (W.failed out.old) (W.failed out.new) (spelled_name name.now []) result }
{
    let mut rest = name;
    'escapes: while let Some(at) = find_escaped(rest) {
        let (run, escaped) = rest.split_at(at);
        write_bytes(out, run)?;
        write_bytes(out, &[b'/', escaped[0]])?;
        rest = &escaped[1..];
    }
    write_bytes(out, rest)
}

// Where the first byte stands that has `/` before it in a name.
fn find_escaped(bytes: &[u8]) -> Option<usize>
    ensures none { IfNone result (All (λ b. is_escaped b ≡ false) bytes.now) }
    ensures within { IfSome result (λ at. at < length bytes.now) }
    ensures found { IfSome result (λ at. is_escaped (slice_index bytes.now at) ≡ true) }
    ensures first { IfSome result (λ at. All (λ b. is_escaped b ≡ false) (take at bytes.now)) }
{
    bytes.iter().position(|b| *b == b'>' || *b == b'/')
}

// The last four digits of a number in upper-case hexadecimal.
#[tactic(auto, unfolding(crate::specs::Spelling::hex_digits))]
fn upper_hex(number: u32) -> [u8; 4]
    ensures { result ≡ hex_digits 4 number }
{
    let tens = number / 16;
    let hundreds = tens / 16;
    let thousands = hundreds / 16;
    [
        upper_hex_digit(thousands % 16),
        upper_hex_digit(hundreds % 16),
        upper_hex_digit(tens % 16),
        upper_hex_digit(number % 16),
    ]
}

// A hexadecimal digit in upper case.
fn upper_hex_digit(digit: u32) -> u8
    requires { digit < 16 }
    ensures { result ≡ hex_digit digit }
{
    if digit < 10 {
        b'0' + digit as u8
    } else {
        b'A' - 10 + digit as u8
    }
}
