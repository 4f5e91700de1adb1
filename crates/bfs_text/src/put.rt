// Parts of a line put behind a text.
ghost use Rattle.std.specs.Prelude.{◌≡◌, ◌++◌, ◌∷◌, ◌<◌, ◌*◌, ◌+◌, [], OnOk, codes, decimal};
ghost use Rattle.std.specs.List.{flat_map};
ghost use Rattle.std.specs.Fmt.{signed_decimal};
ghost use Rattle.bfs_text.specs.Printed.{hex_digit, is_plain, escape, word, hex, counted, type_word, octal, kind_word, key_word, name_word, and_number, and_stamp};

use bfs_tree::{Key, Kind};
use itoa::Buffer;
use std::alloc::AllocError;

/// Puts these bytes behind the text.
pub fn put(out: &mut Vec<u8>, part: &[u8]) -> Result<(), AllocError>
    ensures { OnOk result (out.new.items ≡ out.old.items ++ part.now) }
{
    out.extend_from_slice(part)
}

/// A number in decimal digits.
pub fn put_number(out: &mut Vec<u8>, number: u64) -> Result<(), AllocError>
    ensures { OnOk result (out.new.items ≡ out.old.items ++ decimal number) }
{
    let mut buffer = Buffer::new();
    put(out, buffer.format(number).as_bytes())
}

/// A number with its sign.
pub fn put_signed(out: &mut Vec<u8>, number: i64) -> Result<(), AllocError>
    ensures { OnOk result (out.new.items ≡ out.old.items ++ signed_decimal number) }
{
    let mut buffer = Buffer::new();
    put(out, buffer.format(number).as_bytes())
}

/// A space and a number.
#[tactic(auto, unfolding(crate::specs::Printed::and_number))]
pub fn put_and_number(out: &mut Vec<u8>, number: u64) -> Result<(), AllocError>
    ensures { OnOk result (out.new.items ≡ out.old.items ++ and_number number) }
{
    put(out, b" ")?;
    put_number(out, number)
}

/// A space and a number with its sign.
#[tactic(auto, unfolding(crate::specs::Printed::and_stamp))]
pub fn put_and_signed(out: &mut Vec<u8>, number: i64) -> Result<(), AllocError>
    ensures { OnOk result (out.new.items ≡ out.old.items ++ and_stamp number) }
{
    put(out, b" ")?;
    put_signed(out, number)
}

/// A hexadecimal digit, with letters from this one on.
fn hex_digit(letter: u8, digit: u8) -> u8
    requires letter { letter < 200 }
    requires digit { digit < 16 }
    ensures { result ≡ hex_digit letter digit }
{
    if digit < 10 {
        48 + digit
    } else {
        letter + (digit - 10)
    }
}

/// May the byte stand for itself?
fn is_plain(byte: u8) -> bool
    ensures { result ≡ is_plain byte }
{
    (0x21..=0x7e).contains(&byte) && byte != b'%' && byte != b'='
}

/// A byte of a word: itself, or `%` and two hexadecimal digits.
fn put_escaped(out: &mut Vec<u8>, byte: u8) -> Result<(), AllocError>
    ensures { OnOk result (out.new.items ≡ out.old.items ++ escape byte) }
{
    if is_plain(byte) {
        return put(out, &[byte]);
    }
    put(
        out,
        &[b'%', hex_digit(65, byte / 16), hex_digit(65, byte % 16)],
    )
}

/// A word, in which all but letters, digits and signs is escaped, and so are `%` and `=`.
pub fn put_word(out: &mut Vec<u8>, bytes: &[u8]) -> Result<(), AllocError>
    ensures { OnOk result (out.new.items ≡ out.old.items ++ word bytes.now) }
{
    'bytes: for at in 0..bytes.len() {
        put_escaped(out, bytes[at])?;
    }
    Ok(())
}

/// How many bytes there are, and where there are any, the bytes in hexadecimal digits.
pub fn put_counted(out: &mut Vec<u8>, bytes: &[u8]) -> Result<(), AllocError>
    ensures { OnOk result (out.new.items ≡ out.old.items ++ counted bytes.now) }
{
    if bytes.is_empty() {
        return put(out, b"0");
    }
    put_number(out, bytes.len() as u64)?;
    put(out, b" ")?;
    put_hex(out, bytes)
}

/// Bytes in hexadecimal digits with small letters.
fn put_hex(out: &mut Vec<u8>, bytes: &[u8]) -> Result<(), AllocError>
    ensures { OnOk result (out.new.items ≡ out.old.items ++ flat_map hex bytes.now) }
{
    'bytes: for at in 0..bytes.len() {
        let byte = bytes[at];
        put(out, &[hex_digit(97, byte / 16), hex_digit(97, byte % 16)])?;
    }
    Ok(())
}

/// A type's four bytes, the highest first.
pub fn put_type(out: &mut Vec<u8>, code: u32) -> Result<(), AllocError>
    ensures { OnOk result (out.new.items ≡ out.old.items ++ type_word code) }
{
    let bytes = [
        (code / 16_777_216 % 256) as u8,
        (code / 65_536 % 256) as u8,
        (code / 256 % 256) as u8,
        (code % 256) as u8,
    ];
    put_word(out, &bytes)
}

/// Four octal digits.
pub fn put_octal(out: &mut Vec<u8>, number: u32) -> Result<(), AllocError>
    ensures { OnOk result (out.new.items ≡ out.old.items ++ octal number) }
{
    let digits = [
        (48 + number / 512 % 8) as u8,
        (48 + number / 64 % 8) as u8,
        (48 + number / 8 % 8) as u8,
        (48 + number % 8) as u8,
    ];
    put(out, &digits)
}

pub fn put_kind(out: &mut Vec<u8>, kind: Kind) -> Result<(), AllocError>
    ensures { OnOk result (out.new.items ≡ out.old.items ++ kind_word kind) }
{
    match kind {
        Kind::File => put(out, b"file"),
        Kind::Dir => put(out, b"dir"),
        Kind::Link => put(out, b"link"),
    }
}

pub fn put_key(out: &mut Vec<u8>, key: &Key) -> Result<(), AllocError>
    ensures { OnOk result (out.new.items ≡ out.old.items ++ key_word key.now) }
{
    match key {
        Key::Text(text) => put_word(out, text.as_slice()),
        Key::I32(number) => put_signed(out, i64::from(*number)),
        Key::U32(number) => put_number(out, u64::from(*number)),
        Key::I64(number) => put_signed(out, *number),
        Key::U64(number) => put_number(out, *number),
    }
}

/// A name; the root has none, and stands as a slash.
pub fn put_name(out: &mut Vec<u8>, name: &[u8]) -> Result<(), AllocError>
    ensures { OnOk result (out.new.items ≡ out.old.items ++ name_word name.now) }
{
    if name.is_empty() {
        return put(out, b"/");
    }
    put_word(out, name)
}
