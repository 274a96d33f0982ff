//! How the names of inputs are shown.

ghost use Rattle.std.specs.Char.{digit_char};
ghost use Rattle.std.specs.List.{list_all};
ghost use Rattle.std.specs.Prelude.{◌≡◌, ◌<◌, ◌/◌, ◌%◌, [], ◌∷◌, IfOk, flat_map};
ghost use Rattle.std.specs.Str.{chars};
ghost use Rattle.cvss_json.specs.Escapes.{is_from, is_hidden};
ghost use Rattle.cvss_json.specs.Sinks.{Adds};
ghost use Rattle.cvss_frame.specs.Names.{shown_byte, shown_bytes, shown_char, shown_name};

use cvss_json::{Growing, Sink, put_escaped};
use std::alloc::{AllocError, Global};

/// Writes a name, with escapes for its control characters and for bytes that are not UTF-8.
#[tactic(auto, using(crate::proofs::NamesLemmas::plain_shown))]
pub fn put_shown<S: Sink>(sink: &mut S, name: &[u8])
    ensures { Adds S.Holds (shown_name name.now) sink.old sink.new }
{
    if is_plain(name) {
        sink.push(name);
    } else {
        put_escapes(sink, name);
    }
}

/// A name with these escapes.
///
/// # Errors
///
/// Out of memory.
pub fn shown_text(alloc: Global, name: &[u8]) -> Result<Vec<u8>, AllocError>
    ensures { IfOk result (λ shown. shown.items ≡ shown_name name.now) }
{
    let mut shown = Growing::new(alloc);
    put_shown(&mut shown, name);
    shown.end()
}

/// Whether a name has printable ASCII characters alone.
pub fn is_plain(name: &[u8]) -> bool
    ensures { result ≡ list_all (is_from 0x20 0x7e) name.now }
{
    name.iter().all(|byte| is_printable(*byte))
}

pub(crate) fn is_printable(byte: u8) -> bool
    ensures { result ≡ is_from 0x20 0x7e byte }
{
    byte >= 0x20 && byte <= 0x7e
}

#[inline(never)]
fn put_escapes<S: Sink>(sink: &mut S, name: &[u8])
    ensures { Adds S.Holds (shown_name name.now) sink.old sink.new }
{
    match str::from_utf8(name) {
        Ok(text) => put_chars(sink, text),
        Err(_) => put_bytes(sink, name),
    }
}

fn put_chars<S: Sink>(sink: &mut S, text: &str)
    ensures { Adds S.Holds (flat_map shown_char (chars text.now)) sink.old sink.new }
{
    for character in text.chars() {
        put_char(sink, character);
    }
}

#[tactic(auto, unfolding(crate::specs::Names::shown_char))]
fn put_char<S: Sink>(sink: &mut S, character: char)
    ensures { Adds S.Holds (shown_char character) sink.old sink.new }
{
    let mut bytes = [0; 4];
    let text = character.encode_utf8(&mut bytes);
    if is_hidden(character as u32) {
        put_escaped(sink, text);
    } else {
        sink.push(text.as_bytes());
    }
}

/// Whether a character is not to be seen as itself.
fn is_hidden(code: u32) -> bool
    ensures { result ≡ is_hidden code }
{
    code <= 0x1f
        || (code >= 0x7f && code <= 0x9f)
        || (code >= 0x200e && code <= 0x200f)
        || (code >= 0x2028 && code <= 0x202e)
        || (code >= 0x2066 && code <= 0x2069)
}

fn put_bytes<S: Sink>(sink: &mut S, name: &[u8])
    ensures { Adds S.Holds (shown_bytes name.now) sink.old sink.new }
{
    let mut left = name;
    while let Some((byte, rest)) = left.split_first() {
        put_byte(sink, *byte);
        left = rest;
    }
}

fn put_byte<S: Sink>(sink: &mut S, byte: u8)
    ensures { Adds S.Holds (shown_byte byte) sink.old sink.new }
{
    if is_printable(byte) {
        sink.push(&[byte]);
    } else {
        sink.push(&byte_escape(byte));
    }
}

/// The escape of a byte by two hexadecimal digits.
pub(crate) fn byte_escape(byte: u8) -> [u8; 4]
    ensures { result ≡ 92 ∷ 120 ∷ digit_char (byte / 16) ∷ digit_char (byte % 16) ∷ [] }
{
    [b'\\', b'x', hex_digit(byte / 16), hex_digit(byte % 16)]
}

fn hex_digit(digit: u8) -> u8
    requires { digit < 16 }
    ensures { result ≡ digit_char digit }
{
    if digit < 10 {
        b'0' + digit
    } else {
        b'a' - 10 + digit
    }
}
