//! Strings of JSON with escapes (RFC 8259, section 7).

ghost use Rattle.std.specs.Prelude.{◌≡◌, ◌<◌, ◌++◌, ◌^◌, IsTrue};
ghost use Rattle.std.specs.Char.{digit_char, encode_utf8};
ghost use Rattle.cvss_json.specs.Escapes.{escaped, escaped_char, is_hidden, quoted, short_escape, unicode_escape};
ghost use Rattle.cvss_json.specs.Sinks.{Adds};
ghost use Rattle.cvss_json.specs.private.Clear.{are_clear};

use crate::Sink;

/// Writes a string. A quotation mark, a backslash, a control character, a separator of lines or
/// paragraphs and a mark of the direction of text are escaped.
#[tactic(auto, using(crate::proofs::AddsLemmas::join2))]
pub fn put_string<S: Sink>(sink: &mut S, text: &str)
    ensures { Adds S.Holds (quoted text.now) sink.old sink.new }
{
    sink.push(b"\"");
    put_escaped(sink, text);
    sink.push(b"\"");
}

/// Writes the characters of a string, with the same escapes, so that they break no line and no terminal.
#[tactic(auto, using(crate::proofs::ClearLemmas::clear_escaped))]
pub fn put_escaped<S: Sink>(sink: &mut S, text: &str)
    ensures { Adds S.Holds (escaped text.now) sink.old sink.new }
{
    if are_clear(text.as_bytes()) {
        sink.push(text.as_bytes());
    } else {
        put_chars(sink, text);
    }
}

/// Whether a text has only ASCII characters that need no escape.
fn are_clear(text: &[u8]) -> bool
    ensures { result ≡ are_clear text.now }
{
    for byte in text {
        if !matches!(byte, 32..127) || *byte == b'"' || *byte == b'\\' {
            return false;
        }
    }
    true
}

/// Writes characters one by one.
#[inline(never)]
fn put_chars<S: Sink>(sink: &mut S, text: &str)
    ensures { Adds S.Holds (escaped text.now) sink.old sink.new }
{
    for character in text.chars() {
        put_char(sink, character);
    }
}

#[tactic(auto, unfolding(crate::specs::Escapes::escaped_char))]
fn put_char<S: Sink>(sink: &mut S, character: char)
    ensures { Adds S.Holds (escaped_char character) sink.old sink.new }
{
    let code = character as u32;
    let letter = short_escape(code);
    if letter > 0 {
        sink.push(&[b'\\', letter]);
    } else if is_hidden(code) {
        sink.push(&unicode_escape(code));
    } else {
        put_itself(sink, character);
    }
}

/// The letter of a character's short escape, or 0.
fn short_escape(code: u32) -> u8
    ensures { result ≡ short_escape code }
{
    match code {
        34 => b'"',
        92 => b'\\',
        8 => b'b',
        9 => b't',
        10 => b'n',
        12 => b'f',
        13 => b'r',
        _ => 0,
    }
}

/// Whether a character is not to be seen as itself.
fn is_hidden(code: u32) -> bool
    ensures value { result ≡ is_hidden code }
    ensures short { IsTrue result → code < 2 ^ 16 }
{
    code <= 0x1f
        || (code >= 0x7f && code <= 0x9f)
        || (code >= 0x200e && code <= 0x200f)
        || (code >= 0x2028 && code <= 0x202e)
        || (code >= 0x2066 && code <= 0x2069)
}

/// Writes a character as it is.
fn put_itself<S: Sink>(sink: &mut S, character: char)
    ensures { Adds S.Holds (encode_utf8 character) sink.old sink.new }
{
    let mut bytes = [0; 4];
    sink.push(character.encode_utf8(&mut bytes).as_bytes());
}

/// The escape of a character by four hexadecimal digits.
fn unicode_escape(code: u32) -> [u8; 6]
    requires { code < 2 ^ 16 }
    ensures { result ≡ unicode_escape code }
{
    [
        b'\\',
        b'u',
        hex_digit(code / 4096),
        hex_digit(code / 256 % 16),
        hex_digit(code / 16 % 16),
        hex_digit(code % 16),
    ]
}

fn hex_digit(digit: u32) -> u8
    requires { digit < 16 }
    ensures { result ≡ digit_char digit }
{
    if digit < 10 {
        b'0' + digit as u8
    } else {
        b'a' - 10 + digit as u8
    }
}
