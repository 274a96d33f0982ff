//! The text of a vector, put together on the stack.

ghost use Rattle.std.specs.Prelude.{◌≡◌, ◌≤◌, ◌+◌, ◌++◌, ◌∷◌, [], drop, length};
ghost use Rattle.cvss_base.specs.Text.{colon, component, slash};

use std::marker::Model;

/// Eight bytes that name the version, eight for each of 22 metrics or, in CVSS v4.0, six for each of
/// 31 metrics and eight for the last. The compiler clears so many bytes without a call.
const SIZE: usize = 208;

/// Text of at most 208 bytes.
#[derive(Drop)]
pub struct TextBuffer {
    bytes: [u8; SIZE],
    length: usize,
}

impl Model for TextBuffer {
    ghost use Rattle.std.specs.Prelude.{ℕ, List, ◌≤◌, take};

    ghost Value = { List ℕ };

    ghost view = { λ buffer. take buffer.length buffer.bytes };

    ghost invariant = { λ buffer. buffer.length ≤ 208 };
}

impl TextBuffer {
    /// The empty text.
    #[inline(always)]
    pub fn new() -> TextBuffer
        ensures { result ≡ [] }
    {
        TextBuffer {
            bytes: [0; SIZE],
            length: 0,
        }
    }

    /// The bytes of the text.
    #[inline(always)]
    pub fn text(&self) -> &[u8]
        ensures { result.now ≡ self.now }
    {
        &self.bytes[..self.length]
    }

    /// The text without its first byte.
    #[inline(always)]
    pub fn after_first(&self) -> &[u8]
        ensures { result.now ≡ drop 1 self.now }
    {
        match self.text() {
            [_, rest @ ..] => rest,
            [] => &[],
        }
    }

    /// Appends bytes. Their number is known to the compiler, which makes one or two stores of it.
    #[inline(always)]
    pub fn push<const N: usize>(&mut self, bytes: [u8; N])
        requires { length self.old + N ≤ 208 }
        ensures { self.new ≡ self.old ++ bytes.entry }
    {
        let end = self.length + N;
        store(bytes, &mut self.bytes[self.length..end]);
        self.length = end;
    }

    /// Appends a slash, the name of a metric, a colon and the spelling of a value.
    #[inline(always)]
    pub fn push_component(&mut self, name: &'static str, spelling: &'static str)
        requires least { 1 ≤ length name.now }
        requires most { length name.now ≤ 3 }
        requires both { length name.now + length spelling.now ≤ 6 }
        requires room { length self.old ≤ 200 }
        ensures text { self.new ≡ self.old ++ slash ∷ component name.now spelling.now }
        ensures room { length self.new ≤ length self.old + 8 }
    {
        match (name.as_bytes(), spelling.as_bytes()) {
            // Most values are spelled by a letter, and all of their component is stored at once.
            ([only], [letter]) => self.push([b'/', *only, b':', *letter]),
            ([first, second], [letter]) => self.push([b'/', *first, *second, b':', *letter]),
            ([first, second, third], [letter]) => {
                self.push([b'/', *first, *second, *third, b':', *letter]);
            }
            (name, spelling) => {
                self.push_name(name);
                self.push_spelling(spelling);
            }
        }
    }

    /// Appends a slash, a name and a colon.
    #[inline(always)]
    fn push_name(&mut self, name: &[u8])
        requires least { 1 ≤ length name.now }
        requires most { length name.now ≤ 3 }
        requires room { length self.old ≤ 203 }
        ensures { self.new ≡ self.old ++ slash ∷ name.now ++ colon ∷ [] }
    {
        match name {
            [only] => self.push([b'/', *only, b':']),
            [first, second] => self.push([b'/', *first, *second, b':']),
            [first, second, third] => self.push([b'/', *first, *second, *third, b':']),
            _ => {}
        }
    }

    /// Appends a spelling.
    #[inline(always)]
    fn push_spelling(&mut self, spelling: &[u8])
        requires most { length spelling.now ≤ 5 }
        requires room { length self.old + length spelling.now ≤ 208 }
        ensures { self.new ≡ self.old ++ spelling.now }
    {
        match spelling.len() {
            1 => self.push_whole::<1>(spelling),
            2 => self.push_whole::<2>(spelling),
            3 => self.push_whole::<3>(spelling),
            4 => self.push_whole::<4>(spelling),
            5 => self.push_whole::<5>(spelling),
            _ => {}
        }
    }

    /// Appends a text of so many bytes.
    #[inline(always)]
    fn push_whole<const N: usize>(&mut self, text: &[u8])
        requires length { length text.now ≡ N }
        requires room { length self.old + N ≤ 208 }
        ensures { self.new ≡ self.old ++ text.now }
    {
        if let Some(bytes) = text.as_array::<N>() {
            self.push(*bytes);
        }
    }
}

/// Writes bytes over as many others.
#[inline(always)]
fn store<const N: usize>(bytes: [u8; N], target: &mut [u8])
    requires { length target.old ≡ N }
    ensures { target.new ≡ bytes.entry }
{
    if let Some(array) = target.as_mut_array() {
        *array = bytes;
    }
}
