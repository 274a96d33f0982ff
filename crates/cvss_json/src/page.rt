//! Text that is put together without memory.

ghost use Rattle.std.specs.Prelude.{◌≡◌, ◌+◌, ◌*◌, ◌%◌, ◌≤◌, ◌++◌, [], true, ltb, length, decimal, flat_map};
ghost use Rattle.std.specs.List.{list_all};
ghost use Rattle.cvss_json.specs.Json.{decimal_text, places_text};

use std::marker::Model;

/// Text of at most 4096 bytes.
#[derive(Drop)]
pub struct Page {
    bytes: [u8; 4096],
    length: usize,
}

impl Model for Page {
    ghost use Rattle.std.specs.Prelude.{ℕ, List, ◌≤◌, take};

    ghost Value = { List ℕ };

    ghost view = { λ page. take page.length page.bytes };

    ghost invariant = { λ page. page.length ≤ 4096 };
}

impl Page {
    /// The empty text.
    pub fn new() -> Page
        ensures { result ≡ [] }
    {
        Page {
            bytes: [0; 4096],
            length: 0,
        }
    }

    /// The bytes of the text.
    pub fn bytes(&self) -> &[u8]
        ensures { result.now ≡ self.now }
    {
        &self.bytes[..self.length]
    }

    /// Writes bytes.
    pub fn push(&mut self, text: &[u8])
        requires { length self.old + length text.now ≤ 4096 }
        ensures { self.new ≡ self.old ++ text.now }
    {
        let end = self.length + text.len();
        self.bytes[self.length..end].copy_from_slice(text);
        self.length = end;
    }

    /// Writes a text whose length the compiler does not know, eight bytes at a time, each by one store.
    // A call of its own: inlined wherever it is used, it would be a thirtieth of the module of WebAssembly.
    #[inline(never)]
    pub fn push_text(&mut self, text: &[u8])
        requires { length self.old + length text.now ≤ 4096 }
        ensures { self.new ≡ self.old ++ text.now }
    {
        let mut left = text;
        while let Some((chunk, rest)) = left.split_first_chunk::<8>() {
            self.push_array(*chunk);
            left = rest;
        }
        self.push(left);
    }

    /// Writes bytes whose number is part of their type.
    #[inline(always)]
    fn push_array<const N: usize>(&mut self, bytes: [u8; N])
        requires { length self.old + N ≤ 4096 }
        ensures { self.new ≡ self.old ++ bytes.entry }
    {
        let end = self.length + N;
        store(bytes, &mut self.bytes[self.length..end]);
        self.length = end;
    }

    /// Writes a whole number.
    pub fn whole(&mut self, number: u64)
        requires { length self.old + 20 ≤ 4096 }
        ensures text { self.new ≡ self.old ++ decimal number }
        ensures room { length self.new ≤ length self.old + 20 }
    {
        if number < 10 {
            self.push(&[b'0' + number as u8]);
        } else {
            self.whole(number / 10);
            self.push(&[digit(number)]);
        }
    }

    /// Writes whole numbers one after another.
    pub fn digits(&mut self, numbers: &[u8])
        requires { length self.old + 20 * length numbers.now ≤ 4096 }
        ensures text { self.new ≡ self.old ++ flat_map decimal numbers.now }
        ensures room { length self.new ≤ length self.old + 20 * length numbers.now }
    {
        for number in numbers {
            self.whole(u64::from(*number));
        }
    }

    /// Writes so many ten-millionths, as a decimal.
    #[tactic(auto, unfolding(crate::specs::Json::decimal_text))]
    pub fn decimal(&mut self, count: i64)
        requires { length self.old + 32 ≤ 4096 }
        ensures text { self.new ≡ self.old ++ decimal_text count }
        ensures room { length self.new ≤ length self.old + 32 }
    {
        if count < 0 {
            self.push(b"-");
        }
        let count = count.unsigned_abs();
        self.whole(count / 10_000_000);
        self.push(b".");
        self.places(&UNITS, count % 10_000_000);
    }

    /// Writes the digits of these units of a number, as far as not all that are left are zeros.
    #[tactic(auto, unfolding(crate::specs::Json::places_text))]
    fn places(&mut self, units: &[u64], number: u64)
        requires room { length self.old + length units.now ≤ 4096 }
        requires positive { list_all (λ unit. ltb 0 unit) units.now ≡ true }
        ensures text { self.new ≡ self.old ++ places_text units.now number }
        ensures room { length self.new ≤ length self.old + length units.now }
    {
        if let [unit, rest @ ..] = units {
            self.push(&[digit(number / unit)]);
            if number % unit != 0 {
                self.places(rest, number);
            }
        }
    }
}

/// The units of decimal places, in ten-millionths.
const UNITS: [u64; 7] = [1_000_000, 100_000, 10_000, 1000, 100, 10, 1];

/// Writes bytes over as many others.
#[inline(always)]
fn store<const N: usize>(bytes: [u8; N], target: &mut [u8])
    requires { length target.old ≡ N }
    ensures { target.new ≡ bytes.entry }
{
    if let Some(array) = target.as_mut_array() {
        *array = bytes;
    }
}

/// The last digit of a number.
fn digit(number: u64) -> u8
    ensures { result ≡ 48 + number % 10 }
{
    b'0' + (number % 10) as u8
}
