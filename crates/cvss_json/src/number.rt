//! Numbers.

ghost use Rattle.std.specs.Prelude.{◌≡◌, ◌+◌, decimal};
ghost use Rattle.cvss_json.specs.Sinks.{Adds};

use crate::Sink;

/// Writes a whole number.
pub fn put_whole<S: Sink>(sink: &mut S, number: u64)
    ensures { Adds S.Holds (decimal number) sink.old sink.new }
{
    if number < 10 {
        sink.push(&[b'0' + number as u8]);
    } else {
        put_whole(sink, number / 10);
        sink.push(&[b'0' + (number % 10) as u8]);
    }
}
