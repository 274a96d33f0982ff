//! How a vector's components are printed, once for all versions.

ghost use Rattle.std.specs.Prelude.{◌≡◌, ◌≤◌, ◌++◌, ◌∷◌, [], length, option_copied};
ghost use Rattle.std.specs.Fmt.{WritesOnOk};
ghost use Rattle.cvss_base.specs.Version.{canonical_text, held};
ghost use Rattle.cvss_text.specs.private.Printing.{texts_with_slash, with_texts};

use crate::buffer::TextBuffer;
use crate::walk::Components;
use std::fmt;

/// A vector of some version, as it is printed.
pub trait Printed: Components {
    /// How the vector's value for a metric is spelled.
    fn spelling(&self, kind: Self::Kind) -> Option<&'static str>
        ensures { option_copied result ≡ held Self.version self.now kind };

    /// Appends one component after another in printing order, each with a slash before it.
    fn write_each(&self, buffer: &mut TextBuffer)
        requires { length buffer.old ≤ 8 }
        ensures { buffer.new ≡ with_texts Self.version self.now buffer.old Self.version.printed };

    /// Appends all components in printing order, each with a slash before it.
    #[inline(always)]
    final fn write_metrics(&self, buffer: &mut TextBuffer)
        requires { length buffer.old ≤ 8 }
        ensures { buffer.new ≡ buffer.old ++ texts_with_slash Self.version self.now Self.version.printed }
    {
        self.write_each(buffer);
    }
}

/// Writes the canonical text of a vector after the piece that says its version into an empty buffer,
/// and gives it.
#[tactic(auto, using(crate::proofs::PrintLemmas::joins))]
#[inline(always)]
pub fn text_after<'a, V: Printed>(
    piece: [u8; 8],
    vector: &V,
    buffer: &'a mut TextBuffer,
) -> &'a [u8]
    requires front { V.version.front vector.now ≡ piece ∷ [] }
    requires empty { buffer.old ≡ [] }
    ensures { result.now ≡ canonical_text V.version vector.now }
{
    buffer.push(piece);
    vector.write_metrics(buffer);
    buffer.text()
}

/// Writes a vector's text, which is ASCII.
pub fn write_text<W: fmt::Write>(text: &[u8], f: &mut fmt::Formatter<W>) -> fmt::Result
    ensures { WritesOnOk W.write_str_gives f.old result text.now f.new }
{
    match str::from_utf8(text) {
        Ok(text) => f.write_str(text),
        Err(_) => Err(fmt::Error),
    }
}

/// Writes all components of a vector in printing order, each with a slash before it.
#[inline(always)]
pub fn write_components<V: Printed, W: fmt::Write>(
    vector: &V,
    f: &mut fmt::Formatter<W>,
) -> fmt::Result
    ensures { WritesOnOk W.write_str_gives f.old result
        (texts_with_slash V.version vector.now V.version.printed) f.new }
{
    let mut buffer = TextBuffer::new();
    vector.write_metrics(&mut buffer);
    write_text(buffer.text(), f)
}
