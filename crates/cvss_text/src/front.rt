//! Texts that begin with a piece that says their version, once for all versions that have one.

ghost use Rattle.std.specs.Prelude.{IfSome, IfNone, IfOk, IfErr, Contains, IsUtf8};
ghost use Rattle.cvss_base.specs.Text.{IsComponent};
ghost use Rattle.cvss_text.specs.private.Pieces.{pieces_left};
ghost use Rattle.cvss_text.specs.private.Walk.{HasNoValue, IsReadLeft, Starts, StartsWith, IsAnswerAfter, IsFrontFault, IsPrintable, FrontLaws, reason_of};

use crate::pieces::{Pieces, first_bad_piece, front_of, parts_of};
use crate::walk::{Components, Fault, check_complete, read_text};
use cvss_base::PREFIX;

/// A vector of some version, whose text begins with the piece that says the version.
pub trait Prefixed: Components {
    /// A vector without values, of the version that is reported exactly so, if that is supported.
    fn start(reported: &[u8]) -> Option<Self>
        ensures started { IfSome result (Starts Self.version reported.now) }
        ensures unsupported { IfNone result (¬ (Contains Self.version.supported reported.now)) };

    ghost plain: { FrontLaws Self.version };
}

/// Reads a text that begins with a version piece, or finds the first reason why it is rejected.
pub fn read_after<'a, V: Prefixed>(text: &'a [u8]) -> Result<V, Fault<'a, V::Kind>>
    ensures { IsAnswerAfter V.version text.now result }
{
    let (front, left) = front_of(text);
    match start(front) {
        Ok(mut vector) => match read_left(left, &mut vector) {
            Ok(()) => Ok(vector),
            Err(fault) => Err(fault),
        },
        Err(fault) => match first_bad_piece(text) {
            Some(piece) => Err(Fault::InvalidComponent(piece)),
            None => Err(fault),
        },
    }
}

/// Reads the pieces that are left of a text into a vector without values, which then has to be complete.
#[inline(always)]
fn read_left<'a, V: Prefixed>(left: Pieces<'a>, vector: &mut V) -> Result<(), Fault<'a, V::Kind>>
    requires { HasNoValue V.version vector.old }
    ensures { IsReadLeft V.version (pieces_left left.entry) vector.old result vector.new }
{
    match left.text() {
        Some(text) => read_text(text, vector),
        None => check_complete(vector),
    }
}

/// The vector without values that a version piece starts.
fn start<'a, V: Prefixed>(front: &'a [u8]) -> Result<V, Fault<'a, V::Kind>>
    ensures started { IfOk result (StartsWith V.version front.now) }
    ensures rejected { IfErr result (λ fault.
        IsComponent front.now → IsFrontFault V.version front.now (reason_of V.version fault)) }
    ensures printable { IsUtf8 front.now → IfErr result (IsPrintable V.version) }
{
    let Some((name, reported)) = parts_of(front) else {
        return Err(Fault::InvalidComponent(front));
    };
    if name != PREFIX.as_bytes() {
        return Err(Fault::InvalidPrefix(name));
    }
    match V::start(reported) {
        Some(empty) => Ok(empty),
        None => Err(Fault::UnsupportedVersion(reported)),
    }
}
