//! The walk over a vector's components, once for all versions. It takes no memory: a fault borrows
//! the part of the text that it names.

ghost use Rattle.std.specs.Prelude.{◌≡◌, ◌∷◌, ◌++◌, ℕ, List, IfSome, IfOk, IfErr, OnOk, Some, None, All, IsUtf8, drop, take};
ghost use Rattle.cvss_text.specs.private.Pieces.{pieces_left};
ghost use Rattle.cvss_base.specs.Text.{IsComponent, pieces};
ghost use Rattle.cvss_base.specs.Version.{AreComponentsOf, Version, read};
ghost use Rattle.cvss_base.specs.Rejection.{piece_at};
ghost use Rattle.cvss_text.specs.private.Printing.{texts_with_slash};
ghost use Rattle.cvss_text.specs.private.Walk.{HasNoValue, IsAnswerBare, IsBaseTo, IsEmpty, IsPut, IsCut, IsReadLeft, VersionLaws, Puts, Adds, IsFaultOf, IsFirstOfPieces, first_missing, IsPrintable, reason_of};

use crate::beginning::begin;
use crate::cutting::{cut_component, cut_first};
use crate::pieces::{Pieces, first_bad_piece};

/// Why a value does not go into a vector.
#[derive(Drop)]
pub enum ComponentError {
    /// The metric has no such value.
    Invalid,
    /// The vector has a value of this metric.
    Repeated,
}

/// Why a text is rejected, with the part of the text that is at fault.
#[derive(Drop)]
pub enum Fault<'a, K> {
    /// A piece of the text has no colon, or more than one.
    InvalidComponent(&'a [u8]),
    /// The text does not begin with `CVSS`.
    InvalidPrefix(&'a [u8]),
    /// The version that the text begins with is not supported.
    UnsupportedVersion(&'a [u8]),
    /// No metric has this name.
    UnknownMetric(&'a [u8]),
    /// The metric has no such value.
    InvalidMetric(K, &'a [u8]),
    /// The metric occurs twice in the text.
    DuplicateMetric(K),
    /// A metric that every vector has is missing.
    MissingMandatoryMetric(K),
}

/// A vector of some version, as the walk over its text fills it.
pub trait Components: Copy {
    type Kind: Copy + 'static;

    ghost version: { Version Self Self.Kind };

    /// What holds of each vector that is read whole in printing order, besides that no mandatory metric
    /// is missing: in CVSS v3, where a text may lack base metrics, that it has them all.
    ghost has_base: { Self → Type 0 };

    /// How many base metrics there are. They are printed before the optional ones.
    ghost base_count: { ℕ };

    /// Whether names and values are read in any ASCII case.
    fn any_case() -> bool
        ensures { result ≡ version.any_case };

    /// The metrics in printing order.
    fn printed() -> &'static [Self::Kind]
        ensures { result.now ≡ version.printed };

    /// The metric's name.
    fn name(kind: Self::Kind) -> &'static str
        ensures { result.now ≡ version.name kind };

    /// The metric that a piece begins with, and what follows the colon after its name. It may
    /// be `None` for any piece, which is then cut the longer way.
    fn cut(piece: &[u8]) -> Option<(Self::Kind, &[u8])>
        ensures { IfSome result (λ cut. IsCut version piece.now cut.0 cut.1.now) };

    /// This vector without values with the base metrics with which a text begins in printing order, and
    /// what follows them, if no base metric is missing there. It may be `None` for any text, which is then
    /// read the longer way.
    // `Caller` changes nothing. `whole` gives `()` and `begun` `u8`, so that each has a copy of its own: a
    // function of this size is inlined only where it has one caller.
    fn base_in_order<'a, Caller>(self, text: &'a [u8]) -> Option<(Self, &'a [u8])>
        requires { HasNoValue version self }
        ensures { IfSome result (λ read. IsBaseTo version base_count has_base (version.front self)
            text.now read.0 read.1.now) };

    /// Puts the optional metrics with which a text begins into the vector, and gives what follows them.
    fn put_others<'a>(&mut self, text: &'a [u8]) -> &'a [u8]
        ensures text { text.now ≡ texts_with_slash version self.new
            (drop base_count version.printed) ++ result.now }
        ensures base { texts_with_slash version self.new (take base_count version.printed)
            ≡ texts_with_slash version self.old (take base_count version.printed) }
        ensures front { version.front self.new ≡ version.front self.old }
        ensures missing { first_missing version self.new ≡ first_missing version self.old }
        ensures has_base { has_base self.old → has_base self.new };

    /// The metric that a rejected value is reported under.
    fn reported_kind(kind: Self::Kind) -> Self::Kind
        ensures { result ≡ version.reported_kind kind };

    /// Puts a value into its field, which has to be empty.
    // `Caller` changes nothing here either: the walk gives `()`, and all others `u8`.
    fn put<Caller>(&mut self, kind: Self::Kind, value: &[u8]) -> Result<(), ComponentError>
        ensures { IsPut version self.old kind (read version value.now) result self.new };

    /// The first metric that every vector has and this one lacks.
    fn first_missing(&self) -> Option<Self::Kind>
        ensures { result ≡ first_missing version self.now };

    ghost version_laws: { VersionLaws version };
}

/// Reads one component into the vector.
pub fn read_component<'a, V: Components>(
    piece: &'a [u8],
    vector: &mut V,
) -> Result<(), Fault<'a, V::Kind>>
    ensures read { OnOk result (Adds V.version vector.old piece.now vector.new) }
    ensures rejected { IfErr result (λ fault. IsComponent piece.now
        → IsFaultOf V.version vector.old piece.now (reason_of V.version fault)) }
    ensures printable { IsUtf8 piece.now → IfErr result (IsPrintable V.version) }
{
    let (kind, value) = cut_component::<V>(piece)?;
    put_component::<V, u8>(kind, value, vector)
}

/// Puts a component, which is cut, into the vector.
#[inline(always)]
fn put_component<'a, V: Components, Caller>(
    kind: V::Kind,
    value: &'a [u8],
    vector: &mut V,
) -> Result<(), Fault<'a, V::Kind>>
    ensures put { OnOk result
        (Puts V.version vector.old kind (read V.version value.now) vector.new) }
    ensures rejected { IfErr result (λ fault. (piece : List ℕ) → IsCut V.version piece kind value.now
        → IsFaultOf V.version vector.old piece (reason_of V.version fault)) }
    ensures printable { IsUtf8 value.now → IfErr result (IsPrintable V.version) }
{
    match vector.put::<Caller>(kind, value) {
        Ok(()) => Ok(()),
        Err(ComponentError::Invalid) => Err(Fault::InvalidMetric(V::reported_kind(kind), value)),
        Err(ComponentError::Repeated) => Err(Fault::DuplicateMetric(kind)),
    }
}

/// Reads the first component of a text into the vector, and gives the pieces after it.
#[inline(always)]
fn read_first<'a, V: Components>(
    text: &'a [u8],
    vector: &mut V,
) -> Result<Pieces<'a>, Fault<'a, V::Kind>>
    ensures read { IfOk result (λ left. (piece : List ℕ) × (pieces text.now ≡ piece ∷ pieces_left left)
        × Adds V.version vector.old piece vector.new) }
    ensures rejected { IfErr result (λ fault. IsComponent (piece_at (pieces text.now) 0)
        → IsFaultOf V.version vector.old (piece_at (pieces text.now) 0)
        (reason_of V.version fault)) }
    ensures printable { All IsUtf8 (pieces text.now) → IfErr result (IsPrintable V.version) }
{
    let (kind, value, left) = cut_first::<V>(text)?;
    put_component::<V, ()>(kind, value, vector)?;
    Ok(left)
}

/// Reads a text of components into a vector without values.
// A call of its own keeps the vector in memory, which is faster than a local for each field.
#[inline(never)]
fn read_components<'a, V: Components>(
    text: &'a [u8],
    vector: &mut V,
) -> Result<(), Fault<'a, V::Kind>>
    requires { HasNoValue V.version vector.old }
    ensures components { OnOk result (AreComponentsOf V.version (pieces text.now) vector.new) }
    ensures front { OnOk result (V.version.front vector.new ≡ V.version.front vector.old) }
    ensures rejected { IfErr result (λ fault.
        IsFirstOfPieces V.version (pieces text.now) (reason_of V.version fault)) }
    ensures printable { All IsUtf8 (pieces text.now) → IfErr result (IsPrintable V.version) }
{
    let mut left = begin(text, vector);
    while let Some(rest) = left.text() {
        match read_first(rest, vector) {
            Ok(after) => left = after,
            // The pieces before are components, so the first that is none is sought from here on.
            Err(fault) => match first_bad_piece(rest) {
                Some(piece) => return Err(Fault::InvalidComponent(piece)),
                None => return Err(fault),
            },
        }
    }
    Ok(())
}

/// Reads a text of components into a vector without values, which then has to be complete. A piece
/// that is no component goes before each other fault.
#[inline(always)]
pub fn read_text<'a, V: Components>(
    text: &'a [u8],
    vector: &mut V,
) -> Result<(), Fault<'a, V::Kind>>
    requires { HasNoValue V.version vector.old }
    ensures { IsReadLeft V.version (pieces text.now) vector.old result vector.new }
{
    read_components(text, vector)?;
    check_complete(vector)
}

/// Whether the vector, which was read whole, has each metric that every vector has.
#[inline(always)]
pub(crate) fn check_complete<'a, V: Components>(vector: &V) -> Result<(), Fault<'a, V::Kind>>
    ensures { (left : List (List ℕ)) (empty : V) → AreComponentsOf V.version left vector.now
        → V.version.front vector.now ≡ V.version.front empty
        → IsReadLeft V.version left empty result vector.now }
{
    match vector.first_missing() {
        Some(kind) => Err(Fault::MissingMandatoryMetric(kind)),
        None => Ok(()),
    }
}

/// The vector that a text of components denotes, from an empty one, or the first reason why the text
/// is rejected.
pub fn read_vector<'a, V: Components>(text: &'a [u8], empty: V) -> Result<V, Fault<'a, V::Kind>>
    requires { IsEmpty V.version empty }
    ensures { IsAnswerBare V.version text.now result }
{
    let mut vector = empty;
    match read_text(text, &mut vector) {
        Ok(()) => Ok(vector),
        Err(fault) => Err(fault),
    }
}
