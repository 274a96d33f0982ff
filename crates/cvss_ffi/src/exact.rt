//! Scores and sub-scores of vectors that may lack mandatory metrics, and numbers that are rounded, as C
//! sees them. It takes no memory.

ghost use Rattle.std.specs.Prelude.{◌≡◌, ◌↔◌, ◌*ℤ◌, ◌^◌, ℤ, pos, IfSome, IfNone, IsTrue};
ghost use Rattle.cvss_base.specs.Exact.{IsWithinLimit};
ghost use Rattle.cvss_ffi.specs.Accepted.{NoneIs};
ghost use Rattle.cvss_ffi.specs.Buffer.{Puts, PutsFilled};
ghost use Rattle.cvss_ffi.specs.Exact.{AreNumbersOf, AreNumbersV2, AreNumbersV3, IsNumber, IsPartial, IsRoundedTo, IsTemporalWith, count_in, numbers_size};

use crate::buffer::put;
use cvss_base::TENTH;
use cvss_score::v3::Rules;
use cvss_score::v3::rounding::round_count;
use cvss_text::setting::read_given;
use cvss_text::texts::components_of;
use cvss_vector::{Versioned, v2, v3};

/// An exact number: a count of 10^-12 and a count of 10^-24, added.
#[derive(Drop)]
#[repr(C)]
pub struct CvssNumber {
    /// The count of 10^-12, less than 10^18 from 0.
    pub trillionths: i64,
    /// The count of 10^-24, less than 10^12 from 0.
    pub rest: i64,
}

/// The scores, in tenths, and the exact sub-scores of a vector of CVSS v2 or v3.
#[derive(Drop)]
#[repr(C)]
pub struct CvssNumbers {
    /// The number of bytes that the caller has for it.
    pub size: u32,
    /// The base score.
    pub base: i32,
    /// The temporal score.
    pub temporal: i32,
    /// The environmental score.
    pub environmental: i32,
    /// Of CVSS v2 Impact, of v3 ISS.
    pub impact: CvssNumber,
    /// Exploitability.
    pub exploitability: CvssNumber,
    /// Of CVSS v2 AdjustedImpact, of v3 MISS.
    pub adjusted_impact: CvssNumber,
}

const TRILLION: i128 = 1_000_000_000_000;

/// A million, in trillionths.
const MILLION: i64 = 1_000_000_000_000_000_000;

/// The number of bytes of the numbers of a vector.
const NUMBERS_SIZE: u32 = 64;

const _: () = prove!(size_of::<CvssNumbers>() == 64);

/// Writes the numbers of the vector of CVSS v2 or v3 that the components make, which may lack any metric,
/// if there is one and the struct is large enough, and returns whether it does.
pub fn numbers(version: i32, metrics: &[u8], numbers: &mut CvssNumbers) -> bool
    ensures { PutsFilled numbers_size numbers.old.size
        (AreNumbersOf numbers.old.size version metrics.now) numbers.old numbers.new result }
{
    if numbers.size < NUMBERS_SIZE {
        return false;
    }
    put(numbers_of(version, metrics, numbers.size), numbers)
}

/// Writes the tenths of a number less than a million from 0, rounded as CVSS v2 or v3 rounds scores, if it
/// is one, and returns whether it is.
pub fn rounded(version: i32, number: &CvssNumber, tenths: &mut i32) -> bool
    ensures { Puts (IsRoundedTo version number.now) tenths.old tenths.new result }
{
    put(rounded_of(version, number), tenths)
}

/// Writes the tenths of the temporal score with this impact, less than a million from 0, of the vector of
/// CVSS v2 that the components make, which may lack any metric, if there is one, and returns whether it
/// does.
pub fn temporal_with_impact(metrics: &[u8], impact: &CvssNumber, tenths: &mut i32) -> bool
    ensures { Puts (IsTemporalWith metrics.now impact.now) tenths.old tenths.new result }
{
    put(temporal_of(metrics, impact), tenths)
}

/// The numbers of the vector that the components make, in a struct of this size.
fn numbers_of(version: i32, metrics: &[u8], size: u32) -> Option<CvssNumbers>
    ensures { AreNumbersOf size version metrics.now result }
{
    match version {
        20 => Some(numbers_of_v2(&partial(0, metrics)?, size)),
        30 => Some(numbers_of_v3(&partial(0, metrics)?, size)),
        31 => Some(numbers_of_v3(&partial(1, metrics)?, size)),
        _ => None,
    }
}

/// The tenths of a number, rounded as the version rounds scores.
fn rounded_of(version: i32, number: &CvssNumber) -> Option<i32>
    ensures { IsRoundedTo version number.now result }
{
    let score = score_of(number)?;
    match version {
        20 => Some(tenths_of(score.roundup())),
        30 => Some(round_count(score.value(), Rules::V30) as i32),
        31 => Some(round_count(score.value(), Rules::V31) as i32),
        _ => None,
    }
}

/// The tenths of the temporal score with this impact of the vector of CVSS v2 that the components make.
fn temporal_of(metrics: &[u8], impact: &CvssNumber) -> Option<i32>
    ensures { IsTemporalWith metrics.now impact.now result }
{
    let impact = score_of(impact)?;
    let vector: v2::Vector = partial(0, metrics)?;
    Some(tenths_of(vector.temporal_score_internal(impact)))
}

/// The vector of a minor version with these components, which a text joins by slashes, each once; none
/// is mandatory.
fn partial<V: Versioned>(minor_version: usize, metrics: &[u8]) -> Option<V>
    ensures is { IfSome result (IsPartial V.version (V.front minor_version) metrics.now) }
    ensures none { IfNone result
        (NoneIs (IsPartial V.version (V.front minor_version) metrics.now)) }
{
    let empty = V::without_metrics(minor_version);
    let Ok(metrics) = str::from_utf8(metrics) else {
        return None;
    };
    match read_given(components_of(metrics.as_bytes()), empty) {
        Ok(vector) => Some(vector),
        Err(_) => None,
    }
}

fn numbers_of_v2(vector: &v2::Vector, size: u32) -> CvssNumbers
    ensures { AreNumbersV2 size vector.now result }
{
    CvssNumbers {
        size,
        base: i32::from(vector.tenths()),
        temporal: i32::from(vector.temporal_tenths()),
        environmental: i32::from(vector.environmental_tenths()),
        impact: number_of(vector.impact().value()),
        exploitability: number_of(vector.exploitability().value()),
        adjusted_impact: number_of(vector.adjusted_impact().value()),
    }
}

fn numbers_of_v3(vector: &v3::Vector, size: u32) -> CvssNumbers
    ensures { AreNumbersV3 size vector.now result }
{
    let (base, temporal, environmental) = vector.all_tenths();
    CvssNumbers {
        size,
        base: i32::from(base),
        temporal: i32::from(temporal),
        environmental: i32::from(environmental),
        impact: number_of(vector.impact().value()),
        exploitability: number_of(vector.exploitability().value()),
        adjusted_impact: number_of(vector.weights().miss()),
    }
}

/// The number with this count of 10^-24.
fn number_of(count: i128) -> CvssNumber
    requires { IsWithinLimit count }
    ensures { count_in result ≡ count }
{
    CvssNumber {
        trillionths: (count / TRILLION) as i64,
        rest: (count % TRILLION) as i64,
    }
}

/// The number as a score, if its parts are within their bounds.
fn score_of(number: &CvssNumber) -> Option<v2::Score>
    ensures count { IfSome result (λ score. score ≡ count_in number.now) }
    ensures number { IfSome result (λ _. IsNumber number.now) }
    ensures limit { IfSome result IsWithinLimit }
    ensures none { IfNone result (¬ (IsNumber number.now)) }
{
    if is_number(number) {
        Some(v2::Score::new(whole_count(number)))
    } else {
        None
    }
}

fn is_number(number: &CvssNumber) -> bool
    ensures { IsTrue result ↔ IsNumber number.now }
{
    number.trillionths > -MILLION
        && number.trillionths < MILLION
        && number.rest > -1_000_000_000_000
        && number.rest < 1_000_000_000_000
}

fn whole_count(number: &CvssNumber) -> i128
    requires { IsNumber number.now }
    ensures count { result ≡ count_in number.now }
    ensures limit { IsWithinLimit result }
{
    i128::from(number.trillionths) * TRILLION + i128::from(number.rest)
}

/// The tenths of a score that is a whole number of them.
fn tenths_of(score: v2::Score) -> i32
    requires { IsWithinLimit score }
    ensures { (tenths : ℤ) → score ≡ tenths *ℤ pos (10 ^ 23) → result ≡ tenths }
{
    (score.value() / TENTH) as i32
}
