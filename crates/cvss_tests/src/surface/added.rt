//! What the library has in addition to the crate that it ports.

ghost use Rattle.std.specs.Prelude.{◌≤◌};
ghost use Rattle.cvss_base.specs.Tenths.{IsInTenths, IsFromZeroToTen};
ghost use Rattle.cvss_base.specs.Version.{IsComplete};
ghost use Rattle.cvss_vector.specs.Answers.{HasScore};
ghost use Rattle.cvss_vector.specs.v4.Vector.{v4 as of_v4};

use super::{Reported, Value};
use cvss::v4::{Nomenclature, OverrideError};
use cvss::{
    Bounds, BytesError, Cvss, Error, Evaluation, Group, Message, MetricGroup, MetricType,
    OneDecimal, Published, Rated, ReadError, Rejection, Scoring, Segment, SetError, Severity,
    Version, tenths, v2, v3, v4,
};
use std::alloc::Global;
use std::fmt;

impl Value for MetricGroup {}

impl Value for OneDecimal {}

impl Value for Bounds {}

impl Value for Published {}

impl Value for Scoring {}

impl Value for Version {}

impl Reported for BytesError {}

impl Reported for OverrideError {}

trait Printed: fmt::Display {}

impl Printed for OneDecimal {}

impl Printed for v2::Score {}

impl Printed for v3::Score {}

trait Copied: Copy + Clone {}

impl Copied for Evaluation {}

impl Copied for Group {}

impl Copied for Rated {}

impl Copied for ReadError<'_> {}

impl Copied for Rejection<'_> {}

impl Copied for SetError<'_> {}

impl Copied for Message<'_> {}

impl Copied for Segment<'_> {}

const _: OneDecimal = OneDecimal { count: 0i128 };

const _: Published = Published {
    tenths: 0u8,
    bounds: Bounds::OfV2,
};

fn read_bytes(alloc: Global, text: &[u8]) -> Result<Cvss, BytesError> {
    Cvss::from_bytes(alloc, text)
}

fn read(text: &[u8]) -> Result<Cvss, ReadError<'_>> {
    Cvss::read(text)
}

fn read_each(text: &[u8]) -> (Option<Cvss>, Option<v2::Vector>, Option<v3::Vector>) {
    (
        Cvss::read_bytes(text),
        v2::Vector::read_bytes(text),
        v3::Vector::read_bytes(text),
    )
}

fn read_v4(text: &[u8]) -> Option<v4::Vector> {
    v4::Vector::read_bytes(text)
}

fn published_of(text: &[u8], scoring: Scoring) -> Option<Published> {
    Cvss::published_of_canonical(text, scoring)
}

fn published(cvss: &Cvss, scoring: Scoring) -> (u8, &'static str, Published)
    requires { HasScore cvss.now }
{
    (
        Cvss::tenths(cvss),
        Cvss::score_text(cvss),
        Cvss::published(cvss, scoring),
    )
}

fn evaluated(cvss: &Cvss, scoring: Scoring) -> (Evaluation, [u8; 3])
    requires { HasScore cvss.now }
{
    (
        Evaluation::of(cvss),
        [
            Cvss::tenths_as(cvss, scoring),
            Cvss::overall_tenths(cvss),
            Cvss::base_tenths(cvss),
        ],
    )
}

fn scores_of(
    evaluation: Evaluation,
) -> (Version, [Rated; 2], [Option<Rated>; 2], Option<MetricType>) {
    let Evaluation {
        version,
        overall,
        base,
        temporal,
        environmental,
        missing,
    } = evaluation;
    (version, [overall, base], [temporal, environmental], missing)
}

fn rated_as(rated: Rated) -> (u8, Severity) {
    (rated.tenths, rated.severity)
}

fn version(cvss: &Cvss) -> (Version, &'static str) {
    (Cvss::version(cvss), Version::as_str(Cvss::version(cvss)))
}

fn scorings() -> [Scoring; 3] {
    [Scoring::Published, Scoring::Overall, Scoring::Base]
}

fn groups_of_scores() -> [Group; 3] {
    [Group::Base, Group::Temporal, Group::Environmental]
}

fn rated(cvss: &Cvss, score: i128) -> (Bounds, Severity) {
    (Cvss::bounds(cvss), Cvss::severity_of(cvss, score))
}

fn missing(cvss: &Cvss, allow_incomplete: bool) -> [Option<MetricType>; 2] {
    [
        Cvss::first_missing(cvss),
        Cvss::missing_by(cvss, allow_incomplete),
    ]
}

fn with_metrics<'a>(cvss: &Cvss, metrics: &'a str) -> Result<Cvss, SetError<'a>> {
    Cvss::with_metrics(cvss, metrics)
}

fn built(version: Version, metrics: &str) -> Result<Cvss, SetError<'_>> {
    Cvss::build(version, metrics)
}

fn tenths_of(score: i128) -> u8
    requires { IsInTenths IsFromZeroToTen score }
{
    tenths::tenths_of(score)
}

fn text_of(number: u8) -> &'static str
    requires { number ≤ 100 }
{
    tenths::text_of(number)
}

fn digits(number: u8) -> &'static str
    requires { number ≤ 10 }
{
    tenths::digits(number)
}

fn tenths_of_v2(vector: &v2::Vector) -> [u8; 3] {
    [
        v2::Vector::tenths(vector),
        v2::Vector::temporal_tenths(vector),
        v2::Vector::environmental_tenths(vector),
    ]
}

fn tenths_of_v3(vector: &v3::Vector) -> [u8; 3] {
    [
        v3::Vector::tenths(vector),
        v3::Vector::temporal_tenths(vector),
        v3::Vector::environmental_tenths(vector),
    ]
}

fn tenths_of_v4(vector: &v4::Vector, nomenclature: Nomenclature) -> [u8; 2]
    requires { IsComplete of_v4 vector.now }
{
    [
        v4::Vector::tenths(vector),
        v4::Vector::tenths_by(vector, nomenclature),
    ]
}

fn explained(vector: &v4::Vector) -> v4::Explanation
    requires { IsComplete of_v4 vector.now }
{
    v4::Vector::explanation(vector)
}

fn parts(vector: &v4::Vector, other: &v4::Vector, nomenclature: Nomenclature) -> [v4::Vector; 4] {
    [
        v4::Vector::part(vector, nomenclature),
        v4::Vector::without_threat(vector),
        v4::Vector::without_environmental(vector),
        v4::Vector::overridden_by(vector, other),
    ]
}

fn overrides(alloc: Global, overrides: &[&str]) -> Result<v4::Vector, OverrideError> {
    v4::Vector::from_overrides(alloc, overrides)
}

fn groups(of_v2: v2::MetricType, of_v3: v3::MetricType, of_v4: v4::MetricType) -> [MetricGroup; 3] {
    [
        v2::MetricType::group(of_v2),
        v3::MetricType::group(of_v3),
        v4::MetricType::group(of_v4),
    ]
}

fn all_of_v4() -> &'static [v4::MetricType] {
    v4::MetricType::all()
}

fn message<'a>(error: ReadError<'a>, rejection: Rejection<'a>) -> [Message<'a>; 2] {
    [Message::of(error), Message::of_rejection(rejection)]
}

fn segments(message: Message<'_>) -> [Segment<'_>; 5] {
    message.segments
}

fn segment(segment: Segment<'_>) -> (&[u8], bool) {
    (segment.bytes, segment.upper)
}

fn set_error(error: SetError<'_>) -> (Option<usize>, Rejection<'_>) {
    (error.index, error.reason)
}

fn variants(version: Version, bounds: Bounds, group: MetricGroup) {
    let (Version::V20 | Version::V30 | Version::V31 | Version::V40) = version;
    let (Bounds::OfV2 | Bounds::SinceV3) = bounds;
    let (MetricGroup::Base
    | MetricGroup::Temporal
    | MetricGroup::Threat
    | MetricGroup::Environmental
    | MetricGroup::Supplemental) = group;
}

fn rejections<'a>(error: ReadError<'a>) -> Option<(Option<MetricType>, Option<Segment<'a>>)> {
    let ReadError::Invalid(rejection) = error else {
        return None;
    };
    match rejection {
        Rejection::BadComponent(part)
        | Rejection::WrongPrefix(part)
        | Rejection::WrongVersion(part)
        | Rejection::UnknownName(part) => Some((None, Some(part))),
        Rejection::BadValue(metric, part) => Some((Some(metric), Some(part))),
        Rejection::Repeated(metric) | Rejection::Missing(metric) => Some((Some(metric), None)),
    }
}

fn errors_of_bytes(error: &BytesError) -> Option<&Error> {
    match error {
        BytesError::NotUtf8 => None,
        BytesError::Invalid(error) => Some(error),
    }
}

fn errors_of_overrides(error: &OverrideError) -> (usize, Option<&Error>) {
    match error {
        OverrideError::NotEnvironmental { index } => (*index, None),
        OverrideError::Rejected { index, error } => (*index, Some(error)),
    }
}
