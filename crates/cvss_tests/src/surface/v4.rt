//! Vectors, nomenclatures and scores of version 4.0.

ghost use Rattle.cvss_base.specs.Version.{IsComplete};
ghost use Rattle.cvss_vector.specs.v4.Vector.{v4};

use super::{Ordered, Value};
use cvss::v4::{MetricType, Metrics, Nomenclature, Score, Vector, metric};
use cvss::{Error, Severity};
use std::alloc::Global;
use std::fmt;

impl Value for Vector {}

impl Value for MetricType {}

impl Value for Score {}

impl Value for Nomenclature {}

impl Ordered for MetricType {}

trait Printed: fmt::Display {}

impl Printed for Vector {}

impl Printed for MetricType {}

impl Printed for Score {}

impl Printed for Nomenclature {}

trait HasDefault: Default {}

impl HasDefault for Vector {}

trait Lists: Iterator<Item = (MetricType, &'static str)> {}

impl Lists for Metrics {}

fn read(alloc: Global, text: &str) -> Result<Vector, Error> {
    Vector::from_str(alloc, text)
}

fn minor_version(vector: &Vector) -> usize {
    vector.minor_version
}

fn nomenclature_from(vector: &Vector) -> Nomenclature {
    Nomenclature::from(vector)
}

fn is_complete(vector: &Vector) -> bool {
    Vector::is_complete(vector)
}

fn scored(vector: &Vector) -> Score
    requires { IsComplete v4 vector.now }
{
    Vector::score(vector)
}

fn nomenclature(vector: &Vector) -> Nomenclature {
    Vector::nomenclature(vector)
}

fn listed(vector: &Vector) -> Metrics {
    Vector::metrics(vector)
}

fn is_alike(vector: &Vector, other: &Vector) -> bool {
    Vector::same_text(vector, other)
}

fn score(value: i128, nomenclature: Nomenclature) -> Score {
    Score::new(value, nomenclature)
}

fn rated(score: Score) -> (i128, Severity) {
    (Score::value(score), Score::severity(score))
}

fn nomenclature_of(alloc: Global, text: &str) -> Result<Nomenclature, Error> {
    Nomenclature::from_str(alloc, text)
}

fn nomenclatures(nomenclature: Nomenclature) {
    let (Nomenclature::CvssB
    | Nomenclature::CvssBE
    | Nomenclature::CvssBT
    | Nomenclature::CvssBTE) = nomenclature;
}

fn named(metric: MetricType) -> [&'static str; 2] {
    [MetricType::name(metric), MetricType::description(metric)]
}

fn metric_type(alloc: Global, text: &str) -> Result<metric::MetricType, Error> {
    MetricType::from_str(alloc, text)
}

fn types(metric: MetricType) {
    let (MetricType::AC
    | MetricType::AT
    | MetricType::AV
    | MetricType::PR
    | MetricType::SA
    | MetricType::SC
    | MetricType::SI
    | MetricType::UI
    | MetricType::VA
    | MetricType::VC
    | MetricType::VI
    | MetricType::E
    | MetricType::AR
    | MetricType::CR
    | MetricType::IR
    | MetricType::MAC
    | MetricType::MAT
    | MetricType::MAV
    | MetricType::MPR
    | MetricType::MSA
    | MetricType::MSC
    | MetricType::MSI
    | MetricType::MUI
    | MetricType::MVA
    | MetricType::MVC
    | MetricType::MVI
    | MetricType::AU
    | MetricType::R
    | MetricType::RE
    | MetricType::S
    | MetricType::U
    | MetricType::V) = metric;
}
