//! What each version brings to a vector of any version. CVSS v3.0 and v3.1 are one version here, with
//! two minor versions.

ghost use Rattle.std.specs.Prelude.{◌≡◌, ◌≤◌, [], ℕ, Bool, List, None, Option, codes, ⊤};
ghost use Rattle.cvss_base.specs.Rejection.{Rejection};
ghost use Rattle.cvss_base.specs.V2Types.{v2_reason};
ghost use Rattle.cvss_base.specs.V3Types.{v3_reason};
ghost use Rattle.cvss_base.specs.V4Types.{v4_reason};
ghost use Rattle.cvss_base.specs.Version.{canonical_text};
ghost use Rattle.cvss_base.specs.declared.error.Error.{Error};
ghost use Rattle.cvss_text.specs.Route.{Route, ToV20, ToV40};
ghost use Rattle.cvss_vector.specs.Answers.{text_of};
ghost use Rattle.cvss_vector.specs.Complete.{missing_by};
ghost use Rattle.cvss_vector.specs.declared.metric_type.MetricType.{MetricType};
ghost use Rattle.cvss_vector.specs.declared.metric_type.MetricType.TheVariants as of;
ghost use Rattle.cvss_vector.specs.declared.vector.Cvss.{Cvss};
ghost use Rattle.cvss_vector.specs.declared.vector.Cvss.TheVariants as wrapped;
ghost use Rattle.cvss_vector.specs.private.{IsReadByRules, IsRouted, front_of, route_v3, wrapped_v3};
ghost use Rattle.cvss_vector.specs.private.ErrorLaws.{ErrorLaws, v2_errors, v3_errors, v4_errors};

use crate::metric_type::MetricType;
use crate::vector::Cvss;
use crate::{v2, v3, v4};
use cvss_text::buffer::TextBuffer;
use cvss_text::print::{Printed, text_after};

/// A vector of some version, which has minor versions. CVSS v2 has one.
pub trait Versioned: Printed {
    ghost front: { ℕ → List (List ℕ) };

    /// The vector without metrics, of a minor version.
    fn without_metrics(minor_version: usize) -> Self
        ensures front { Self.version.front result ≡ front minor_version }
        ensures valueless { (kind : Self.Kind) → Self.version.value_of result kind ≡ None };
}

/// A version, whose metrics and vectors are also those of any version.
pub(crate) trait OneVersion: Versioned {
    ghost wrap: { Self.Kind → MetricType };

    ghost joined: { ℕ → Self → Cvss };

    ghost route: { ℕ → Route };

    ghost has_minor: { ℕ → Type 0 };

    ghost reason: { Error → Option (Rejection Self.Kind) };

    /// The metric as one of any version.
    fn of_any(kind: Self::Kind) -> MetricType
        ensures { result ≡ wrap kind };

    /// The vector as one of any version, by the minor version that is said.
    fn join(self, minor_version: usize) -> Cvss
        ensures { result ≡ joined minor_version self };

    /// What the rules of this version read of the components of a text that says it, is what the text
    /// denotes. A law: it does nothing.
    fn reads_by_its_rules(text: &[u8], components: &[u8], minor_version: usize, empty: Self)
        requires routed { IsRouted has_minor route Self.front text.now components.now minor_version }
        requires front { Self.version.front empty ≡ Self.front minor_version }
        ensures read { IsReadByRules Self.version (joined minor_version) wrap text.now
            components.now empty }
        ensures text { (v : Self) → text_of (joined minor_version v) ≡ canonical_text Self.version v }
        ensures complete { (allow_incomplete : Bool) (v : Self) → Self.has_base v
            → missing_by allow_incomplete (joined minor_version v) ≡ None };

    /// Writes the vector's canonical text into an empty buffer, and gives it.
    fn canonical<'a>(&self, minor_version: usize, buffer: &'a mut TextBuffer) -> &'a [u8]
        requires minor { has_minor minor_version }
        requires front { Self.version.front self.now ≡ Self.front minor_version }
        requires empty { buffer.old ≡ [] }
        ensures { result.now ≡ canonical_text Self.version self.now };

    ghost error_laws: { ErrorLaws Self.Components.version wrap reason };
}

impl Versioned for v2::Vector {
    ghost front = { λ _. [] };

    fn without_metrics(_minor_version: usize) -> v2::Vector {
        v2::laws::vectors_are_their_values();
        v2::Vector::default()
    }
}

impl OneVersion for v2::Vector {
    ghost wrap = { of.V2 };

    ghost joined = { λ _. wrapped.CvssV20 };

    ghost route = { λ _. ToV20 };

    ghost has_minor = { λ _. ⊤ };

    ghost reason = { v2_reason };

    ghost error_laws = { v2_errors };

    fn of_any(kind: cvss_base::v2::MetricType) -> MetricType {
        MetricType::V2(kind)
    }

    #[inline(always)]
    fn join(self, _minor_version: usize) -> Cvss {
        Cvss::CvssV20(self)
    }

    #[inline(always)]
    fn reads_by_its_rules(_text: &[u8], _components: &[u8], _minor: usize, _empty: v2::Vector) {}

    #[inline(always)]
    fn canonical<'a>(&self, _minor_version: usize, buffer: &'a mut TextBuffer) -> &'a [u8] {
        self.text(buffer)
    }
}

impl Versioned for v3::Vector {
    ghost front = { front_of (codes "3.") };

    #[inline(always)]
    fn without_metrics(minor_version: usize) -> v3::Vector {
        let mut empty = v3::Vector::default();
        empty.minor_version = minor_version;
        empty
    }
}

impl OneVersion for v3::Vector {
    ghost wrap = { of.V3 };

    ghost joined = { wrapped_v3 };

    ghost route = { route_v3 };

    ghost has_minor = { λ minor. minor ≤ 1 };

    ghost reason = { v3_reason };

    ghost error_laws = { v3_errors };

    fn of_any(kind: cvss_base::v3::MetricType) -> MetricType {
        MetricType::V3(kind)
    }

    #[inline(always)]
    fn join(self, minor_version: usize) -> Cvss {
        match minor_version {
            0 => Cvss::CvssV30(self),
            _ => Cvss::CvssV31(self),
        }
    }

    #[inline(always)]
    fn reads_by_its_rules(_text: &[u8], _components: &[u8], _minor: usize, _empty: v3::Vector) {}

    #[inline(always)]
    fn canonical<'a>(&self, minor_version: usize, buffer: &'a mut TextBuffer) -> &'a [u8] {
        match minor_version {
            0 => text_after(*b"CVSS:3.0", self, buffer),
            _ => text_after(*b"CVSS:3.1", self, buffer),
        }
    }
}

impl Versioned for v4::Vector {
    ghost front = { front_of (codes "4.") };

    #[inline(always)]
    fn without_metrics(minor_version: usize) -> v4::Vector {
        let mut empty = v4::Vector::default();
        empty.minor_version = minor_version;
        empty
    }
}

impl OneVersion for v4::Vector {
    ghost wrap = { of.V4 };

    ghost joined = { λ _. wrapped.CvssV40 };

    ghost route = { λ _. ToV40 };

    ghost has_minor = { λ minor. minor ≡ 0 };

    ghost reason = { v4_reason };

    ghost error_laws = { v4_errors };

    fn of_any(kind: cvss_base::v4::MetricType) -> MetricType {
        MetricType::V4(kind)
    }

    #[inline(always)]
    fn join(self, _minor_version: usize) -> Cvss {
        Cvss::CvssV40(self)
    }

    #[inline(always)]
    fn reads_by_its_rules(_text: &[u8], _components: &[u8], _minor: usize, _empty: v4::Vector) {}

    #[inline(always)]
    fn canonical<'a>(&self, _minor_version: usize, buffer: &'a mut TextBuffer) -> &'a [u8] {
        text_after(*b"CVSS:4.0", self, buffer)
    }
}
