//! Tests of vectors that no text denotes, and of which variant a text's vector is.

use crate::values::{Tried, are_printed, prints};
use cvss::{Cvss, v2, v3, v4};

/// The version that a vector says.
fn version_of(vector: &Cvss) -> &'static str {
    match vector {
        Cvss::CvssV20(_) => "2.0",
        Cvss::CvssV30(_) => "3.0",
        Cvss::CvssV31(_) => "3.1",
        Cvss::CvssV40(_) => "4.0",
    }
}

/// Texts with the version of each.
const VERSIONS: [(&str, &str); 4] = [
    ("AV:N/AC:L/Au:N/C:N/I:N/A:C", "2.0"),
    ("CVSS:3.0/AV:N/AC:L/PR:N/UI:R/S:C/C:H/I:H/A:H", "3.0"),
    ("CVSS:3.1/AV:N/AC:L/PR:N/UI:N/S:U/C:H/I:H/A:H", "3.1"),
    (
        "CVSS:4.0/AV:N/AC:L/AT:N/PR:N/UI:N/VC:L/VI:H/VA:N/SC:N/SI:N/SA:N/E:P",
        "4.0",
    ),
];

#[test]
fn a_text_is_a_vector_of_the_version_that_it_reports(rt: HostRuntime) -> Tried {
    for (text, version) in &VERSIONS {
        let cvss = Cvss::from_str(rt.alloc(), text)?;
        assert!(rt; version_of(&cvss) == *version, "{text}");
    }
    Ok(())
}

#[test]
fn an_incomplete_vector_of_v4_has_no_score(rt: HostRuntime) {
    assert!(rt; !v4::Vector::default().is_complete());
    assert!(rt; !Cvss::CvssV40(v4::Vector::default()).has_score());
    assert!(rt; Cvss::CvssV20(v2::Vector::default()).has_score());
    assert!(rt; Cvss::CvssV31(v3::Vector::default()).has_score());
}

#[test]
fn prints_vectors_of_v2_that_no_text_denotes(rt: HostRuntime) -> Tried {
    let empty = v2::Vector::default();
    let vector = v2::Vector {
        a: Some(v2::metric::base::AvailabilityImpact::Partial),
        rl: Some(v2::metric::temporal::RemediationLevel::NotDefined),
        ..empty
    };
    assert!(rt; !vector.same_text(&empty));
    assert!(rt; vector.metrics().count() == 2);
    are_printed(&rt, rt.alloc(), &[("", empty), ("A:P/RL:ND", vector)])
}

#[test]
fn prints_vectors_of_v3_that_no_text_denotes(rt: HostRuntime) -> Tried {
    use cvss::v3::metric::base::AttackVector;
    use cvss::v3::metric::environmental::{Modified, ModifiedScope};
    let empty = v3::Vector::default();
    let vector = v3::Vector {
        minor_version: 1_234_567_890,
        av: Some(AttackVector::Physical),
        mav: Some(Modified::Modified(AttackVector::Adjacent)),
        ms: Some(ModifiedScope::NotDefined),
        ..empty
    };
    let printed = "CVSS:3.1234567890/AV:P/MAV:A/MS:X";
    assert!(rt; !vector.same_text(&empty));
    are_printed(&rt, rt.alloc(), &[("CVSS:3.0", empty), (printed, vector)])
}

#[test]
fn a_vector_of_another_minor_version_is_read_back_as_of_that(rt: HostRuntime) -> Tried {
    let empty = v3::Vector {
        minor_version: 1,
        ..v3::Vector::default()
    };
    prints(&rt, rt.alloc(), &Cvss::CvssV30(empty), "CVSS:3.1")?;
    let vector = v3::Vector {
        av: Some(v3::metric::base::AttackVector::Network),
        ..empty
    };
    let text = "CVSS:3.1/AV:N";
    prints(&rt, rt.alloc(), &Cvss::CvssV30(vector), text)?;
    let read = Cvss::read_bytes(text.as_bytes());
    assert!(rt; matches!(read, Some(Cvss::CvssV31(read)) if read == vector));
    Ok(())
}

/// Canonical texts of v4.0, of base metrics and with metrics of each other group.
const CANONICAL: [&str; 2] = [
    "CVSS:4.0/AV:N/AC:L/AT:N/PR:N/UI:N/VC:L/VI:H/VA:N/SC:N/SI:N/SA:N",
    "CVSS:4.0/AV:A/AC:H/AT:P/PR:L/UI:P/VC:H/VI:L/VA:N/SC:H/SI:L/SA:N/E:U/MAV:N/MSI:S/R:I/U:Amber",
];

#[test]
fn debug_of_a_vector_of_v4_is_its_text(rt: HostRuntime) -> Tried {
    for text in &CANONICAL {
        let vector = v4::Vector::from_str(rt.alloc(), text)?;
        let printed = format!(in rt.alloc(); "{vector:?}")?;
        assert!(rt; printed.as_str() == *text, "{printed}");
    }
    Ok(())
}

/// The vector of v3 without metrics and with this minor version.
fn empty_v3(minor_version: usize) -> v3::Vector {
    v3::Vector {
        minor_version,
        ..v3::Vector::default()
    }
}

#[test]
fn vectors_of_v3_print_any_minor_version(rt: HostRuntime) -> Tried {
    let rows = [
        ("CVSS:3.0", empty_v3(0)),
        ("CVSS:3.1", empty_v3(1)),
        ("CVSS:3.7", empty_v3(7)),
        ("CVSS:3.10", empty_v3(10)),
        ("CVSS:3.18446744073709551615", empty_v3(usize::MAX)),
    ];
    are_printed(&rt, rt.alloc(), &rows)
}

/// The vector of v4 without metrics and with this minor version.
fn empty_v4(minor_version: usize) -> v4::Vector {
    let mut vector = v4::Vector::default();
    vector.minor_version = minor_version;
    vector
}

#[test]
fn vectors_of_v4_print_any_minor_version(rt: HostRuntime) -> Tried {
    let rows = [
        ("CVSS:4.0", empty_v4(0)),
        ("CVSS:4.1", empty_v4(1)),
        ("CVSS:4.7", empty_v4(7)),
        ("CVSS:4.10", empty_v4(10)),
        ("CVSS:4.12", empty_v4(12)),
        ("CVSS:4.18446744073709551615", empty_v4(usize::MAX)),
    ];
    assert!(rt; !empty_v4(12).same_text(&empty_v4(0)));
    are_printed(&rt, rt.alloc(), &rows)
}
