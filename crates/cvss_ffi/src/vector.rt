//! All that is reported of a vector, as C sees it.

ghost use Rattle.std.specs.Prelude.{◌≡◌, ◌≤◌, length};
ghost use Rattle.cvss_vector.specs.Answers.{HasScore, score_of_tenths, text_of};
ghost use Rattle.cvss_vector.specs.Evaluation.{IsGroupScore, IsOverallScore};
ghost use Rattle.cvss_vector.specs.declared.group.Group.TheVariants.{Base};
ghost use Rattle.cvss_vector.specs.declared.vector.Cvss.{Cvss};
ghost use Rattle.cvss_ffi.specs.Accepted.{Answers, IsVectorOf};
ghost use Rattle.cvss_ffi.specs.Buffer.{IsFilled};
ghost use Rattle.cvss_ffi.specs.Calls.{IsAnswerTo, Returns};
ghost use Rattle.cvss_ffi.specs.Scores.{AreScoresByOf, IsReportOf, nomenclature_of_any, vector_size};
ghost use Rattle.cvss_ffi.specs.private.Rated.{AreNumbersIf, AreNumbersOf};

use crate::error::CvssError;
use crate::numbers::{NOTHING, nomenclature_of, severity_number, version_number};
use crate::reading::read;
use crate::rejection::{NoVector, reject, write_vector};
use cvss_score::v4::Nomenclature;
use cvss_vector::{Cvss, Evaluation, Rated};

/// The version, the scores and the severities of a vector. Scores are in tenths, from 0 to 100;
/// severities are 0 for none, 1 low, 2 medium, 3 high, 4 critical. What a version does not have is
/// `NOTHING`.
#[derive(Drop)]
#[repr(C)]
pub struct CvssVector {
    /// The number of bytes that the caller has for it.
    pub size: u32,
    /// 20, 30, 31 or 40.
    pub version: i32,
    /// The overall score, which counts all metrics in the vector.
    pub score: i32,
    /// The severity of `score`.
    pub severity: i32,
    /// The base score; of CVSS v4.0 the score of CVSS-B.
    pub base: i32,
    /// The severity of `base`.
    pub base_severity: i32,
    /// The temporal score of CVSS v2 and v3.
    pub temporal: i32,
    /// The severity of `temporal`.
    pub temporal_severity: i32,
    /// The environmental score of CVSS v2 and v3.
    pub environmental: i32,
    /// The severity of `environmental`.
    pub environmental_severity: i32,
    /// Of CVSS v4.0 0 for CVSS-B, 1 CVSS-BE, 2 CVSS-BT, 3 CVSS-BTE.
    pub nomenclature: i32,
    /// Of CVSS v4.0 the scores of CVSS-B, CVSS-BE, CVSS-BT and CVSS-BTE.
    pub by_nomenclature: [i32; 4],
    /// 1 where all base metrics are there, else 0. In CVSS v2 and v4.0 they always are.
    pub is_complete: i32,
}

/// The number of bytes of what is reported of a vector.
const VECTOR_SIZE: u32 = 64;

const _: () = prove!(size_of::<CvssVector>() == 64);

/// Reads a text: writes its vector's canonical text, which is as long, and all that is reported of the
/// vector, or why there is none.
pub fn parse(
    text: &[u8],
    flags: u32,
    vector: &mut CvssVector,
    error: &mut CvssError,
    buffer: &mut [u8],
) -> usize
    ensures reported { Returns (IsAnswerTo flags text.now (λ cvss canonical. canonical ≡ text_of cvss))
        error.old error.new buffer.old buffer.new result }
    ensures vector { Answers flags text.now (λ cvss. IsFilled vector_size vector.old.size
        (IsReportOf vector.old.size cvss) vector.old vector.new) (vector.new ≡ vector.old) }
    ensures length { (cvss : Cvss) → IsVectorOf flags text.now cvss → result ≡ length text.now }
{
    let cvss = match read(text, flags) {
        Ok(cvss) => cvss,
        Err(why) => return reject(NoVector::Text(why), error, buffer),
    };
    fill(vector, &cvss);
    write_vector(&cvss, error, buffer)
}

/// Writes what is reported of a vector that has a score, if the struct is large enough.
#[inline(always)]
fn fill(vector: &mut CvssVector, cvss: &Cvss)
    requires { HasScore cvss.now }
    ensures { IsFilled vector_size vector.old.size (IsReportOf vector.old.size cvss.now)
        vector.old vector.new }
{
    if vector.size >= VECTOR_SIZE {
        *vector = CvssVector::of(cvss, vector.size);
    }
}

impl CvssVector {
    /// What is reported of a vector that has a score, in a struct of this size.
    // Inlined, the numbers are written to where they belong, not copied there.
    #[inline(always)]
    fn of(cvss: &Cvss, size: u32) -> CvssVector
        requires { HasScore cvss.now }
        ensures { IsReportOf size cvss.now result }
    {
        let found = Evaluation::of(cvss);
        let (score, severity) = numbers_of(found.overall);
        let (base, base_severity) = numbers_of(found.base);
        let (temporal, temporal_severity) = numbers_if(found.temporal);
        let (environmental, environmental_severity) = numbers_if(found.environmental);
        let nomenclature = nomenclature_of(cvss);
        CvssVector {
            size,
            version: version_number(cvss),
            score,
            severity,
            base,
            base_severity,
            temporal,
            temporal_severity,
            environmental,
            environmental_severity,
            nomenclature,
            by_nomenclature: scores_by(cvss, nomenclature, found.base.tenths, found.overall.tenths),
            is_complete: i32::from(found.missing.is_none()),
        }
    }
}

/// The tenths of a score, and the number of its severity.
fn numbers_of(rated: Rated) -> (i32, i32)
    ensures { AreNumbersOf rated result.0 result.1 }
{
    (i32::from(rated.tenths), severity_number(rated.severity))
}

/// The same of a score that the version may not have.
fn numbers_if(rated: Option<Rated>) -> (i32, i32)
    ensures { AreNumbersIf rated result.0 result.1 }
{
    match rated {
        Some(rated) => numbers_of(rated),
        None => (NOTHING, NOTHING),
    }
}

/// The scores by nomenclature, which only CVSS v4.0 has, of a vector of this nomenclature, whose base score
/// and overall score have these tenths.
// Where there are base metrics alone, each nomenclature counts all of them.
fn scores_by(cvss: &Cvss, nomenclature: i32, base: u8, overall: u8) -> [i32; 4]
    requires scored { HasScore cvss.now }
    requires nomenclature { nomenclature ≡ nomenclature_of_any cvss.now }
    requires base { IsGroupScore cvss.now Base (score_of_tenths base) }
    requires base_range { base ≤ 100 }
    requires overall { IsOverallScore cvss.now (score_of_tenths overall) }
    requires range { overall ≤ 100 }
    ensures { AreScoresByOf cvss.now result }
{
    let Cvss::CvssV40(vector) = cvss else {
        return [NOTHING; 4];
    };
    let b = i32::from(base);
    let bte = i32::from(overall);
    if nomenclature == 0 {
        return [bte, bte, bte, bte];
    }
    let be = vector.tenths_by(Nomenclature::CvssBE);
    let bt = vector.tenths_by(Nomenclature::CvssBT);
    [b, i32::from(be), i32::from(bt), bte]
}
