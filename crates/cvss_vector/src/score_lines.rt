//! What follows a vector's text in its answer, one text for each score.

ghost use Rattle.std.specs.Prelude.{◌≡◌, ◌≤◌};
ghost use Rattle.cvss_vector.specs.Published.{rated_line, score_line};
ghost use Rattle.cvss_vector.specs.declared.published.Bounds.TheVariants.{OfV2, SinceV3};

use crate::published::{Bounds, Published};

/// A published score and its rating, each after a blank, and a byte 10.
pub(crate) fn score_line(published: Published) -> &'static str
    requires { published.tenths ≤ 100 }
    ensures { result.now ≡ score_line published }
{
    match published.bounds {
        Bounds::OfV2 => line_of_v2(published.tenths),
        Bounds::SinceV3 => line_of_v3(published.tenths),
    }
}

/// The line of so many tenths by the bounds of CVSS v2, which differ at 0 and from 9.0.
#[tactic(auto, using(crate::proofs::ScoreLineLemmas::between_v2))]
fn line_of_v2(tenths: u8) -> &'static str
    requires { tenths ≤ 100 }
    ensures { result.now ≡ rated_line OfV2 tenths }
{
    match tenths {
        0 => " 0.0 low\n",
        90.. => {
            let line = &HIGHEST_OF_V2[tenths as usize - 90];
            *line
        }
        _ => line_of_v3(tenths),
    }
}

/// The line of so many tenths by the bounds of CVSS v3 and v4.0.
fn line_of_v3(tenths: u8) -> &'static str
    requires { tenths ≤ 100 }
    ensures { result.now ≡ rated_line SinceV3 tenths }
{
    let line = &LINES[tenths as usize];
    *line
}

/// The lines of 9.0 to 10.0 by the bounds of CVSS v2.
#[rattlefmt::skip]
const HIGHEST_OF_V2: [&str; 11] = [
    " 9.0 high\n", " 9.1 high\n", " 9.2 high\n", " 9.3 high\n", " 9.4 high\n",
    " 9.5 high\n", " 9.6 high\n", " 9.7 high\n", " 9.8 high\n", " 9.9 high\n",
    " 10.0 high\n",
];

/// The lines of 0.0 to 10.0 by the bounds of CVSS v3 and v4.0.
#[rattlefmt::skip]
const LINES: [&str; 101] = [
    " 0.0 none\n", " 0.1 low\n", " 0.2 low\n", " 0.3 low\n", " 0.4 low\n",
    " 0.5 low\n", " 0.6 low\n", " 0.7 low\n", " 0.8 low\n", " 0.9 low\n",
    " 1.0 low\n", " 1.1 low\n", " 1.2 low\n", " 1.3 low\n", " 1.4 low\n",
    " 1.5 low\n", " 1.6 low\n", " 1.7 low\n", " 1.8 low\n", " 1.9 low\n",
    " 2.0 low\n", " 2.1 low\n", " 2.2 low\n", " 2.3 low\n", " 2.4 low\n",
    " 2.5 low\n", " 2.6 low\n", " 2.7 low\n", " 2.8 low\n", " 2.9 low\n",
    " 3.0 low\n", " 3.1 low\n", " 3.2 low\n", " 3.3 low\n", " 3.4 low\n",
    " 3.5 low\n", " 3.6 low\n", " 3.7 low\n", " 3.8 low\n", " 3.9 low\n",
    " 4.0 medium\n", " 4.1 medium\n", " 4.2 medium\n", " 4.3 medium\n", " 4.4 medium\n",
    " 4.5 medium\n", " 4.6 medium\n", " 4.7 medium\n", " 4.8 medium\n", " 4.9 medium\n",
    " 5.0 medium\n", " 5.1 medium\n", " 5.2 medium\n", " 5.3 medium\n", " 5.4 medium\n",
    " 5.5 medium\n", " 5.6 medium\n", " 5.7 medium\n", " 5.8 medium\n", " 5.9 medium\n",
    " 6.0 medium\n", " 6.1 medium\n", " 6.2 medium\n", " 6.3 medium\n", " 6.4 medium\n",
    " 6.5 medium\n", " 6.6 medium\n", " 6.7 medium\n", " 6.8 medium\n", " 6.9 medium\n",
    " 7.0 high\n", " 7.1 high\n", " 7.2 high\n", " 7.3 high\n", " 7.4 high\n",
    " 7.5 high\n", " 7.6 high\n", " 7.7 high\n", " 7.8 high\n", " 7.9 high\n",
    " 8.0 high\n", " 8.1 high\n", " 8.2 high\n", " 8.3 high\n", " 8.4 high\n",
    " 8.5 high\n", " 8.6 high\n", " 8.7 high\n", " 8.8 high\n", " 8.9 high\n",
    " 9.0 critical\n", " 9.1 critical\n", " 9.2 critical\n", " 9.3 critical\n", " 9.4 critical\n",
    " 9.5 critical\n", " 9.6 critical\n", " 9.7 critical\n", " 9.8 critical\n", " 9.9 critical\n",
    " 10.0 critical\n",
];
