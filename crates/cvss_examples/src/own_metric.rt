//! A metric of a caller's own, which `Modified` can replace as it does the library's.

ghost use Rattle.std.specs.Prelude.{◌≡◌, IfSome, Some, refl};
ghost use Rattle.std.proofs.Common.{rules};
ghost use Rattle.cvss.specs.MetricTypeV3.TheVariants.{UI, MUI};
ghost use Rattle.cvss.specs.TableV3.{metric_component, spelling_of};
ghost use Rattle.cvss_metric.specs.v3.Modified.{modified_map};
ghost use Rattle.cvss_metric.specs.declared.v3.base.access.UserInteraction.TheVariants as table;
ghost use Rattle.cvss_examples.specs.declared.own_metric.Participation.TheVariants.{Needed, Unneeded};
ghost use Rattle.cvss_examples.specs.Participation.{participation};

use cvss::v3::metric::environmental::{BaseValue, Modified};
use cvss::v3::metric::{MetricEnum, MetricValue};
use cvss::v3::{Metric, MetricType};
use std::fmt;

/// Whether an attack needs another person: the values of User Interaction under other names.
#[derive(Clone, Copy, Debug, PartialEq, Eq, PartialOrd, Ord)]
pub enum Participation {
    Needed,
    Unneeded,
}

impl MetricValue for Participation {
    const KIND: MetricType = MetricType::UI;

    ghost KIND = { UI };

    ghost value = { participation };

    fn row(self) -> (&'static str, Option<u64>) {
        match self {
            Self::Needed => ("R", Some(62)),
            Self::Unneeded => ("N", Some(85)),
        }
    }

    fn read_letter(letter: u8) -> Option<Self> {
        match letter {
            b'R' => Some(Self::Needed),
            b'N' => Some(Self::Unneeded),
            _ => None,
        }
    }
}

impl MetricEnum for Participation {
    ghost law = { record {
      covers = elim [ table.Required ↦ (Needed, refl) | table.None ↦ (Unneeded, refl) ];
      ordered = Prim.search rules;
      equal = Prim.search rules;
      cloned = Prim.search rules;
      clonable = Prim.search rules;
    } };
}

impl fmt::Display for Participation {
    ghost output = { λ metric. Some (metric_component UI (participation metric)) };

    fn fmt<W: fmt::Write>(&self, f: &mut fmt::Formatter<W>) -> fmt::Result {
        self.write(f)
    }
}

impl BaseValue for Participation {
    const MODIFIED_KIND: MetricType = MetricType::MUI;

    ghost MODIFIED_KIND = { MUI };

    ghost base_law = { Prim.search rules };
}

/// The value of the modified metric with this spelling.
pub fn read_modified(text: &str) -> Option<Modified<Participation>>
    ensures { IfSome result
        (λ metric. spelling_of MUI (modified_map participation metric) ≡ text.now) }
{
    Modified::read(text)
}
