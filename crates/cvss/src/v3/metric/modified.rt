//! That each modified base metric of CVSS v3 has the values of its row in the table, in that order
//! (v3.1 specification, section 4.2).

ghost use Rattle.std.specs.Prelude.{refl};
ghost use Rattle.std.proofs.Common.{rules};
ghost use Rattle.cvss_metric.specs.v3.private.ModifiedLaws.{modified_equality};
ghost use Rattle.cvss.specs.private.ModifiedOrder.{covered, ranked, modified_order};

use super::MetricEnum;
use super::environmental::{BaseValue, Modified};

impl<T: BaseValue + MetricEnum> MetricEnum for Modified<T> {
    ghost law = { record {
      covers = covered T.base_law T.law.covers;
      ordered = modified_order _ _ _ T.law.ordered (ranked T.base_law)
          refl (λ y. refl) (λ x. refl) (λ x y. refl);
      equal = modified_equality _ T.law.equal refl (λ y. refl) (λ x. refl) (λ x y. refl);
      cloned = Prim.search rules;
      clonable = Prim.search rules;
    } };
}
