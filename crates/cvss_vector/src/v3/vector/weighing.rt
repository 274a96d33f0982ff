//! What the metrics of a vector weigh, in hundredths.

ghost use Rattle.std.specs.Prelude.{◌≡◌};
ghost use Rattle.cvss_score.specs.v3.Bounds.{AreBounded, AreOfTables};
ghost use Rattle.cvss_score.specs.v3.Weighing.{effective};
ghost use Rattle.cvss_vector.specs.v3.VectorWeights.{weights_of};
ghost use Rattle.cvss_metric.specs.v3.Modified.{weight_or};
ghost use Rattle.cvss_metric.specs.v3.Table.{weight_of};

use crate::v3::vector::Vector;
use cvss_metric::v3::MetricValue;
use cvss_metric::v3::environmental::Modified;
use cvss_score::v3::Weights;
use cvss_score::v3::weighing::{
    effective, effective_scope, is_changed, modified_privileges, scoped_weight, weight,
};

impl Vector {
    /// What the metrics weigh, of which the equations make the scores (v3.1 specification, section 7.4;
    /// v3.0 specification, section 8.4): an absent base metric 0, a modified metric that is absent or `X`
    /// as its base metric, PR by the scope and MPR by the modified scope.
    // Inlined into each score and number it would be a twentieth of the module of WebAssembly.
    #[inline(never)]
    pub fn weights(&self) -> Weights
        ensures value { result ≡ weights_of self.now }
        ensures tables { AreOfTables result }
        ensures bounded { AreBounded result }
    {
        self.inlined_weights()
    }

    /// The same, inlined into the base score in tenths, which is computed for each line.
    #[inline(always)]
    pub(super) fn inlined_weights(&self) -> Weights
        ensures value { result ≡ weights_of self.now }
        ensures tables { AreOfTables result }
        ensures bounded { AreBounded result }
    {
        self.weighed()
    }

    #[inline(always)]
    fn weighed(&self) -> Weights
        ensures { result ≡ weights_of self.now }
    {
        let changed = self.is_scope_changed();
        Weights {
            av: weight(self.av, 0),
            ac: weight(self.ac, 0),
            pr: scoped_weight(self.pr, changed),
            ui: weight(self.ui, 0),
            changed,
            c: weight(self.c, 0),
            i: weight(self.i, 0),
            a: weight(self.a, 0),
            e: weight(self.e, 100),
            rl: weight(self.rl, 100),
            rc: weight(self.rc, 100),
            cr: weight(self.cr, 100),
            ir: weight(self.ir, 100),
            ar: weight(self.ar, 100),
            mav: effective_weight(self.mav, self.av),
            mac: effective_weight(self.mac, self.ac),
            mpr: modified_privileges(self.mpr, self.pr, self.ms, self.s),
            mui: effective_weight(self.mui, self.ui),
            modified_changed: self.is_modified_scope_changed(),
            mc: effective_weight(self.mc, self.c),
            mi: effective_weight(self.mi, self.i),
            ma: effective_weight(self.ma, self.a),
        }
    }

    /// Whether the scope is changed, by which the base score is computed.
    pub fn is_scope_changed(&self) -> bool
        ensures { result ≡ (weights_of self.now).changed }
    {
        is_changed(self.s)
    }

    /// Whether the modified scope is changed, by which the environmental score is computed. Where it
    /// is absent or `X` it is the scope.
    pub fn is_modified_scope_changed(&self) -> bool
        ensures { result ≡ (weights_of self.now).modified_changed }
    {
        is_changed(effective_scope(self.ms, self.s))
    }
}

/// The weight of a modified metric in hundredths, where it is defined, and else of the base metric.
#[inline(always)]
fn effective_weight<M: MetricValue>(modified: Option<Modified<M>>, base: Option<M>) -> u64
    ensures { result ≡ weight_or (λ metric. weight_of M.KIND (M.value metric)) (effective modified base) 0 }
{
    weight(effective(modified, base), 0)
}
