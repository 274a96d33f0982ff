//! What the metrics of a vector weigh, in thousandths.

ghost use Rattle.std.specs.Prelude.{◌≡◌, ◌≤◌, option_map};
ghost use Rattle.cvss_score.specs.v2.Bounds.{AreBounded};
ghost use Rattle.cvss_metric.specs.v2.Table.{weight_of, absent_weight};
ghost use Rattle.cvss_vector.specs.v2.Vector.{value_at};
ghost use Rattle.cvss_vector.specs.v2.Weights.{weight_in, weights_of};
ghost use Rattle.cvss_vector.specs.v2.private.Bounds.{greatest_weight};

use crate::v2::vector::Vector;
use cvss_metric::v2::{MetricType, MetricValue};
use cvss_score::v2::Weights;

impl Vector {
    /// What the metrics weigh, of which the equations make the scores (guide, section 3.2): an absent
    /// base metric 0, any other absent one as `ND`.
    // Inlined into each score and number it would be a twentieth of the module of WebAssembly.
    #[inline(never)]
    pub fn weights(&self) -> Weights
        ensures value { result ≡ weights_of self.now }
        ensures bounded { AreBounded result }
    {
        self.inlined_weights()
    }

    /// The same, inlined into the base score in tenths, which is computed for each line.
    #[inline(always)]
    pub(super) fn inlined_weights(&self) -> Weights
        ensures value { result ≡ weights_of self.now }
        ensures bounded { AreBounded result }
    {
        Weights {
            av: self.weight_at(MetricType::AV, self.av, 0),
            ac: self.weight_at(MetricType::AC, self.ac, 0),
            au: self.weight_at(MetricType::Au, self.au, 0),
            c: self.weight_at(MetricType::C, self.c, 0),
            i: self.weight_at(MetricType::I, self.i, 0),
            a: self.weight_at(MetricType::A, self.a, 0),
            e: self.weight_at(MetricType::E, self.e, 1000),
            rl: self.weight_at(MetricType::RL, self.rl, 1000),
            rc: self.weight_at(MetricType::RC, self.rc, 1000),
            cdp: self.weight_at(MetricType::CDP, self.cdp, 0),
            td: self.weight_at(MetricType::TD, self.td, 1000),
            cr: self.weight_at(MetricType::CR, self.cr, 1000),
            ir: self.weight_at(MetricType::IR, self.ir, 1000),
            ar: self.weight_at(MetricType::AR, self.ar, 1000),
        }
    }

    /// What a metric weighs in this vector, in thousandths (guide, section 3.2): an absent one as `ND`, and
    /// a base metric 0.
    pub fn thousandths(&self, metric: MetricType) -> u64
        ensures value { result ≡ weight_in self.now metric }
        ensures bound { result ≤ 1510 }
    {
        match metric {
            MetricType::AV => self.weight_at(metric, self.av, 0),
            MetricType::AC => self.weight_at(metric, self.ac, 0),
            MetricType::Au => self.weight_at(metric, self.au, 0),
            MetricType::C => self.weight_at(metric, self.c, 0),
            MetricType::I => self.weight_at(metric, self.i, 0),
            MetricType::A => self.weight_at(metric, self.a, 0),
            MetricType::E => self.weight_at(metric, self.e, 1000),
            MetricType::RL => self.weight_at(metric, self.rl, 1000),
            MetricType::RC => self.weight_at(metric, self.rc, 1000),
            MetricType::CDP => self.weight_at(metric, self.cdp, 0),
            MetricType::TD => self.weight_at(metric, self.td, 1000),
            MetricType::CR => self.weight_at(metric, self.cr, 1000),
            MetricType::IR => self.weight_at(metric, self.ir, 1000),
            MetricType::AR => self.weight_at(metric, self.ar, 1000),
        }
    }

    /// The weight of the value that the vector has for a metric, or that of the absent metric.
    #[inline(always)]
    fn weight_at<M: MetricValue>(&self, metric: MetricType, value: Option<M>, absent: u64) -> u64
        requires metric { metric ≡ M.KIND }
        requires value { option_map (weight_of M.KIND) (value_at self.now M.KIND)
            ≡ option_map (λ held. weight_of M.KIND (M.value held)) value }
        requires absent { absent ≡ absent_weight M.KIND }
        requires least { absent ≤ greatest_weight M.KIND }
        ensures weight { result ≡ weight_in self.now metric }
        ensures bound { result ≤ greatest_weight M.KIND }
    {
        match value {
            Some(held) => held.thousandths(),
            None => absent,
        }
    }
}
