//! The values of the metrics of CVSS v4.0, each by its place among those of its metric. Metrics with as
//! many values have one type for the places, and a number reports them apart.

ghost use Rattle.std.specs.Prelude.{◌≡◌};
ghost use Rattle.cvss_metric.specs.v4.Places.{two_rank, three_rank, four_rank, five_rank};
ghost use Rattle.cvss_metric.specs.v4.Table.{two_kind, three_kind, four_kind, five_kind};
ghost use Rattle.cvss_metric.specs.v4.private.PlaceLaws.{two_within, three_within, four_within, five_within};

use super::spelling::spelling_at;
use super::table::{five_kind, four_kind, three_kind, two_kind};
use crate::v4::metric::{MetricType, MetricValue};

/// The place of one of two values.
#[derive(Clone, Copy, PartialEq, Eq)]
pub enum OneOfTwo<const NUMBER: usize> {
    First,
    Second,
}

impl<const NUMBER: usize> MetricValue for OneOfTwo<NUMBER> {
    const KIND: MetricType = two_kind(NUMBER);

    ghost KIND = { two_kind NUMBER };

    ghost rank = { two_rank };

    ghost within = { two_within NUMBER };

    fn place(self) -> usize {
        self as usize
    }

    #[tactic(auto, using(crate::specs::v4::private::PlaceLaws::two_count))]
    fn at(place: usize) -> Option<Self> {
        match place {
            0 => Some(Self::First),
            1 => Some(Self::Second),
            _ => None,
        }
    }

    // The compiler knows each text, and so how a component is stored.
    fn spelling(self) -> &'static str {
        match self {
            Self::First => spelling_at(Self::KIND, 0),
            Self::Second => spelling_at(Self::KIND, 1),
        }
    }
}

/// The place of one of three values.
#[derive(Clone, Copy, PartialEq, Eq)]
pub enum OneOfThree<const NUMBER: usize> {
    First,
    Second,
    Third,
}

impl<const NUMBER: usize> MetricValue for OneOfThree<NUMBER> {
    const KIND: MetricType = three_kind(NUMBER);

    ghost KIND = { three_kind NUMBER };

    ghost rank = { three_rank };

    ghost within = { three_within NUMBER };

    fn place(self) -> usize {
        self as usize
    }

    #[tactic(auto, using(crate::specs::v4::private::PlaceLaws::three_count))]
    fn at(place: usize) -> Option<Self> {
        match place {
            0 => Some(Self::First),
            1 => Some(Self::Second),
            2 => Some(Self::Third),
            _ => None,
        }
    }

    // The compiler knows each text, and so how a component is stored.
    fn spelling(self) -> &'static str {
        match self {
            Self::First => spelling_at(Self::KIND, 0),
            Self::Second => spelling_at(Self::KIND, 1),
            Self::Third => spelling_at(Self::KIND, 2),
        }
    }
}

/// The place of one of four values.
#[derive(Clone, Copy, PartialEq, Eq)]
pub enum OneOfFour<const NUMBER: usize> {
    First,
    Second,
    Third,
    Fourth,
}

impl<const NUMBER: usize> MetricValue for OneOfFour<NUMBER> {
    const KIND: MetricType = four_kind(NUMBER);

    ghost KIND = { four_kind NUMBER };

    ghost rank = { four_rank };

    ghost within = { four_within NUMBER };

    fn place(self) -> usize {
        self as usize
    }

    #[tactic(auto, using(crate::specs::v4::private::PlaceLaws::four_count))]
    fn at(place: usize) -> Option<Self> {
        match place {
            0 => Some(Self::First),
            1 => Some(Self::Second),
            2 => Some(Self::Third),
            3 => Some(Self::Fourth),
            _ => None,
        }
    }

    // The compiler knows each text, and so how a component is stored.
    fn spelling(self) -> &'static str {
        match self {
            Self::First => spelling_at(Self::KIND, 0),
            Self::Second => spelling_at(Self::KIND, 1),
            Self::Third => spelling_at(Self::KIND, 2),
            Self::Fourth => spelling_at(Self::KIND, 3),
        }
    }
}

/// The place of one of five values.
#[derive(Clone, Copy, PartialEq, Eq)]
pub enum OneOfFive<const NUMBER: usize> {
    First,
    Second,
    Third,
    Fourth,
    Fifth,
}

impl<const NUMBER: usize> MetricValue for OneOfFive<NUMBER> {
    const KIND: MetricType = five_kind(NUMBER);

    ghost KIND = { five_kind NUMBER };

    ghost rank = { five_rank };

    ghost within = { five_within NUMBER };

    fn place(self) -> usize {
        self as usize
    }

    #[tactic(auto, using(crate::specs::v4::private::PlaceLaws::five_count))]
    fn at(place: usize) -> Option<Self> {
        match place {
            0 => Some(Self::First),
            1 => Some(Self::Second),
            2 => Some(Self::Third),
            3 => Some(Self::Fourth),
            4 => Some(Self::Fifth),
            _ => None,
        }
    }

    // The compiler knows each text, and so how a component is stored.
    fn spelling(self) -> &'static str {
        match self {
            Self::First => spelling_at(Self::KIND, 0),
            Self::Second => spelling_at(Self::KIND, 1),
            Self::Third => spelling_at(Self::KIND, 2),
            Self::Fourth => spelling_at(Self::KIND, 3),
            Self::Fifth => spelling_at(Self::KIND, 4),
        }
    }
}
