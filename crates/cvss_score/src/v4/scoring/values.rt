//! The values of the classes (v4.0 specification, section 8.2).

ghost use Rattle.cvss_score.specs.v4.Values.{listed_value, IsListed};

use crate::v4::scoring::placed::PlacedClass;

/// The value of each class in tenths. A row holds those of EQ1, EQ2, and EQ3 with EQ6: the three
/// of EQ5 = 0, 1 and 2, for EQ4 = 0, 1 and 2.
#[rattlefmt::skip]
pub(crate) const VALUES: [u8; 270] = [
    100, 98, 95, 100, 93, 91, 93, 89, 81,
    99, 95, 92, 96, 87, 81, 90, 80, 68,
    98, 95, 90, 93, 89, 81, 88, 78, 69,
    95, 92, 84, 92, 81, 65, 80, 70, 48,
    92, 82, 72, 79, 69, 50, 69, 55, 27,
    99, 95, 92, 95, 90, 84, 92, 82, 72,
    97, 92, 85, 91, 83, 71, 81, 71, 53,
    95, 92, 85, 92, 80, 70, 84, 71, 50,
    93, 85, 73, 82, 72, 59, 70, 52, 30,
    86, 75, 52, 71, 52, 29, 63, 29, 17,
    98, 94, 91, 94, 86, 77, 87, 74, 63,
    95, 87, 81, 89, 74, 64, 75, 63, 49,
    94, 88, 76, 86, 74, 59, 72, 57, 52,
    89, 77, 67, 76, 58, 50, 57, 52, 25,
    83, 70, 54, 65, 58, 26, 53, 21, 13,
    95, 88, 76, 90, 75, 61, 77, 68, 52,
    90, 76, 70, 77, 62, 53, 66, 59, 30,
    89, 76, 62, 74, 57, 47, 61, 57, 24,
    78, 67, 58, 59, 57, 23, 52, 29, 16,
    71, 59, 30, 58, 26, 15, 23, 13, 6,
    93, 86, 75, 86, 74, 56, 70, 52, 40,
    87, 72, 58, 74, 61, 34, 54, 40, 22,
    85, 74, 62, 72, 55, 46, 53, 34, 19,
    75, 55, 51, 57, 41, 19, 36, 19, 8,
    64, 51, 20, 47, 21, 11, 24, 9, 4,
    88, 73, 60, 73, 59, 41, 54, 45, 20,
    75, 53, 50, 55, 40, 20, 43, 22, 11,
    75, 58, 40, 61, 48, 20, 46, 17, 8,
    55, 45, 21, 51, 18, 9, 18, 7, 2,
    53, 24, 14, 24, 12, 5, 10, 3, 1,
];

// The values that the specification lists for the first class, for 0,0,1,2,1,0, 0,0,2,2,0,1 and
// 1,0,1,2,1,1, and for the last class.
const _: () = prove!(
    VALUES[0] == 100
        && VALUES[25] == 78
        && VALUES[42] == 69
        && VALUES[124] == 52
        && VALUES[269] == 1
);

/// The value of a class, in tenths.
#[inline(always)]
pub fn value_of(placed: &PlacedClass) -> u8
    ensures { IsListed (listed_value placed.now.class) result }
{
    VALUES[placed.place]
}
