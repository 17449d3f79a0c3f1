use crate::bench::Due;
use dates::Day;

/// 28 March 2024, good.
pub(crate) const THURSDAY: Day = Day(45_377);

/// 29 March 2024, closed by layer 3.
pub(crate) const GOOD_FRIDAY: Day = Day(45_378);

/// 30 March 2024.
pub(crate) const SATURDAY: Day = Day(45_379);

/// What opening Good Friday does to `HALVES`: 31 March, a Sunday, is tried first, and then the days before it.
pub(crate) const TO_FRIDAY: [&str; 2] = [
    "7 1 2024-03-28 2024-03-29 2023-09-27 2023-09-27 181 182 2262500 2275000 0 3",
    "7 2 2024-09-30 2024-09-30 2024-03-26 2024-03-27 186 185 2325000 2312500 0 0",
];

/// What withdrawing it again does.
pub(crate) const FROM_FRIDAY: [&str; 2] = [
    "7 1 2024-03-29 2024-03-28 2023-09-27 2023-09-27 182 181 2275000 2262500 3 0",
    "7 2 2024-09-30 2024-09-30 2024-03-27 2024-03-26 185 186 2312500 2325000 0 0",
];

/// The payments of `HALVES` where Good Friday is open.
pub(crate) const FIRST_ON_FRIDAY: Due = Due {
    date: (2024, 3, 29),
    fixing: (2023, 9, 27),
    days: 182,
    amount: 2_275_000,
};

pub(crate) const SECOND_AFTER_FRIDAY: Due = Due {
    date: (2024, 9, 30),
    fixing: (2024, 3, 27),
    days: 185,
    amount: 2_312_500,
};
