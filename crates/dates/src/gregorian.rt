ghost use Rattle.std.specs.Prelude.{◌≡◌, ◌*◌, ◌<◌, ◌≤◌};
ghost use Rattle.dates.specs.Years.{leap, new_year, month_start, month_len, last_place, year_of, month_of, place_of};

/// The days of a common year before each of its months.
const STARTS: [u16; 12] = [0, 31, 59, 90, 120, 151, 181, 212, 243, 273, 304, 334];

/// The lengths of the months of a common year.
const LENGTHS: [u8; 12] = [31, 28, 31, 30, 31, 30, 31, 31, 30, 31, 30, 31];

/// Whether a year has a 29 February.
pub fn is_leap(year: u16) -> bool
    ensures { result ≡ leap year }
{
    year % 4 == 0 && (year % 100 != 0 || year % 400 == 0)
}

/// The days from 1 January 1900 to 1 January of the year 1900 + n.
pub(crate) fn new_year(n: u32) -> u32
    requires { n ≤ 300 }
    ensures is { result ≡ new_year n }
    ensures bound { result ≤ 366 * n }
{
    365 * n + n.saturating_sub(1) / 4 - u32::from(n > 200)
}

/// The year, from 1900, in which a day lies.
pub(crate) fn year_of(d: u32) -> u32
    requires { d ≤ 109572 }
    ensures is { result ≡ year_of d }
    ensures bound { result ≤ 299 }
{
    // A year has at most 366 days and 300 years at most 227 fewer than so many: the guess is the year or the one before it.
    let n = d / 366;
    if new_year(n + 1) <= d { n + 1 } else { n }
}

/// The days of a year before its month m, counted from 0.
#[inline(always)]
pub(crate) fn month_start(long: bool, m: u32) -> u32
    requires { m < 12 }
    ensures is { result ≡ month_start long m }
    ensures bound { result ≤ 335 }
{
    // `as`: there is no `From` of a u32 for a usize.
    u32::from(STARTS[m as usize]) + u32::from(long && m > 1)
}

/// The length of month m of a year, counted from 0.
#[inline(always)]
pub(crate) fn month_len(long: bool, m: u32) -> u32
    requires { m < 12 }
    ensures is { result ≡ month_len long m }
    ensures bound { (28 ≤ result) × (result ≤ 31) }
{
    if long && m == 1 {
        29
    } else {
        u32::from(LENGTHS[m as usize])
    }
}

/// The month, from 0, in which the day `rest` of a year lies.
pub(crate) fn month_of(long: bool, rest: u32) -> u32
    requires { rest < 366 }
    ensures is { result ≡ last_place (month_start long) 11 rest }
    ensures bound { result ≤ 11 }
{
    // A month has at most 31 days and a year at most 7 fewer than 12 such: the guess is the month or the one before it.
    let m = rest / 31;
    if m < 11 && month_start(long, m + 1) <= rest {
        m + 1
    } else {
        m
    }
}

/// The year from 1900, the month of it from 0 and the day of that from 0.
#[derive(Clone, Copy)]
pub(crate) struct Spot {
    pub(crate) year: u32,
    pub(crate) month: u32,
    pub(crate) place: u32,
}

/// Where a day lies.
#[inline(always)]
pub(crate) fn spot_of(d: u32) -> Spot
    requires { d ≤ 109572 }
    ensures is { result ≡ record { year = year_of d; month = month_of d; place = place_of d } }
    ensures bound { (result.year ≤ 299) × ((result.month ≤ 11) × (result.place ≤ 30)) }
{
    let year = year_of(d);
    // Narrowed by `as`: a year's bound leaves no error that `try_from` could give.
    let long = is_leap(1900 + year as u16);
    let rest = d - new_year(year);
    let month = month_of(long, rest);
    Spot {
        year,
        month,
        place: rest - month_start(long, month),
    }
}
