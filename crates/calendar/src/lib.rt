// The proleptic Gregorian calendar of document 01: the leap rule, the lengths of the months, the day number of a date
// and the date of a day number. Days are counted from 0000-01-01, so that no number here is below zero.
#![tactic(auto)]

ghost use Rattle.std.specs.Prelude.{◌≡◌, ◌+◌, ◌-◌, ◌≤◌, ◌<◌};
ghost use Rattle.calendar.specs.Calendar.{leap_row, month_days, month_row, year_days, month_count, total, GoodDate, day_of, date_within, dated_of};

// A year has so many months.
pub const MONTH_COUNT: usize = 12;

// The lengths of the months, the ordinary year's row and the leap year's.
const MONTHS: [[u8; MONTH_COUNT]; 2] = [
    [31, 28, 31, 30, 31, 30, 31, 31, 30, 31, 30, 31],
    [31, 29, 31, 30, 31, 30, 31, 31, 30, 31, 30, 31],
];

const ORDINARY_YEAR: u64 = 365;

const LEAP_YEAR: u64 = 366;

// The calendar repeats every 400 years. Such a cycle has 97 leap years, so 146,097 days. Cycles are counted from year 0,
// so that each begins with a leap year, as the one from 2000 to 2399 does. specs/Cycle.antt has what is proved of them.
const CYCLE_YEARS: u16 = 400;

const CYCLE_DAYS: u64 = 146_097;

#[derive(Clone, Copy)]
pub struct Date {
    pub year: u16,
    pub month: u8,
    pub day: u8,
}

// The row of the month lengths that a year has.
pub fn leap_row(year: u16) -> usize
    ensures { result ≡ leap_row year }
{
    let leap = year % 4 == 0 && (year % 100 != 0 || year % 400 == 0);
    leap as usize
}

pub fn month_days(year: u16, month: u8) -> u8
    requires { (1 ≤ month) × (month ≤ month_count) }
    ensures { result ≡ month_days year month }
{
    let row = leap_row(year);
    let m = (month - 1) as usize;
    MONTHS[row][m]
}

pub fn year_days(year: u16) -> u64
    ensures { result ≡ year_days year }
{
    ORDINARY_YEAR + leap_row(year) as u64
}

// The days of all years before one: of the whole cycles, and of the y years before it in its own cycle. Each of these has
// 365 days, and by the leap rule a multiple of 4 has a day more, one of 100 has not, and one of 400, the cycle's first
// year, has again. 400 is a multiple of 4 and 100, so that y tells them as the year does. A division that is rounded up
// counts the multiples below y, 0 among them.
fn before_year(year: u16) -> u64
    ensures { result ≡ total year_days year }
{
    let cycles = (year / CYCLE_YEARS) as u64;
    let y = (year % CYCLE_YEARS) as u64;
    let leap_days = (y + 3) / 4 - (y + 99) / 100 + (y + 399) / 400;
    cycles * CYCLE_DAYS + ORDINARY_YEAR * y + leap_days
}

// The days of all months before one, in its year.
fn before_month(year: u16, month: u8) -> u64
    requires { (1 ≤ month) × (month ≤ month_count) }
    ensures { result ≡ total (month_row (leap_row year)) (month - 1) }
{
    let mut n: u64 = 0;
    for m in 1..month {
        n += month_days(year, m) as u64;
    }
    n
}

pub fn day_number(d: Date) -> u64
    requires { GoodDate d }
    ensures { result ≡ day_of d }
{
    before_year(d.year) + before_month(d.year, d.month) + (d.day - 1) as u64
}

// A day by its number within a year. Where the year is the last one, the number may be beyond that year.
#[derive(Clone, Copy)]
struct YearDay {
    year: u16,
    left: u64,
}

// The year of a day number, as far as the last one. With 366 days for each year of its cycle the year comes out right or
// one too early: the 303 ordinary years of a whole cycle have a day less each, and 303 days are less than a year.
fn year_of(n: u64, last: u16) -> YearDay
    ensures { (total year_days result.year + result.left ≡ n) × (result.year ≤ last) × (year_days result.year ≤ result.left → result.year ≡ last) }
{
    let start = before_year(last);
    if start <= n {
        return YearDay {
            year: last,
            left: n - start,
        };
    }
    // The day lies before the last year, so the early year does too: it fits a u16, and a year follows it.
    let cycles = (n / CYCLE_DAYS) as u16;
    let early = cycles * CYCLE_YEARS + (n % CYCLE_DAYS / LEAP_YEAR) as u16;
    let left = n - before_year(early);
    let len = year_days(early);
    if left < len {
        return YearDay { year: early, left };
    }
    YearDay {
        year: early + 1,
        left: left - len,
    }
}

fn date_in(year: u16, n: u64) -> Date
    requires { n < year_days year }
    ensures { result ≡ date_within (record { number = year; left = n }) }
{
    let mut left = n;
    for month in 1..=MONTH_COUNT as u8 {
        let len = month_days(year, month) as u64;
        if left < len {
            let day = (left + 1) as u8;
            return Date { year, month, day };
        }
        left -= len;
    }
    unreachable!()
}

// The date of a day number; none where its year is later than the last one asked for.
pub fn date_of(n: u64, last: u16) -> Option<Date>
    ensures { result ≡ dated_of n last }
{
    let YearDay { year, left } = year_of(n, last);
    if year_days(year) <= left {
        return None;
    }
    Some(date_in(year, left))
}
