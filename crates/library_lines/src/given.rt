// Numbers with a sign, zones and records, as fields of a line. They are as wide as the records' own numbers, so that those beyond the
// bounds can be given too: whether a record is within them is for the library to say.
ghost use Rattle.std.specs.Prelude.{◌≡◌, ◌≤◌, IfSome};
ghost use Rattle.library_lines.specs.Given as the;

use calendar::Date;
use condition_symbols::kind_named;
use line_fields::numbers::{GREATEST, read};
use timetable::fields::{field, has_field};
use value::{DateTime, DayTime, Kind, Offset, Value, YearMonth, Zone, clocks};

// The greatest numbers of one, two and four bytes.
const ONE_BYTE: usize = 255;

const TWO_BYTES: usize = 65_535;

pub const FOUR_BYTES: usize = 4_294_967_295;

// A number with a sign.
#[derive(Clone, Copy)]
pub struct Signed {
    pub negative: bool,
    pub value: usize,
}

// The numbers of a time of day, whether there is such a time or not.
#[derive(Clone, Copy)]
pub struct TimeGiven {
    pub second: u32,
    pub nanosecond: u32,
}

// A sign, and directly after it a number that is at most a bound.
pub fn signed_number(s: &[u8], most: usize) -> Option<Signed>
    ensures value { result ≡ the.signed_of most s.now }
    ensures within { IfSome result (λ n. n.value ≤ most) }
{
    let (negative, digits) = match s {
        [b'+', digits @ ..] => (false, digits),
        [b'-', digits @ ..] => (true, digits),
        _ => return None,
    };
    let value = read(digits, most)?;
    Some(Signed { negative, value })
}

fn offset(n: Signed) -> Offset
    requires { n.value ≤ the.two_bytes }
    ensures { result ≡ the.offset_of n }
{
    let minutes = n.value as u16;
    if n.negative {
        Offset::West(minutes)
    } else {
        Offset::East(minutes)
    }
}

// A zone: `none`, or a sign and minutes.
#[tactic(auto, using(condition_words::proofs::Literals::literals), unfolding(condition_words::specs::Words::same, basis::specs::Choice::both))]
pub fn zone(s: &[u8]) -> Option<Zone>
    ensures { result ≡ the.zone_given s.now }
{
    if matches!(s, b"none") {
        return Some(None);
    }
    let n = signed_number(s, TWO_BYTES)?;
    Some(Some(offset(n)))
}

// Year, month and day in three fields, whether there is such a date or not.
pub fn day_at(line: &[u8], at: usize) -> Option<Date>
    requires { at ≤ 5 }
    ensures { result ≡ the.day_at line.now at }
{
    let year = read(field(line, at), TWO_BYTES)?;
    let month = read(field(line, at + 1), ONE_BYTE)?;
    let day = read(field(line, at + 2), ONE_BYTE)?;
    Some(Date {
        year: year as u16,
        month: month as u8,
        day: day as u8,
    })
}

// Second and nanosecond in two fields.
pub fn time_at(line: &[u8], at: usize) -> Option<TimeGiven>
    requires { at ≤ 8 }
    ensures { result ≡ the.time_at line.now at }
{
    let second = read(field(line, at), FOUR_BYTES)?;
    let nanosecond = read(field(line, at + 1), FOUR_BYTES)?;
    Some(TimeGiven {
        second: second as u32,
        nanosecond: nanosecond as u32,
    })
}

// Seconds with a sign, and nanoseconds, in two fields, whether there is such a dayTimeDuration or not.
pub fn lasting_at(line: &[u8], at: usize) -> Option<DayTime>
    requires { at ≤ 5 }
    ensures { result ≡ the.lasting_at line.now at }
{
    let seconds = signed_number(field(line, at), GREATEST)?;
    let nanoseconds = read(field(line, at + 1), FOUR_BYTES)?;
    Some(clocks::with_size(seconds.negative, seconds.value as u64, nanoseconds as u32))
}

// Year, month, day, second, nanosecond and zone in six fields.
pub fn moment_at(line: &[u8], at: usize) -> Option<DateTime>
    requires { at ≤ 5 }
    ensures { result ≡ the.moment_at line.now at }
{
    let day = day_at(line, at)?;
    let time = time_at(line, at + 3)?;
    let zone = zone(field(line, at + 5))?;
    Some(clocks::with_time(day, time.second, time.nanosecond, zone))
}

// A date, a time of day or a dateTime, and no field after it.
fn moment_by(kind: Kind, line: &[u8], at: usize) -> Option<Value>
    requires { at ≤ 5 }
    ensures { result ≡ the.moment_by kind line.now at }
{
    let parts = moment_at(line, at)?;
    if has_field(line, at + 6) {
        return None;
    }
    Some(Value::Moment(kind, parts))
}

fn day_time_by(line: &[u8], at: usize) -> Option<Value>
    requires { at ≤ 5 }
    ensures { result ≡ the.day_time_by line.now at }
{
    let duration = lasting_at(line, at)?;
    if has_field(line, at + 2) {
        return None;
    }
    Some(Value::DayTime(duration))
}

fn year_month_by(line: &[u8], at: usize) -> Option<Value>
    requires { at ≤ 5 }
    ensures { result ≡ the.year_month_by line.now at }
{
    let months = signed_number(field(line, at), FOUR_BYTES)?;
    if has_field(line, at + 1) {
        return None;
    }
    Some(Value::YearMonth(YearMonth {
        negative: months.negative,
        months: months.value as u32,
    }))
}

#[tactic(auto, unfolding(value::specs::Rows::is_moment))]
fn record_by(kind: Kind, line: &[u8], at: usize) -> Option<Value>
    requires { at ≤ 5 }
    ensures { result ≡ the.record_by kind line.now at }
{
    match kind {
        Kind::DayTimeDuration => day_time_by(line, at),
        Kind::YearMonthDuration => year_month_by(line, at),
        Kind::Date | Kind::Time | Kind::DateTime => moment_by(kind, line, at),
    }
}

// The record in the last fields of a line: a kind's name, and the numbers of that kind.
pub fn record_at(line: &[u8], at: usize) -> Option<Value>
    requires { at ≤ 4 }
    ensures { result ≡ the.record_at line.now at }
{
    let kind = kind_named(field(line, at))?;
    record_by(kind, line, at + 1)
}
