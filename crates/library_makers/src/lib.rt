// Values that are made of numbers. A maker answers the value, or 16 where a number is outside the bounds of its kind.
#![tactic(auto)]

use condition_words::cut;
use library_lines::given::{
    FOUR_BYTES, day_at, lasting_at, moment_at, signed_number, time_at, zone,
};
use library_told::{tell, tell_end, tell_no_call, tell_refused};
use timetable::fields::{field, has_field};
use value::{DateTime, DayTime, Refusal, Value, YearMonth};

// The longest text of a value has so many bytes.
const LONGEST: usize = numerals::LONGEST;

// A value's text. No value that a call answered is refused: it is within the bounds, and its text fits.
fn tell_value(rt: &impl Print, v: Value) {
    let mut room = [0; LONGEST];
    let written = text::write(v, &mut room);
    match written {
        Ok(n) => {
            tell(rt, cut(&room, 0, n));
            tell_end(rt);
        }
        Err(refusal) => tell_refused(rt, refusal.number),
    }
}

fn tell_made(rt: &impl Print, made: Result<Value, Refusal>) {
    match made {
        Ok(v) => tell_value(rt, v),
        Err(refusal) => tell_refused(rt, refusal.number),
    }
}

// `date→Y→M→D→Z`
pub fn make_date(rt: &impl Print, line: &[u8]) {
    match (day_at(line, 2), zone(field(line, 5)), has_field(line, 6)) {
        (Some(d), Some(zone), false) => tell_made(rt, DateTime::date(d.year, d.month, d.day, zone)),
        _ => tell_no_call(rt),
    }
}

// `time→SECOND→NANO→Z`
pub fn make_time(rt: &impl Print, line: &[u8]) {
    match (time_at(line, 2), zone(field(line, 4)), has_field(line, 5)) {
        (Some(t), Some(zone), false) => tell_made(rt, DateTime::time(t.second, t.nanosecond, zone)),
        _ => tell_no_call(rt),
    }
}

// `dateTime→Y→M→D→SECOND→NANO→Z`
pub fn make_date_time(rt: &impl Print, line: &[u8]) {
    match (moment_at(line, 2), has_field(line, 8)) {
        (Some(d), false) => tell_made(
            rt,
            DateTime::new(d.year, d.month, d.day, d.second, d.nanosecond, d.zone),
        ),
        _ => tell_no_call(rt),
    }
}

// `dayTime→S→NANO`
pub fn make_day_time(rt: &impl Print, line: &[u8]) {
    match (lasting_at(line, 2), has_field(line, 4)) {
        (Some(d), false) => tell_made(rt, DayTime::new(d.negative, d.seconds, d.nanoseconds)),
        _ => tell_no_call(rt),
    }
}

// `yearMonth→S`
pub fn make_year_month(rt: &impl Print, line: &[u8]) {
    match (
        signed_number(field(line, 2), FOUR_BYTES),
        has_field(line, 3),
    ) {
        (Some(n), false) => tell_made(rt, YearMonth::new(n.negative, n.value as u32)),
        _ => tell_no_call(rt),
    }
}
