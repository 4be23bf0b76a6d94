// Components of a value, for library callers (document 01, "Operations"): the fields that its kind has, and the zone.
#![tactic(auto)]

ghost use Rattle.std.specs.Prelude.{◌≡◌, true, ◌≤◌, ◌<◌, ◌^◌};
ghost use Rattle.value.specs.Bounds.{second_ticks, max_day_time};
ghost use Rattle.value.specs.Carried.{ticks_of, max_clock};
ghost use Rattle.value.specs.Values.{ok_time_part};
ghost use Rattle.value_components.specs.Components as the;

use value::{DateTime, Kind, Refusal, Span, Value, Zone, clocks, kinds, valid};

// The time of day by its fields, the last the part of a second in nanoseconds.
#[derive(Clone, Copy)]
pub struct Clock {
    pub hours: u8,
    pub minutes: u8,
    pub seconds: u8,
    pub part: u32,
}

// The six parts of a duration, and beside the seconds their fraction in nanoseconds. None is above zero if the duration is
// negative, none below if it is not.
#[derive(Clone, Copy)]
pub struct Lasting {
    pub years: i32,
    pub months: i32,
    pub days: i32,
    pub hours: i32,
    pub minutes: i32,
    pub seconds: i32,
    pub part: i32,
}

// The fields that the kind of a date, time or dateTime has, and its zone.
#[derive(Clone, Copy)]
pub struct OwnFields {
    pub year: Option<u16>,
    pub month: Option<u16>,
    pub day: Option<u16>,
    pub clock: Option<Clock>,
    pub zone: Zone,
}

// The parts that a value's kind has.
#[derive(Clone, Copy)]
pub enum Components {
    Moment(OwnFields),
    Duration(Lasting),
}

const MONTHS: u32 = calendar::MONTH_COUNT as u32;

fn date_field(own: bool, n: u16) -> Option<u16>
    ensures { result ≡ the.date_field own n }
{
    if own {
        return Some(n);
    }
    None
}

fn clock_field(own: bool, c: Clock) -> Option<Clock>
    ensures { result ≡ the.clock_field own c }
{
    if own {
        return Some(c);
    }
    None
}

fn clock_in(t: Span) -> Clock
    requires { (t.part < second_ticks) × (ticks_of t ≤ max_clock) }
    ensures { result ≡ the.clock_in (ticks_of t) }
{
    let s = t.seconds;
    Clock {
        hours: (s / Span::HOUR) as u8,
        minutes: (s / Span::MINUTE % Span::HOUR_MINUTES) as u8,
        seconds: (s % Span::MINUTE) as u8,
        part: t.part,
    }
}

// A number with a duration's sign.
fn signed(negative: bool, n: u32) -> i32
    requires { n < 2 ^ 31 }
    ensures { result ≡ the.signed_number negative n }
{
    let m = n as i32;
    if negative { 0 - m } else { m }
}

fn six_parts(negative: bool, months: u32, t: Span) -> Lasting
    requires { (months < 2 ^ 31) × (t.part < second_ticks) × (ticks_of t ≤ max_day_time) }
    ensures { result ≡ the.lasting negative months (ticks_of t) }
{
    let s = t.seconds;
    let years = signed(negative, months / MONTHS);
    let months = signed(negative, months % MONTHS);
    let days = signed(negative, (s / Span::DAY) as u32);
    let hours = signed(negative, (s / Span::HOUR % Span::DAY_HOURS) as u32);
    let minutes = signed(negative, (s / Span::MINUTE % Span::HOUR_MINUTES) as u32);
    let seconds = signed(negative, (s % Span::MINUTE) as u32);
    let part = signed(negative, t.part);
    Lasting {
        years,
        months,
        days,
        hours,
        minutes,
        seconds,
        part,
    }
}

fn fields_in(kind: Kind, d: DateTime) -> OwnFields
    requires { ok_time_part d ≡ true }
    ensures { result ≡ the.fields_in kind d }
{
    let own = kinds::parts(kind);
    let zone = d.zone;
    let year = date_field(own.year, d.year);
    let month = date_field(own.month, d.month as u16);
    let day = date_field(own.day, d.day as u16);
    let clock = clock_field(own.clock, clock_in(clocks::clock(d)));
    OwnFields {
        year,
        month,
        day,
        clock,
        zone,
    }
}

pub fn of_value(v: Value) -> Result<Components, Refusal>
    ensures { the.components_meaning result ≡ the.components_of v }
{
    if !valid::value_ok(v) {
        return Err(Refusal::numbered(Refusal::OUTSIDE));
    }
    match v {
        Value::Moment(kind, d) => Ok(Components::Moment(fields_in(kind, d))),
        Value::DayTime(d) => Ok(Components::Duration(six_parts(d.negative, 0, clocks::size(d)))),
        Value::YearMonth(d) => Ok(Components::Duration(six_parts(
            d.negative,
            d.months,
            clocks::span(0),
        ))),
    }
}
