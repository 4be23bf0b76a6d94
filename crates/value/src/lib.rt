// The values of the five kinds: records, bounds, makers and validity.
#![tactic(auto)]

ghost use Rattle.std.specs.Prelude.{◌≡◌};
ghost use Rattle.basis.specs.Answer.{only_number};
ghost use Rattle.value.specs.Reasons.{reason_of};
ghost use Rattle.value.specs.Clocks.{with_time, with_size};
ghost use Rattle.value.specs.Values.{date_in};
ghost use Rattle.value.specs.Kinds.{made, meaning, kind_of};
ghost use Rattle.value.specs.Rows.{template_of};
ghost use Rattle.value.specs.declared.Kind.TheVariants as KV;
ghost use Rattle.value.specs.declared.Value.TheVariants as VV;

use calendar::Date;

pub mod bounds; // bounds.rt: each constant is the number of the definitions
pub mod clocks; // clocks.rt: the time of day of a record and the size of a duration
pub mod kinds; // kinds.rt: the rows, and which parts a kind has
pub mod valid; // valid.rt: which records are within the bounds

// Minutes from UTC. Zero minutes are east.
#[derive(Clone, Copy, Debug, PartialEq, Eq)]
pub enum Offset {
    East(u16),
    West(u16),
}

// A zone: an offset from UTC, or none.
pub type Zone = Option<Offset>;

// A date, a time and a dateTime: a date is at 00:00:00, a time is on 1972-12-31. The second is that of the day.
#[derive(Clone, Copy, Debug, PartialEq, Eq)]
pub struct DateTime {
    pub year: u16,
    pub month: u8,
    pub day: u8,
    pub second: u32,
    pub nanosecond: u32,
    pub zone: Zone,
}

// Seconds and nanoseconds under one sign. Zero, that is zero of both, is not negative.
#[derive(Clone, Copy)]
pub struct DayTime {
    pub negative: bool,
    pub seconds: u64,
    pub nanoseconds: u32,
}

// A signed number of months. Zero is not negative.
#[derive(Clone, Copy)]
pub struct YearMonth {
    pub negative: bool,
    pub months: u32,
}

#[derive(Clone, Copy, Debug, PartialEq, Eq)]
pub enum Kind {
    Date,
    Time,
    DateTime,
    DayTimeDuration,
    YearMonthDuration,
}

// Which of the parts of a date a kind has, and whether it has a clock.
#[derive(Clone, Copy)]
pub struct OwnParts {
    pub year: bool,
    pub month: bool,
    pub day: bool,
    pub clock: bool,
}

// A date, time or dateTime is a moment, its kind with its record. A moment of a duration's kind, or with a record
// that is not of its kind, can be built and is outside the bounds.
#[derive(Clone, Copy)]
pub enum Value {
    Moment(Kind, DateTime),
    DayTime(DayTime),
    YearMonth(YearMonth),
}

// A refusal has a number of documents 01 and 02, and no value.
#[derive(Clone, Copy)]
pub struct Refusal {
    pub number: u8,
}

// Whole seconds, and a part of a second in ticks.
#[derive(Clone, Copy)]
pub struct Span {
    pub seconds: u64,
    pub part: u32,
}

impl Refusal {
    pub const BAD_TEXT: u8 = 1;

    pub const BEYOND_BOUNDS: u8 = 2;

    pub const LONG_FRACTION: u8 = 3;

    pub const BEYOND_RESULT: u8 = 4;

    pub const BAD_ZONE: u8 = 5;

    pub const NO_FIELD: u8 = 6;

    pub const BAD_CONDITION: u8 = 7;

    pub const TOO_DEEP: u8 = 8;

    pub const WRONG_KIND: u8 = 9;

    pub const NO_SEAT: u8 = 10;

    pub const WRONG_TIMETABLE: u8 = 11;

    pub const NOT_SOUND: u8 = 12;

    pub const NO_TICKET: u8 = 13;

    pub const NO_MORE_TICKETS: u8 = 14;

    pub const NO_ROOM: u8 = 15;

    pub const OUTSIDE: u8 = 16;

    pub const BAD_STEP: u8 = 17;

    pub const TOO_MANY: u8 = 18;

    // A refusal of that number and nothing more. No other function makes one.
    pub fn numbered(number: u8) -> Refusal
        ensures { reason_of result ≡ only_number number }
    {
        Refusal { number }
    }
}

impl Span {
    // The ticks of a second, which are nanoseconds: a part is below this.
    pub const TICKS: u32 = 1_000_000_000;

    // The seconds of a minute, the minutes of an hour, the hours of a day.
    pub const MINUTE: u64 = 60;

    pub const HOUR_MINUTES: u64 = 60;

    pub const DAY_HOURS: u64 = 24;

    // An hour and a day in seconds.
    pub const HOUR: u64 = Span::HOUR_MINUTES * Span::MINUTE;

    pub const DAY: u64 = Span::DAY_HOURS * Span::HOUR;
}

impl DateTime {
    pub const MIN_YEAR: u16 = 1;

    pub const MAX_YEAR: u16 = 9999;

    // The last second of a day, and the last nanosecond of a second.
    pub const MAX_SECOND: u32 = Span::DAY as u32 - 1;

    pub const MAX_NANOSECOND: u32 = Span::TICKS - 1;

    pub const MAX_ZONE: u16 = 840;

    pub fn new(
        year: u16,
        month: u8,
        day: u8,
        second: u32,
        nanosecond: u32,
        zone: Zone,
    ) -> Result<Value, Refusal>
        ensures { meaning result ≡ made (VV.Moment KV.DateTime (with_time (record { year = year; month = month; day = day }) second nanosecond zone)) }
    {
        let e = Date { year, month, day };
        let d = clocks::with_time(e, second, nanosecond, zone);
        valid::checked(Value::Moment(Kind::DateTime, d))
    }

    pub fn date(year: u16, month: u8, day: u8, zone: Zone) -> Result<Value, Refusal>
        ensures { meaning result ≡ made (VV.Moment KV.Date (with_time (record { year = year; month = month; day = day }) 0 0 zone)) }
    {
        let e = Date { year, month, day };
        let d = clocks::with_time(e, 0, 0, zone);
        valid::checked(Value::Moment(Kind::Date, d))
    }

    pub fn time(second: u32, nanosecond: u32, zone: Zone) -> Result<Value, Refusal>
        ensures { meaning result ≡ made (VV.Moment KV.Time (with_time (date_in (template_of KV.Time)) second nanosecond zone)) }
    {
        let t = kinds::template(Kind::Time);
        let e = Date {
            year: t.year,
            month: t.month,
            day: t.day,
        };
        let d = clocks::with_time(e, second, nanosecond, zone);
        valid::checked(Value::Moment(Kind::Time, d))
    }
}

impl DayTime {
    // A duration of so many seconds has no nanoseconds beside them.
    pub const MAX_SECONDS: u64 = 1_000_000_000_000;

    pub const MAX_NANOSECONDS: u32 = Span::TICKS - 1;

    pub fn new(negative: bool, seconds: u64, nanoseconds: u32) -> Result<Value, Refusal>
        ensures { meaning result ≡ made (VV.DayTime (with_size negative seconds nanoseconds)) }
    {
        valid::checked(Value::DayTime(clocks::with_size(negative, seconds, nanoseconds)))
    }
}

impl YearMonth {
    pub const MAX: u32 = 1_000_000;

    pub fn new(negative: bool, months: u32) -> Result<Value, Refusal>
        ensures { meaning result ≡ made (VV.YearMonth (record { negative = negative; months = months })) }
    {
        valid::checked(Value::YearMonth(YearMonth { negative, months }))
    }
}

impl Value {
    pub fn kind(self) -> Kind
        ensures { result ≡ kind_of self }
    {
        match self {
            Value::Moment(k, _) => k,
            Value::DayTime(_) => Kind::DayTimeDuration,
            Value::YearMonth(_) => Kind::YearMonthDuration,
        }
    }
}
