// The text of durations, read and written by the form of their kind.
#![tactic(auto)]

ghost use Rattle.std.specs.Prelude.{◌≡◌, true, ◌<◌};
ghost use Rattle.basis.specs.Answer.{refuses};
ghost use Rattle.value.specs.Bounds.{second_ticks};
ghost use Rattle.value.specs.Kinds.{ok_value};
ghost use Rattle.text_forms.specs.Forms.{duration_form};
ghost use Rattle.text_durations.specs.Walks as the;
ghost use Rattle.text_durations.specs.Carried as carried;
ghost use Rattle.text_durations.specs.Spelling as its;

use numerals::ValueText;
use value::{Kind, Refusal, Span, Value, YearMonth, clocks, valid};

mod scan; // scan.rt: the components of a text, found in order
mod spell; // spell.rt: the components of an amount, written in order

// Whole months and whole seconds, each the sum of the components that count it.
#[derive(Clone, Copy)]
pub struct Sums {
    pub months: u64,
    pub seconds: u64,
}

// What was found of a text so far: months and seconds, the ticks of a fraction and whether it has too many digits;
// the offset that is reached, and how far the text could go on.
#[derive(Clone, Copy)]
pub struct Walk {
    pub sums: Sums,
    pub ticks: u32,
    pub long: bool,
    pub at: usize,
    pub far: usize,
}

// A whole text, before it is judged. Where it is not good, the offset is that of the first byte that no good text could have
// there, or the end of a text that stops short.
#[derive(Clone, Copy)]
pub struct Shape {
    pub negative: bool,
    pub sums: Sums,
    pub ticks: u32,
    pub long: bool,
    pub good: bool,
    pub offset: usize,
}

// Months, seconds and a part of a second in ticks, under one sign.
#[derive(Clone, Copy)]
pub struct Amount {
    pub negative: bool,
    pub sums: Sums,
    pub ticks: u32,
}

// What a text reads as, and the offset at which its shape ends.
#[derive(Clone, Copy)]
pub struct Reading {
    pub outcome: Result<Value, Refusal>,
    pub offset: usize,
}

// Each part is within the bounds of its own kind.
fn within_bounds(sums: Sums, ticks: u32) -> bool
    requires { ticks < second_ticks }
    ensures { result ≡ the.within_bounds sums ticks }
{
    let most = YearMonth::MAX as u64;
    if most < sums.months {
        return false;
    }
    valid::size_ok(Span {
        seconds: sums.seconds,
        part: ticks,
    })
}

fn refused(number: u8) -> Result<Amount, Refusal>
    ensures { carried.count_meaning result ≡ refuses number }
{
    Err(Refusal::numbered(number))
}

// The checks of document 01 in their order.
fn counted(t: Shape) -> Result<Amount, Refusal>
    requires { t.ticks < second_ticks }
    ensures { carried.count_meaning result ≡ the.counted t }
{
    let sums = t.sums;
    let ticks = t.ticks;
    if !t.good {
        return refused(Refusal::BAD_TEXT);
    }
    if t.long {
        return refused(Refusal::LONG_FRACTION);
    }
    if !within_bounds(sums, ticks) {
        return refused(Refusal::BEYOND_BOUNDS);
    }
    if spell::is_nothing(sums, ticks) {
        return Ok(Amount {
            negative: false,
            sums,
            ticks,
        });
    }
    Ok(Amount {
        negative: t.negative,
        sums,
        ticks,
    })
}

// An amount as a value: its months, or its seconds with their part.
fn amount_value(months: bool, a: Amount) -> Value
    requires { (a.ticks < second_ticks) × (the.within_bounds a.sums a.ticks ≡ true) }
    ensures { result ≡ the.amount_value months a }
{
    if months {
        return Value::YearMonth(YearMonth {
            negative: a.negative,
            months: a.sums.months as u32,
        });
    }
    let size = Span {
        seconds: a.sums.seconds,
        part: a.ticks,
    };
    Value::DayTime(clocks::lasting(a.negative, size))
}

// What a text of a kind reads as, by the kind's form.
pub fn read(kind: Kind, s: &[u8]) -> Reading
    ensures { carried.Reads (the.read_duration kind s.now) (carried.shape_end (duration_form kind) s.now) result }
{
    let row = text_forms::row(kind);
    let months = text_forms::has_letter(row.before, b'M');
    let t = scan::shape(s, row.before, row.after);
    let offset = t.offset;
    let c = counted(t);
    match c {
        Ok(a) => Reading {
            outcome: Ok(amount_value(months, a)),
            offset,
        },
        Err(r) => Reading {
            outcome: Err(r),
            offset,
        },
    }
}

// A duration as an amount; a date, time or dateTime is none.
fn amount_of(v: Value) -> Amount
    requires { ok_value v ≡ true }
    ensures { result ≡ its.amount_of v }
{
    match v {
        Value::Moment(_, _) => Amount {
            negative: false,
            sums: Sums {
                months: 0,
                seconds: 0,
            },
            ticks: 0,
        },
        Value::DayTime(d) => {
            let size = clocks::size(d);
            Amount {
                negative: d.negative,
                sums: Sums {
                    months: 0,
                    seconds: size.seconds,
                },
                ticks: size.part,
            }
        }
        Value::YearMonth(d) => Amount {
            negative: d.negative,
            sums: Sums {
                months: d.months as u64,
                seconds: 0,
            },
            ticks: 0,
        },
    }
}

// The text of a duration, by its kind's form.
pub fn text_of(v: Value) -> ValueText
    requires { ok_value v ≡ true }
    ensures { result ≡ its.duration_text_of v }
{
    let row = text_forms::row(v.kind());
    let a = amount_of(v);
    let sums = a.sums;
    let ticks = a.ticks;
    if spell::is_nothing(sums, ticks) {
        return ValueText::from_slice(row.nothing);
    }
    spell::spelt(a.negative, row.before, row.after, sums, ticks)
}
