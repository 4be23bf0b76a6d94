// A kind is a row: its layout and its template. What else there is to know of its parts follows from the letters.
ghost use Rattle.std.specs.Prelude.{◌≡◌};
ghost use Rattle.value.specs.Rows as the;

use crate::{DateTime, Kind, OwnParts, Zone, clocks};
use calendar::Date;

// The letters of the kinds' layouts. The durations have none.
const DATE: &[u8] = b"Y-M-Dz";

const TIME: &[u8] = b"h:m:sfz";

const DATE_TIME: &[u8] = b"Y-M-DTh:m:sfz";

const NONE: &[u8] = b"";

// The letters of a kind's layout.
pub fn layout(kind: Kind) -> &'static [u8]
    ensures { result.now ≡ the.layout_of kind }
{
    match kind {
        Kind::Date => DATE,
        Kind::Time => TIME,
        Kind::DateTime => DATE_TIME,
        Kind::DayTimeDuration => NONE,
        Kind::YearMonthDuration => NONE,
    }
}

fn day_start(year: u16, month: u8, day: u8) -> DateTime
    ensures { result ≡ the.day_start year month day }
{
    let e = Date { year, month, day };
    clocks::with_time(e, 0, 0, None)
}

// What stands for the parts that a kind has not.
pub fn template(kind: Kind) -> DateTime
    ensures { result ≡ the.template_of kind }
{
    match kind {
        Kind::Date => day_start(1972, 12, 31),
        Kind::Time => day_start(1972, 12, 31),
        Kind::DateTime => day_start(1972, 12, 31),
        Kind::DayTimeDuration => day_start(1972, 12, 31),
        Kind::YearMonthDuration => day_start(1972, 12, 31),
    }
}

// Whether a kind has a layout, as dates, times and dateTimes do.
#[tactic(auto, unfolding(crate::specs::Rows::is_moment))]
pub fn is_moment(kind: Kind) -> bool
    ensures { result ≡ the.is_moment kind }
{
    !layout(kind).is_empty()
}

// The parts that letters stand for.
fn parts_in(letters: &[u8]) -> OwnParts
    ensures { result ≡ the.parts_in letters.now }
{
    let mut found = OwnParts {
        year: false,
        month: false,
        day: false,
        clock: false,
    };
    for &p in letters {
        match p {
            b'Y' => found.year = true,
            b'M' => found.month = true,
            b'D' => found.day = true,
            b'h' => found.clock = true,
            _ => {}
        }
    }
    found
}

// Which parts a kind has. Over letters of known number the compiler needs no loop.
pub fn parts(kind: Kind) -> OwnParts
    ensures { result ≡ the.own_parts kind }
{
    match kind {
        Kind::Date => parts_in(DATE),
        Kind::Time => parts_in(TIME),
        Kind::DateTime => parts_in(DATE_TIME),
        Kind::DayTimeDuration => parts_in(NONE),
        Kind::YearMonthDuration => parts_in(NONE),
    }
}

// Whether a kind has year, month and day.
#[tactic(auto, unfolding(basis::specs::Choice::both, basis::specs::Choice::every, crate::specs::Rows::is_dated))]
pub fn is_dated(kind: Kind) -> bool
    ensures { result ≡ the.is_dated kind }
{
    let own = parts(kind);
    own.year && own.month && own.day
}

// Whether a kind has a time of day.
#[tactic(auto, unfolding(crate::specs::Rows::is_clocked))]
pub fn is_clocked(kind: Kind) -> bool
    ensures { result ≡ the.is_clocked kind }
{
    parts(kind).clock
}

// The parts that a kind has, its template's for the others, and the zone.
pub fn kept(kind: Kind, d: DateTime) -> DateTime
    ensures { result ≡ the.kept kind d }
{
    let own = parts(kind);
    let t = template(kind);
    let e = Date {
        year: if own.year { d.year } else { t.year },
        month: if own.month { d.month } else { t.month },
        day: if own.day { d.day } else { t.day },
    };
    clocks::at_clock_of(e, if own.clock { d } else { t }, d.zone)
}

#[tactic(auto, using(crate::proofs::KindParts::of_kind_by_equality))]
pub fn of_kind(kind: Kind, d: DateTime) -> bool
    ensures { result ≡ the.of_kind kind d }
{
    d == kept(kind, d)
}
