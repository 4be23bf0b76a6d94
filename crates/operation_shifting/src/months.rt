// A yearMonthDuration added to a date or a dateTime: months move, the day is cut to the new month's last day.
ghost use Rattle.std.specs.Prelude.{◌≡◌, true, ◌≤◌, min};
ghost use Rattle.value.specs.Bounds.{max_year_month};
ghost use Rattle.value.specs.Values.{ok_date_time};
ghost use Rattle.value.specs.Kinds.{meaning};
ghost use Rattle.operation_shifting.specs.Shifts as the;

use calendar::Date;
use operation_quantities::results;
use value::{DateTime, Kind, Refusal, Value, YearMonth, clocks, kinds};

const MONTHS: u32 = calendar::MONTH_COUNT as u32;

fn lesser(a: u8, b: u8) -> u8
    ensures { result ≡ min a b }
{
    if a < b { a } else { b }
}

// The record in the month numbered t from January of year 0 on.
fn moved_to(kind: Kind, d: DateTime, t: u32) -> Result<Value, Refusal>
    ensures { meaning result ≡ the.moved_to kind d t }
{
    let zone = d.zone;
    let year = t / MONTHS;
    if year < DateTime::MIN_YEAR as u32 {
        return results::refused(Refusal::BEYOND_RESULT);
    }
    if (DateTime::MAX_YEAR as u32) < year {
        return results::refused(Refusal::BEYOND_RESULT);
    }
    let month = (t % MONTHS + 1) as u8;
    let last = calendar::month_days(year as u16, month);
    let e = Date {
        year: year as u16,
        month,
        day: lesser(d.day, last),
    };
    Ok(Value::Moment(kind, clocks::at_clock_of(e, d, zone)))
}

pub fn moved(kind: Kind, d: DateTime, m: YearMonth) -> Result<Value, Refusal>
    requires { (ok_date_time d ≡ true) × (m.months ≤ max_year_month) }
    ensures { meaning result ≡ the.moved_by kind d m }
{
    if !kinds::is_dated(kind) {
        return results::refused(Refusal::WRONG_KIND);
    }
    let t = d.year as u32 * MONTHS + (d.month - 1) as u32;
    if m.negative {
        if t < m.months {
            return results::refused(Refusal::BEYOND_RESULT);
        }
        return moved_to(kind, d, t - m.months);
    }
    moved_to(kind, d, t + m.months)
}
