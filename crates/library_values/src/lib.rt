// The calls of the library example that are about values (docs/LINES.md, "Library example"): each reads the fields of a line, makes
// the library's call, and writes what it answered.
#![tactic(auto)]

use library_makers::{make_date, make_date_time, make_day_time, make_time, make_year_month};
use library_told::tell_no_call;
use texts::{compare, compare_delay, write_bytes, write_record, write_text};
use timetable::fields::field;

mod texts; // texts.rt: values read from text, written, compared and computed with

// Answers a call that is about values, and a line that is no call.
pub fn answer(rt: &impl Print, line: &[u8]) {
    match field(line, 1) {
        b"date" => make_date(rt, line),
        b"time" => make_time(rt, line),
        b"dateTime" => make_date_time(rt, line),
        b"dayTime" => make_day_time(rt, line),
        b"yearMonth" => make_year_month(rt, line),
        b"record" => write_record(rt, line),
        b"write" => write_text(rt, line),
        b"bytes" => write_bytes(rt, line),
        b"compare" => compare(rt, line),
        b"late" => compare_delay(rt, line),
        _ => tell_no_call(rt),
    }
}
