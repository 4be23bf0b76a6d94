// Values that are read from text, written into a room, compared and computed with.
use condition_symbols::kind_named;
use library_lines::given::record_at;
use library_lines::late::late;
use library_told::{
    tell, tell_end, tell_late, tell_no_call, tell_number, tell_order, tell_refused,
};
use line_fields::fields::after_tab;
use line_fields::hex::named;
use line_fields::numbers::read;
use timetable::fields::{field, has_field};
use value::{Kind, Refusal, Value};

// The largest room.
const ROOM: usize = 64;

fn tell_written(rt: &impl Print, written: Result<usize, Refusal>) {
    match written {
        Ok(count) => {
            tell(rt, b"wrote");
            tell_number(rt, count as u64);
        }
        // 16: the record is outside the bounds; 15: its text does not fit
        Err(refusal) => {
            tell(rt, b"refused");
            tell_number(rt, refusal.number as u64);
        }
    }
}

// Writes a value into a room, and shows all of the room: after the text, and after a refusal, every byte is as it was.
fn write_into(rt: &impl Print, v: Value, room: &mut [u8]) {
    let written = text::write(v, room);
    tell_written(rt, written);
    tell(rt, b"\t");
    tell(rt, room);
    tell_end(rt);
}

fn write_within(rt: &impl Print, v: Value, long: usize) {
    if ROOM < long {
        tell_no_call(rt);
        return;
    }
    let mut room = [b'.'; ROOM];
    write_into(rt, v, &mut room[..long]);
}

// `record→ROOM→V`: the record goes to the writer as it is, and no maker has seen it.
pub fn write_record(rt: &impl Print, line: &[u8]) {
    let Some(long) = read(field(line, 2), ROOM) else {
        return tell_no_call(rt);
    };
    match record_at(line, 3) {
        Some(v) => write_within(rt, v, long),
        None => tell_no_call(rt),
    }
}

fn write_read(rt: &impl Print, kind: Kind, s: &[u8], long: usize) {
    match text::read(kind, s) {
        Ok(v) => write_within(rt, v, long),
        // 1: no shape, or no such day or time; 2: beyond the bounds; 3: over nine fraction digits
        Err(refusal) => tell_refused(rt, refusal.number),
    }
}

// `write→K→ROOM→TEXT`: the text may hold any bytes.
pub fn write_text(rt: &impl Print, line: &[u8]) {
    let s = after_tab(after_tab(after_tab(line)));
    match (
        kind_named(field(line, 2)),
        read(field(line, 3), ROOM),
        has_field(line, 4),
    ) {
        (Some(kind), Some(long), true) => write_read(rt, kind, s, long),
        _ => tell_no_call(rt),
    }
}

// `bytes→K→ROOM→HEX`: a text of any bytes, newlines too.
pub fn write_bytes(rt: &impl Print, line: &[u8]) {
    let last = has_field(line, 4) && !has_field(line, 5);
    match (
        kind_named(field(line, 2)),
        read(field(line, 3), ROOM),
        named(field(line, 4)),
        last,
    ) {
        (Some(kind), Some(long), Some(bytes), true) => write_read(rt, kind, bytes.as_slice(), long),
        _ => tell_no_call(rt),
    }
}

fn compare_read(rt: &impl Print, kind: Kind, s: &[u8], v: Value) {
    match text::read(kind, s) {
        Ok(a) => tell_order(rt, operation::compare(a, v)),
        Err(refusal) => tell_refused(rt, refusal.number),
    }
}

// `compare→K→T→V`: the record is handed over as it is.
pub fn compare(rt: &impl Print, line: &[u8]) {
    match (kind_named(field(line, 2)), record_at(line, 4)) {
        (Some(kind), Some(v)) => compare_read(rt, kind, field(line, 3), v),
        _ => tell_no_call(rt),
    }
}

fn late_after(rt: &impl Print, planned: Value, kind: Kind, s: &[u8], allowed: &[u8]) {
    match text::read(kind, s) {
        Err(refusal) => tell_refused(rt, refusal.number),
        Ok(actual) => match text::read(Kind::DayTimeDuration, allowed) {
            Err(refusal) => tell_refused(rt, refusal.number),
            Ok(d) => tell_late(rt, late(planned, actual, d)),
        },
    }
}

fn late_read(rt: &impl Print, kind: Kind, line: &[u8]) {
    match text::read(kind, field(line, 3)) {
        Err(refusal) => tell_refused(rt, refusal.number),
        Ok(planned) => late_after(rt, planned, kind, field(line, 4), field(line, 5)),
    }
}

// `late→K→T→T→D`
pub fn compare_delay(rt: &impl Print, line: &[u8]) {
    match (
        kind_named(field(line, 2)),
        has_field(line, 5),
        has_field(line, 6),
    ) {
        (Some(kind), true, false) => late_read(rt, kind, line),
        _ => tell_no_call(rt),
    }
}
