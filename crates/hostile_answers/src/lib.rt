// What the hostile desks answer (docs/LINES.md, "Hostile desks"), written to standard output.
#![tactic(auto)]

use condition_words::cut;
use desk::Desk;
use desk_seat::Seat;
use hostile::shown::kept;
use output_lines::{LineText, refused_line, turn_line};
use output_turns::WrittenTurns;
use value::Refusal;

// The largest room of many turns.
const ROOM: usize = 4_096;

// The number of a line that is no event.
pub const NO_EVENT: u8 = Refusal::BAD_CONDITION;

pub fn tell(rt: &impl Print, bytes: &[u8]) {
    let _ = rt.write_all(bytes);
}

// A tab and a number.
fn tell_number(rt: &impl Print, n: usize) {
    tell(rt, b"\t");
    let _ = rt.print(n);
}

pub fn tell_text(rt: &impl Print, text: LineText) {
    tell(rt, text.as_slice());
}

pub fn tell_refused(rt: &impl Print, number: u8) {
    tell_text(rt, refused_line(number));
}

pub fn tell_sound(rt: &impl Print, sound: bool) {
    if sound {
        tell(rt, b"sound\n");
    } else {
        tell(rt, b"unsound\n");
    }
}

pub fn tell_fresh(rt: &impl Print, answer: Result<(), Refusal>) {
    match answer {
        Ok(()) => tell(rt, b"made\n"),
        Err(refusal) => tell_refused(rt, refusal.number),
    }
}

pub fn tell_close(rt: &impl Print, answer: Result<(), Refusal>) {
    match answer {
        Ok(()) => tell(rt, b"closed\n"),
        Err(refusal) => tell_refused(rt, refusal.number),
    }
}

// What was written in a room of many turns.
fn tell_wrote(rt: &impl Print, count: usize, idle: bool) {
    tell(rt, b"wrote");
    tell_number(rt, count);
    if idle {
        tell(rt, b"\tidle\n");
    } else {
        tell(rt, b"\tmore\n");
    }
}

fn tell_turns(rt: &impl Print, answer: Result<WrittenTurns, Refusal>) {
    match answer {
        Ok(written) => tell_wrote(rt, written.count, written.idle),
        Err(refusal) => tell_refused(rt, refusal.number),
    }
}

// A tab, and the bytes in two digits each.
fn tell_bytes(rt: &impl Print, s: &[u8]) {
    tell(rt, b"\t");
    for &b in s {
        let _ = print!(rt; "{b:02x}");
    }
}

// Writes the line of a seat, unless it is free and all zeros.
fn show_seat(rt: &impl Print, index: usize, s: Seat) {
    let condition = s.condition;
    let bytes: &[u8] = &condition;
    let text = cut(bytes, 0, kept(bytes));
    let any = text.len()
        | s.offset
        | s.place as usize
        | s.hits
        | s.unreadable
        | s.condition_length
        | s.ticket as usize
        | s.held as usize;
    if any == 0 {
        return;
    }
    tell(rt, b"seat");
    tell_number(rt, index);
    tell_number(rt, s.held as usize);
    tell_number(rt, s.ticket as usize);
    tell_number(rt, s.offset);
    tell_number(rt, s.hits);
    tell_number(rt, s.unreadable);
    tell_number(rt, s.place as usize);
    tell_number(rt, s.condition_length);
    tell_bytes(rt, text);
    tell(rt, b"\n");
}

// The line of the desk, and those of its seats.
pub fn show(rt: &impl Print, desk: Desk) {
    tell(rt, b"desk");
    tell_number(rt, desk.last_served);
    tell_number(rt, desk.timetable_length);
    tell_number(rt, desk.issued as usize);
    tell(rt, b"\n");
    for (i, &seat) in desk.seats.iter().enumerate() {
        show_seat(rt, i, seat);
    }
}

// A turn: its line is written, and the desk after it handed back.
pub fn turn(rt: &impl Print, desk: Desk, t: &[u8]) -> Desk {
    let after = desk.turn(t);
    let answer = after.answer;
    tell_text(rt, turn_line(answer));
    after.desk
}

// Many turns into a room, which is written after the answer.
fn turns_into(rt: &impl Print, desk: Desk, t: &[u8], room: &mut [u8]) -> Desk {
    let after = output_turns::turns(desk, t, room);
    let answer = after.answer;
    tell_turns(rt, answer);
    tell(rt, room);
    tell(rt, b"\n");
    after.desk
}

// Many turns into a room of so many bytes, likewise.
pub fn turns(rt: &impl Print, desk: Desk, t: &[u8], long: usize) -> Desk {
    if ROOM < long {
        tell_refused(rt, NO_EVENT);
        return desk;
    }
    let mut room = [b'.'; ROOM];
    turns_into(rt, desk, t, &mut room[..long])
}
