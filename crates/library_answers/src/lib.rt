// The lines that the desk's calls are answered with, a refusal by its number.
#![tactic(auto)]

use desk_seat::{At, AtPlace, Totals, TurnAnswer};
use library_told::{tell, tell_end, tell_number, tell_refused};
use value::Refusal;

pub fn tell_open(rt: &impl Print, answer: Result<u32, Refusal>) {
    match answer {
        Ok(ticket) => {
            tell(rt, b"open");
            tell_number(rt, ticket as u64);
            tell_end(rt);
        }
        // 7, 8, 9, 1, 2, 3: the condition; 10: every seat is held; 14: every ticket was issued
        Err(refusal) => tell_refused(rt, refusal.number),
    }
}

pub fn tell_close(rt: &impl Print, answer: Result<(), Refusal>) {
    match answer {
        Ok(()) => tell(rt, b"closed\n"),
        // 13: no seat is held by that ticket
        Err(refusal) => tell_refused(rt, refusal.number),
    }
}

// A ticket, a line's offset and the place.
fn tell_placed(rt: &impl Print, word: &[u8], at: AtPlace) {
    tell(rt, word);
    tell_number(rt, at.ticket as u64);
    tell_number(rt, at.offset as u64);
    tell_number(rt, at.place as u64);
    tell_end(rt);
}

// 1, 2, 3: a field is no such value; 4: a result is beyond the bounds; 6: the line has no such field; 17, 18: the line's run has no
// step above zero, or too many occurrences.
fn tell_unreadable(rt: &impl Print, at: At, number: u8) {
    tell(rt, b"unreadable");
    tell_number(rt, at.ticket as u64);
    tell_number(rt, at.offset as u64);
    tell_number(rt, number as u64);
    tell_end(rt);
}

fn tell_done(rt: &impl Print, totals: Totals) {
    tell(rt, b"done");
    tell_number(rt, totals.ticket as u64);
    tell_number(rt, totals.hits as u64);
    tell_number(rt, totals.unreadable as u64);
    tell_end(rt);
}

pub fn tell_turn(rt: &impl Print, answer: TurnAnswer) {
    match answer {
        TurnAnswer::Idle => tell(rt, b"idle\n"),
        TurnAnswer::Hit(at) => tell_placed(rt, b"hit", at),
        TurnAnswer::Miss(at) => tell_placed(rt, b"miss", at),
        TurnAnswer::Unreadable(at, refusal) => tell_unreadable(rt, at, refusal.number),
        TurnAnswer::Done(totals) => tell_done(rt, totals),
        // 12, 11: not here, where the desk is sound and the timetable is the one that it was made for
        TurnAnswer::Refused(refusal) => tell_refused(rt, refusal.number),
    }
}
