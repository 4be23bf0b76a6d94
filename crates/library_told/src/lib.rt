// The lines that are written: what a call answered, a refusal by its number.
#![tactic(auto)]

use std::cmp::Ordering;
use value::Refusal;

// A line that is no call is refused like a condition that is none.
const NO_CALL: u8 = Refusal::BAD_CONDITION;

pub fn tell(rt: &impl Print, bytes: &[u8]) {
    let _ = rt.write_all(bytes);
}

// A tab and a number.
pub fn tell_number(rt: &impl Print, n: u64) {
    tell(rt, b"\t");
    let _ = rt.print(n);
}

pub fn tell_end(rt: &impl Print) {
    tell(rt, b"\n");
}

pub fn tell_refused(rt: &impl Print, number: u8) {
    tell(rt, b"refused");
    tell_number(rt, number as u64);
    tell_end(rt);
}

pub fn tell_no_call(rt: &impl Print) {
    tell_refused(rt, NO_CALL);
}

pub fn tell_order(rt: &impl Print, answer: Result<Ordering, Refusal>) {
    match answer {
        Ok(Ordering::Less) => tell(rt, b"lt\n"),
        Ok(Ordering::Equal) => tell(rt, b"eq\n"),
        Ok(Ordering::Greater) => tell(rt, b"gt\n"),
        // 16: a value given is outside the bounds; 9: the two are of different kinds
        Err(refusal) => tell_refused(rt, refusal.number),
    }
}

pub fn tell_late(rt: &impl Print, answer: Result<bool, Refusal>) {
    match answer {
        Ok(true) => tell(rt, b"yes\n"),
        Ok(false) => tell(rt, b"no\n"),
        // 4: the difference is beyond the bounds; 9: it is no dayTimeDuration
        Err(refusal) => tell_refused(rt, refusal.number),
    }
}
