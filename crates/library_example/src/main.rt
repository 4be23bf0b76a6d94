// A program of one's own over this library (docs/LINES.md, "Library example"; docs/LIBRARY.md goes through it). Each line of
// standard input is a call: values are made, read, written and compared, and one desk is kept and updated where it stands.
#![tactic(auto)]

use desk::Desk;
use library_told::{tell_no_call, tell_refused};

mod seats; // seats.rt: the desk's calls, and which call a line is

// The most bytes of calls.
const MAX_INPUT: usize = line_fields::MAX_INPUT;

// Answers the calls over a desk that is made for the timetable.
fn serve(rt: &impl Print, t: &[u8], input: &[u8]) {
    let made = desk::fresh(t.len());
    let answer = made.answer;
    // 11: the timetable is too long, and there is no desk
    if let Err(refusal) = answer {
        tell_refused(rt, refusal.number);
        return;
    }
    if MAX_INPUT < input.len() {
        tell_no_call(rt);
        return;
    }
    let desk = made.desk;
    seats::live(rt, desk, t, input);
}

// One byte more than is taken is asked for, so that what is too long shows. A file that cannot be opened counts as empty.
fn main(rt: HostRuntime) {
    let mut file = [0; Desk::MAX_TIMETABLE + 1];
    let long = files::read(&rt, b"timetable.tsv", &mut file);
    let mut input = [0; MAX_INPUT + 1];
    let given = files::read_full(&mut rt.reader(), &mut input);
    serve(&rt, &file[..long], &input[..given]);
}
