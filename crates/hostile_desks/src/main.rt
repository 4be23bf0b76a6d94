// Hostile desks: a script builds desks, sound or not, and makes the desk's calls on them (docs/LINES.md, "Hostile desks").
// It only reads and hands on: crate `hostile` says which event a line is, `hostile_changes` has the desk after `set` and
// `seat`, `desk`, `output_lines` and `output_turns` have the other answers, and `hostile_answers` writes them.
#![tactic(auto)]

use condition_words::cut;
use desk::Desk;
use hostile::ScriptEvent;
use hostile::events::event;
use hostile::fields::condition_text;
use hostile_answers::{
    NO_EVENT, show, tell, tell_close, tell_fresh, tell_refused, tell_sound, tell_text, turn, turns,
};
use hostile_changes::{set_condition, set_desk, set_seat};
use line_fields::fields::after_tab;
use output_lines::open_line;
use timetable_reader::LineReader;

// The most bytes of a script.
const MAX_INPUT: usize = line_fields::MAX_INPUT;

// The events that make a call write its answer and hand back the desk after it.
fn fresh(rt: &impl Print, n: usize) -> Desk {
    let after = desk::fresh(n);
    let answer = after.answer;
    tell_fresh(rt, answer);
    after.desk
}

fn open(rt: &impl Print, desk: Desk, text: &[u8]) -> Desk {
    let after = desk.open(text);
    let answer = after.answer;
    tell_text(rt, open_line(answer));
    after.desk
}

fn close(rt: &impl Print, desk: Desk, ticket: u32) -> Desk {
    let after = desk.close(ticket);
    let answer = after.answer;
    tell_close(rt, answer);
    after.desk
}

// The desk after an event.
fn desk_after(rt: &impl Print, desk: Desk, t: &[u8], line: &[u8], event: ScriptEvent) -> Desk {
    match event {
        ScriptEvent::Fresh(n) => return fresh(rt, n),
        ScriptEvent::Part(_) => tell(rt, b"part\n"),
        ScriptEvent::Open => return open(rt, desk, after_tab(line)),
        ScriptEvent::Close(ticket) => return close(rt, desk, ticket),
        ScriptEvent::Turn => return turn(rt, desk, t),
        ScriptEvent::Turns(long) => return turns(rt, desk, t, long),
        ScriptEvent::Sound => tell_sound(rt, desk.sound()),
        ScriptEvent::Show => show(rt, desk),
        ScriptEvent::Set(number) => {
            tell(rt, b"set\n");
            return set_desk(desk, number);
        }
        ScriptEvent::Seat(index, number) => {
            tell(rt, b"set\n");
            return set_seat(desk, index, number);
        }
        ScriptEvent::Condition(index) => {
            tell(rt, b"set\n");
            return set_condition(desk, index, condition_text(line));
        }
    }
    desk
}

// The bytes of the file that are the timetable after an event; `part` alone is about them.
fn part_after(part: usize, event: ScriptEvent) -> usize {
    if let ScriptEvent::Part(n) = event {
        return n;
    }
    part
}

// Answers the events in order. At the start the timetable is the whole file.
fn play(rt: &impl Print, file: &[u8], input: &[u8]) {
    let made = desk::fresh(file.len());
    let mut desk = made.desk;
    let mut part = file.len();
    for line in LineReader::new(input, 0) {
        let Some(event) = event(line.text, file.len()) else {
            tell_refused(rt, NO_EVENT);
            continue;
        };
        part = part_after(part, event);
        desk = desk_after(rt, desk, cut(file, 0, part), line.text, event);
    }
}

// One byte more than is taken is asked for, so that a script that is too long shows, and a file too long for a desk.
fn main(rt: HostRuntime) {
    let mut file = [0; Desk::MAX_TIMETABLE + 1];
    let long = files::read(&rt, b"timetable.tsv", &mut file);
    let mut input = [0; MAX_INPUT + 1];
    let given = files::read_full(&mut rt.reader(), &mut input);
    if MAX_INPUT < given {
        tell_refused(&rt, NO_EVENT);
        return;
    }
    play(&rt, &file[..long], &input[..given]);
}
