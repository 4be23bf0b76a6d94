// The loop over the lines, which makes the calls of the desk on one desk. The desk stands in one variable of the program, in
// `live`, and is updated where it stands: `answer_all` is lent it.
ghost use Rattle.std.specs.Prelude.{◌≡◌};
ghost use Rattle.timetable.specs.Lines.{offset_lines};
ghost use Rattle.desk_seat.specs.Files.{over};
ghost use Rattle.library_example.specs.After.{after_calls};

use desk::Desk;
use desk_in_place::{close_in, open_in, turn_in};
use library_answers::{tell_close, tell_open, tell_turn};
use library_lines::calls::{DeskCall, call_at, condition_at, line_at};
use timetable::lines::next_line;

// Answers the lines in order. A line that is none of the desk's calls is a call about values, or no call.
fn answer_all(rt: &impl Print, desk: &mut Desk, t: &[u8], input: &[u8])
    ensures { desk.new ≡ after_calls (over t.now) (offset_lines input.now) desk.old }
{
    let mut at = 0;
    while at < input.len() {
        match call_at(input, at) {
            Some(DeskCall::Turn) => tell_turn(rt, turn_in(desk, t)),
            Some(DeskCall::Open) => tell_open(rt, open_in(desk, condition_at(input, at))),
            Some(DeskCall::Close(ticket)) => tell_close(rt, close_in(desk, ticket)),
            None => library_values::answer(rt, line_at(input, at)),
        }
        at = next_line(input, at);
    }
}

// One desk for the program's whole life, in one variable.
pub fn live(rt: &impl Print, mut desk: Desk, t: &[u8], input: &[u8]) {
    answer_all(rt, &mut desk, t, input);
}
