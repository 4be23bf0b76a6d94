// The calculator: one library call a line, one line of answer for each (docs/LINES.md, "The calculator").
#![tactic(auto)]

ghost use Rattle.std.specs.Prelude.{◌≡◌, ◌+◌, length};
ghost use Rattle.calls.specs.Answers.{max_calls_input};

use calls::MAX_INPUT;
use calls_replies::Reply;
use timetable_reader::LineReader;

// One byte more than is taken, so that an input that is too long shows.
const ROOM: usize = MAX_INPUT + 1;

fn room() -> [u8; ROOM]
    ensures { max_calls_input + 1 ≡ length result }
{
    [0; ROOM]
}

fn show(rt: &impl Print, reply: Reply) {
    let _ = rt.write_all(reply.as_slice());
    let _ = rt.write_all(b"\n");
}

fn answer_lines(rt: &impl Print, input: &[u8]) {
    for line in LineReader::new(input, 0) {
        show(rt, calls::answer(line.text));
    }
}

fn answer_input(rt: &impl Print, input: &[u8]) {
    if !calls::takes(input) {
        show(rt, calls::no_call());
        return;
    }
    answer_lines(rt, input);
}

fn main(rt: HostRuntime) {
    let mut space = room();
    let n = files::read_full(&mut rt.reader(), &mut space);
    answer_input(&rt, &space[..n]);
}
