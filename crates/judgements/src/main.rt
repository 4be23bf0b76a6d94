// Conditions judged one at a time: of each line of standard input the first field is a condition, and what follows its tab
// is the line that it is judged at. It only reads and writes; the results are those of crate `condition`.
#![tactic(auto)]

ghost use Rattle.std.specs.Prelude.{ℕ, ◌+◌, ◌-◌, ◌≤◌, ◌<◌, length};

use condition::Judged;
use timetable::fields::field;
use timetable_reader::LineReader;
use value::Refusal;

// The most bytes of conditions and lines that are read.
const MAX_INPUT: usize = 65_536;

fn told(rt: &impl Print, word: &[u8], number: u8) {
    let _ = rt.write_all(word);
    let _ = rt.print(number);
    let _ = rt.write_all(b"\n");
}

fn told_judged(rt: &impl Print, judged: Result<Judged, Refusal>) {
    match judged {
        Ok(Judged::Hit) => {
            let _ = rt.write_all(b"hit\n");
        }
        Ok(Judged::Miss) => {
            let _ = rt.write_all(b"miss\n");
        }
        Ok(Judged::Unreadable(refusal)) => told(rt, b"unreadable\t", refusal.number),
        Err(refusal) => told(rt, b"refused\t", refusal.number),
    }
}

fn judge_line(rt: &impl Print, line: &[u8]) {
    let text = field(line, 1);
    let long = text.len();
    if long < line.len() {
        told_judged(rt, condition::result(text, &line[long + 1..]));
    } else {
        told_judged(rt, condition::result(text, b""));
    }
}

fn judge_all(rt: &impl Print, input: &[u8]) {
    for line in LineReader::new(input, 0) {
        judge_line(rt, line.text);
    }
}

fn main(rt: HostRuntime) {
    let mut buffer = [0; MAX_INPUT];
    let n = files::read_full(&mut rt.reader(), &mut buffer);
    judge_all(&rt, &buffer[..n]);
}
