// Stored runs of the desk program: standard input names a timetable and a file of conditions a line, and the program is run over
// each pair (docs/LINES.md, "Desk runs"). It only reads and writes; the answers are those of crate `desk_host`.
#![tactic(auto)]

use std::io;
use std::rt::Files;
use timetable::fields::field;
use timetable_reader::LineReader;

// The most bytes of cases that are read.
const MAX_INPUT: usize = 4_096;

// Runs the program over the two files that a line names, below that line.
fn run_case<R: Files + Print>(rt: &R, line: &[u8]) {
    let _ = rt.write_all(b"case\t");
    let _ = rt.write_all(line);
    let _ = rt.write_all(b"\n");
    let name = field(line, 1);
    match files::open(rt, field(line, 2)) {
        Some(mut conditions) => desk_host::run_over(rt, name, &mut conditions),
        None => desk_host::run_over(rt, name, &mut io::empty()),
    }
}

// Runs the cases in order.
fn run_all<R: Files + Print>(rt: &R, cases: &[u8]) {
    for line in LineReader::new(cases, 0) {
        run_case(rt, line.text);
    }
}

fn main(rt: HostRuntime) {
    let mut buffer = [0; MAX_INPUT];
    let n = files::read_full(&mut rt.reader(), &mut buffer);
    run_all(&rt, &buffer[..n]);
}
