// The desk program (document 01, "The desk program"): it reads the timetable and the conditions, opens the conditions in order,
// and takes turns until Idle. It keeps one desk for its whole life, in one variable of `play`, and has it updated where
// it stands: its loops go through `desk_in_place::open_in` and `output_turns::turns_in`. What it writes are the pieces of crate
// `output_pieces`, each as it was left, and their bytes are counted; after a write that failed it writes nothing more.
#![tactic(auto)]

ghost use Rattle.std.specs.Prelude.{◌≡◌, ◌+◌, ◌^◌, ◌≤◌, ◌<◌, length};
ghost use Rattle.std.specs.Result.{IfOk};
ghost use Rattle.files.specs.Counts.{IsPrefixLen};
ghost use Rattle.timetable.specs.Lines.{offset_lines};
ghost use Rattle.condition_words.specs.Words.{between};
ghost use Rattle.desk_seat.specs.Bounds.{max_timetable};
ghost use Rattle.desk_seat.specs.Files.{over};
ghost use Rattle.desk_seat.specs.Request.{asking};
ghost use Rattle.output_pieces.specs.Bounds.{max_input, room_size};
ghost use Rattle.output_pieces.specs.Pieces.{open_piece, turns_piece, opened_all, until_idle, most_turns, served_all, desk_at_end};
ghost use Rattle.output_pieces.specs.Carried.{opened_told, until_idle_told, served_told};
ghost use Rattle.output.specs.Output.{output_of};

use condition_words::cut;
use desk::Desk;
use output_lines::LINE_ROOM;
use output_pieces::{Begun, PieceEnd};
use std::io;
use std::io::Read;
use std::rt::Files;
use timetable_reader::{moved, next};

// The bytes of lines that are written at once.
const ROOM: usize = 4_096;

// Each piece takes a turn or more, and no desk takes more than 16 x (1,440 x 65,536 + 1) of them before it is Idle.
const CALLS: usize = Desk::SEATS * (run_times::MOST as usize * Desk::MAX_TIMETABLE + 1) + 1;

// What was written so far: how many bytes were handed to the writes, and whether more is due.
#[derive(Drop)]
struct Sent {
    told: usize,
    more: bool,
}

// How far the program has come: the desk, and how many bytes were handed to the writes.
#[derive(Drop)]
struct Progress {
    desk: Desk,
    told: usize,
}

// Writes a piece as it stands in the room, after so many bytes before it.
fn send(rt: &impl Print, part: PieceEnd, room: &[u8], before: usize) -> io::Result<Sent>
    requires { (part.count ≤ length room.now) × (before + part.count < 2 ^ 64) }
    ensures { IfOk result (λ s. (s.told ≡ before + part.count) × (s.more ≡ part.more)) }
{
    rt.write_all(&room[..part.count])?;
    Ok(Sent {
        told: before + part.count,
        more: part.more,
    })
}

// The piece of the condition between two offsets of the input: how many bytes were handed to the writes after it.
fn open_at_in(
    rt: &impl Print,
    desk: &mut Desk,
    input: &[u8],
    at: usize,
    end: usize,
    told: usize,
) -> io::Result<usize>
    requires { told + length (open_piece (asking (between input.now at end)) desk.old).text < 2 ^ 64 }
    ensures { (desk.new ≡ (open_piece (asking (between input.now at end)) desk.old).desk) × IfOk result (λ n. n ≡ told + length (open_piece (asking (between input.now at end)) desk.old).text) }
{
    let condition = cut(input, at, end);
    let mut room = [0; LINE_ROOM];
    let part = output_pieces::open_piece_in(desk, condition, &mut room);
    let sent = send(rt, part, &room, told)?;
    Ok(sent.told)
}

// The piece of as many turns as have their lines in the room.
fn take_some_in(rt: &impl Print, desk: &mut Desk, t: &[u8], told: usize) -> io::Result<Sent>
    requires { told + length (turns_piece (over t.now) desk.old room_size).text < 2 ^ 64 }
    ensures { (desk.new ≡ (turns_piece (over t.now) desk.old room_size).desk) × IfOk result (λ s. (s.told ≡ told + length (turns_piece (over t.now) desk.old room_size).text) × (s.more ≡ (turns_piece (over t.now) desk.old room_size).more)) }
{
    let mut room = [0; ROOM];
    let part = output_pieces::turns_piece_in(desk, t, &mut room);
    send(rt, part, &room, told)
}

// Opens the conditions in order.
fn open_all(rt: &impl Print, desk: &mut Desk, input: &[u8], before: usize) -> io::Result<usize>
    requires { before + opened_told (offset_lines input.now) desk.old < 2 ^ 64 }
    ensures { IfOk result (λ n. (desk.new ≡ opened_all (offset_lines input.now) desk.old) × (n ≡ before + opened_told (offset_lines input.now) desk.old)) }
{
    let mut told = before;
    let mut reader = timetable_reader::new(input, 0);
    while reader.at < input.len() {
        let line = next(reader);
        told = open_at_in(rt, desk, input, reader.at, line.end, told)?;
        reader = moved(reader);
    }
    Ok(told)
}

// Takes turns until Idle.
fn turns_all(rt: &impl Print, desk: &mut Desk, t: &[u8], before: usize) -> io::Result<usize>
    requires { before + until_idle_told (over t.now) most_turns desk.old < 2 ^ 64 }
    ensures { IfOk result (λ n. (desk.new ≡ until_idle (over t.now) most_turns desk.old) × (n ≡ before + until_idle_told (over t.now) most_turns desk.old)) }
{
    let mut told = before;
    for _ in 0..CALLS {
        let sent = take_some_in(rt, desk, t, told)?;
        told = sent.told;
        if !sent.more {
            break;
        }
    }
    Ok(told)
}

// Opens the conditions, then takes the turns.
fn serve_in(
    rt: &impl Print,
    desk: &mut Desk,
    t: &[u8],
    input: &[u8],
    told: usize,
) -> io::Result<usize>
    requires { told + served_told (over t.now) input.now desk.old < 2 ^ 64 }
    ensures { IfOk result (λ n. (desk.new ≡ served_all (over t.now) input.now desk.old) × (n ≡ told + served_told (over t.now) input.now desk.old)) }
{
    let opened = open_all(rt, desk, input, told)?;
    turns_all(rt, desk, t, opened)
}

// The program over what was read: where every write went through, the writes were handed as many bytes as its output has. One
// desk serves for the program's whole life, in one variable.
fn play(rt: &impl Print, t: &[u8], input: &[u8]) -> io::Result<Progress>
    requires { (length t.now ≤ max_timetable + 1) × (length input.now ≤ max_input + 1) }
    ensures { IfOk result (λ p. (p.desk ≡ desk_at_end (over t.now) input.now) × (p.told ≡ length (output_of (over t.now) input.now))) }
{
    let mut room = [0; LINE_ROOM];
    let Begun { mut desk, part } = output_pieces::begin(t.len(), input.len(), &mut room);
    let sent = send(rt, part, &room, 0)?;
    let mut told = sent.told;
    if sent.more {
        told = serve_in(rt, &mut desk, t, input, told)?;
    }
    Ok(Progress { desk, told })
}

// The bytes of a file, as far as they can be read, at the start of a timetable's buffer; none where it cannot be opened.
fn read_file(rt: &impl Files, name: &[u8], buffer: &mut [u8]) -> usize
    requires { length buffer.old ≡ max_timetable + 1 }
    ensures { IsPrefixLen result buffer.new }
{
    files::read(rt, name, buffer)
}

// The bytes that a reader hands out, as far as they can be read, at the start of an input's buffer.
fn read_input(reader: &mut impl Read, buffer: &mut [u8]) -> usize
    requires { length buffer.old ≡ max_input + 1 }
    ensures { IsPrefixLen result buffer.new }
{
    files::read_full(reader, buffer)
}

// The program over the timetable of a name and the conditions that a reader hands out, to its end.
pub fn run_over<R: Files + Print, C: Read>(rt: &R, name: &[u8], conditions: &mut C) {
    let mut timetable = output_pieces::timetable_buffer();
    let long = read_file(rt, name, &mut timetable);
    let mut input = output_pieces::input_buffer();
    let given = read_input(conditions, &mut input);
    // a write that failed ends the program
    let _ = play(rt, &timetable[..long], &input[..given]);
}

// The whole program.
pub fn run<R: Files + Input + Print>(rt: &R) {
    run_over(rt, b"timetable.tsv", &mut rt.reader());
}
