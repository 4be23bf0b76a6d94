// The pieces of what the desk program prints: each call leaves one in lent room, at its start, and says how many bytes it
// has and whether more is due after it. What the program has to write is then these bytes.
#![tactic(auto)]

ghost use Rattle.std.specs.Prelude.{◌≡◌, true, false, ◌++◌, ◌+◌, ◌≤◌, length, drop, replicate};
ghost use Rattle.desk_seat.specs.Bounds.{max_timetable};
ghost use Rattle.desk_seat.specs.Files.{over};
ghost use Rattle.desk_seat.specs.Request.{asking};
ghost use Rattle.desk.specs.Answers.{open_meaning};
ghost use Rattle.output_lines.specs.Text.{open_line, line_room};
ghost use Rattle.output_turns.specs.Turns.{turns_meaning};
ghost use Rattle.output_pieces.specs.Bounds.{max_input};
ghost use Rattle.output_pieces.specs.Pieces.{start_piece, open_piece, turns_piece, goes_on, Leaves};
ghost use Rattle.output_pieces.specs.Carried.{written_count};

use desk::Desk;
use output_lines::{LineText, open_line, put, refused_line};
use output_turns::WrittenTurns;
use value::Refusal;

// The most bytes of conditions.
const MAX_INPUT: usize = 4_096;

// The bytes of a piece, at the start of the room, and whether more is due after it.
#[derive(Drop)]
pub struct PieceEnd {
    pub count: usize,
    pub more: bool,
}

// The piece of the start, and the desk.
#[derive(Drop)]
pub struct Begun {
    pub desk: Desk,
    pub part: PieceEnd,
}

// A buffer for a timetable, all zeros: one byte more than is allowed, so that one too long is seen.
pub fn timetable_buffer() -> [u8; Desk::MAX_TIMETABLE + 1]
    ensures max_timetable_value { max_timetable + 1 ≡ length result }
    ensures value { result ≡ replicate (max_timetable + 1) 0 }
{
    [0; Desk::MAX_TIMETABLE + 1]
}

// A buffer for the input, all zeros: one byte more than is allowed, so that one too long is seen.
pub fn input_buffer() -> [u8; MAX_INPUT + 1]
    ensures max_input_value { max_input + 1 ≡ length result }
    ensures value { result ≡ replicate (max_input + 1) 0 }
{
    [0; MAX_INPUT + 1]
}

// A line left at the start of the room.
fn leave(room: &mut [u8], line: LineText, more: bool) -> PieceEnd
    requires { line_room ≤ length room.old }
    ensures { (result.count ≡ length line) × (result.more ≡ more) × (room.new ≡ line ++ drop (length line) room.old) }
{
    let count = line.as_slice().len();
    put(room, 0, &line);
    PieceEnd { count, more }
}

// A timetable too long stops the program, otherwise an input too long does, otherwise it goes on.
fn choice(timetable_length: usize, input_length: usize, room: &mut [u8]) -> PieceEnd
    requires { line_room ≤ length room.old }
    ensures { Leaves (start_piece timetable_length input_length) result room.old room.new }
{
    if Desk::MAX_TIMETABLE < timetable_length {
        return leave(room, refused_line(Refusal::WRONG_TIMETABLE), false);
    }
    if MAX_INPUT < input_length {
        return leave(room, refused_line(Refusal::BAD_CONDITION), false);
    }
    PieceEnd {
        count: 0,
        more: true,
    }
}

// The piece of the start, by the lengths of the timetable and of the input.
pub fn begin(timetable_length: usize, input_length: usize, room: &mut [u8]) -> Begun
    requires { line_room ≤ length room.old }
    ensures { (result.desk ≡ (start_piece timetable_length input_length).desk) × Leaves (start_piece timetable_length input_length) result.part room.old room.new }
{
    Begun {
        desk: desk::fresh(timetable_length).desk,
        part: choice(timetable_length, input_length, room),
    }
}

// The line of what open answered.
fn open_told(answer: Result<u32, Refusal>, room: &mut [u8]) -> PieceEnd
    requires { line_room ≤ length room.old }
    ensures { (result.count ≡ length (open_line (open_meaning answer))) × (result.more ≡ true) × (room.new ≡ open_line (open_meaning answer) ++ drop (length (open_line (open_meaning answer))) room.old) }
{
    leave(room, open_line(answer), true)
}

// What many turns wrote: more is due until the last one was Idle.
fn turns_told(answer: Result<WrittenTurns, Refusal>) -> PieceEnd
    ensures { (result.count ≡ written_count (turns_meaning answer)) × (result.more ≡ goes_on (turns_meaning answer)) }
{
    match answer {
        Ok(written) => PieceEnd {
            count: written.count,
            more: !written.idle,
        },
        Err(_) => PieceEnd {
            count: 0,
            more: false,
        },
    }
}

// The piece of a condition, which is opened at a desk that is updated where it stands.
pub fn open_piece_in(desk: &mut Desk, condition: &[u8], room: &mut [u8]) -> PieceEnd
    requires { line_room ≤ length room.old }
    ensures { (desk.new ≡ (open_piece (asking condition.now) desk.old).desk) × Leaves (open_piece (asking condition.now) desk.old) result room.old room.new }
{
    open_told(desk_in_place::open_in(desk, condition), room)
}

// The piece of as many turns as have their lines in the room, of a desk that is updated where it stands.
pub fn turns_piece_in(desk: &mut Desk, t: &[u8], room: &mut [u8]) -> PieceEnd
    ensures { (desk.new ≡ (turns_piece (over t.now) desk.old (length room.old)).desk) × Leaves (turns_piece (over t.now) desk.old (length room.old)) result room.old room.new }
{
    turns_told(output_turns::turns_in(desk, t, room))
}
