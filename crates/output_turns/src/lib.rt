// Many turns at once, their lines written into lent room.
#![tactic(auto)]

ghost use Rattle.std.specs.Prelude.{◌≡◌, true, ◌≤◌, length};
ghost use Rattle.desk_seat.specs.Files.{over};
ghost use Rattle.desk.specs.Soundness.{sound_of};
ghost use Rattle.desk.specs.Desk.{have_lengths};
ghost use Rattle.output_turns.specs.Turns.{taken, turns_of, room_after, turns_meaning, after_turns};
ghost use Rattle.output_turns.specs.Carried.{Put, Progressed};

use desk::Desk;
use desk_seat::TurnAnswer;
use output_lines::LineText;
use value::Refusal;

// How many bytes of lines were written, and whether the last turn was Idle.
#[derive(Clone, Copy)]
pub struct WrittenTurns {
    pub count: usize,
    pub idle: bool,
}

#[derive(Drop)]
pub struct AfterTurns {
    pub desk: Desk,
    pub answer: Result<WrittenTurns, Refusal>,
}

// A line written into the room from `at` on: where it ends, or that it does not fit.
fn put_fitting(room: &mut [u8], at: usize, line: &LineText) -> Option<usize>
    requires { at ≤ length room.old }
    ensures { Put at line.now room.old result room.new }
{
    let long = line.as_slice().len();
    if room.len() - at < long {
        return None;
    }
    output_lines::put(room, at, line);
    Some(at + long)
}

// Turns of a desk that is known to be sound, over a timetable of its length: as long as the line of the next one fits. The
// desk stands in one variable, where a turn stores the one seat that it serves.
fn take_turns(desk: &mut Desk, t: &[u8], room: &mut [u8]) -> WrittenTurns
    requires { (sound_of desk.old ≡ true) × (have_lengths (over t.now) desk.old ≡ true) }
    ensures { Progressed desk.new result (taken (over t.now) desk.old (length room.old)) room.old room.new }
{
    let mut count = 0;
    while count < room.len() {
        let Some(i) = desk.next_held() else {
            let line = output_lines::turn_line(TurnAnswer::Idle);
            return match put_fitting(room, count, &line) {
                Some(count) => WrittenTurns { count, idle: true },
                None => WrittenTurns { count, idle: false },
            };
        };
        let mut seat = desk.seats[i];
        let line = output_lines::turn_line(seat.serve(t));
        let Some(end) = put_fitting(room, count, &line) else {
            break;
        };
        desk.seats[i] = seat;
        desk.last_served = i;
        count = end;
    }
    WrittenTurns { count, idle: false }
}

// Takes turns as long as the next answer's line fits in what is left of the room, and stops after Idle. The desk is
// checked once. A refusal leaves desk and room as they were.
pub fn turns(mut desk: Desk, t: &[u8], room: &mut [u8]) -> AfterTurns
    ensures { (after_turns result ≡ turns_of (over t.now) desk (length room.old)) × (room.new ≡ room_after (over t.now) desk room.old) }
{
    let answer = turns_in(&mut desk, t, room);
    AfterTurns { desk, answer }
}

// Takes turns of a desk that is updated where it stands.
pub fn turns_in(desk: &mut Desk, t: &[u8], room: &mut [u8]) -> Result<WrittenTurns, Refusal>
    ensures { (desk.new ≡ (turns_of (over t.now) desk.old (length room.old)).desk) × (turns_meaning result ≡ (turns_of (over t.now) desk.old (length room.old)).answer) × (room.new ≡ room_after (over t.now) desk.old room.old) }
{
    if !desk.sound() {
        return Err(Refusal::numbered(Refusal::NOT_SOUND));
    }
    if t.len() != desk.timetable_length {
        return Err(Refusal::numbered(Refusal::WRONG_TIMETABLE));
    }
    let written = take_turns(desk, t, room);
    if written.count == 0 {
        return Err(Refusal::numbered(Refusal::NO_ROOM));
    }
    Ok(written)
}
