// The lines that the desk program writes: a word, numbers in decimal with a tab before each, and byte 10.
#![tactic(auto)]

ghost use Rattle.std.specs.Prelude.{◌≡◌, [], ◌∷◌, ◌++◌, ◌+◌, ◌≤◌, length, take, drop};
ghost use Rattle.desk_seat.specs.Bounds.{max_count};
ghost use Rattle.desk_seat.specs.Answers.{turn_meaning};
ghost use Rattle.desk.specs.Answers.{open_meaning};
ghost use Rattle.output_lines.specs.Text.{line_with, refused_line, open_line, turn_line, line_room};
ghost use Rattle.output_lines.specs.Carried.{Within};

use desk_seat::TurnAnswer;
use numerals::Text;
use value::Refusal;

const TAB: u8 = b'\t';

const NEWLINE: u8 = b'\n';

// A line has room for so many bytes: later ones may be longer than the text of a value.
pub const LINE_ROOM: usize = 64;

// The text of a line.
pub type LineText = Text<LINE_ROOM>;

// A line: its word and its numbers.
fn line_with(word: &[u8], numbers: &[u64]) -> LineText
    requires { length (line_with word.now numbers.now) ≤ line_room }
    ensures { result ≡ line_with word.now numbers.now }
{
    let mut line = LineText::from_slice(word);
    for &n in numbers {
        line.push(TAB);
        line.push_decimal(n);
    }
    line.push(NEWLINE);
    line
}

pub fn refused_line(number: u8) -> LineText
    ensures { result ≡ refused_line number }
{
    line_with(b"refused", &[number as u64])
}

pub fn open_line(answer: Result<u32, Refusal>) -> LineText
    ensures { result ≡ open_line (open_meaning answer) }
{
    match answer {
        Ok(ticket) => line_with(b"open", &[ticket as u64]),
        Err(refusal) => refused_line(refusal.number),
    }
}

// The line of an answer to a ticket: its word, the ticket, and two numbers more.
fn ticket_line(word: &[u8], ticket: u32, a: usize, b: usize) -> LineText
    requires { (length word.now ≤ 10) × (a ≤ max_count) × (b ≤ max_count) }
    ensures { result ≡ line_with word.now (ticket ∷ a ∷ b ∷ []) }
{
    line_with(word, &[ticket as u64, a as u64, b as u64])
}

// The longest has 34 bytes, that of Done with two counts of eight digits: it fits.
pub fn turn_line(answer: TurnAnswer) -> LineText
    requires { Within (turn_meaning answer) }
    ensures { result ≡ turn_line (turn_meaning answer) }
{
    match answer {
        TurnAnswer::Idle => line_with(b"idle", &[]),
        TurnAnswer::Hit(at) => ticket_line(b"hit", at.ticket, at.offset, at.place as usize),
        TurnAnswer::Miss(at) => ticket_line(b"miss", at.ticket, at.offset, at.place as usize),
        TurnAnswer::Unreadable(at, refusal) => {
            ticket_line(b"unreadable", at.ticket, at.offset, refusal.number as usize)
        }
        TurnAnswer::Done(totals) => {
            ticket_line(b"done", totals.ticket, totals.hits, totals.unreadable)
        }
        TurnAnswer::Refused(refusal) => refused_line(refusal.number),
    }
}

// A line written into the room from `at` on.
pub fn put(room: &mut [u8], at: usize, line: &LineText)
    requires { at + length line.now ≤ length room.old }
    ensures { room.new ≡ take at room.old ++ (line.now ++ drop (at + length line.now) room.old) }
{
    let bytes = line.as_slice();
    room[at..at + bytes.len()].copy_from_slice(bytes);
}
