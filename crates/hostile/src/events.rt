// Which event a line is. The words and names are asked for in the order of the table in docs/LINES.md.
ghost use Rattle.std.specs.Prelude.{◌≡◌, ◌≤◌, IfSome};
ghost use Rattle.hostile.specs.Events as the;

use crate::fields::condition_text;
use crate::{DeskNumber, ScriptEvent, SeatNumber};
use desk::Desk;
use desk_seat::Seat;
use line_fields::numbers::{GREATEST, read};
use timetable::fields::{field, has_field};

// The greatest ticket, as a number of a line. A place may be as great.
const TICKETS: usize = Desk::LAST_TICKET as usize;

// N where it is the last field of a line, the n-th.
#[tactic(auto, unfolding(crate::specs::Events::last_number))]
fn last_number(line: &[u8], n: usize, most: usize) -> Option<usize>
    requires { n ≤ 4 }
    ensures value { result ≡ the.last_number line.now n most }
    ensures within { IfSome result (λ v. v ≤ most) }
{
    if has_field(line, n + 1) {
        return None;
    }
    read(field(line, n), most)
}

// `set`: a number of the desk.
#[tactic(auto, using(crate::proofs::Literals::literals), unfolding(crate::specs::Events::set_by))]
fn set_event(line: &[u8]) -> Option<ScriptEvent>
    ensures { result ≡ the.set_event line.now }
{
    let number = match field(line, 2) {
        b"last_served" => DeskNumber::LastServed(last_number(line, 3, GREATEST)?),
        b"length" => DeskNumber::Length(last_number(line, 3, GREATEST)?),
        b"issued" => DeskNumber::Issued(last_number(line, 3, TICKETS)? as u32),
        _ => return None,
    };
    Some(ScriptEvent::Set(number))
}

// `seat`: a number or the condition of a seat.
#[tactic(auto, using(crate::proofs::Literals::literals), unfolding(crate::specs::Events::seat_by, crate::specs::Events::last_names_by, crate::specs::Events::condition_event))]
fn seat_event(line: &[u8]) -> Option<ScriptEvent>
    ensures { result ≡ the.seat_event line.now }
{
    let index = read(field(line, 2), Desk::SEATS - 1)?;
    let number = match field(line, 3) {
        b"held" => SeatNumber::Held(last_number(line, 4, 1)? == 1),
        b"ticket" => SeatNumber::Ticket(last_number(line, 4, TICKETS)? as u32),
        b"offset" => SeatNumber::Offset(last_number(line, 4, GREATEST)?),
        b"hits" => SeatNumber::Hits(last_number(line, 4, GREATEST)?),
        b"unreadable" => SeatNumber::Unreadable(last_number(line, 4, GREATEST)?),
        b"place" => SeatNumber::Place(last_number(line, 4, TICKETS)? as u32),
        b"condition_length" => SeatNumber::ConditionLength(last_number(line, 4, GREATEST)?),
        b"condition" if has_field(line, 4) && condition_text(line).len() <= Seat::ROOM => {
            return Some(ScriptEvent::Condition(index));
        }
        _ => return None,
    };
    Some(ScriptEvent::Seat(index, number))
}

// The event of a line, over a file of so many bytes.
#[tactic(auto, using(crate::proofs::Literals::literals), unfolding(crate::specs::Events::event_by, crate::specs::Events::asking_by, crate::specs::Events::building_by))]
pub fn event(line: &[u8], file: usize) -> Option<ScriptEvent>
    ensures { result ≡ the.event_of line.now file }
{
    match field(line, 1) {
        b"fresh" => Some(ScriptEvent::Fresh(last_number(line, 2, GREATEST)?)),
        b"part" => Some(ScriptEvent::Part(last_number(line, 2, file)?)),
        b"open" if has_field(line, 2) => Some(ScriptEvent::Open),
        b"close" => Some(ScriptEvent::Close(last_number(line, 2, TICKETS)? as u32)),
        b"turn" if !has_field(line, 2) => Some(ScriptEvent::Turn),
        b"turns" => Some(ScriptEvent::Turns(last_number(line, 2, GREATEST)?)),
        b"sound" if !has_field(line, 2) => Some(ScriptEvent::Sound),
        b"show" if !has_field(line, 2) => Some(ScriptEvent::Show),
        b"set" => set_event(line),
        b"seat" => seat_event(line),
        _ => None,
    }
}
