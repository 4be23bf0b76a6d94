// The desk after `set` and `seat`: one number of it, or of a seat, or a seat's condition is another.
#![tactic(auto)]

ghost use Rattle.std.specs.Prelude.{◌≡◌};
ghost use Rattle.hostile_changes.specs.Changes as the;

use desk::Desk;
use desk_seat::Seat;
use hostile::{DeskNumber, SeatNumber};

// `set`: a number of the desk.
pub fn set_desk(mut desk: Desk, number: DeskNumber) -> Desk
    ensures { result ≡ the.desk_with desk number }
{
    match number {
        DeskNumber::LastServed(n) => desk.last_served = n,
        DeskNumber::Length(n) => desk.timetable_length = n,
        DeskNumber::Issued(n) => desk.issued = n,
    }
    desk
}

// A number of the seat.
fn set_number(seat: &mut Seat, number: SeatNumber)
    ensures { seat.new ≡ the.seat_with seat.old number }
{
    match number {
        SeatNumber::Held(held) => seat.held = held,
        SeatNumber::Ticket(n) => seat.ticket = n,
        SeatNumber::Offset(n) => seat.offset = n,
        SeatNumber::Hits(n) => seat.hits = n,
        SeatNumber::Unreadable(n) => seat.unreadable = n,
        SeatNumber::Place(n) => seat.place = n,
        SeatNumber::ConditionLength(n) => seat.condition_length = n,
    }
}

// The condition of the seat. A text that a seat has no room for alters nothing.
fn set_text(seat: &mut Seat, text: &[u8])
    ensures { seat.new ≡ the.condition_with seat.old text.now }
{
    if text.len() <= Seat::ROOM {
        seat.condition = desk_seat::padded(text);
    }
}

// `seat`: a number of the seat with this index. An index past the last alters nothing.
pub fn set_seat(mut desk: Desk, index: usize, number: SeatNumber) -> Desk
    ensures { result ≡ the.number_set desk index number }
{
    // by index: of what is written through `get_mut` of an array a proof knows nothing
    if index < Desk::SEATS {
        set_number(&mut desk.seats[index], number);
    }
    desk
}

// `seat`: the condition of the seat with this index, likewise.
pub fn set_condition(mut desk: Desk, index: usize, text: &[u8]) -> Desk
    ensures { result ≡ the.condition_set desk index text.now }
{
    if index < Desk::SEATS {
        set_text(&mut desk.seats[index], text);
    }
    desk
}
