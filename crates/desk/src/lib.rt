// The desk: sixteen seats, open, close and turn (document 01, "Timetable, seats and turns"). Every call takes the desk by
// value and hands the next one back beside its answer; a refused call hands back the desk it got. Inside, the desk stands in
// one variable, and its seats are looked at and served where they stand. One seat by itself is the crate `desk_seat`.
#![tactic(auto)]

ghost use Rattle.std.specs.Prelude.{◌≡◌, true, ◌≤◌, ◌<◌};
ghost use Rattle.desk_seat.specs.Bounds.{max_timetable};
ghost use Rattle.desk_seat.specs.Files.{over};
ghost use Rattle.desk_seat.specs.Request.{asking};
ghost use Rattle.desk_seat.specs.Answers.{turn_meaning};
ghost use Rattle.desk.specs.Bounds.{seat_count};
ghost use Rattle.desk.specs.Soundness.{sound_at, sound_of};
ghost use Rattle.desk.specs.Desk.{fresh_of, open_of, close_of, have_lengths, turn_of, next_of};
ghost use Rattle.desk.specs.Answers.{open_meaning, close_meaning, after_fresh, after_open, after_close, after_turn};
ghost use Rattle.desk.specs.Carried.{free_found, ticket_found, held_found};

use desk_seat::{Seat, TurnAnswer};
use value::Refusal;

pub mod bounds; // bounds.rt: each constant is the number of the definitions

#[derive(Clone, Copy)]
pub struct Desk {
    pub seats: [Seat; Desk::SEATS],
    pub last_served: usize,
    pub timetable_length: usize,
    pub issued: u32,
}

#[derive(Drop)]
pub struct AfterFresh {
    pub desk: Desk,
    pub answer: Result<(), Refusal>,
}

#[derive(Drop)]
pub struct AfterOpen {
    pub desk: Desk,
    pub answer: Result<u32, Refusal>,
}

#[derive(Drop)]
pub struct AfterClose {
    pub desk: Desk,
    pub answer: Result<(), Refusal>,
}

#[derive(Drop)]
pub struct AfterTurn {
    pub desk: Desk,
    pub answer: TurnAnswer,
}

// The desk for a timetable of so many bytes. Refused, it is no desk: every call on it is refused as not sound.
pub fn fresh(timetable_length: usize) -> AfterFresh
    ensures { after_fresh result ≡ fresh_of timetable_length }
{
    let seats = [Seat::free(); Desk::SEATS];
    if Desk::MAX_TIMETABLE < timetable_length {
        return AfterFresh {
            desk: Desk {
                seats,
                last_served: Desk::SEATS,
                timetable_length: 0,
                issued: 0,
            },
            answer: Err(Refusal::numbered(Refusal::WRONG_TIMETABLE)),
        };
    }
    AfterFresh {
        desk: Desk {
            seats,
            last_served: Desk::SEATS - 1,
            timetable_length,
            issued: 0,
        },
        answer: Ok(()),
    }
}

impl Desk {
    pub const SEATS: usize = 16;

    pub const MAX_TIMETABLE: usize = 65_536;

    pub const LAST_TICKET: u32 = 4_294_967_295;

    // The number of the lowest free seat.
    fn lowest_free(&self) -> Option<usize>
        ensures { result ≡ free_found self.now }
    {
        self.seats.iter().position(|seat| !seat.held)
    }

    // The number of the held seat with the ticket.
    fn seat_of(&self, ticket: u32) -> Option<usize>
        ensures { result ≡ ticket_found self.now ticket }
    {
        self.seats
            .iter()
            .position(|seat| seat.held && seat.ticket == ticket)
    }

    // The number of the first held seat after the last served, going round.
    pub fn next_held(&self) -> Option<usize>
        requires { self.now.last_served < seat_count }
        ensures { result ≡ held_found self.now }
    {
        let start = self.last_served + 1;
        (start..start + Desk::SEATS)
            .find(|j| self.seats[*j % Desk::SEATS].held)
            .map(|j| j % Desk::SEATS)
    }

    // Whether the seat of a number is free, or the first with its ticket and sound by itself.
    fn sound_at(&self, i: usize) -> bool
        requires { (i < seat_count) × (self.now.timetable_length ≤ max_timetable) }
        ensures { result ≡ sound_at self.now i }
    {
        let seat = &self.seats[i];
        !seat.held
            || self.seat_of(seat.ticket) == Some(i)
                && seat.sound(self.issued, self.timetable_length)
    }

    pub fn sound(&self) -> bool
        ensures { result ≡ sound_of self.now }
    {
        self.last_served < Desk::SEATS
            && self.timetable_length <= Desk::MAX_TIMETABLE
            && (0..Desk::SEATS).all(|i| self.sound_at(i))
    }

    // Takes the lowest free seat and the next ticket. Last served stays.
    pub fn open(mut self, text: &[u8]) -> AfterOpen
        ensures { after_open result ≡ open_of (asking text.now) self }
    {
        let answer = self.open_in(text);
        AfterOpen { desk: self, answer }
    }

    fn open_in(&mut self, text: &[u8]) -> Result<u32, Refusal>
        ensures { open_of (asking text.now) self.old ≡ record { desk = self.new; answer = open_meaning result } }
    {
        if !self.sound() {
            return Err(Refusal::numbered(Refusal::NOT_SOUND));
        }
        condition::check(text)?;
        let Some(i) = self.lowest_free() else {
            return Err(Refusal::numbered(Refusal::NO_SEAT));
        };
        if Desk::LAST_TICKET <= self.issued {
            return Err(Refusal::numbered(Refusal::NO_MORE_TICKETS));
        }
        let ticket = self.issued + 1;
        self.seats[i] = Seat::taken(ticket, text);
        self.issued = ticket;
        Ok(ticket)
    }

    // Frees the ticket's seat. Last served stays.
    pub fn close(mut self, ticket: u32) -> AfterClose
        ensures { after_close result ≡ close_of ticket self }
    {
        let answer = self.close_in(ticket);
        AfterClose { desk: self, answer }
    }

    fn close_in(&mut self, ticket: u32) -> Result<(), Refusal>
        ensures { close_of ticket self.old ≡ record { desk = self.new; answer = close_meaning result } }
    {
        if !self.sound() {
            return Err(Refusal::numbered(Refusal::NOT_SOUND));
        }
        let Some(i) = self.seat_of(ticket) else {
            return Err(Refusal::numbered(Refusal::NO_TICKET));
        };
        self.seats[i] = Seat::free();
        Ok(())
    }

    // Serves the first held seat after the last served, going round.
    pub fn turn(mut self, t: &[u8]) -> AfterTurn
        ensures { after_turn result ≡ turn_of (over t.now) self }
    {
        let answer = self.turn_in(t);
        AfterTurn { desk: self, answer }
    }

    fn turn_in(&mut self, t: &[u8]) -> TurnAnswer
        ensures { turn_of (over t.now) self.old ≡ record { desk = self.new; answer = turn_meaning result } }
    {
        if !self.sound() {
            return TurnAnswer::Refused(Refusal::numbered(Refusal::NOT_SOUND));
        }
        if t.len() != self.timetable_length {
            return TurnAnswer::Refused(Refusal::numbered(Refusal::WRONG_TIMETABLE));
        }
        self.next(t)
    }

    // A turn of a desk that is known to be sound, over a timetable of its length.
    fn next(&mut self, t: &[u8]) -> TurnAnswer
        requires { (sound_of self.old ≡ true) × (have_lengths (over t.now) self.old ≡ true) }
        ensures { next_of (over t.now) self.old ≡ record { desk = self.new; answer = turn_meaning result } }
    {
        let Some(i) = self.next_held() else {
            return TurnAnswer::Idle;
        };
        let answer = self.seats[i].serve(t);
        self.last_served = i;
        answer
    }
}
