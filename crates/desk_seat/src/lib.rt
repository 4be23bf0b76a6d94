// One seat by itself (document 01, "Timetable, seats and turns"; document 02, b): free, taken, sound, and served. The desk of
// sixteen is the crate `desk`.
#![tactic(auto)]

ghost use Rattle.std.specs.Prelude.{◌≡◌, true, ◌++◌, ℕ, ◌+◌, ◌-◌, ◌*◌, ◌≤◌, ◌<◌, leb, length, replicate};
ghost use Rattle.basis.specs.Choice.{pick};
ghost use Rattle.timetable.specs.Lines.{next_line, line_at};
ghost use Rattle.run_times.specs.Occurrences.{most_occurrences};
ghost use Rattle.run_cases.specs.Carried.{case_said};
ghost use Rattle.desk_seat.specs.Bounds.{condition_room, max_timetable, max_count};
ghost use Rattle.desk_seat.specs.Files.{Files, over};
ghost use Rattle.desk_seat.specs.Request.{asking};
ghost use Rattle.desk_seat.specs.Conditions.{accepted, judged};
ghost use Rattle.desk_seat.specs.Seat.{free_seat, seat_for, condition_of};
ghost use Rattle.desk_seat.specs.Soundness.{seat_sound};
ghost use Rattle.desk_seat.specs.Serving.{onward_from, judged_as, case_result, seat_result, serve_of};
ghost use Rattle.desk_seat.specs.Carried.{Steps};

use condition::Judged;
use run_cases::{CaseAtPlace, CaseRead};
use value::Refusal;
use value_instants::ticks;

// A seat. A fresh desk, close and Done leave a free seat all zeros; of a free seat in a desk that is handed in nothing is asked.
#[derive(Clone, Copy)]
pub struct Seat {
    pub held: bool,
    pub ticket: u32,
    pub offset: usize,
    pub place: u32,
    pub hits: usize,
    pub unreadable: usize,
    pub condition_length: usize,
    pub condition: [u8; Seat::ROOM],
}

// Where a seat goes on: an offset, and a place in what the line there stands for.
#[derive(Clone, Copy)]
pub struct Spot {
    pub offset: usize,
    pub place: u32,
}

// Whose answer it is, and at which line.
#[derive(Clone, Copy)]
pub struct At {
    pub ticket: u32,
    pub offset: usize,
}

// Whose answer it is, at which line, and at which place in what the line stands for.
#[derive(Clone, Copy)]
pub struct AtPlace {
    pub ticket: u32,
    pub offset: usize,
    pub place: u32,
}

// The two counts of a query that is done.
#[derive(Clone, Copy)]
pub struct Totals {
    pub ticket: u32,
    pub hits: usize,
    pub unreadable: usize,
}

// What a turn answers. Idle and a refusal are the desk's; a seat that is served gives one of the others.
#[derive(Clone, Copy)]
pub enum TurnAnswer {
    Idle,
    Hit(AtPlace),
    Miss(AtPlace),
    Unreadable(At, Refusal),
    Done(Totals),
    Refused(Refusal),
}

// The constant is the number of the definitions.
pub fn condition_room() -> usize
    ensures { result ≡ condition_room }
{
    Seat::ROOM
}

// The condition with zeros after it.
pub fn padded(text: &[u8]) -> [u8; Seat::ROOM]
    requires { length text.now ≤ condition_room }
    ensures { result ≡ text.now ++ replicate (condition_room - length text.now) 0 }
{
    let mut out = [0; Seat::ROOM];
    out[..text.len()].copy_from_slice(text);
    out
}

// Whether a text passes Open's checks of a condition.
fn passes(text: &[u8]) -> bool
    ensures { result ≡ accepted text.now }
{
    match condition::check(text) {
        Ok(()) => true,
        Err(_) => false,
    }
}

// The result of a condition at what a line has at a place.
fn result_at(text: &[u8], line: &[u8], there: CaseAtPlace) -> Judged
    ensures { judged result ≡ case_result text.now (case_said line.now there.made there.read) }
{
    match there.read {
        CaseRead::Row => condition::judge(text, line, there.made.as_slice(), ticks::utc()),
        CaseRead::Miss => Judged::Miss,
        CaseRead::Refused(refusal) => Judged::Unreadable(refusal),
    }
}

impl Seat {
    // A seat has room for the longest condition.
    pub const ROOM: usize = condition::MAX_LENGTH;

    // A free seat, all zeros.
    pub fn free() -> Seat
        ensures { result ≡ free_seat }
    {
        Seat {
            held: false,
            ticket: 0,
            offset: 0,
            place: 0,
            hits: 0,
            unreadable: 0,
            condition_length: 0,
            condition: [0; Seat::ROOM],
        }
    }

    // A seat just taken.
    pub fn taken(ticket: u32, text: &[u8]) -> Seat
        requires { length text.now ≤ condition_room }
        ensures { result ≡ seat_for ticket (asking text.now) }
    {
        Seat {
            held: true,
            ticket,
            condition_length: text.len(),
            condition: padded(text),
            ..Seat::free()
        }
    }

    // The condition in the seat.
    fn asked(&self) -> &[u8]
        requires { self.now.condition_length ≤ condition_room }
        ensures { result.now ≡ condition_of self.now }
    {
        &self.condition[..self.condition_length]
    }

    // Whether a held seat is sound by itself. Of a longer timetable the bound of its counts might wrap.
    pub fn sound(&self, issued: u32, timetable_length: usize) -> bool
        requires { timetable_length ≤ max_timetable }
        ensures { result ≡ seat_sound issued timetable_length self.now }
    {
        1 <= self.ticket
            && self.ticket <= issued
            && self.condition_length <= Seat::ROOM
            && passes(self.asked())
            && self.offset <= timetable_length
            && self.place < run_times::MOST
            && self.counts_fit()
    }

    // Whether its two counts together are within their bound.
    fn counts_fit(&self) -> bool
        requires { (self.now.offset ≤ max_timetable) × (self.now.place < most_occurrences) }
        ensures { result ≡ leb (self.now.hits + self.now.unreadable) (most_occurrences * self.now.offset + self.now.place) }
    {
        let most = run_times::MOST as usize * self.offset + self.place as usize;
        self.hits <= most && self.unreadable <= most - self.hits
    }

    // The next place of the line where it has one, else the next line.
    fn onward(&self, next: usize, more: bool) -> Spot
        requires { self.now.place < most_occurrences }
        ensures { result ≡ pick more (record { offset = self.now.offset; place = self.now.place + 1 }) (record { offset = next; place = 0 }) }
    {
        if more {
            Spot {
                offset: self.offset,
                place: self.place + 1,
            }
        } else {
            Spot {
                offset: next,
                place: 0,
            }
        }
    }

    // The answer to a case with a result. The seat goes on at `to`.
    fn judged_as(&mut self, to: Spot, res: Judged) -> TurnAnswer
        requires { (self.old.hits < max_count) × (self.old.unreadable < max_count) }
        ensures { Steps self.new result (judged_as to self.old (judged res)) }
    {
        let at = AtPlace {
            ticket: self.ticket,
            offset: self.offset,
            place: self.place,
        };
        self.offset = to.offset;
        self.place = to.place;
        match res {
            Judged::Hit => {
                self.hits += 1;
                TurnAnswer::Hit(at)
            }
            Judged::Miss => TurnAnswer::Miss(at),
            Judged::Unreadable(refusal) => {
                self.unreadable += 1;
                let at = At {
                    ticket: at.ticket,
                    offset: at.offset,
                };
                TurnAnswer::Unreadable(at, refusal)
            }
        }
    }

    // A turn at the seat's line, the next line being at `next`.
    fn turn_at(&mut self, line: &[u8], next: usize) -> TurnAnswer
        requires { (self.old.condition_length ≤ condition_room) × (self.old.place < most_occurrences) × (self.old.hits < max_count) × (self.old.unreadable < max_count) }
        ensures { (f : Files) → (line_at f.timetable self.old.offset).text ≡ line.now → next_line f.timetable self.old.offset ≡ next → Steps self.new result (judged_as (onward_from f self.old) self.old (seat_result f self.old)) }
    {
        let there = run_cases::at_place(line, self.place, ticks::utc());
        let to = self.onward(next, there.more);
        let res = result_at(self.asked(), line, there);
        self.judged_as(to, res)
    }

    // A turn of the seat's own. At the timetable's end it is done, and free.
    pub fn serve(&mut self, t: &[u8]) -> TurnAnswer
        requires { ((k : ℕ) × (seat_sound k (length t.now) self.old ≡ true)) × (length t.now ≤ max_timetable) }
        ensures { Steps self.new result (serve_of (over t.now) self.old) }
    {
        let at = self.offset;
        if at < t.len() {
            let line = timetable_reader::read_line(t, at);
            self.turn_at(&t[at..line.end], line.next)
        } else {
            let done = TurnAnswer::Done(Totals {
                ticket: self.ticket,
                hits: self.hits,
                unreadable: self.unreadable,
            });
            *self = Seat::free();
            done
        }
    }
}
