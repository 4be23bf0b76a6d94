// What the script of the hostile desks is made of (docs/LINES.md, "Hostile desks"): its events with their names and
// numbers, and the bytes of a condition as they are shown.
#![tactic(auto)]

pub mod events; // events.rt: which event a line is
pub mod fields; // fields.rt: the text of a condition
pub mod shown; // shown.rt: bytes without the zeros at their end

// A number of the desk, by its name.
#[derive(Clone, Copy)]
pub enum DeskNumber {
    LastServed(usize),
    Length(usize),
    Issued(u32),
}

// What a seat holds, by its name.
#[derive(Clone, Copy)]
pub enum SeatNumber {
    Held(bool),
    Ticket(u32),
    Offset(usize),
    Hits(usize),
    Unreadable(usize),
    Place(u32),
    ConditionLength(usize),
}

// An event, with its numbers. `Seat` and `Condition` have the number of the seat first. The texts of `Open` and `Condition`
// stay in the line.
#[derive(Clone, Copy)]
pub enum ScriptEvent {
    Fresh(usize),
    Part(usize),
    Open,
    Close(u32),
    Turn,
    Turns(usize),
    Sound,
    Show,
    Set(DeskNumber),
    Seat(usize, SeatNumber),
    Condition(usize),
}
