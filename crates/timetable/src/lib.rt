// Lines and fields of a timetable (document 01, "Timetable, seats and turns").
#![tactic(auto)]

pub mod fields;
pub mod lines;
mod parts;
