// What the lines of the library example are made of (docs/LINES.md, "Library example"), and the one thing that it computes by itself.
#![tactic(auto)]

pub mod calls; // calls.rt: which call of the desk a line is
pub mod given; // given.rt: numbers with a sign, zones and records, as fields of a line
pub mod late; // late.rt: whether something comes later than is allowed
