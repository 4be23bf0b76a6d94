// Fields of a line that is a call or an event of a test program: a number within a bound, bytes in hexadecimal, and what follows a tab.
#![tactic(auto)]

pub mod fields; // fields.rt: what follows a tab
pub mod hex; // hex.rt: bytes in hexadecimal
pub mod numbers; // numbers.rt: a number within a bound

// The most bytes of calls or events that a test program takes.
pub const MAX_INPUT: usize = 65_536;
