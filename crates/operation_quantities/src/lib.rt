// Quantities of arithmetic: the halves of a signed number, and results within their kind's bounds.
#![tactic(auto)]

pub mod halves; // halves.rt: the halves of a signed number
pub mod results; // results.rt: a value, or that it is beyond its kind's bounds
