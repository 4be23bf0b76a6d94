// Sums and differences of values, and products of durations, by the kinds of their sides.
#![tactic(auto)]

pub mod products; // products.rt: a duration times a whole number
pub mod sums; // sums.rt: sums and differences by the kinds of both sides
