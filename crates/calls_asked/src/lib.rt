// Which call a line of the calculator is, with the kinds that it names.
#![tactic(auto)]

use value::Kind;

pub mod forms; // forms.rt: which call a line is

// The calls on one value.
#[derive(Clone, Copy)]
pub enum One {
    Read,
    Unzone,
    Components,
}

// The calls on two values.
#[derive(Clone, Copy)]
pub enum Two {
    Compare,
    Add,
    Subtract,
    Adjust,
}

// Which call a line is, with the kinds that it names; its texts and its whole number stay in the line.
#[derive(Clone, Copy)]
pub enum CallForm {
    No,
    OfOne(One, Kind),
    OfTwo(Two, Kind, Kind),
    Product(Kind),
    Cast(Kind, Kind),
}
