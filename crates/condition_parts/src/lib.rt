// The parts of a condition: a part's sort and what it gives, together, and the operations on them.
#![tactic(auto)]

use condition_givens::Given;
use condition_sorts::Sort;

pub mod evaluation; // evaluation.rt: what the operations give
pub mod parts; // parts.rt: the operations on parts

#[derive(Clone, Copy)]
pub struct Part {
    pub sort: Sort,
    pub given: Given,
}
