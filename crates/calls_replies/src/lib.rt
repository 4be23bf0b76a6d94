// The text of an answer as it grows: numbers with a sign, and the components of a value.
#![tactic(auto)]

use numerals::Text;

pub mod numbers; // numbers.rt: numbers with a sign
pub mod parts; // parts.rt: the text of a value's components

// No answer's text is longer.
pub const REPLY: usize = 200;

// The text of an answer.
pub type Reply = Text<REPLY>;
