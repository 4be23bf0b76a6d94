// A part's sort and what it gives, together.
ghost use Rattle.std.specs.Prelude.{◌≡◌};
ghost use Rattle.timetable.specs.Rows.{row_with};
ghost use Rattle.condition_parts.specs.Carried as the;

use crate::{Part, evaluation};
use condition_givens::{Mode, RowTexts};
use condition_sorts::Sort;
use condition_symbols::Op;
use value::{Kind, Offset};

impl Part {
    // A literal: the bytes of a condition's text between two offsets.
    #[tactic(auto, unfolding(crate::specs::Carried::literal_part))]
    pub fn literal(mode: Mode, kind: Kind, s: &[u8], from: usize, to: usize) -> Part
        ensures { result ≡ the.literal_part mode kind s.now from to }
    {
        Part {
            sort: Sort::Of(kind),
            given: condition_givens::literal(mode, kind, s, from, to),
        }
    }

    // The n-th field of a row.
    #[tactic(auto, unfolding(crate::specs::Carried::field_part))]
    pub fn field(mode: Mode, kind: Kind, row: RowTexts, n: usize) -> Part
        ensures { result ≡ the.field_part mode kind (row_with row.entry.line.now row.entry.made.now) n }
    {
        Part {
            sort: Sort::Of(kind),
            given: condition_givens::field(mode, kind, row, n),
        }
    }

    #[tactic(auto, unfolding(crate::specs::Carried::cast_part))]
    pub fn cast(self, kind: Kind) -> Part
        ensures { result ≡ the.cast_part kind self }
    {
        Part {
            sort: condition_sorts::cast(kind, self.sort),
            given: evaluation::cast(kind, self.given),
        }
    }

    #[tactic(auto, unfolding(crate::specs::Carried::times_part))]
    pub fn times(self, negative: bool, n: u32) -> Part
        ensures { result ≡ the.times_part negative n self }
    {
        Part {
            sort: condition_sorts::times(self.sort),
            given: evaluation::times(negative, n, self.given),
        }
    }

    // Two parts with an operator between.
    #[tactic(auto, unfolding(crate::specs::Carried::two_part))]
    pub fn two(self, op: Op, right: Part, zone: Offset) -> Part
        ensures { result ≡ the.two_part zone op self right }
    {
        Part {
            sort: condition_sorts::two(op, self.sort, right.sort),
            given: evaluation::two(op, self.given, right.given, zone),
        }
    }

    // The mode of what stands right of an operator, after this part.
    #[tactic(auto, unfolding(crate::specs::Carried::after_part))]
    pub fn after(self, op: Op, mode: Mode) -> Mode
        ensures { result ≡ the.after_part op mode self }
    {
        evaluation::after(op, mode, self.given)
    }
}
