// The readers of a condition, straight on its text: each reads its part from an offset on and gives what it carries and
// where it ends. A factor may hold a whole condition again, so they call one another in a cycle; at each turn of it text
// has been read or fewer parentheses may be opened (document 01, "Conditions").
#![tactic(auto)]

ghost use Rattle.std.specs.Prelude.{◌≡◌};
ghost use Rattle.timetable.specs.Rows.{row_with};
ghost use Rattle.condition_readers.specs.Lengths.{parse_within};
ghost use Rattle.condition_readers.specs.Carried as the;

use condition_depth::MAX_DEPTH;
use condition_givens::{Mode, RowTexts};
use condition_parts::Part;
use condition_symbols::{Held, Joint, Start};
use condition_words::skip;
use value::Offset;

// The greatest length of a condition's text.
pub const MAX_LENGTH: usize = 240;

// What was read, and where its text ends.
#[derive(Clone, Copy)]
pub struct Read {
    pub part: Part,
    pub end: usize,
}

// The rules that are operands with operators between: a condition is clauses with `or`, a clause is tests with `and`, a
// sum is terms with `+` or `-`. They are named by values, so that the loop over operands stands once.
#[derive(Clone, Copy)]
pub enum Rule {
    Condition,
    Clause,
    Sum,
}

// What the readers read: a condition's text, for a row and in a zone.
#[derive(Clone, Copy)]
struct Reader<'a> {
    text: &'a [u8],
    row: RowTexts<'a>,
    zone: Offset,
}

#[tactic(auto, using(crate::proofs::Steps::steps, crate::proofs::Falls::falls))]
impl Reader<'_> {
    // The operator of a rule.
    #[tactic(auto, unfolding(crate::specs::Carried::joint_at))]
    fn joint(&self, rule: Rule, at: usize) -> Option<Joint>
        ensures { result ≡ the.joint_at rule self.now.text.now at }
    {
        match rule {
            Rule::Condition => condition_symbols::or(self.text, at),
            Rule::Clause => condition_symbols::and(self.text, at),
            Rule::Sum => condition_symbols::sign(self.text, at),
        }
    }

    // What was read, with the whole numbers that follow it after `*`.
    fn multiplied(&self, mut left: Read) -> Option<Read>
        ensures { result ≡ the.multiplied_read self.now left }
    {
        while let Some(by) = condition_symbols::star(self.text, left.end).ok()? {
            left = Read {
                part: left.part.times(by.negative, by.number),
                end: by.end,
            };
        }
        Some(left)
    }

    // Operands with operators between, taken from the left.
    #[cycle(readers)]
    fn chain(&self, rule: Rule, at: usize, depth: usize, mode: Mode) -> Option<Read>
        ensures { result ≡ the.chain_read self.now depth rule at mode }
    {
        let mut left = self.operand(rule, at, depth, mode)?;
        while let Some(joint) = self.joint(rule, left.end) {
            let after = left.part.after(joint.op, mode);
            let right = self.operand(rule, joint.end, depth, after)?;
            left = Read {
                part: left.part.two(joint.op, right.part, self.zone),
                end: right.end,
            };
        }
        Some(left)
    }

    // A clause, a test or a term.
    #[cycle(readers)]
    fn operand(&self, rule: Rule, at: usize, depth: usize, mode: Mode) -> Option<Read>
        ensures { result ≡ the.operand_read self.now depth rule at mode }
    {
        match rule {
            Rule::Condition => self.chain(Rule::Clause, at, depth, mode),
            Rule::Clause => self.test(at, depth, mode),
            Rule::Sum => self.multiplied(self.factor(at, depth, mode)?),
        }
    }

    // One sum, or two with a comparison between.
    #[cycle(readers)]
    fn test(&self, at: usize, depth: usize, mode: Mode) -> Option<Read>
        ensures { result ≡ the.test_read self.now depth at mode }
    {
        let left = self.chain(Rule::Sum, at, depth, mode)?;
        let Some(joint) = condition_symbols::comparison(self.text, left.end) else {
            return Some(left);
        };
        let after = left.part.after(joint.op, mode);
        let right = self.chain(Rule::Sum, joint.end, depth, after)?;
        Some(Read {
            part: left.part.two(joint.op, right.part, self.zone),
            end: right.end,
        })
    }

    // A condition in parentheses, or a kind's word with what stands in the parentheses after it.
    #[cycle(readers)]
    fn factor(&self, at: usize, depth: usize, mode: Mode) -> Option<Read>
        ensures { result ≡ the.factor_read self.now depth at mode }
    {
        if depth == 0 {
            return None;
        }
        let start = condition_symbols::factor_start(self.text, at)?;
        let held = self.inner(start, depth - 1, mode)?;
        let end = condition_symbols::closing(self.text, held.end)?;
        Some(Read {
            part: held.part,
            end,
        })
    }

    // What stands in the parentheses with which a factor starts: a condition; or after a kind's word a text, a field, or
    // a sum to be cast.
    #[cycle(readers)]
    fn inner(&self, start: Start, depth: usize, mode: Mode) -> Option<Read>
        ensures { result ≡ the.inner_read self.now depth start mode }
    {
        match start {
            Start::Open { end } => self.chain(Rule::Condition, end, depth, mode),
            Start::Make { kind, end, .. } => match condition_symbols::contents(self.text, end)? {
                Held::Text { from, to, end } => Some(Read {
                    part: Part::literal(mode, kind, self.text, from, to),
                    end,
                }),
                Held::Field { number, end, .. } => Some(Read {
                    part: Part::field(mode, kind, self.row, number),
                    end,
                }),
                Held::Sum => {
                    let sum = self.chain(Rule::Sum, end, depth, mode)?;
                    Some(Read {
                        part: sum.part.cast(kind),
                        end: sum.end,
                    })
                }
            },
        }
    }
}

// The whole text: only spaces may follow the condition. A text that is longer than a condition is not read, so that the
// readers call one another no more deeply than a condition's text lets them.
#[tactic(auto, using(crate::proofs::Wholes::wholes))]
pub fn whole(text: &[u8], row: RowTexts, mode: Mode, zone: Offset) -> Option<Read>
    ensures { result ≡ the.read_of zone text.now (row_with row.entry.line.now row.entry.made.now) mode (parse_within text.now) }
{
    if MAX_LENGTH < text.len() {
        return None;
    }
    let reader = Reader { text, row, zone };
    let read = reader.chain(Rule::Condition, 0, MAX_DEPTH, mode)?;
    if skip(text, read.end) < text.len() {
        return None;
    }
    Some(read)
}
