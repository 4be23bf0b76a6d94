// The symbols of a condition's text: which one stands at an offset, after any spaces (document 01, "Conditions").
#![tactic(auto)]

ghost use Rattle.std.specs.Prelude.{◌≡◌, ◌+◌, ◌≤◌, true, leb, length, IfSome};
ghost use Rattle.condition_symbols.specs.Symbols as the;
ghost use Rattle.numerals.specs.Reading.{numeral_at};

use condition_words::{Class, skip, stretch_end, word};
use numerals::{byte, digits};
use value::Kind;

// An operator between two parts.
#[derive(Clone, Copy)]
pub enum Op {
    Or,
    And,
    Eq,
    Ne,
    Lt,
    Le,
    Gt,
    Ge,
    Plus,
    Minus,
}

// An operator that stands in a text, the offset of its first byte and the offset after it.
#[derive(Clone, Copy)]
pub struct Joint {
    pub op: Op,
    pub at: usize,
    pub end: usize,
}

// How a factor begins: with a parenthesis, or with a kind's name, at an offset, and a parenthesis. `end` is the offset
// after it.
#[derive(Clone, Copy)]
pub enum Start {
    Open { end: usize },
    Make { kind: Kind, at: usize, end: usize },
}

// What stands in a constructor's parentheses. Text: a text in quotes, by the offsets between which its bytes stand.
// Field: a field, by its number and the offset of its `$`. Sum: anything else, which is then read as a sum. `end` is the
// offset after it.
#[derive(Clone, Copy)]
pub enum Held {
    Text {
        from: usize,
        to: usize,
        end: usize,
    },
    Field {
        number: usize,
        at: usize,
        end: usize,
    },
    Sum,
}

// A whole number after a `*`: whether it is negative, what its digits say, its offset and the offset after it.
#[derive(Clone, Copy)]
pub struct Multiplier {
    pub negative: bool,
    pub number: u32,
    pub at: usize,
    pub end: usize,
}

// A `*` without a whole number.
#[derive(Clone, Copy)]
pub struct NoNumber;

// The last field that a condition may name.
const MAX_FIELD: u64 = 16;

// A whole number has at most so many digits.
const MAX_DIGITS: usize = 6;

// The offset after one byte other than 0.
#[tactic(auto, unfolding(crate::specs::Symbols::mark_at))]
fn after_byte(s: &[u8], at: usize, b: u8) -> Option<usize>
    requires { leb 1 b ≡ true }
    ensures found { result ≡ the.mark_at s.now at b }
    ensures within { IfSome result (λ n. n ≤ length s.now) }
{
    let at = skip(s, at);
    if byte(s, at) == b { Some(at + 1) } else { None }
}

pub fn opening(s: &[u8], at: usize) -> Option<usize>
    ensures { result ≡ the.opening_at s.now at }
{
    after_byte(s, at, b'(')
}

pub fn closing(s: &[u8], at: usize) -> Option<usize>
    ensures { result ≡ the.closing_at s.now at }
{
    after_byte(s, at, b')')
}

// One word that is an operator.
#[tactic(auto, using(condition_words::proofs::Stretching::word_end, condition_words::proofs::Sameness::by_parts), unfolding(crate::specs::Symbols::operator_at))]
fn operator(s: &[u8], at: usize, name: &[u8], op: Op) -> Option<Joint>
    ensures { result ≡ the.operator_at s.now at name.now op }
{
    let at = skip(s, at);
    let w = word(s, at);
    if w == name {
        Some(Joint {
            op,
            at,
            end: at + w.len(),
        })
    } else {
        None
    }
}

pub fn or(s: &[u8], at: usize) -> Option<Joint>
    ensures { result ≡ the.or_at s.now at }
{
    operator(s, at, b"or", Op::Or)
}

pub fn and(s: &[u8], at: usize) -> Option<Joint>
    ensures { result ≡ the.and_at s.now at }
{
    operator(s, at, b"and", Op::And)
}

// The comparison that a word is.
#[tactic(auto, using(condition_words::proofs::Literals::literals), unfolding(crate::specs::Symbols::comparing, condition_words::specs::Words::same, basis::specs::Choice::both))]
fn comparing(w: &[u8]) -> Option<Op>
    ensures { result ≡ the.comparing w.now }
{
    match w {
        b"eq" => Some(Op::Eq),
        b"ne" => Some(Op::Ne),
        b"lt" => Some(Op::Lt),
        b"le" => Some(Op::Le),
        b"gt" => Some(Op::Gt),
        b"ge" => Some(Op::Ge),
        _ => None,
    }
}

#[tactic(auto, using(condition_words::proofs::Stretching::word_end), unfolding(crate::specs::Symbols::comparison_at))]
pub fn comparison(s: &[u8], at: usize) -> Option<Joint>
    ensures { result ≡ the.comparison_at s.now at }
{
    let at = skip(s, at);
    let w = word(s, at);
    let op = comparing(w)?;
    Some(Joint {
        op,
        at,
        end: at + w.len(),
    })
}

#[tactic(auto, unfolding(crate::specs::Symbols::sign_at))]
pub fn sign(s: &[u8], at: usize) -> Option<Joint>
    ensures { result ≡ the.sign_at s.now at }
{
    let at = skip(s, at);
    let op = match byte(s, at) {
        b'+' => Op::Plus,
        b'-' => Op::Minus,
        _ => return None,
    };
    Some(Joint {
        op,
        at,
        end: at + 1,
    })
}

// The kind that a word names.
#[tactic(auto, using(condition_words::proofs::Literals::literals), unfolding(crate::specs::Symbols::named, condition_words::specs::Words::same, basis::specs::Choice::both))]
pub fn kind_named(w: &[u8]) -> Option<Kind>
    ensures { result ≡ the.named w.now }
{
    match w {
        b"xs:date" => Some(Kind::Date),
        b"xs:time" => Some(Kind::Time),
        b"xs:dateTime" => Some(Kind::DateTime),
        b"xs:dayTimeDuration" => Some(Kind::DayTimeDuration),
        b"xs:yearMonthDuration" => Some(Kind::YearMonthDuration),
        _ => None,
    }
}

// How a factor begins.
#[tactic(auto, using(condition_words::proofs::Stretching::word_end), unfolding(crate::specs::Symbols::start_at))]
pub fn factor_start(s: &[u8], at: usize) -> Option<Start>
    ensures { result ≡ the.start_at s.now at }
{
    let at = skip(s, at);
    if byte(s, at) == b'(' {
        return Some(Start::Open { end: at + 1 });
    }
    let w = word(s, at);
    let kind = kind_named(w)?;
    let end = opening(s, at + w.len())?;
    Some(Start::Make { kind, at, end })
}

// The text in quotes whose first byte stands at an offset; None where no quote ends it.
#[tactic(auto, unfolding(crate::specs::Symbols::text_from))]
fn quoted(s: &[u8], from: usize) -> Option<Held>
    ensures { result ≡ the.text_from s.now from }
{
    let to = stretch_end(Class::Unquoted, s, from);
    if to < s.len() {
        Some(Held::Text {
            from,
            to,
            end: to + 1,
        })
    } else {
        None
    }
}

// The field whose `$` stands at an offset; None where no field's number follows it.
#[tactic(auto, unfolding(crate::specs::Symbols::field_from, crate::specs::Symbols::field_of))]
fn field(s: &[u8], at: usize) -> Option<Held>
    requires { at + 1 ≤ length s.now }
    ensures { result ≡ the.field_from s.now at }
{
    let n = digits(s, at + 1, MAX_FIELD + 1);
    if byte(s, at + 1) == b'0' || n.value < 1 || MAX_FIELD < n.value {
        return None;
    }
    Some(Held::Field {
        number: n.value as usize,
        at,
        end: n.end,
    })
}

// What stands in a constructor's parentheses; None where a quote or a `$` begins no text and no field.
#[tactic(auto, unfolding(crate::specs::Symbols::held_at))]
pub fn contents(s: &[u8], at: usize) -> Option<Held>
    ensures { result ≡ the.held_at s.now at }
{
    let at = skip(s, at);
    match byte(s, at) {
        b'"' => quoted(s, at + 1),
        b'$' => field(s, at),
        _ => Some(Held::Sum),
    }
}

// The whole number at an offset, whose digits begin at another.
#[tactic(auto, unfolding(crate::specs::Symbols::whole_of))]
fn whole(s: &[u8], negative: bool, at: usize, from: usize) -> Result<Multiplier, NoNumber>
    requires { from ≤ length s.now }
    ensures { result ≡ the.whole_of negative at from (numeral_at s.now from) }
{
    let n = digits(s, from, 10u64.pow(MAX_DIGITS as u32));
    let count = n.end - from;
    if count < 1 || MAX_DIGITS < count {
        return Err(NoNumber);
    }
    Ok(Multiplier {
        negative,
        number: n.value as u32,
        at,
        end: n.end,
    })
}

// The whole number after a `*`; None where no `*` stands.
#[tactic(auto, using(condition_words::proofs::Stretching::stretch_within), unfolding(crate::specs::Symbols::multiplier_at, crate::specs::Symbols::whole_from, crate::specs::Symbols::mark_at))]
pub fn star(s: &[u8], at: usize) -> Result<Option<Multiplier>, NoNumber>
    ensures { result ≡ the.multiplier_at s.now at }
{
    let Some(n) = after_byte(s, at, b'*') else {
        return Ok(None);
    };
    let at = skip(s, n);
    let by = if byte(s, at) == b'-' {
        whole(s, true, at, at + 1)?
    } else {
        whole(s, false, at, at)?
    };
    Ok(Some(by))
}
