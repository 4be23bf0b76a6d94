// Digits read and written, and the text that a value is written into.
#![tactic(auto)]

ghost use Rattle.std.specs.Prelude.{◌≡◌, ℕ, List, [], ◌∷◌, ◌++◌, ◌+◌, ◌-◌, ◌*◌, ◌≤◌, ◌<◌, ◌^◌, min, length, take, drop, replicate};
ghost use Rattle.numerals.specs.Reading as the;
ghost use Rattle.numerals.specs.Carried.{Found};
ghost use Rattle.numerals.specs.Writing as its;

use std::marker::Model;

// A fraction has at most so many digits.
pub const FRACTION_DIGITS: usize = 9;

// The longest text of a value has so many bytes.
pub const LONGEST: usize = 35;

// The text of a value.
pub type ValueText = Text<LONGEST>;

// A stretch of digits: where it ends, and its number as far as a cap.
#[derive(Clone, Copy)]
pub struct DigitsRead {
    pub end: usize,
    pub value: u64,
}

// The digits after a point: their ticks, or that they are too many, and where they end.
#[derive(Clone, Copy)]
pub struct Fraction {
    pub ticks: u32,
    pub long: bool,
    pub end: usize,
}

// A number without its final zeros, and how many digits it has.
#[derive(Clone, Copy)]
pub struct Kept {
    pub value: u64,
    pub count: usize,
}

// Text that grows, with room for N bytes.
#[derive(Clone, Copy)]
pub struct Text<const N: usize> {
    bytes: [u8; N],
    len: usize,
}

// Clauses see the bytes of the text. After them are zeros.
impl<const N: usize> Model for Text<N> {
    ghost use Rattle.std.specs.Prelude.{◌≡◌, ℕ, List, ◌++◌, ◌-◌, ◌≤◌, length, take, drop, replicate};
    ghost use Rattle.basis.proofs.Filled.{filled_again, filled_length};

    ghost Value = { List ℕ };

    ghost view = { λ t. take t.len t.bytes };

    ghost invariant = { λ t. (t.len ≤ N) × (drop t.len t.bytes ≡ replicate (N - t.len) 0) × (length t.bytes ≡ N) };

    ghost inverse = { λ w. record { bytes = w ++ replicate (N - length w) 0; len = length w } };

    ghost inverse_ok = { λ t h i. record {
      bytes = filled_again t.bytes t.len N h i;
      len = filled_length t.bytes t.len N h i;
    } };
}

// The byte at an offset, 0 past the end.
pub fn byte(s: &[u8], at: usize) -> u8
    ensures { result ≡ the.at s.now at }
{
    s.get(at).copied().unwrap_or(0)
}

pub fn digit(b: u8) -> bool
    ensures { result ≡ the.is_digit b }
{
    b.is_ascii_digit()
}

// v with one more digit, as far as the cap.
fn longer(v: u64, d: u8, cap: u64) -> u64
    requires { (v ≤ cap) × (d ≤ 9) × (cap * 10 + 9 < 2 ^ 64) }
    ensures { result ≡ min cap (v * 10 + d) }
{
    (v * 10 + d as u64).min(cap)
}

// The stretch of digits from an offset on. However long it is, its number stops at the cap and never wraps.
pub fn digits(s: &[u8], at: usize, cap: u64) -> DigitsRead
    requires { (at ≤ length s.now) × (cap * 10 + 9 < 2 ^ 64) }
    ensures { Found s.now at cap result }
{
    let mut end = at;
    let mut value = 0;
    for &b in &s[at..] {
        if !digit(b) {
            break;
        }
        value = longer(value, b - b'0', cap);
        end += 1;
    }
    DigitsRead { end, value }
}

// The digits after a point, as ticks.
pub fn fraction_at(s: &[u8], at: usize) -> Fraction
    requires { at ≤ length s.now }
    ensures { result ≡ the.fraction_at s.now at }
{
    let DigitsRead { end, value } = digits(s, at, 10u64.pow(FRACTION_DIGITS as u32));
    let count = end - at;
    if FRACTION_DIGITS < count {
        return Fraction {
            ticks: 0,
            long: true,
            end,
        };
    }
    Fraction {
        ticks: (value * 10u64.pow((FRACTION_DIGITS - count) as u32)) as u32,
        long: false,
        end,
    }
}

impl<const N: usize> Text<N> {
    pub fn new() -> Self
        ensures { result ≡ [] }
    {
        Text {
            bytes: [0; N],
            len: 0,
        }
    }

    pub fn from_slice(s: &[u8]) -> Self
        requires { length s.now ≤ N }
        ensures { result ≡ s.now }
    {
        let mut text = Text::new();
        text.push_all(s);
        text
    }

    pub fn as_slice(&self) -> &[u8]
        ensures value { result.now ≡ self.now }
        ensures within { length self.now ≤ N }
    {
        &self.bytes[..self.len]
    }

    pub fn push(&mut self, b: u8)
        requires { length self.old < N }
        ensures { self.new ≡ self.old ++ b ∷ [] }
    {
        self.bytes[self.len] = b;
        self.len += 1;
    }

    pub fn push_all(&mut self, s: &[u8])
        requires { length self.old + length s.now ≤ N }
        ensures { self.new ≡ self.old ++ s.now }
    {
        for &b in s {
            self.push(b);
        }
    }

    // The last k digits of n, with leading zeros.
    pub fn push_digits(&mut self, n: u64, k: usize)
        requires { length self.old + k ≤ N }
        ensures { self.new ≡ self.old ++ its.digits k n }
    {
        if 0 < k {
            self.push_digits(n / 10, k - 1);
            self.push(b'0' + (n % 10) as u8);
        }
    }

    // n without leading zeros.
    pub fn push_decimal(&mut self, n: u64)
        requires { length self.old + length (its.decimal n) ≤ N }
        ensures { self.new ≡ self.old ++ its.decimal n }
    {
        self.push_digits(n, width(n));
    }

    // A point and the ticks of a fraction without final zeros; nothing for no ticks.
    pub fn push_fraction(&mut self, ticks: u64)
        requires { length self.old + length (its.fraction_text ticks) ≤ N }
        ensures { self.new ≡ self.old ++ its.fraction_text ticks }
    {
        if ticks == 0 {
            return;
        }
        let kept = strip(ticks, FRACTION_DIGITS);
        self.push(b'.');
        self.push_digits(kept.value, kept.count);
    }
}

// How many digits n has without leading zeros.
pub fn width(n: u64) -> usize
    ensures { result ≡ length (its.decimal n) }
{
    if n < 10 { 1 } else { width(n / 10) + 1 }
}

// A number of k digits without its final zeros.
pub fn strip(n: u64, k: usize) -> Kept
    ensures { result ≡ its.kept_digits k n }
{
    if 0 < k && n % 10 == 0 {
        strip(n / 10, k - 1)
    } else {
        Kept { value: n, count: k }
    }
}
