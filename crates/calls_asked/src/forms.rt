// Which call a line is.
ghost use Rattle.std.specs.Prelude.{◌≡◌, ◌≤◌, ◌<◌, min, length};
ghost use Rattle.numerals.specs.Reading.{numeral_at};
ghost use Rattle.calls_asked.specs.Asked as the;
ghost use Rattle.calls_asked.specs.Carried as carried;

use crate::{CallForm, One, Two};
use condition_symbols::kind_named;
use condition_words::same;
use numerals::byte;
use operation_arithmetic::products::MAX_FACTOR;
use timetable::fields::{field, has_field};

// The first whole number that is no factor. A greater one is kept as this one.
const BEYOND: u64 = MAX_FACTOR as u64 + 1;

// A whole number, as far as the first that is no factor; and whether it is one.
#[derive(Clone, Copy)]
pub struct Factor {
    pub good: bool,
    pub negative: bool,
    pub magnitude: u32,
}

fn whole_from(s: &[u8], negative: bool, at: usize) -> Factor
    requires { at ≤ length s.now }
    ensures { (result.good ≡ the.digits_from s.now at) × (result.negative ≡ negative) × (result.magnitude ≡ min carried.beyond (numeral_at s.now at).value) }
{
    let n = numerals::digits(s, at, BEYOND);
    let end = n.end;
    let magnitude = n.value as u32;
    if end == at {
        return Factor {
            good: false,
            negative,
            magnitude,
        };
    }
    Factor {
        good: end == s.len(),
        negative,
        magnitude,
    }
}

pub fn whole(s: &[u8]) -> Factor
    ensures { carried.KeptOf s.now result }
{
    if byte(s, 0) == b'-' {
        return whole_from(s, true, 1);
    }
    whole_from(s, false, 0)
}

fn exactly(line: &[u8], n: usize) -> bool
    requires { (1 ≤ n) × (n < 6) }
    ensures { result ≡ the.exactly line.now n }
{
    if !has_field(line, n) {
        return false;
    }
    !has_field(line, n + 1)
}

fn one(line: &[u8], o: One) -> CallForm
    ensures { result ≡ the.one_form line.now o }
{
    if !exactly(line, 3) {
        return CallForm::No;
    }
    match kind_named(field(line, 2)) {
        None => CallForm::No,
        Some(k) => CallForm::OfOne(o, k),
    }
}

fn two(line: &[u8], o: Two) -> CallForm
    ensures { result ≡ the.two_form line.now o }
{
    if !exactly(line, 5) {
        return CallForm::No;
    }
    match kind_named(field(line, 2)) {
        None => CallForm::No,
        Some(k) => match kind_named(field(line, 4)) {
            None => CallForm::No,
            Some(l) => CallForm::OfTwo(o, k, l),
        },
    }
}

fn product(line: &[u8]) -> CallForm
    ensures { result ≡ the.product_form line.now }
{
    if !exactly(line, 4) {
        return CallForm::No;
    }
    let n = whole(field(line, 4));
    match kind_named(field(line, 2)) {
        None => CallForm::No,
        Some(k) => {
            if n.good {
                return CallForm::Product(k);
            }
            CallForm::No
        }
    }
}

fn cast(line: &[u8]) -> CallForm
    ensures { result ≡ the.cast_form line.now }
{
    if !exactly(line, 4) {
        return CallForm::No;
    }
    match kind_named(field(line, 2)) {
        None => CallForm::No,
        Some(k) => match kind_named(field(line, 4)) {
            None => CallForm::No,
            Some(l) => CallForm::Cast(k, l),
        },
    }
}

fn pair_form(line: &[u8], word: &[u8]) -> CallForm
    ensures { result ≡ the.pair_by line.now word.now }
{
    if same(word, b"compare") {
        return two(line, Two::Compare);
    }
    if same(word, b"add") {
        return two(line, Two::Add);
    }
    if same(word, b"subtract") {
        return two(line, Two::Subtract);
    }
    if same(word, b"adjust") {
        return two(line, Two::Adjust);
    }
    CallForm::No
}

fn form_by(line: &[u8], word: &[u8]) -> CallForm
    ensures { result ≡ the.form_by line.now word.now }
{
    if same(word, b"read") {
        return one(line, One::Read);
    }
    if same(word, b"unzone") {
        return one(line, One::Unzone);
    }
    if same(word, b"components") {
        return one(line, One::Components);
    }
    if same(word, b"multiply") {
        return product(line);
    }
    if same(word, b"cast") {
        return cast(line);
    }
    pair_form(line, word)
}

pub fn form(line: &[u8]) -> CallForm
    ensures { result ≡ the.form_of line.now }
{
    form_by(line, field(line, 1))
}
