// The rows of the durations: the form of each kind, and what its components count.
#![tactic(auto)]

ghost use Rattle.std.specs.Prelude.{◌≡◌};
ghost use Rattle.value.specs.Rows.{has};
ghost use Rattle.text_forms.specs.Carried.{form_in};
ghost use Rattle.text_forms.specs.Forms as the;

use value::{Kind, Span};

const YEAR: u64 = calendar::MONTH_COUNT as u64;

// The form of a kind: its components before T and after it, and the text of zero.
#[derive(Clone, Copy)]
pub struct FormRow {
    pub before: &'static [u8],
    pub after: &'static [u8],
    pub nothing: &'static [u8],
}

// No component, as dates, times and dateTimes have none.
const NONE: FormRow = FormRow {
    before: b"",
    after: b"",
    nothing: b"",
};

pub fn row(kind: Kind) -> FormRow
    ensures { form_in result ≡ the.duration_form kind }
{
    match kind {
        Kind::Date | Kind::Time | Kind::DateTime => NONE,
        Kind::DayTimeDuration => FormRow {
            before: b"D",
            after: b"HMS",
            nothing: b"PT0S",
        },
        Kind::YearMonthDuration => FormRow {
            before: b"YM",
            after: b"",
            nothing: b"P0M",
        },
    }
}

// Whether a letter is among others.
pub fn has_letter(letters: &[u8], p: u8) -> bool
    ensures { result ≡ has letters.now p }
{
    letters.contains(&p)
}

// What one of a component counts: of years and months in months, of the others in seconds.
#[tactic(auto, unfolding(basis::specs::Choice::both, crate::specs::Forms::weight))]
pub fn weight(time: bool, letter: u8) -> u64
    ensures { result ≡ the.weight time letter }
{
    match letter {
        b'Y' => YEAR,
        b'D' => Span::DAY,
        b'H' => Span::HOUR,
        b'M' if time => Span::MINUTE,
        _ => 1,
    }
}

// Whether a component counts months. The others count seconds.
pub fn counts_months(time: bool, letter: u8) -> bool
    ensures { result ≡ the.counts_months time letter }
{
    letter == b'Y' || (!time && letter == b'M')
}
