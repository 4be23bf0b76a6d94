// A run of departures over spans (document 02, b): its occurrences and its refusals. Nothing divides ticks, and nothing walks over
// occurrences.
#![tactic(auto)]

ghost use Rattle.std.specs.Prelude.{◌≡◌, ◌+◌, ◌≤◌, ltb};
ghost use Rattle.basis.specs.Answer.{refuses};
ghost use Rattle.value.specs.Carried.{span_of};
ghost use Rattle.run_times.specs.Occurrences.{most_occurrences, count_of, local_at_place, some_passes, run_checked};
ghost use Rattle.run_times.specs.Carried.{span_times, verdict_meaning, Good, Going};

use value::{Refusal, Span};
use value_instants::{spans, ticks};

// A run has at most so many occurrences.
pub const MOST: u32 = 1_440;

// First and last as instants, first's local time, and the step forward.
#[derive(Clone, Copy)]
pub struct Run {
    pub first: Span,
    pub last: Span,
    pub local: Span,
    pub step: Span,
}

pub fn most_occurrences() -> u32
    ensures { result ≡ most_occurrences }
{
    MOST
}

// The local time of the occurrence at a place.
pub fn occurrence(r: Run, place: u32) -> Span
    requires { Good r × (place ≤ most_occurrences) }
    ensures { result ≡ span_of (local_at_place (span_times r) place) }
{
    let local = r.local;
    let step = r.step;
    let on = spans::times(step, place);
    spans::plus(local, on)
}

// Whether the run has an occurrence at a place: its instant is not past the last.
pub fn reached(r: Run, place: u32) -> bool
    requires { Going r × (place ≤ most_occurrences) }
    ensures { result ≡ ltb place (count_of (span_times r)) }
{
    let first = r.first;
    let last = r.last;
    let step = r.step;
    let on = spans::times(step, place);
    let t = spans::plus(first, on);
    if spans::is_less(last, t) { false } else { true }
}

// The last place that is reached, by halvings.
fn last_place(r: Run) -> u32
    requires { Going r × (1 ≤ count_of (span_times r)) × (count_of (span_times r) ≤ most_occurrences) }
    ensures { result + 1 ≡ count_of (span_times r) }
{
    let mut low = 0;
    let mut high = MOST;
    while low + 1 < high {
        let middle = (low + high) / 2;
        if reached(r, middle) {
            low = middle;
        } else {
            high = middle;
        }
    }
    low
}

// Whether the last occurrence's local year passes the last one: it decides for all.
fn last_passes(r: Run) -> bool
    requires { Going r × (1 ≤ count_of (span_times r)) × (count_of (span_times r) ≤ most_occurrences) }
    ensures { result ≡ some_passes (span_times r) }
{
    let n = last_place(r);
    let at = occurrence(r, n);
    ticks::past_years(at)
}

// Whether some occurrence's local year passes the last one. None does where the last instant, in first's local time, does not.
fn some_passes(r: Run) -> bool
    requires { Going r × (count_of (span_times r) ≤ most_occurrences) }
    ensures { result ≡ some_passes (span_times r) }
{
    let first = r.first;
    let local = r.local;
    let last = r.last;
    if spans::is_less(last, first) {
        return false;
    }
    let whole = spans::minus(last, first);
    let end = spans::plus(local, whole);
    if !ticks::past_years(end) {
        return false;
    }
    last_passes(r)
}

fn refused(number: u8) -> Result<(), Refusal>
    ensures { verdict_meaning result ≡ refuses number }
{
    Err(Refusal::numbered(number))
}

// The refusals of a run, in their order.
pub fn checked(r: Run) -> Result<(), Refusal>
    requires { Good r }
    ensures { verdict_meaning result ≡ run_checked (span_times r) }
{
    let step = r.step;
    let none = Span {
        seconds: 0,
        part: 0,
    };
    if !spans::is_less(none, step) {
        return refused(Refusal::BAD_STEP);
    }
    if reached(r, MOST) {
        return refused(Refusal::TOO_MANY);
    }
    if some_passes(r) {
        return refused(Refusal::BEYOND_RESULT);
    }
    Ok(())
}
