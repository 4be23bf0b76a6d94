// The halves of a signed number: it is one less the other, and one of them is 0.
ghost use Rattle.std.specs.Prelude.{◌≡◌, true};
ghost use Rattle.value.specs.Values.{ok_day_time};
ghost use Rattle.value.specs.Carried.{span_of};
ghost use Rattle.value.specs.Durations as the;

use value::{DayTime, Span, clocks};

pub fn plus_half(negative: bool, n: u64) -> u64
    ensures { result ≡ the.plus_half negative n }
{
    if negative { 0 } else { n }
}

pub fn minus_half(negative: bool, n: u64) -> u64
    ensures { result ≡ the.minus_half negative n }
{
    if negative { n } else { 0 }
}

// The same of a dayTimeDuration, as spans.
pub fn plus_ticks(t: DayTime) -> Span
    requires { ok_day_time t ≡ true }
    ensures { result ≡ span_of (the.plus_ticks t) }
{
    if t.negative {
        return clocks::span(0);
    }
    clocks::size(t)
}

pub fn minus_ticks(t: DayTime) -> Span
    requires { ok_day_time t ≡ true }
    ensures { result ≡ span_of (the.minus_ticks t) }
{
    if t.negative {
        return clocks::size(t);
    }
    clocks::span(0)
}
