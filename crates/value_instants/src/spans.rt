// Spans of time: whole seconds and a part of a second, since the ticks of the greatest duration have no room in one
// machine number.
ghost use Rattle.std.specs.Prelude.{◌≡◌, ◌+◌, ◌-◌, ◌*◌, ◌≤◌, ◌<◌, ◌^◌, ltb};
ghost use Rattle.value.specs.Bounds.{second_ticks};
ghost use Rattle.value.specs.Carried.{ticks_of, span_of};

use value::Span;

pub fn is_less(a: Span, b: Span) -> bool
    requires { (a.part < second_ticks) × (b.part < second_ticks) }
    ensures { result ≡ ltb (ticks_of a) (ticks_of b) }
{
    if a.seconds < b.seconds {
        return true;
    }
    if b.seconds < a.seconds {
        return false;
    }
    a.part < b.part
}

pub fn plus(a: Span, b: Span) -> Span
    requires { (a.part < second_ticks) × (b.part < second_ticks) × (a.seconds + b.seconds + 1 < 2 ^ 64) }
    ensures { result ≡ span_of (ticks_of a + ticks_of b) }
{
    let part = a.part + b.part;
    let seconds = a.seconds + b.seconds;
    if part < Span::TICKS {
        return Span { seconds, part };
    }
    Span {
        seconds: seconds + 1,
        part: part - Span::TICKS,
    }
}

// a less b, where b is not the greater.
pub fn minus(a: Span, b: Span) -> Span
    requires { (a.part < second_ticks) × (b.part < second_ticks) × (ticks_of b ≤ ticks_of a) }
    ensures { result ≡ span_of (ticks_of a - ticks_of b) }
{
    if a.part < b.part {
        return Span {
            seconds: a.seconds - b.seconds - 1,
            part: a.part + Span::TICKS - b.part,
        };
    }
    Span {
        seconds: a.seconds - b.seconds,
        part: a.part - b.part,
    }
}

pub fn times(a: Span, n: u32) -> Span
    requires { (a.part < second_ticks) × (a.seconds * n + n < 2 ^ 64) }
    ensures { result ≡ span_of (ticks_of a * n) }
{
    let p = a.part as u64 * n as u64;
    let parts = Span::TICKS as u64;
    Span {
        seconds: a.seconds * n as u64 + p / parts,
        part: (p % parts) as u32,
    }
}
