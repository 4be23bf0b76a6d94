// The parts of a record as text, in the order of a layout.
ghost use Rattle.std.specs.Prelude.{◌≡◌, true, ◌∷◌, ◌++◌, ◌+◌, ◌≤◌, length};
ghost use Rattle.value.specs.Values.{ok_time_part};
ghost use Rattle.numerals.specs.Writing.{longest};
ghost use Rattle.text_scan.specs.Carried.{signed_width, width, widths};
ghost use Rattle.text_layouts.specs.Writing.{hhmm, offset_text, zone_text, pair_of, part_text, layout_text};

use numerals::ValueText;
use value::{DateTime, Offset, Span, Zone};

const HOUR_MINUTES: u16 = Span::HOUR_MINUTES as u16;

// A sign, and so many minutes as hours and minutes.
fn signed(text: &mut ValueText, sign: u8, n: u16)
    requires { length text.old + signed_width ≤ longest }
    ensures { text.new ≡ text.old ++ sign ∷ hhmm n }
{
    text.push(sign);
    text.push_digits((n / HOUR_MINUTES) as u64, 2);
    text.push(b':');
    text.push_digits((n % HOUR_MINUTES) as u64, 2);
}

fn with_offset(text: &mut ValueText, o: Offset)
    requires { length text.old + signed_width ≤ longest }
    ensures { text.new ≡ text.old ++ offset_text o }
{
    match o {
        Offset::East(0) => text.push(b'Z'),
        Offset::East(n) => signed(text, b'+', n),
        Offset::West(n) => signed(text, b'-', n),
    }
}

fn with_zone(text: &mut ValueText, z: Zone)
    requires { length text.old + signed_width ≤ longest }
    ensures { text.new ≡ text.old ++ zone_text z }
{
    match z {
        None => {}
        Some(o) => with_offset(text, o),
    }
}

fn pair_of(p: u8, d: DateTime) -> u64
    requires { ok_time_part d ≡ true }
    ensures { result ≡ pair_of p d }
{
    let seconds = value::clocks::clock(d).seconds;
    match p {
        b'M' => d.month as u64,
        b'D' => d.day as u64,
        b'h' => seconds / Span::HOUR,
        b'm' => seconds / Span::MINUTE % Span::HOUR_MINUTES,
        _ => seconds % Span::MINUTE,
    }
}

fn part(text: &mut ValueText, p: u8, d: DateTime)
    requires { (length text.old + width p ≤ longest) × (ok_time_part d ≡ true) }
    ensures { text.new ≡ text.old ++ part_text p d }
{
    match p {
        b'Y' => text.push_digits(d.year as u64, text_scan::YEAR_DIGITS),
        b'f' => text.push_fraction(value::clocks::clock(d).part as u64),
        b'z' => with_zone(text, d.zone),
        _ if text_scan::is_pair(p) => text.push_digits(pair_of(p, d), 2),
        _ => text.push(p),
    }
}

// The text of a record by a layout that leaves room for every part.
pub fn parts(layout: &[u8], d: DateTime) -> ValueText
    requires { (widths layout.now ≤ longest) × (ok_time_part d ≡ true) }
    ensures { result ≡ layout_text layout.now d }
{
    let mut text = ValueText::new();
    for &p in layout {
        part(&mut text, p, d);
    }
    text
}
