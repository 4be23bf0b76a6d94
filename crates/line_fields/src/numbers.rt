// Numbers as fields of a line: one to twenty digits, within a bound.
ghost use Rattle.std.specs.Prelude.{◌≡◌, ◌≤◌, IfSome};
ghost use Rattle.line_fields.specs.Numbers.{number_of};

// The longest number has so many digits.
const DIGITS: usize = 20;

// The greatest number, where nothing else bounds it.
pub const GREATEST: usize = 18_446_744_073_709_551_615;

pub fn read(s: &[u8], most: usize) -> Option<usize>
    ensures value { result ≡ number_of most s.now }
    ensures within { IfSome result (λ n. n ≤ most) }
{
    if s.is_empty() || DIGITS < s.len() {
        return None;
    }
    let mut n: usize = 0;
    for &b in s {
        if !b.is_ascii_digit() {
            return None;
        }
        n = n.checked_mul(10)?.checked_add(usize::from(b - b'0'))?;
        if most < n {
            return None;
        }
    }
    Some(n)
}
