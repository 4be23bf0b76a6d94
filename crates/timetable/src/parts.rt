// Where the next byte of one value stands: what ends a line and what ends a field are found alike.
ghost use Rattle.std.specs.Prelude.{◌≡◌, ◌+◌, drop};
ghost use Rattle.timetable.specs.Parted.{bytes_before};

// The offset of the first byte `c` from `at` on; the end where there is none, `at` itself past the end.
pub fn offset_of(c: u8, s: &[u8], at: usize) -> usize
    ensures { result ≡ at + bytes_before c (drop at s.now) }
{
    let Some(rest) = s.get(at..) else {
        return at;
    };
    match rest.iter().position(|b| *b == c) {
        Some(i) => at + i,
        None => s.len(),
    }
}
