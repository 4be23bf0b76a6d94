// Where a line ends, and where the next one starts.
ghost use Rattle.std.specs.Prelude.{◌≡◌};
ghost use Rattle.timetable.specs.Lines.{line_end, after_end, next_line};

use crate::parts::offset_of;

const NEWLINE: u8 = b'\n';

// Where the line at `at` ends: at its byte 10, or at the timetable's end; past that end, at `at` itself.
pub fn line_end(t: &[u8], at: usize) -> usize
    ensures { result ≡ line_end t.now at }
{
    offset_of(NEWLINE, t, at)
}

// The offset after the line that ends at `end`, for a caller who has the end already.
pub fn after_end(t: &[u8], end: usize) -> usize
    ensures { result ≡ after_end t.now end }
{
    if end < t.len() { end + 1 } else { end }
}

// Where the line after the one at `at` starts; the timetable's end after the last one, and past that end `at` itself.
pub fn next_line(t: &[u8], at: usize) -> usize
    ensures { result ≡ next_line t.now at }
{
    after_end(t, line_end(t, at))
}
