// The fields of a line, counted from 1.
ghost use Rattle.std.specs.Prelude.{◌≡◌, true};
ghost use Rattle.basis.specs.Exactly.{Exactly};
ghost use Rattle.timetable.specs.Fields.{has_field, field_at};
ghost use Rattle.timetable.specs.Carried.{Starts, Stretches, ends_field};

use crate::parts::offset_of;

const TAB: u8 = b'\t';

// Where a field starts and where it ends, for a line that has it. A `Range` would say it too, but is not `Copy`.
#[derive(Clone, Copy)]
pub struct FieldEnds {
    pub start: usize,
    pub end: usize,
}

// Where the n-th field starts; none where the line has no such field.
fn start_of(line: &[u8], n: usize) -> Option<usize>
    ensures { Starts result line.now n }
{
    if n == 0 {
        return None;
    }
    let mut at = 0;
    for _earlier in 1..n {
        let tab = offset_of(TAB, line, at);
        if tab == line.len() {
            return None;
        }
        at = tab + 1;
    }
    Some(at)
}

// Whether the line has an n-th field.
pub fn has_field(line: &[u8], n: usize) -> bool
    ensures { result ≡ has_field line.now n }
{
    start_of(line, n).is_some()
}

// Where the n-th field stands, found in one walk; none where the line has no such field.
pub fn find(line: &[u8], n: usize) -> Option<FieldEnds>
    ensures { Stretches result line.now n }
{
    let start = start_of(line, n)?;
    let end = offset_of(TAB, line, start);
    Some(FieldEnds { start, end })
}

// The n-th field, without the tabs around it; empty where the line has none.
pub fn field(line: &[u8], n: usize) -> &[u8]
    ensures { result.now ≡ field_at line.now n }
{
    match find(line, n) {
        Some(ends) => &line[ends.start..ends.end],
        None => b"",
    }
}

// Whether a field that goes up to these bytes ends there: the line does, or a tab follows.
fn ends_field(after: &[u8]) -> bool
    ensures { result ≡ ends_field after.now }
{
    matches!(after, [] | [TAB, ..])
}

// Whether the n-th field is exactly the word, without a look past the first byte that differs. A field that the line has not is empty.
pub fn is_field(line: &[u8], n: usize, word: &[u8]) -> bool
    ensures { Exactly (result ≡ true) (field_at line.now n ≡ word.now) }
{
    let Some(start) = start_of(line, n) else {
        return word.is_empty();
    };
    let Some(after) = line[start..].strip_prefix(word) else {
        return false;
    };
    ends_field(after) && !word.contains(&TAB)
}
