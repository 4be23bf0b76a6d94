// Document 01, "Timetable, seats and turns": the work reads the timetable "through a line reader that carries the timetable
// and its own place in it". It is an iterator over the lines that are left to read. A turn reads one line at an offset,
// through a reader that is made for it: `read_line`.
#![tactic(auto)]

ghost use Rattle.std.specs.Prelude.{◌≡◌};
ghost use Rattle.std.specs.Iterator.{item_count};
ghost use Rattle.timetable.specs.Lines.{line_end, next_line};
ghost use Rattle.timetable_reader.specs.Left.{lines_left, ReadsOn};

use timetable::lines::{after_end, line_end};

// The timetable, and the offset at which the next line starts.
#[derive(Clone, Copy)]
pub struct LineReader<'a> {
    pub timetable: &'a [u8],
    pub at: usize,
}

// A line that was read: the offset at which it starts, and its bytes.
#[derive(Clone, Copy)]
pub struct OffsetLine<'a> {
    pub offset: usize,
    pub text: &'a [u8],
}

// Where a line ends, and where the one after it starts.
#[derive(Clone, Copy)]
pub struct LineAt {
    pub end: usize,
    pub next: usize,
}

// The line at an offset. It is scanned once: the next line starts after the end that was found.
pub fn line_at(t: &[u8], at: usize) -> LineAt
    ensures { (result.end ≡ line_end t.now at) × (result.next ≡ next_line t.now at) }
{
    let end = line_end(t, at);
    let next = after_end(t, end);
    LineAt { end, next }
}

impl<'a> LineReader<'a> {
    // A reader of a timetable, placed at an offset.
    pub fn new(timetable: &'a [u8], at: usize) -> LineReader<'a>
        ensures { (result.timetable ≡ timetable.entry) × (result.at ≡ at) }
    {
        LineReader { timetable, at }
    }

    // The line at the reader's offset.
    pub fn line(&self) -> LineAt
        ensures { (result.end ≡ line_end self.now.timetable.now self.now.at) × (result.next ≡ next_line self.now.timetable.now self.now.at) }
    {
        line_at(self.timetable, self.at)
    }
}

impl<'a> Iterator for LineReader<'a> {
    type Item = OffsetLine<'a>;

    ghost next_gives = { ReadsOn };

    ghost remaining = { item_count lines_left };

    fn next(&mut self) -> Option<OffsetLine<'a>> {
        let offset = self.at;
        if self.timetable.len() <= offset {
            return None;
        }
        let line = self.line();
        self.at = line.next;
        let text = &self.timetable[offset..line.end];
        Some(OffsetLine { offset, text })
    }
}

// The line at an offset, read through a reader that is made for it. The line's bytes are `&t[at..end]`.
pub fn read_line(t: &[u8], at: usize) -> LineAt
    ensures { (result.end ≡ line_end t.now at) × (result.next ≡ next_line t.now at) }
{
    LineReader::new(t, at).line()
}

// A reader of a timetable, placed at an offset.
pub fn new<'a>(timetable: &'a [u8], at: usize) -> LineReader<'a>
    ensures { (result.timetable ≡ timetable.entry) × (result.at ≡ at) }
{
    LineReader::new(timetable, at)
}

// The line at the reader's offset.
pub fn next<'a>(r: LineReader<'a>) -> LineAt
    ensures { (result.end ≡ line_end r.entry.timetable.now r.entry.at) × (result.next ≡ next_line r.entry.timetable.now r.entry.at) }
{
    r.line()
}

// The reader moved on to the line after the one at its offset.
pub fn moved<'a>(r: LineReader<'a>) -> LineReader<'a>
    ensures { (result.timetable ≡ r.entry.timetable) × (result.at ≡ next_line r.entry.timetable.now r.entry.at) }
{
    LineReader::new(r.timetable, r.line().next)
}
