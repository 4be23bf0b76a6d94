// A file, or another reader, read into lent room: what the programs read their timetable and their input with.
#![tactic(auto)]

ghost use Rattle.files.specs.Counts.{IsPrefixLen};

use std::fs;
use std::io::Read;
use std::rt::Files;

// The file of a name, opened for reading; none where it cannot be opened.
pub fn open<R: Files>(rt: &R, name: &[u8]) -> Option<R::File> {
    let path = str::from_utf8(name).ok()?;
    fs::open(rt, path).ok()
}

// The bytes that a reader hands out, until the buffer is full, they end or a read fails, at the buffer's start.
pub fn read_full<R: Read>(reader: &mut R, buffer: &mut [u8]) -> usize
    ensures { IsPrefixLen result buffer.new }
{
    let mut done = 0;
    while done < buffer.len() {
        match reader.read(&mut buffer[done..]) {
            Ok(0) | Err(_) => break,
            Ok(n) => done += n,
        }
    }
    done
}

// The bytes of the file of a name, as far as they can be read and the buffer goes, at the buffer's start; none where it
// cannot be opened.
pub fn read<R: Files>(rt: &R, name: &[u8], buffer: &mut [u8]) -> usize
    ensures { IsPrefixLen result buffer.new }
{
    match open(rt, name) {
        Some(mut file) => read_full(&mut file, buffer),
        None => 0,
    }
}
