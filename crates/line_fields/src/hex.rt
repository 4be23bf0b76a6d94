// Bytes in hexadecimal as a field of a line: any bytes at all, also those that part fields and lines.
ghost use Rattle.std.specs.Prelude.{◌≡◌, ◌-◌, ◌≤◌, List, ℕ, length, take, drop, replicate, IfSome};
ghost use Rattle.line_fields.specs.Hex as the;

use std::marker::Model;

// A field names at most so many bytes.
const MOST: usize = 256;

// The bytes that a field names.
#[derive(Drop)]
pub struct HexBytes {
    count: usize,
    bytes: [u8; MOST],
}

// Clauses see the bytes. After them are zeros.
impl Model for HexBytes {
    ghost Value = { List ℕ };

    ghost view = { λ h. take h.count h.bytes };

    ghost invariant = { λ h. (h.count ≤ 256) × (drop h.count h.bytes ≡ replicate (256 - h.count) 0) };
}

impl HexBytes {
    pub fn as_slice(&self) -> &[u8]
        ensures value { result.now ≡ self.now }
        ensures within { length self.now ≤ the.most_named }
    {
        &self.bytes[..self.count]
    }
}

// What a digit counts.
#[tactic(auto, unfolding(crate::specs::Hex::hex_digit, numerals::specs::Reading::is_digit, basis::specs::Choice::both))]
fn digit_of(b: u8) -> Option<u8>
    ensures value { result ≡ the.hex_digit b }
    ensures within { IfSome result (λ d. d ≤ 15) }
{
    match b {
        b'0'..=b'9' => Some(b - b'0'),
        b'a'..=b'f' => Some(b - b'a' + 10),
        _ => None,
    }
}

// Two digits for each byte, and not too many.
pub fn named(s: &[u8]) -> Option<HexBytes>
    ensures { result ≡ the.hex_of s.now }
{
    let count = s.len() / 2;
    if s.len() % 2 != 0 || MOST < count {
        return None;
    }
    let mut bytes = [0; MOST];
    for (i, pair) in s.chunks_exact(2).enumerate() {
        bytes[i] = digit_of(pair[0])? * 16 + digit_of(pair[1])?;
    }
    Some(HexBytes { count, bytes })
}
