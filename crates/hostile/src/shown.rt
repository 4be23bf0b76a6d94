// Bytes as they are shown: without the zeros at their end.
ghost use Rattle.hostile.specs.Shown as the;

// The number of bytes up to the last that is not zero.
pub fn kept(s: &[u8]) -> usize
    ensures { the.KeptBytes s.now result }
{
    s.iter().rposition(|&b| b != 0).map_or(0, |last| last + 1)
}
