// The blanks round a value: where in a text the value starts and where it ends. Nothing is copied.
#![tactic(auto)]

ghost use Rattle.std.specs.Prelude.{◌≡◌, ◌+◌, ◌≤◌, length, drop};
ghost use Rattle.text_blanks.specs.Blanks as the;

// The offset of a value's first byte and the offset after its last.
#[derive(Clone, Copy)]
pub struct Stripped {
    pub start: usize,
    pub end: usize,
}

// Tab, newline, carriage return and space.
#[tactic(auto, unfolding(crate::specs::Blanks::is_blank))]
fn is_blank(b: u8) -> bool
    ensures { result ≡ the.is_blank b }
{
    matches!(b, b'\t' | b'\n' | b'\r' | b' ')
}

// Where the value of a text starts and where it ends: after the blanks at its front, before those at its back. In a text of
// blanks alone both are its end.
pub fn strip(s: &[u8]) -> Stripped
    ensures { result ≡ the.stripped s.now }
{
    let start = s.iter().take_while(|b| is_blank(**b)).count();
    let trailing = s[start..]
        .iter()
        .rev()
        .take_while(|b| is_blank(**b))
        .count();
    let end = s.len() - trailing;
    Stripped { start, end }
}
