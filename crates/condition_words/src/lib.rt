// Longest stretches of bytes in a condition's text, words among them, and bytes cut out of a text (document 01, "Conditions").
#![tactic(auto)]

ghost use Rattle.std.specs.Prelude.{◌≡◌, ◌≤◌, length};
ghost use Rattle.condition_words.specs.Words as the;

// What a stretch is made of: spaces, letters of a word, bytes other than the quote.
#[derive(Clone, Copy)]
pub enum Class {
    Space,
    Letter,
    Unquoted,
}

// ASCII letters, and the colon.
fn letter(b: u8) -> bool
    ensures { result ≡ the.letter b }
{
    b.is_ascii_alphabetic() || b == b':'
}

// Whether a byte is of a class.
fn belongs(class: Class, b: u8) -> bool
    ensures { result ≡ the.belongs class b }
{
    match class {
        Class::Space => b == b' ',
        Class::Letter => letter(b),
        Class::Unquoted => b != b'"',
    }
}

// Where the longest stretch of bytes of a class ends that begins at an offset.
pub fn stretch_end(class: Class, s: &[u8], at: usize) -> usize
    ensures { result ≡ the.stretch_end class s.now at }
{
    let Some(rest) = s.get(at..) else {
        return at;
    };
    at + rest.iter().take_while(|b| belongs(class, **b)).count()
}

// The first offset from `at` on that holds no space.
pub fn skip(s: &[u8], at: usize) -> usize
    ensures { result ≡ the.skipped s.now at }
{
    stretch_end(Class::Space, s, at)
}

// The bytes between two offsets, as far as the text goes.
pub fn cut(s: &[u8], from: usize, to: usize) -> &[u8]
    ensures { result.now ≡ the.between s.now from to }
{
    s.get(from..to.min(s.len())).unwrap_or(b"")
}

// The word at an offset: empty where no letter stands there.
pub fn word(s: &[u8], at: usize) -> &[u8]
    ensures { result.now ≡ the.word_at s.now at }
{
    cut(s, at, stretch_end(Class::Letter, s, at))
}

// Whether two words are the same.
pub fn same(a: &[u8], b: &[u8]) -> bool
    ensures { result ≡ the.same a.now b.now }
{
    a == b
}
