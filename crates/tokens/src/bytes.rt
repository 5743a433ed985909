// The sorts of bytes.
ghost use Rattle.std.specs.Prelude.{◌≡◌};
ghost use Rattle.tokens.specs.Bytes.{parts, is_letter};
ghost use Rattle.words.specs.Words.{letter_of};

// `matches!` would compile to a jump by a table for each byte, and tokens would take a tenth longer to be read.
#[tactic(auto, unfolding(crate::specs::Bytes::parts, crate::specs::Bytes::separates))]
pub(crate) fn parts(b: u8) -> bool
    ensures { result ≡ parts b }
{
    (b == b' ') | (b == b'\t') | (b == b',') | (b == b'\r') | (b == b'\n') | (b == b'#')
}

#[tactic(auto, unfolding(crate::specs::Bytes::is_letter))]
pub(crate) fn is_letter(b: u8) -> bool
    ensures { result ≡ is_letter b }
{
    matches!(b, b'a'..=b'z' | b'_')
}

// A letter's place, from 1.
#[tactic(auto, unfolding(words::specs::Words::letter_of))]
pub(crate) fn letter_of(b: u8) -> u8
    ensures { result ≡ letter_of b }
{
    if b'a' <= b { b - b'a' + 1 } else { 27 }
}
