// Tokens: the bytes between separators, one by one, and what a token is once it has ended: a word's code, or a number.
#![tactic(auto)]

ghost use Rattle.std.specs.Prelude.{◌≡◌, true, pos, MatchOption};
ghost use Rattle.words.specs.Faults.{too_large};
ghost use Rattle.tokens.specs.Bytes.{is_digit};
ghost use Rattle.tokens.specs.Tokens.{word_with, size_with, numbered, lowered, begun, grown, after, step_of, numeral, token_number};

use words::faults;

mod bytes;

// The bytes since the last separator.
#[derive(Clone, Copy)]
pub enum Token {
    Between,
    Comment,
    // begins with a letter: its code, or NO_WORD
    Word(u64),
    // a sign and nothing else
    Sign,
    // digits: their number, or MOST_SIZE where it is larger
    Number(u64),
    // a sign and digits
    Below(u64),
    // neither a word nor a number
    Other,
}

// What a byte does: the token after it, whether the one before it has ended, and whether it begins a word.
#[derive(Clone, Copy)]
pub struct Next {
    pub token: Token,
    pub ended: bool,
    pub word: bool,
}

// A token as a number: 102 or 105 where it is none, and then 0.
#[derive(Clone, Copy)]
pub struct Numeral {
    pub fault: u8,
    pub value: i64,
}

// The code of what is no word of at most 12 letters: 2^60.
pub const NO_WORD: u64 = 1_152_921_504_606_846_976;

// A size that is too large: 2^63 + 1.
const MOST_SIZE: u64 = 9_223_372_036_854_775_809;

// What a byte does to the token that it comes after.
#[tactic(auto, unfolding(crate::specs::Tokens::step_of, crate::specs::Tokens::begins_word))]
pub fn step(token: Token, b: u8) -> Next
    ensures { result ≡ step_of token b }
{
    let word = matches!(token, Token::Between) & bytes::is_letter(b);
    if bytes::parts(b) {
        return Next {
            token: after(token, b),
            ended: true,
            word,
        };
    }
    Next {
        token: grown(token, b),
        ended: false,
        word,
    }
}

// The number that a token is, once it has ended.
#[tactic(auto, unfolding(crate::specs::Tokens::size_number, crate::specs::Tokens::below_number))]
pub fn number(token: Token) -> Numeral
    ensures { result ≡ token_number token }
{
    match token {
        Token::Number(size) => read(i64::try_from(size).ok()),
        Token::Below(size) => read(0i64.checked_sub_unsigned(size)),
        Token::Between | Token::Comment | Token::Word(_) | Token::Sign | Token::Other => Numeral {
            fault: faults::NOT_NUMBER,
            value: 0,
        },
    }
}

// What stands after a byte that parts tokens.
#[tactic(auto, unfolding(crate::specs::Tokens::after))]
fn after(token: Token, b: u8) -> Token
    ensures { result ≡ after token b }
{
    if b == b'\n' {
        return Token::Between;
    }
    if (b == b'#') | matches!(token, Token::Comment) {
        return Token::Comment;
    }
    Token::Between
}

// The token with a byte that parts no tokens.
fn grown(token: Token, b: u8) -> Token
    ensures { result ≡ grown token b }
{
    match token {
        Token::Between => begun(b),
        Token::Comment => Token::Comment,
        Token::Word(code) => Token::Word(word_with(code, b)),
        Token::Sign => lowered(0, b),
        Token::Number(size) => numbered(size, b),
        Token::Below(size) => lowered(size, b),
        Token::Other => Token::Other,
    }
}

// A token's first byte.
#[tactic(auto, unfolding(crate::specs::Tokens::begun))]
fn begun(b: u8) -> Token
    ensures { result ≡ begun b }
{
    if bytes::is_letter(b) {
        return Token::Word(word_with(0, b));
    }
    if b == b'-' {
        return Token::Sign;
    }
    numbered(0, b)
}

// A word's code with one byte more.
#[tactic(auto, using(crate::proofs::Sizes::letter_small), unfolding(crate::specs::Tokens::word_with))]
fn word_with(code: u64, b: u8) -> u64
    ensures { result ≡ word_with code b }
{
    if bytes::is_letter(b) && code < 36_028_797_018_963_968 {
        return code * 32 + u64::from(bytes::letter_of(b));
    }
    NO_WORD
}

// Digits without a sign. One function for these and those below, given the variant as a closure, would be no plainer.
#[tactic(auto, unfolding(crate::specs::Tokens::numbered, crate::specs::Bytes::is_digit))]
fn numbered(size: u64, b: u8) -> Token
    ensures { result ≡ numbered size b }
{
    if b.is_ascii_digit() {
        return Token::Number(size_with(size, b));
    }
    Token::Other
}

// A number's size with one digit more.
#[tactic(auto, using(crate::proofs::Sizes::digit_small), unfolding(crate::specs::Tokens::size_with, crate::specs::Bytes::digit_of, crate::specs::Bytes::is_digit))]
fn size_with(size: u64, b: u8) -> u64
    requires { is_digit b ≡ true }
    ensures { result ≡ size_with size b }
{
    if size < 922_337_203_685_477_581 {
        return size * 10 + u64::from(b - b'0');
    }
    MOST_SIZE
}

// Digits after a sign.
#[tactic(auto, unfolding(crate::specs::Tokens::lowered, crate::specs::Bytes::is_digit))]
fn lowered(size: u64, b: u8) -> Token
    ensures { result ≡ lowered size b }
{
    if b.is_ascii_digit() {
        return Token::Below(size_with(size, b));
    }
    Token::Other
}

// What a value is read as, where it is in range.
fn read(value: Option<i64>) -> Numeral
    ensures { MatchOption value (result ≡ numeral too_large (pos 0)) (λ v. result ≡ numeral 0 v) }
{
    match value {
        Some(value) => Numeral { fault: 0, value },
        None => Numeral {
            fault: faults::TOO_LARGE,
            value: 0,
        },
    }
}
