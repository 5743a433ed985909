// Digits and bytes: a byte is two digits 0-9 A-F, the higher first.
ghost use Rattle.std.specs.Prelude.{◌+◌, ◌*◌, ◌<◌, ◌≡◌, true, length};
ghost use Rattle.frame.specs.Digits.{hex_digit_of, hex_value_of, is_hex_digit, all_digits, digits_of, bytes_of};

// Whether a line has only digits that are allowed; where it has, its bytes.
pub(crate) fn decode(line: &[u8], bytes: &mut [u8]) -> bool
    requires { length line.now ≡ 2 * length bytes.old }
    ensures { (result ≡ all_digits line.now) × (result ≡ true → bytes.new ≡ bytes_of line.now) }
{
    if !all_digits(line) {
        return false;
    }
    put_values(line, bytes);
    true
}

// The digits of bytes, two for each, written by their places, as the bytes below.
#[tactic(auto, using(crate::proofs::Digits::encoding))]
pub(crate) fn encode(bytes: &[u8], line: &mut [u8])
    requires { length line.old ≡ 2 * length bytes.now }
    ensures { line.new ≡ digits_of bytes.now }
{
    for (i, b) in bytes.iter().enumerate() {
        line[2 * i] = digit(*b / 16);
        line[2 * i + 1] = digit(*b % 16);
    }
}

// Whether a line has only digits that are allowed. It goes on past one that is not, so that several are tested at a
// time.
#[tactic(auto, using(crate::proofs::Digits::testing))]
fn all_digits(line: &[u8]) -> bool
    ensures { result ≡ all_digits line.now }
{
    let mut all = true;
    for d in line {
        all &= is_digit(*d);
    }
    all
}

// Whether a byte of a line is a digit that is allowed. `matches!` would compile to a test of each range in turn, and a
// frame would take three times as long to be read.
#[tactic(auto, unfolding(crate::specs::Digits::is_hex_digit))]
fn is_digit(d: u8) -> bool
    ensures { result ≡ is_hex_digit d }
{
    (b'0' <= d) & (d <= b'9') | (b'A' <= d) & (d <= b'F')
}

// The bytes of digits. They are written by their places: of what an adapter of `iter_mut` writes a proof knows nothing.
#[tactic(auto, using(crate::proofs::Digits::decoding))]
fn put_values(line: &[u8], bytes: &mut [u8])
    requires line_len { length line.now ≡ 2 * length bytes.old }
    requires line_value { all_digits line.now ≡ true }
    ensures { bytes.new ≡ bytes_of line.now }
{
    for i in 0..bytes.len() {
        bytes[i] = byte(line[2 * i], line[2 * i + 1]);
    }
}

// The byte of two digits.
#[tactic(auto, using(crate::proofs::Digits::value_below))]
fn byte(high: u8, low: u8) -> u8
    requires high_value { is_hex_digit high ≡ true }
    requires low_value { is_hex_digit low ≡ true }
    ensures { result ≡ hex_value_of high * 16 + hex_value_of low }
{
    value(high) * 16 + value(low)
}

// The value of a digit.
#[tactic(auto, using(crate::proofs::Digits::digit_from), unfolding(crate::specs::Digits::hex_value_of))]
fn value(d: u8) -> u8
    requires { is_hex_digit d ≡ true }
    ensures { result ≡ hex_value_of d }
{
    if d < b'A' { d - b'0' } else { d - b'A' + 10 }
}

// The digit of a value: 48 more below ten, 55 more from ten on. (265 - n) / 256 is 1 below ten and 0 from ten on; a
// test in its place would compile to more time.
#[tactic(auto, unfolding(crate::specs::Digits::hex_digit_of))]
fn digit(value: u8) -> u8
    requires { value < 16 }
    ensures { result ≡ hex_digit_of value }
{
    let n = u16::from(value);
    (55 + n - (265 - n) / 256 * 7) as u8
}
