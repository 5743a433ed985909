// Text put into a lent run of bytes.  Each public function puts its text at a place and answers the place after it.
// Where the text does not fit from there on, the run stays as it was and the answer is the same place.
#![tactic(auto)]

ghost use Rattle.std.specs.Prelude.{◌≡◌};
ghost use Rattle.text.specs.Text.{decimal_of, signed_text, fits, place_after, with_text};

// Puts bytes.
#[tactic(auto, using(crate::proofs::Places::putting))]
pub fn put(out: &mut [u8], at: usize, text: &[u8]) -> usize
    ensures place { result ≡ place_after out.old at text.now }
    ensures text { out.new ≡ with_text out.old at text.now }
{
    if !fits(out.len(), at, text.len()) {
        return at;
    }
    let end = at + text.len();
    out[at..end].copy_from_slice(text);
    end
}

// Puts a number's decimal digits.
#[tactic(auto, using(crate::proofs::Spelling::decimal_is))]
pub fn put_decimal(out: &mut [u8], at: usize, n: u64) -> usize
    ensures place { result ≡ place_after out.old at (decimal_of n) }
    ensures text { out.new ≡ with_text out.old at (decimal_of n) }
{
    let mut digits = [0u8; 20];
    let k = io::decimal(n, &mut digits);
    put(out, at, &digits[..k])
}

// Puts a number's decimal digits, after a minus sign where it is below 0.
#[tactic(auto, using(crate::proofs::Spelling::signed_above))]
pub fn put_signed(out: &mut [u8], at: usize, z: i64) -> usize
    ensures place { result ≡ place_after out.old at (signed_text z) }
    ensures text { out.new ≡ with_text out.old at (signed_text z) }
{
    if z < 0 {
        let mut text = [b'-'; 21];
        let k = put_decimal(&mut text, 1, z.unsigned_abs());
        return put(out, at, &text[..k]);
    }
    put_decimal(out, at, z.unsigned_abs())
}

#[tactic(auto, using(crate::proofs::Places::fitting))]
fn fits(room: usize, at: usize, long: usize) -> bool
    ensures { result ≡ fits room at long }
{
    at <= room && long <= room - at
}
