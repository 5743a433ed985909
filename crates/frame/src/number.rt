// The sum of bytes.
ghost use Rattle.std.specs.Prelude.{◌%◌, ◌≡◌};
ghost use Rattle.frame.specs.Numbers.{byte_sum};

// The sum of bytes modulo 256.
#[tactic(auto, using(crate::proofs::Numbers::summing))]
pub(crate) fn sum(bytes: &[u8]) -> u8
    ensures { result ≡ byte_sum bytes.now % 256 }
{
    let mut sum = 0u8;
    for b in bytes {
        sum = sum.wrapping_add(*b);
    }
    sum
}
