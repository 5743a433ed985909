// What the program prints, put into a lent run: each puts its text at a place, and answers the place after it.
ghost use Rattle.std.specs.Prelude.{◌+◌, ◌≤◌, ◌≡◌, length};
ghost use Rattle.text.specs.Text.{put};
ghost use Rattle.intake.specs.Text.{verdict_text, total_text};

// A line's number and its refusal.
pub(crate) fn put_answer(out: &mut [u8], at: usize, number: u64, refusal: u8) -> usize
    requires { at + length (verdict_text number refusal) ≤ length out.old }
    ensures place { result ≡ at + length (verdict_text number refusal) }
    ensures text { out.new ≡ put out.old at (verdict_text number refusal) }
{
    let a = text::put_decimal(out, at, number);
    let b = text::put(out, a, b" ");
    let c = text::put_decimal(out, b, refusal as u64);
    text::put(out, c, b"\n")
}

pub(crate) fn put_total(out: &mut [u8], at: usize, total: i64) -> usize
    requires { at + length (total_text total) ≤ length out.old }
    ensures place { result ≡ at + length (total_text total) }
    ensures text { out.new ≡ put out.old at (total_text total) }
{
    let a = text::put(out, at, b"total ");
    let b = text::put_signed(out, a, total);
    text::put(out, b, b"\n")
}
