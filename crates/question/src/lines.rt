// One line of text, put at the start of a lent run. Each function answers the place after what it put.
ghost use Rattle.std.specs.Prelude.{◌+◌, ◌≤◌, ◌≡◌, false, leb, length};
ghost use Rattle.units.specs.Limits.{seconds_of_quarter};
ghost use Rattle.text.specs.Text.{put};
ghost use Rattle.words.specs.Replies.{reply};
ghost use Rattle.question.specs.Lines.{field, fields_text, line_text};
ghost use Rattle.question.specs.Inner.{room, most_fields};

// A refusal's number and the fields; more than 900 of them have to be short.
pub(crate) fn put_line(refusal: u8, fields: &[i64], out: &mut [u8]) -> usize
    requires room_in_bounds { room ≤ length out.old }
    requires fields_len_bound { leb (length fields.now) seconds_of_quarter ≡ false → length (fields_text fields.now) ≤ most_fields }
    ensures place { result ≡ length (line_text (reply refusal fields.now)) }
    ensures text { out.new ≡ put out.old 0 (line_text (reply refusal fields.now)) }
    ensures short { result ≤ room }
{
    let a = text::put_decimal(out, 0, refusal as u64);
    let b = put_fields(out, a, fields);
    text::put(out, b, b"\n")
}

// Fields one after the other; more than 900 of them have to be short.
fn put_fields(out: &mut [u8], at: usize, fields: &[i64]) -> usize
    requires most_fields_in_bounds { at + most_fields ≤ length out.old }
    requires fields_len_bound { leb (length fields.now) seconds_of_quarter ≡ false → length (fields_text fields.now) ≤ most_fields }
    ensures place { result ≡ at + length (fields_text fields.now) }
    ensures text { out.new ≡ put out.old at (fields_text fields.now) }
    ensures short { result ≤ at + most_fields }
{
    let mut to = at;
    for z in fields {
        to = put_field(out, to, *z);
    }
    to
}

// A number after a space.
fn put_field(out: &mut [u8], at: usize, z: i64) -> usize
    requires { at + length (field z) ≤ length out.old }
    ensures place { result ≡ at + length (field z) }
    ensures text { out.new ≡ put out.old at (field z) }
{
    let a = text::put(out, at, b" ");
    text::put_signed(out, a, z)
}
