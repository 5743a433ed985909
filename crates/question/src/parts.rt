// The parts of a question's numbers, where the cut found them.
ghost use Rattle.std.specs.Prelude.{◌≡◌, drop};
ghost use Rattle.numbers.specs.Numbers.{part};
ghost use Rattle.question.specs.Parts.{head_of};

// The first twelve of a question's numbers, zeros past their end.
pub(crate) fn head_of(numbers: &[i64]) -> [i64; 12]
    ensures { result ≡ head_of numbers.now }
{
    let mut head = [0i64; 12];
    for (i, place) in head.iter_mut().enumerate() {
        *place = whole::at(numbers, i);
    }
    head
}

// The numbers from a place on.
pub(crate) fn rest(numbers: &[i64], at: usize) -> &[i64]
    ensures { result.now ≡ drop at numbers.now }
{
    numbers.get(at..).unwrap_or(&[])
}

// The numbers from a place on, up to another.
pub(crate) fn part(numbers: &[i64], start: usize, end: usize) -> &[i64]
    ensures { result.now ≡ part numbers.now start end }
{
    let left = rest(numbers, start);
    left.get(..end.saturating_sub(start)).unwrap_or(left)
}
