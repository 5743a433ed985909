// A question's numbers: cut by their shape, and what they are read as.
#![tactic(auto)]

ghost use Rattle.std.specs.Prelude.{◌≤◌, ◌≡◌, length};
ghost use Rattle.whole.specs.Choice.{pick};
ghost use Rattle.numbers.specs.Numbers.{byte_of, as_bytes, column};
ghost use Rattle.numbers.specs.Shapes.{cut_of};
ghost use Rattle.numbers.specs.Inner.{first_four};

use words::Shape;

mod cutting;

// A list among a question's numbers: from where to where its entries stand, and whether its count is one from 0 to
// 100 (any other counts as 0).
#[derive(Clone, Copy)]
pub struct Span {
    pub start: usize,
    pub end: usize,
    pub counted: bool,
}

// Where the parts of a question's numbers stand, and the fault of their count: 103, 104, or 0 for none.
#[derive(Clone, Copy)]
pub struct Places {
    pub fault: u8,
    pub first: Span,
    pub second: Span,
    pub third: Span,
    pub fourth: Span,
    pub tail: usize,
}

// The scores before an hour, as a question has them: how many, and the scores as bytes. Of more than four it has the
// first four: an hour takes none or three, and any other number is refused whatever they say.
#[derive(Clone, Copy)]
pub struct Earlier {
    pub count: usize,
    pub scores: [u8; 4],
}

// Cuts a question's numbers by their shape.
#[tactic(auto, unfolding(crate::specs::Shapes::cut_of))]
pub fn cut(shape: Shape, numbers: &[i64]) -> Places
    ensures { result ≡ cut_of shape numbers.now }
{
    let lists = shape.lists;
    let first = cutting::list_at(numbers, shape.head as usize, lists[0]);
    let second = cutting::list_at(numbers, first.end, lists[1]);
    let third = cutting::list_at(numbers, second.end, lists[2]);
    let fourth = cutting::list_at(numbers, third.end, lists[3]);
    let tail = fourth.end;
    let fault = cutting::end_fault(numbers, tail, shape.tail, shape.group);
    Places {
        fault,
        first,
        second,
        third,
        fourth,
        tail,
    }
}

// A number outside 0 to 255 is taken as 255.
#[tactic(auto, unfolding(crate::specs::Numbers::byte_of))]
pub fn byte_of(z: i64) -> u8
    ensures { result ≡ byte_of z }
{
    u8::try_from(z).unwrap_or(255)
}

// Fills a run with numbers as bytes, zeros past their end. By its places: of what an adapter of `iter_mut`
// writes a proof knows nothing.
#[tactic(auto, using(whole::proofs::Runs::filled_next, whole::proofs::Runs::filled_all), unfolding(crate::specs::Numbers::as_bytes))]
pub fn fill_bytes(numbers: &[i64], run: &mut [u8])
    ensures { run.new ≡ as_bytes numbers.now (length run.old) }
{
    for i in 0..run.len() {
        run[i] = byte_of(whole::at(numbers, i));
    }
}

// Earlier scores, as bytes.
#[tactic(auto, unfolding(crate::specs::Inner::first_four))]
pub fn first_four(numbers: &[i64]) -> Earlier
    ensures { result ≡ first_four numbers.now }
{
    let mut scores = [0u8; 4];
    fill_bytes(numbers, &mut scores);
    let count = numbers.len().min(4);
    Earlier { count, scores }
}

// Fills a run with the first or the second number of each pair, zeros past their end. It is written as above.
#[tactic(auto, using(whole::proofs::Runs::filled_next, whole::proofs::Runs::filled_all), unfolding(crate::specs::Numbers::column))]
pub fn column(pairs: &[i64], second: bool, run: &mut [i64])
    ensures { run.new ≡ column pairs.now (pick second 1 0) (length run.old) }
{
    let start = usize::from(second);
    for i in 0..run.len() {
        run[i] = whole::at(pairs, start + 2 * i);
    }
}
