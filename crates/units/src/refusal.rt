// Why a call is refused: document 01, "Numbers that are turned away", and document 02.
ghost use Rattle.std.specs.Prelude.{◌≡◌};
ghost use Rattle.units.specs.Refusals.{paper_number};

use crate::refusals;

#[derive(Clone, Copy, PartialEq, Eq)]
pub enum Refusal {
    WrongLength = refusals::WRONG_LENGTH as isize,
    BadCapacity = refusals::BAD_CAPACITY as isize,
    BadMoney = refusals::BAD_MONEY as isize,
    BadReading = refusals::BAD_READING as isize,
    BadBands = refusals::BAD_BANDS as isize,
    NotInMonth = refusals::NOT_IN_MONTH as isize,
    PlaceFilled = refusals::PLACE_FILLED as isize,
    PlaceEmpty = refusals::PLACE_EMPTY as isize,
    MonthClosed = refusals::MONTH_CLOSED as isize,
    BadTransfer = refusals::BAD_TRANSFER as isize,
    BadDigit = refusals::BAD_DIGIT as isize,
    BadSum = refusals::BAD_SUM as isize,
    BadKind = refusals::BAD_KIND as isize,
    NotOpen = refusals::NOT_OPEN as isize,
    BadEnergy = refusals::BAD_ENERGY as isize,
    BadAmount = refusals::BAD_AMOUNT as isize,
    NotFinite = refusals::NOT_FINITE as isize,
    WrongSecond = refusals::WRONG_SECOND as isize,
    BadReference = refusals::BAD_REFERENCE as isize,
    NotReachable = refusals::NOT_REACHABLE as isize,
}

impl Refusal {
    // The number that the papers give it.
    pub fn number(self) -> u8
        ensures { result ≡ paper_number self }
    {
        self as u8
    }
}
