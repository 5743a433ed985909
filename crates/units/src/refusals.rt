// Document 01, "Numbers that are turned away". specs/Refusals.antt has each number with the paper's words.
pub const WRONG_LENGTH: u8 = 1;

pub const BAD_CAPACITY: u8 = 2;

pub const BAD_MONEY: u8 = 3;

pub const BAD_READING: u8 = 4;

pub const BAD_BANDS: u8 = 5;

pub const NOT_IN_MONTH: u8 = 6;

pub const PLACE_FILLED: u8 = 7;

pub const PLACE_EMPTY: u8 = 8;

pub const MONTH_CLOSED: u8 = 9;

pub const BAD_TRANSFER: u8 = 10;

pub const BAD_DIGIT: u8 = 11;

pub const BAD_SUM: u8 = 12;

pub const BAD_KIND: u8 = 13;

pub const NOT_OPEN: u8 = 14;

pub const BAD_ENERGY: u8 = 15;

pub const BAD_AMOUNT: u8 = 16;

pub const NOT_FINITE: u8 = 17;

pub const WRONG_SECOND: u8 = 18;

pub const BAD_REFERENCE: u8 = 19;

pub const NOT_REACHABLE: u8 = 22;
