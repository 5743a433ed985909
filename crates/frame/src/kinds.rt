// Document 01, "Frames", and document 02, #101: the kinds. specs/Kinds.antt says which fields each uses.
pub const OPEN: u8 = 0;

pub const POST: u8 = 1;

pub const REPLACE: u8 = 2;

pub const WITHDRAW: u8 = 3;

pub const BASIC_FEE: u8 = 4;

pub const CLOSE: u8 = 5;

pub const EXCESS_FEE: u8 = 6;
