// The faults of a question that cannot be answered.
pub const NOT_QUESTION: u8 = 101;

pub const TOO_LARGE: u8 = 102;

pub const TOO_FEW: u8 = 103;

pub const TOO_MANY: u8 = 104;

pub const NOT_NUMBER: u8 = 105;
