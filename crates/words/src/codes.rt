// The words' codes: base 32 over the letters, a = 1 .. z = 26, _ = 27, the first letter highest.
pub(crate) const KILOWATTS: u64 = 12_417_277_940_371;

pub(crate) const CURVE: u64 = 3_852_997;

pub(crate) const SCORE: u64 = 20_037_189;

pub(crate) const RAMP: u64 = 591_280;

pub(crate) const RATE: u64 = 591_493;

pub(crate) const REACHED: u64 = 19_496_280_228;

pub(crate) const BANDS: u64 = 2_144_403;

pub(crate) const FACTOR: u64 = 202_494_450;

pub(crate) const FEE: u64 = 6_309;

pub(crate) const QUALITY: u64 = 18_959_705_753;

pub(crate) const ENERGY: u64 = 182_634_745;

pub(crate) const LOSS: u64 = 409_203;

pub(crate) const PAIR: u64 = 525_618;

pub(crate) const DREG: u64 = 149_671;

pub(crate) const EDREG: u64 = 5_392_551;

pub(crate) const SREG: u64 = 641_191;

pub(crate) const DREG_SCORES: u64 = 5_142_686_033_496_243;

pub(crate) const EDREG_SCORES: u64 = 185_286_671_128_316_083;

pub(crate) const SREG_SCORES: u64 = 22_031_184_636_135_603;

pub(crate) const DREG_FRAME: u64 = 160_708_925_392_293;

pub(crate) const EDREG_FRAME: u64 = 5_790_208_459_605_413;

pub(crate) const SREG_FRAME: u64 = 688_474_506_724_773;

pub(crate) const FRAME: u64 = 6_882_725;

pub(crate) const LOSS_FRAMES: u64 = 14_060_137_230_677_171;

pub(crate) const PAIR_FRAME: u64 = 564_378_942_899_621;
