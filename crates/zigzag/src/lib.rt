// Zigzag: between a signed number and the unsigned one that a varint carries.
#![tactic(auto, using(crate::proofs::Zig::codes))]

ghost use Rattle.std.specs.Prelude.{◌≡◌};
ghost use Rattle.zigzag.specs.Zigzag.{zigzag, unzigzag};
ghost use Rattle.zigzag.specs.Laws.{un_zig, zig_un};

// A signed number, and its zigzag number of the same width.
pub trait Zigzag {
    type Unsigned;

    ghost encoded: { Self → Self.Unsigned };

    ghost decoded: { Self.Unsigned → Self };

    // The bits doubled, with every bit turned where the number is below 0: the sign is shifted over all of them.
    fn to_zigzag(self) -> Self::Unsigned
        ensures { result ≡ encoded self };

    // Half of n, with every bit turned where n is odd: the lowest bit is subtracted from zero, wrapping.
    fn from_zigzag(n: Self::Unsigned) -> Self
        ensures { result ≡ decoded n };

    ghost there_and_back: { (z : Self) → decoded (encoded z) ≡ z };

    ghost back_and_there: { (n : Self.Unsigned) → encoded (decoded n) ≡ n };
}

impl Zigzag for i16 {
    type Unsigned = u16;

    ghost encoded = { zigzag };

    ghost decoded = { unzigzag };

    ghost there_and_back = { un_zig };

    ghost back_and_there = { zig_un };

    fn to_zigzag(self) -> u16 {
        ((self << 1) ^ (self >> 15)).cast_unsigned()
    }

    fn from_zigzag(n: u16) -> i16 {
        ((n / 2) ^ 0u16.wrapping_sub(n % 2)).cast_signed()
    }
}

impl Zigzag for i32 {
    type Unsigned = u32;

    ghost encoded = { zigzag };

    ghost decoded = { unzigzag };

    ghost there_and_back = { un_zig };

    ghost back_and_there = { zig_un };

    fn to_zigzag(self) -> u32 {
        ((self << 1) ^ (self >> 31)).cast_unsigned()
    }

    fn from_zigzag(n: u32) -> i32 {
        ((n / 2) ^ 0u32.wrapping_sub(n % 2)).cast_signed()
    }
}

impl Zigzag for i64 {
    type Unsigned = u64;

    ghost encoded = { zigzag };

    ghost decoded = { unzigzag };

    ghost there_and_back = { un_zig };

    ghost back_and_there = { zig_un };

    fn to_zigzag(self) -> u64 {
        ((self << 1) ^ (self >> 63)).cast_unsigned()
    }

    fn from_zigzag(n: u64) -> i64 {
        ((n / 2) ^ 0u64.wrapping_sub(n % 2)).cast_signed()
    }
}
