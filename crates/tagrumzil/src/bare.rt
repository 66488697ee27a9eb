// The library's own number, and the number calls, which need no state. A place past the buffer's end is BAD STATE.
ghost use Rattle.std.specs.Prelude.{◌≡◌, length};
ghost use Rattle.numbers.specs.Varint.{fewest};
ghost use Rattle.zigzag.specs.Zigzag.{zigzag, unzigzag};
ghost use Rattle.tagrumzil.specs.Bare.{placed32, placed64, placed16, placed_bits, Found32, Found64, Found16, FoundBits, PutNumber};

use numbers::{Bits64, Int16, Varint32, Varint64, Wrote};
use zigzag::Zigzag;

// The number of this library, which a caller holds against the one it was written for: it changes with every change of a row's layout or of what a call means.
pub const VERSION: u32 = 1;

pub fn tagrumzil_version() -> u32
    ensures { result ≡ 1 }
{
    VERSION
}

// The varint at a place of the input, and the place behind it.
pub fn tagrumzil_varint32(s: &[u8], at: usize, value: &mut u32, end: &mut usize) -> u8
    ensures { Found32 value.old value.new end.old end.new result (placed32 s.now at) }
{
    if s.len() < at {
        return types::BAD_STATE;
    }
    match numbers::read_varint32(s, at) {
        Varint32::Got(v, p) => {
            *value = v;
            *end = p;
            0
        }
        Varint32::Refused(why) => why,
    }
}

pub fn tagrumzil_varint64(s: &[u8], at: usize, value: &mut u64, end: &mut usize) -> u8
    ensures { Found64 value.old value.new end.old end.new result (placed64 s.now at) }
{
    if s.len() < at {
        return types::BAD_STATE;
    }
    match numbers::read_varint64(s, at) {
        Varint64::Got(v, p) => {
            *value = v;
            *end = p;
            0
        }
        Varint64::Refused(why) => why,
    }
}

// An i16 at a place of the input: a 32-bit zigzag number, within the range of 16 bits.
pub fn tagrumzil_i16(s: &[u8], at: usize, value: &mut i16, end: &mut usize) -> u8
    ensures { Found16 value.old value.new end.old end.new result (placed16 s.now at) }
{
    if s.len() < at {
        return types::BAD_STATE;
    }
    match numbers::read_i16(s, at) {
        Int16::Got(v, p) => {
            *value = v;
            *end = p;
            0
        }
        Int16::Refused(why) => why,
    }
}

// The bits of the eight bytes at a place of the input, lowest first.
pub fn tagrumzil_le64(s: &[u8], at: usize, value: &mut u64, end: &mut usize) -> u8
    ensures { FoundBits value.old value.new end.old end.new result (placed_bits s.now at) }
{
    if s.len() < at {
        return types::BAD_STATE;
    }
    match numbers::read_le64(s, at) {
        Bits64::Got(v, p) => {
            *value = v;
            *end = p;
            0
        }
        Bits64::Refused(why) => why,
    }
}

// The number in the fewest bytes, at a place of the buffer, and the place behind it.
pub fn tagrumzil_put_varint(buf: &mut [u8], at: usize, n: u64, end: &mut usize) -> u8
    ensures { PutNumber buf.old buf.new end.old end.new result at (fewest n) }
{
    if buf.len() < at {
        return types::BAD_STATE;
    }
    match numbers::write_varint64(buf, at, n) {
        Wrote::To(p) => {
            *end = p;
            0
        }
        Wrote::Refused(why) => why,
    }
}

// How many bytes it takes.
pub fn tagrumzil_varint_len(n: u64) -> usize
    ensures { result ≡ length (fewest n) }
{
    numbers::varint_len(n)
}

pub fn tagrumzil_zigzag_to_i32(n: u32) -> i32
    ensures { result ≡ unzigzag n }
{
    i32::from_zigzag(n)
}

pub fn tagrumzil_zigzag_to_i64(n: u64) -> i64
    ensures { result ≡ unzigzag n }
{
    i64::from_zigzag(n)
}

#[tactic(auto, using(crate::proofs::Bared::zigs))]
pub fn tagrumzil_i32_to_zigzag(n: i32) -> u32
    ensures { result ≡ zigzag n }
{
    n.to_zigzag()
}

#[tactic(auto, using(crate::proofs::Bared::zigs))]
pub fn tagrumzil_i64_to_zigzag(n: i64) -> u64
    ensures { result ≡ zigzag n }
{
    n.to_zigzag()
}
