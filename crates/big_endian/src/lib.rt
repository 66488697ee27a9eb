// Numbers of 16, 32 and 64 bits with the highest byte first, read from a slice and written into a lent buffer.
#![tactic(auto)]

ghost use Rattle.std.specs.Prelude.{◌≡◌, ◌+◌, ◌≤◌, ◌<◌, length};
ghost use Rattle.std.proofs.lemmas.List.Edits.{sets};
ghost use Rattle.std.proofs.Math.Seq.{slice};
ghost use Rattle.numbers.specs.Answers.{wrote_at, put_at};
ghost use Rattle.big_endian.specs.Big.{big, big2, big4, big8};
ghost use Rattle.big_endian.specs.Answers.{word16_at, word32_at, word64_at};

use numbers::{Bits32, Bits64, Wrote};

// The bits of two bytes and the place behind them, or END. (Crate numbers has the same of four and of eight.)
#[derive(Clone, Copy)]
pub enum Bits16 {
    Got(u16, usize),
    Refused(u8),
}

fn wide16(b: u8) -> u16
    ensures { result ≡ b }
{
    b as u16
}

fn wide64(b: u8) -> u64
    ensures { result ≡ b }
{
    b as u64
}

// The two bytes from a place on, the first of them the highest.
pub fn read_be16(s: &[u8], at: usize) -> Bits16
    ensures { result ≡ word16_at s.now at }
{
    if numbers::lacks_room(s.len(), at, 2) {
        return Bits16::Refused(types::END);
    }
    let high = wide16(s[at]);
    let low = wide16(s[at + 1]);
    Bits16::Got((high << 8) + low, at + 2)
}

// The number of the four bytes from a place on.
fn read_four(s: &[u8], at: usize) -> u64
    requires { at + 4 ≤ length s.now }
    ensures { (result ≡ big (slice at (at + 4) s.now)) × (result < 0x1_0000_0000) }
{
    (wide64(s[at]) << 24) + (wide64(s[at + 1]) << 16) + (wide64(s[at + 2]) << 8) + wide64(s[at + 3])
}

pub fn read_be32(s: &[u8], at: usize) -> Bits32
    ensures { result ≡ word32_at s.now at }
{
    if numbers::lacks_room(s.len(), at, 4) {
        return Bits32::Refused(types::END);
    }
    let bits = read_four(s, at);
    Bits32::Got(bits as u32, at + 4)
}

// Eight bytes. Without a loop they are one load.
pub fn read_be64(s: &[u8], at: usize) -> Bits64
    ensures { result ≡ word64_at s.now at }
{
    if numbers::lacks_room(s.len(), at, 8) {
        return Bits64::Refused(types::END);
    }
    let high = read_four(s, at);
    let low = read_four(s, at + 4);
    Bits64::Got((high << 32) + low, at + 8)
}

// The two bytes of the bits, highest first. Where a writer finds no room the buffer keeps its bytes.
pub fn write_be16(buf: &mut [u8], at: usize, n: u16) -> Wrote
    ensures { (result ≡ wrote_at buf.old at (big2 n)) × (buf.new ≡ put_at buf.old at (big2 n)) }
{
    if numbers::lacks_room(buf.len(), at, 2) {
        return Wrote::Refused(types::NO_ROOM);
    }
    buf[at] = ((n >> 8) % 256) as u8;
    buf[at + 1] = (n % 256) as u8;
    Wrote::To(at + 2)
}

// The four lowest bytes of a number, highest first.
fn write_four(buf: &mut [u8], at: usize, n: u64)
    requires { at + 4 ≤ length buf.old }
    ensures { buf.new ≡ sets buf.old at (big4 n) }
{
    buf[at] = ((n >> 24) % 256) as u8;
    buf[at + 1] = ((n >> 16) % 256) as u8;
    buf[at + 2] = ((n >> 8) % 256) as u8;
    buf[at + 3] = (n % 256) as u8;
}

pub fn write_be32(buf: &mut [u8], at: usize, n: u32) -> Wrote
    ensures { (result ≡ wrote_at buf.old at (big4 n)) × (buf.new ≡ put_at buf.old at (big4 n)) }
{
    if numbers::lacks_room(buf.len(), at, 4) {
        return Wrote::Refused(types::NO_ROOM);
    }
    write_four(buf, at, n as u64);
    Wrote::To(at + 4)
}

// Eight bytes. Without a loop they are one store.
pub fn write_be64(buf: &mut [u8], at: usize, n: u64) -> Wrote
    ensures { (result ≡ wrote_at buf.old at (big8 n)) × (buf.new ≡ put_at buf.old at (big8 n)) }
{
    if numbers::lacks_room(buf.len(), at, 8) {
        return Wrote::Refused(types::NO_ROOM);
    }
    write_four(buf, at, n >> 32);
    write_four(buf, at + 4, n);
    Wrote::To(at + 8)
}
