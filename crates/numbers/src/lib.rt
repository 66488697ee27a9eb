// The numbers of the compact protocol in bytes: varints of 32 and 64 bits, i16, and four or eight little-endian bytes.
#![tactic(auto)]

ghost use Rattle.std.specs.Prelude.{◌≡◌, ◌+◌, ◌<◌, ◌≤◌, [], ◌∷◌, length, nat_lt};
ghost use Rattle.std.proofs.lemmas.List.Edits.{sets};
ghost use Rattle.std.proofs.Math.Seq.{slice};
ghost use Rattle.numbers.specs.Varint.{fewest};
ghost use Rattle.numbers.specs.Fixed.{little, four, eight};
ghost use Rattle.numbers.specs.Answers.{varint32_at, varint64_at, signed16_at, bits32_at, bits64_at, wrote_at, put_at};

use zigzag::Zigzag;

// A number and the place behind it, or the number of a refusal: END, LONG VARINT, and of an i16 RANGE.
#[derive(Clone, Copy)]
pub enum Varint32 {
    Got(u32, usize),
    Refused(u8),
}

#[derive(Clone, Copy)]
pub enum Varint64 {
    Got(u64, usize),
    Refused(u8),
}

#[derive(Clone, Copy)]
pub enum Int16 {
    Got(i16, usize),
    Refused(u8),
}

// The bits of four bytes and the place behind them, or END.
#[derive(Clone, Copy)]
pub enum Bits32 {
    Got(u32, usize),
    Refused(u8),
}

// The same of eight.
#[derive(Clone, Copy)]
pub enum Bits64 {
    Got(u64, usize),
    Refused(u8),
}

// The place behind what was written, or NO ROOM.
#[derive(Clone, Copy)]
pub enum Wrote {
    To(usize),
    Refused(u8),
}

fn wide32(b: u8) -> u32
    ensures { result ≡ b }
{
    b as u32
}

fn wide64(b: u8) -> u64
    ensures { result ≡ b }
{
    b as u64
}

// A byte's group is shifted to its place; bits past the 32nd are dropped there.
fn long_varint32(s: &[u8], at: usize) -> Varint32
    ensures { result ≡ varint32_at s.now at }
{
    let mut value: u32 = 0;
    let mut shift: u32 = 0;
    let mut left: usize = 5;
    let mut p = at;
    while 0 < left {
        if s.len() <= p {
            return Varint32::Refused(types::END);
        }
        let b = wide32(s[p]);
        value = std::num::wrapping_add_u32(value, (b % 128) << shift);
        p = p + 1;
        if b < 128 {
            return Varint32::Got(value, p);
        }
        shift = shift + 7;
        left = left - 1;
    }
    Varint32::Refused(types::LONG_VARINT)
}

// Nearly every number is one byte: that case is answered at once, the others by the loop, which stands apart so that this is short enough to stand in its callers.
pub fn read_varint32(s: &[u8], at: usize) -> Varint32
    ensures { result ≡ varint32_at s.now at }
{
    if at < s.len() {
        let b = wide32(s[at]);
        if b < 128 {
            return Varint32::Got(b, at + 1);
        }
    }
    long_varint32(s, at)
}

fn long_varint64(s: &[u8], at: usize) -> Varint64
    ensures { result ≡ varint64_at s.now at }
{
    let mut value: u64 = 0;
    let mut shift: u64 = 0;
    let mut left: usize = 10;
    let mut p = at;
    while 0 < left {
        if s.len() <= p {
            return Varint64::Refused(types::END);
        }
        let b = wide64(s[p]);
        value = std::num::wrapping_add_u64(value, (b % 128) << shift);
        p = p + 1;
        if b < 128 {
            return Varint64::Got(value, p);
        }
        shift = shift + 7;
        left = left - 1;
    }
    Varint64::Refused(types::LONG_VARINT)
}

pub fn read_varint64(s: &[u8], at: usize) -> Varint64
    ensures { result ≡ varint64_at s.now at }
{
    if at < s.len() {
        let b = wide64(s[at]);
        if b < 128 {
            return Varint64::Got(b, at + 1);
        }
    }
    long_varint64(s, at)
}

// An i16 is read as a 32-bit zigzag number. One that has more than 16 bits is out of range.
pub fn read_i16(s: &[u8], at: usize) -> Int16
    ensures { result ≡ signed16_at s.now at }
{
    match read_varint32(s, at) {
        Varint32::Got(v, p) => {
            if v < 0x1_0000 {
                return Int16::Got(i16::from_zigzag(v as u16), p);
            }
            Int16::Refused(types::RANGE)
        }
        Varint32::Refused(no) => Int16::Refused(no),
    }
}

// Whether `have` bytes are too few for `need` of them from a place on. The sum of the two could wrap, so it is not taken.
pub fn lacks_room(have: usize, at: usize, need: usize) -> bool
    ensures { result ≡ nat_lt have (at + need) }
{
    if have < at {
        return true;
    }
    have - at < need
}

// The number of the four bytes from a place on, the last of them the highest.
fn read_four(s: &[u8], at: usize) -> u64
    requires { at + 4 ≤ length s.now }
    ensures { (result ≡ little (slice at (at + 4) s.now)) × (result < 0x1_0000_0000) }
{
    wide64(s[at]) + (wide64(s[at + 1]) << 8) + (wide64(s[at + 2]) << 16) + (wide64(s[at + 3]) << 24)
}

// The four bytes from a place on, the last of them the highest.
pub fn read_le32(s: &[u8], at: usize) -> Bits32
    ensures { result ≡ bits32_at s.now at }
{
    if lacks_room(s.len(), at, 4) {
        return Bits32::Refused(types::END);
    }
    let bits = read_four(s, at);
    Bits32::Got(bits as u32, at + 4)
}

// The eight bytes from a place on, the last of them the highest. Without a loop they are one load.
pub fn read_le64(s: &[u8], at: usize) -> Bits64
    ensures { result ≡ bits64_at s.now at }
{
    if lacks_room(s.len(), at, 8) {
        return Bits64::Refused(types::END);
    }
    let low = read_four(s, at);
    let high = read_four(s, at + 4);
    Bits64::Got(low + (high << 32), at + 8)
}

// One byte at a place of the buffer. Where a writer finds no room the buffer keeps its bytes.
pub fn write_byte(buf: &mut [u8], at: usize, b: u8) -> Wrote
    ensures { (result ≡ wrote_at buf.old at (b ∷ [])) × (buf.new ≡ put_at buf.old at (b ∷ [])) }
{
    if lacks_room(buf.len(), at, 1) {
        return Wrote::Refused(types::NO_ROOM);
    }
    buf[at] = b;
    Wrote::To(at + 1)
}

// How many bytes the number takes.
pub fn varint_len(n: u64) -> usize
    ensures { result ≡ length (fewest n) }
{
    let mut rest = n;
    let mut len: usize = 1;
    while 128 <= rest {
        rest = rest / 128;
        len = len + 1;
    }
    len
}

// The number in the fewest bytes.
pub fn write_varint64(buf: &mut [u8], at: usize, n: u64) -> Wrote
    ensures { (result ≡ wrote_at buf.old at (fewest n)) × (buf.new ≡ put_at buf.old at (fewest n)) }
{
    let len = varint_len(n);
    if lacks_room(buf.len(), at, len) {
        return Wrote::Refused(types::NO_ROOM);
    }
    let mut rest = n;
    let mut p = at;
    while 128 <= rest {
        buf[p] = (rest % 128 + 128) as u8;
        rest = rest / 128;
        p = p + 1;
    }
    buf[p] = rest as u8;
    Wrote::To(p + 1)
}

pub fn write_varint32(buf: &mut [u8], at: usize, n: u32) -> Wrote
    ensures { (result ≡ wrote_at buf.old at (fewest n)) × (buf.new ≡ put_at buf.old at (fewest n)) }
{
    write_varint64(buf, at, n as u64)
}

// The four lowest bytes of a number, lowest first.
fn write_four(buf: &mut [u8], at: usize, n: u64)
    requires { at + 4 ≤ length buf.old }
    ensures { buf.new ≡ sets buf.old at (four n) }
{
    buf[at] = (n % 256) as u8;
    buf[at + 1] = ((n >> 8) % 256) as u8;
    buf[at + 2] = ((n >> 16) % 256) as u8;
    buf[at + 3] = ((n >> 24) % 256) as u8;
}

// The four bytes of the bits, lowest first.
pub fn write_le32(buf: &mut [u8], at: usize, n: u32) -> Wrote
    ensures { (result ≡ wrote_at buf.old at (four n)) × (buf.new ≡ put_at buf.old at (four n)) }
{
    if lacks_room(buf.len(), at, 4) {
        return Wrote::Refused(types::NO_ROOM);
    }
    write_four(buf, at, n as u64);
    Wrote::To(at + 4)
}

// The eight bytes of the bits. Without a loop they are one store.
pub fn write_le64(buf: &mut [u8], at: usize, n: u64) -> Wrote
    ensures { (result ≡ wrote_at buf.old at (eight n)) × (buf.new ≡ put_at buf.old at (eight n)) }
{
    if lacks_room(buf.len(), at, 8) {
        return Wrote::Refused(types::NO_ROOM);
    }
    write_four(buf, at, n);
    write_four(buf, at + 4, n >> 32);
    Wrote::To(at + 8)
}
