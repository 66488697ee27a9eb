// Text into a lent buffer at a place: bytes, words, decimal and hex, names of types. Each call writes as much as fits and answers the place behind it,
// as the Rust's `Write` for `&mut [u8]` does, so that none of them asks for room; that there is room is a law of the caller's text.
#![tactic(auto, using(crate::proofs::Inks::cases), unfolding(crate::specs::Words::type_name, crate::specs::Words::truth_name))]

ghost use Rattle.std.specs.Prelude.{◌≡◌, ◌<◌};
ghost use Rattle.text.specs.Pen.{dot, inked};
ghost use Rattle.text.specs.Words.{decimal, signed, hex_digit, hex, hexes, type_name, truth_name};

use types::TType;

// One byte; at the buffer's end it is dropped.
pub fn put_byte(out: &mut [u8], to: usize, b: u8) -> usize
    ensures { (out.new, result) ≡ dot b (out.old, to) }
{
    if to < out.len() {
        out[to] = b;
        return to + 1;
    }
    to
}

// The bytes of a word as they stand.
pub fn put_word(out: &mut [u8], to: usize, word: &[u8]) -> usize
    ensures { (out.new, result) ≡ inked word.now (out.old, to) }
{
    let mut p = to;
    for b in word {
        p = put_byte(out, p, *b);
    }
    p
}

// A number in decimal: the digits above the last, and then the last.
pub fn put_decimal(out: &mut [u8], to: usize, n: u64) -> usize
    ensures { (out.new, result) ≡ inked (decimal n) (out.old, to) }
{
    if n < 10 {
        return put_byte(out, to, (48 + n) as u8);
    }
    let p = put_decimal(out, to, n / 10);
    put_byte(out, p, (48 + n % 10) as u8)
}

// A signed number: its sign where it is below zero, and its size.
pub fn put_int(out: &mut [u8], to: usize, n: i64) -> usize
    ensures { (out.new, result) ≡ inked (signed n) (out.old, to) }
{
    if n < 0 {
        let p = put_byte(out, to, b'-');
        return put_decimal(out, p, n.unsigned_abs());
    }
    put_decimal(out, to, n.unsigned_abs())
}

fn hex_digit(d: u64) -> u8
    requires { d < 16 }
    ensures { result ≡ hex_digit d }
{
    if d < 10 {
        return (48 + d) as u8;
    }
    (87 + d) as u8
}

// So many hex digits of a number, the highest first.
pub fn put_hex(out: &mut [u8], to: usize, n: u64, count: usize) -> usize
    ensures { (out.new, result) ≡ inked (hex count n) (out.old, to) }
{
    if count == 0 {
        return to;
    }
    let p = put_hex(out, to, n / 16, count - 1);
    put_byte(out, p, hex_digit(n % 16))
}

// Bytes, two hex digits for each.
pub fn put_bytes(out: &mut [u8], to: usize, bytes: &[u8]) -> usize
    ensures { (out.new, result) ≡ inked (hexes bytes.now) (out.old, to) }
{
    let mut p = to;
    for b in bytes {
        p = put_hex(out, p, u64::from(*b), 2);
    }
    p
}

pub fn put_type(out: &mut [u8], to: usize, kind: TType) -> usize
    ensures { (out.new, result) ≡ inked (type_name kind) (out.old, to) }
{
    match kind {
        TType::Stop => put_word(out, to, b"stop"),
        TType::Bool => put_word(out, to, b"bool"),
        TType::I08 => put_word(out, to, b"i8"),
        TType::I16 => put_word(out, to, b"i16"),
        TType::I32 => put_word(out, to, b"i32"),
        TType::I64 => put_word(out, to, b"i64"),
        TType::Double => put_word(out, to, b"double"),
        TType::String => put_word(out, to, b"string"),
        TType::List => put_word(out, to, b"list"),
        TType::Set => put_word(out, to, b"set"),
        TType::Map => put_word(out, to, b"map"),
        TType::Struct => put_word(out, to, b"struct"),
        TType::Uuid => put_word(out, to, b"uuid"),
    }
}

pub fn put_truth(out: &mut [u8], to: usize, truth: bool) -> usize
    ensures { (out.new, result) ≡ inked (truth_name truth) (out.old, to) }
{
    if truth {
        return put_word(out, to, b"true");
    }
    put_word(out, to, b"false")
}
