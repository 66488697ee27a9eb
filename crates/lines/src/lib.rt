// The lines of the printing program, one call for each kind of line, into a lent buffer at a place: as much as fits, as in `text`.
#![tactic(auto, using(text::proofs::Inks::inked_append), unfolding(crate::specs::Lines::line, crate::specs::Lines::spaced_type, crate::specs::Lines::spaced_int, crate::specs::Lines::last_number, crate::specs::Lines::last_bytes, crate::specs::Lines::scalar_text, text::specs::Pen::inked))]

ghost use Rattle.std.specs.Prelude.{◌≡◌};
ghost use Rattle.text.specs.Pen.{inked};
ghost use Rattle.lines.specs.Lines.{line, spaced_type, spaced_int, last_number, scalar_text, message, struct, field, stop, items, map, scalar, part, end, refusal};

use scalars::Scalar;
use types::{FieldId, SeqNo, TMessageType, TType};

// " ", a type.
fn put_type(out: &mut [u8], to: usize, kind: TType) -> usize
    ensures { (out.new, result) ≡ inked (spaced_type kind) (out.old, to) }
{
    let a = text::put_word(out, to, b" ");
    text::put_type(out, a, kind)
}

// " ", a number and the line's end.
fn put_count(out: &mut [u8], to: usize, n: u64) -> usize
    ensures { (out.new, result) ≡ inked (last_number n) (out.old, to) }
{
    let a = text::put_word(out, to, b" ");
    let b = text::put_decimal(out, a, n);
    text::put_word(out, b, b"\n")
}

// " ", a message's sequence number.
fn put_seq(out: &mut [u8], to: usize, seq: SeqNo) -> usize
    ensures { (out.new, result) ≡ inked (spaced_int seq.0) (out.old, to) }
{
    let a = text::put_word(out, to, b" ");
    text::put_int(out, a, i64::from(seq.0))
}

pub fn put_message(out: &mut [u8], to: usize, kind: TMessageType, seq: SeqNo, name: &[u8]) -> usize
    ensures { (out.new, result) ≡ inked (line (message kind seq.0 name.now)) (out.old, to) }
{
    let a = text::put_word(out, to, b"message ");
    let b = text::put_decimal(out, a, u64::from(types::message_type_to_u8(kind)));
    let c = put_seq(out, b, seq);
    let d = text::put_word(out, c, b" ");
    put_part(out, d, name)
}

pub fn put_struct(out: &mut [u8], to: usize) -> usize
    ensures { (out.new, result) ≡ inked (line struct) (out.old, to) }
{
    text::put_word(out, to, b"struct\n")
}

pub fn put_field(out: &mut [u8], to: usize, id: FieldId, kind: TType) -> usize
    ensures { (out.new, result) ≡ inked (line (field id.0 kind)) (out.old, to) }
{
    let a = text::put_word(out, to, b"field ");
    let b = text::put_int(out, a, i64::from(id.0));
    let c = put_type(out, b, kind);
    text::put_word(out, c, b"\n")
}

pub fn put_stop(out: &mut [u8], to: usize) -> usize
    ensures { (out.new, result) ≡ inked (line stop) (out.old, to) }
{
    text::put_word(out, to, b"stop\n")
}

// A list or a set, which `whole` says, with the type and the number of its elements.
pub fn put_items(out: &mut [u8], to: usize, whole: TType, kind: TType, count: u32) -> usize
    ensures { (out.new, result) ≡ inked (line (items whole kind count)) (out.old, to) }
{
    let a = text::put_type(out, to, whole);
    let b = put_type(out, a, kind);
    put_count(out, b, u64::from(count))
}

// An empty map has no types to be named.
pub fn put_map(out: &mut [u8], to: usize, key: TType, value: TType, count: u32) -> usize
    ensures { (out.new, result) ≡ inked (line (map key value count)) (out.old, to) }
{
    if count == 0 {
        return text::put_word(out, to, b"map 0\n");
    }
    let a = text::put_word(out, to, b"map");
    let b = put_type(out, a, key);
    let c = put_type(out, b, value);
    put_count(out, c, u64::from(count))
}

fn put_scalar_text(out: &mut [u8], to: usize, value: Scalar) -> usize
    ensures { (out.new, result) ≡ inked (scalar_text value) (out.old, to) }
{
    match value {
        Scalar::Bool(truth) => text::put_truth(out, to, truth),
        Scalar::Int(n) => text::put_int(out, to, n),
        Scalar::Double(_) => text::put_hex(out, to, scalars::to_bits(value), 16),
        Scalar::NotANumber(bits) => text::put_hex(out, to, bits, 16),
    }
}

pub fn put_scalar(out: &mut [u8], to: usize, value: Scalar) -> usize
    ensures { (out.new, result) ≡ inked (line (scalar value)) (out.old, to) }
{
    let a = put_scalar_text(out, to, value);
    text::put_word(out, a, b"\n")
}

// A string's, a binary's or a uuid's bytes.
pub fn put_part(out: &mut [u8], to: usize, bytes: &[u8]) -> usize
    ensures { (out.new, result) ≡ inked (line (part bytes.now)) (out.old, to) }
{
    let a = text::put_word(out, to, b"x");
    let b = text::put_bytes(out, a, bytes);
    text::put_word(out, b, b"\n")
}

pub fn put_end(out: &mut [u8], to: usize, used: usize, left: usize) -> usize
    ensures { (out.new, result) ≡ inked (line (end used left)) (out.old, to) }
{
    let a = text::put_word(out, to, b"end ");
    let b = text::put_decimal(out, a, used as u64);
    put_count(out, b, left as u64)
}

pub fn put_refusal(out: &mut [u8], to: usize, why: u8) -> usize
    ensures { (out.new, result) ≡ inked (line (refusal why)) (out.old, to) }
{
    let a = text::put_word(out, to, b"refused ");
    let b = text::put_decimal(out, a, u64::from(why));
    text::put_word(out, b, b"\n")
}
