// The bytes of headers and scalars, put into the lent buffer at a place: each works out how many bytes there will be and tests the room
// before it puts the first, so that a refusal has written nothing. No state stands here, and nothing is asked of the arguments.
#![tactic(auto)]

ghost use Rattle.std.specs.Prelude.{◌≡◌, [], ◌∷◌, ◌++◌, ◌+◌, ◌%◌, ltb, length};
ghost use Rattle.std.specs.Int.{w32};
ghost use Rattle.std.proofs.Common.{of_z};
ghost use Rattle.numbers.specs.Varint.{fewest};
ghost use Rattle.numbers.specs.Answers.{wrote_at, put_at};
ghost use Rattle.puts.specs.Bytes.{short_delta, field_bytes, items_bytes, pairs_bytes, string_bytes, message_bytes};

use numbers::Wrote;
use types::{FieldId, SeqNo, TMessageType, TType};
use zigzag::Zigzag;

pub mod wrong;

const COMPACT_PROTOCOL_ID: u8 = 0x82;

const COMPACT_VERSION: u8 = 0x01;

// Whether there are too few bytes for two pieces from a place on, one behind the other. Their lengths together could wrap, so the two are not added.
fn lacks_both(have: usize, at: usize, first: usize, second: usize) -> bool
    ensures { result ≡ ltb have (at + (first + second)) }
{
    if numbers::lacks_room(have, at, first) {
        return true;
    }
    numbers::lacks_room(have, at + first, second)
}

// The bytes as they are.
pub fn copy(buf: &mut [u8], at: usize, bytes: &[u8]) -> Wrote
    ensures { (result ≡ wrote_at buf.old at bytes.now) × (buf.new ≡ put_at buf.old at bytes.now) }
{
    if numbers::lacks_room(buf.len(), at, bytes.len()) {
        return Wrote::Refused(types::NO_ROOM);
    }
    let mut i: usize = 0;
    while i < bytes.len() {
        buf[at + i] = bytes[i];
        i = i + 1;
    }
    Wrote::To(at + i)
}

// A byte, then a number in the fewest bytes.
fn byte_varint(buf: &mut [u8], at: usize, b: u8, n: u32) -> Wrote
    ensures { (result ≡ wrote_at buf.old at (b ∷ fewest n)) × (buf.new ≡ put_at buf.old at (b ∷ fewest n)) }
{
    let total = 1 + numbers::varint_len(n as u64);
    if numbers::lacks_room(buf.len(), at, total) {
        return Wrote::Refused(types::NO_ROOM);
    }
    numbers::write_byte(buf, at, b);
    numbers::write_varint32(buf, at + 1, n)
}

// A number in the fewest bytes, then a byte.
fn varint_byte(buf: &mut [u8], at: usize, n: u32, b: u8) -> Wrote
    ensures { (result ≡ wrote_at buf.old at (fewest n ++ (b ∷ []))) × (buf.new ≡ put_at buf.old at (fewest n ++ (b ∷ []))) }
{
    let head = numbers::varint_len(n as u64);
    if numbers::lacks_room(buf.len(), at, head + 1) {
        return Wrote::Refused(types::NO_ROOM);
    }
    numbers::write_varint32(buf, at, n);
    numbers::write_byte(buf, at + head, b)
}

// The length, then the bytes.
pub fn binary(buf: &mut [u8], at: usize, bytes: &[u8]) -> Wrote
    ensures { (result ≡ wrote_at buf.old at (string_bytes bytes.now)) × (buf.new ≡ put_at buf.old at (string_bytes bytes.now)) }
{
    let n = bytes.len();
    let head = numbers::varint_len(n as u64);
    if lacks_both(buf.len(), at, head, n) {
        return Wrote::Refused(types::NO_ROOM);
    }
    numbers::write_varint64(buf, at, n as u64);
    copy(buf, at + head, bytes)
}

// How far the id is over the last one where the short form can say it, 1 to 14; else 0. In 32 bits no difference of two ids overflows.
fn short_delta(last: FieldId, id: FieldId) -> u8
    ensures { result ≡ short_delta last.0 id.0 }
{
    let delta = (id.0 as i32) - (last.0 as i32);
    if delta < 1 {
        return 0;
    }
    if 14 < delta {
        return 0;
    }
    delta as u8
}

// A field's header: the short form, or the type's code with the id behind it. A code has 4 bits: what a number has above them is left out.
pub fn field_header(buf: &mut [u8], at: usize, last: FieldId, id: FieldId, code: u8) -> Wrote
    ensures { (result ≡ wrote_at buf.old at (field_bytes last.0 id.0 (code % 16))) × (buf.new ≡ put_at buf.old at (field_bytes last.0 id.0 (code % 16))) }
{
    let low = code % 16;
    let delta = short_delta(last, id);
    if delta == 0 {
        let n = id.0.to_zigzag();
        return byte_varint(buf, at, low, n as u32);
    }
    numbers::write_byte(buf, at, delta * 16 + low)
}

// A list's or a set's header: counts 0 to 14 stand in the first byte.
pub fn items(buf: &mut [u8], at: usize, kind: TType, n: u32) -> Wrote
    ensures { (result ≡ wrote_at buf.old at (items_bytes kind n)) × (buf.new ≡ put_at buf.old at (items_bytes kind n)) }
{
    let code = types::type_to_u8(kind);
    if n < 15 {
        return numbers::write_byte(buf, at, (n as u8) * 16 + code);
    }
    byte_varint(buf, at, 0xF0 + code, n)
}

// A map's header: an empty one is one byte, without types.
pub fn pairs(buf: &mut [u8], at: usize, key: TType, value: TType, n: u32) -> Wrote
    ensures { (result ≡ wrote_at buf.old at (pairs_bytes key value n)) × (buf.new ≡ put_at buf.old at (pairs_bytes key value n)) }
{
    if n == 0 {
        return numbers::write_byte(buf, at, 0);
    }
    let high = types::type_to_u8(key);
    let low = types::type_to_u8(value);
    varint_byte(buf, at, n, high * 16 + low)
}

// The first byte of a message, the second, the sequence number's bits, and the name.
fn envelope(buf: &mut [u8], at: usize, second: u8, bits: u32, name: &[u8]) -> Wrote
    ensures { (result ≡ wrote_at buf.old at (0x82 ∷ second ∷ (fewest bits ++ string_bytes name.now))) × (buf.new ≡ put_at buf.old at (0x82 ∷ second ∷ (fewest bits ++ string_bytes name.now))) }
{
    let head = 2 + numbers::varint_len(bits as u64);
    let start = head + numbers::varint_len(name.len() as u64);
    if lacks_both(buf.len(), at, start, name.len()) {
        return Wrote::Refused(types::NO_ROOM);
    }
    numbers::write_byte(buf, at, COMPACT_PROTOCOL_ID);
    byte_varint(buf, at + 1, second, bits);
    binary(buf, at + head, name)
}

// How many bytes a field's header takes.
pub fn field_len(last: FieldId, id: FieldId, code: u8) -> usize
    ensures { result ≡ length (field_bytes last.0 id.0 (code % 16)) }
{
    let delta = short_delta(last, id);
    if delta == 0 {
        return 1 + numbers::varint_len(id.0.to_zigzag() as u64);
    }
    1
}

// How many bytes a list's or a set's header takes.
pub fn items_len(kind: TType, n: u32) -> usize
    ensures { result ≡ length (items_bytes kind n) }
{
    if n < 15 {
        return 1;
    }
    1 + numbers::varint_len(n as u64)
}

// How many bytes a map's header takes.
pub fn pairs_len(key: TType, value: TType, n: u32) -> usize
    ensures { result ≡ length (pairs_bytes key value n) }
{
    if n == 0 {
        return 1;
    }
    numbers::varint_len(n as u64) + 1
}

// How many bytes stand before a message's name.
pub fn message_head(sequence: SeqNo, name: &[u8]) -> usize
    ensures { result ≡ 2 + length (fewest (of_z w32 sequence.0)) + length (fewest (length name.now)) }
{
    let bits = sequence.0.cast_unsigned();
    2 + numbers::varint_len(bits as u64) + numbers::varint_len(name.len() as u64)
}

// A message's header: the second byte holds its type and the version.
pub fn message(buf: &mut [u8], at: usize, kind: TMessageType, sequence: SeqNo, name: &[u8]) -> Wrote
    ensures { (result ≡ wrote_at buf.old at (message_bytes kind sequence.0 name.now)) × (buf.new ≡ put_at buf.old at (message_bytes kind sequence.0 name.now)) }
{
    let bits = sequence.0.cast_unsigned();
    let second = types::message_type_to_u8(kind) * 32 + COMPACT_VERSION;
    envelope(buf, at, second, bits, name)
}
