// The bytes of the binary protocol's headers, put into the lent buffer at a place: each tests the room for all of its bytes before it puts the first, so that
// a refusal has written nothing. No state stands here, and nothing is asked of the arguments. (A scalar is a call of big_endian.)
#![tactic(auto)]

ghost use Rattle.std.specs.Prelude.{◌≡◌, ◌∷◌, ◌++◌, ◌+◌, ltb};
ghost use Rattle.numbers.specs.Answers.{wrote_at, put_at};
ghost use Rattle.big_endian.specs.Big.{big4};
ghost use Rattle.binary_puts.specs.Bytes.{truth_byte, field_bytes, items_bytes, pairs_bytes, string_bytes, message_bytes};

use numbers::Wrote;
use types::{FieldId, SeqNo, TMessageType, TType};

const BINARY_PROTOCOL_VERSION_1: u32 = 0x8001_0000;

// An element or a field, it is one byte.
pub fn bool_to_u8(truth: bool) -> u8
    ensures { result ≡ truth_byte truth }
{
    if truth { 1 } else { 0 }
}

// Whether there are too few bytes for two pieces from a place on, one behind the other. Their lengths together could wrap, so the two are not added.
fn lacks_both(have: usize, at: usize, first: usize, second: usize) -> bool
    ensures { result ≡ ltb have (at + (first + second)) }
{
    if numbers::lacks_room(have, at, first) {
        return true;
    }
    numbers::lacks_room(have, at + first, second)
}

// A byte, then four bytes.
fn byte_word(buf: &mut [u8], at: usize, b: u8, n: u32) -> Wrote
    ensures { (result ≡ wrote_at buf.old at (b ∷ big4 n)) × (buf.new ≡ put_at buf.old at (b ∷ big4 n)) }
{
    if numbers::lacks_room(buf.len(), at, 5) {
        return Wrote::Refused(types::NO_ROOM);
    }
    numbers::write_byte(buf, at, b);
    big_endian::write_be32(buf, at + 1, n)
}

// The length, then the bytes. A length has 32 bits: what a number has above them is left out.
pub fn binary(buf: &mut [u8], at: usize, bytes: &[u8]) -> Wrote
    ensures { (result ≡ wrote_at buf.old at (string_bytes bytes.now)) × (buf.new ≡ put_at buf.old at (string_bytes bytes.now)) }
{
    let n = bytes.len();
    if lacks_both(buf.len(), at, 4, n) {
        return Wrote::Refused(types::NO_ROOM);
    }
    big_endian::write_be32(buf, at, (n % 0x1_0000_0000) as u32);
    puts::copy(buf, at + 4, bytes)
}

// A field's header: the type's code and the id.
pub fn field_header(buf: &mut [u8], at: usize, kind: TType, id: FieldId) -> Wrote
    ensures { (result ≡ wrote_at buf.old at (field_bytes kind id.0)) × (buf.new ≡ put_at buf.old at (field_bytes kind id.0)) }
{
    if numbers::lacks_room(buf.len(), at, 3) {
        return Wrote::Refused(types::NO_ROOM);
    }
    let code = binary_codes::field_type_to_u8(kind);
    numbers::write_byte(buf, at, code);
    let bits = id.0.cast_unsigned();
    big_endian::write_be16(buf, at + 1, bits)
}

// A list's or a set's header.
pub fn items(buf: &mut [u8], at: usize, kind: TType, n: u32) -> Wrote
    ensures { (result ≡ wrote_at buf.old at (items_bytes kind n)) × (buf.new ≡ put_at buf.old at (items_bytes kind n)) }
{
    let code = binary_codes::field_type_to_u8(kind);
    byte_word(buf, at, code, n)
}

// Two bytes, then four.
fn codes_word(buf: &mut [u8], at: usize, a: u8, b: u8, n: u32) -> Wrote
    ensures { (result ≡ wrote_at buf.old at (a ∷ b ∷ big4 n)) × (buf.new ≡ put_at buf.old at (a ∷ b ∷ big4 n)) }
{
    if numbers::lacks_room(buf.len(), at, 6) {
        return Wrote::Refused(types::NO_ROOM);
    }
    numbers::write_byte(buf, at, a);
    byte_word(buf, at + 1, b, n)
}

// A map's header: an empty one has Stop for its types.
pub fn pairs(buf: &mut [u8], at: usize, key: TType, value: TType, n: u32) -> Wrote
    ensures { (result ≡ wrote_at buf.old at (pairs_bytes key value n)) × (buf.new ≡ put_at buf.old at (pairs_bytes key value n)) }
{
    if n == 0 {
        return codes_word(buf, at, 0, 0, 0);
    }
    let first = binary_codes::field_type_to_u8(key);
    let second = binary_codes::field_type_to_u8(value);
    codes_word(buf, at, first, second, n)
}

// Four bytes, a name, four bytes.
fn envelope(buf: &mut [u8], at: usize, word: u32, name: &[u8], bits: u32) -> Wrote
    ensures { (result ≡ wrote_at buf.old at (big4 word ++ (string_bytes name.now ++ big4 bits))) × (buf.new ≡ put_at buf.old at (big4 word ++ (string_bytes name.now ++ big4 bits))) }
{
    let n = name.len();
    if lacks_both(buf.len(), at, 12, n) {
        return Wrote::Refused(types::NO_ROOM);
    }
    big_endian::write_be32(buf, at, word);
    binary(buf, at + 4, name);
    big_endian::write_be32(buf, at + 8 + n, bits)
}

// A message's header: the version and the type in one word, the name, the sequence number.
pub fn message(buf: &mut [u8], at: usize, kind: TMessageType, sequence: SeqNo, name: &[u8]) -> Wrote
    ensures { (result ≡ wrote_at buf.old at (message_bytes kind sequence.0 name.now)) × (buf.new ≡ put_at buf.old at (message_bytes kind sequence.0 name.now)) }
{
    let code = types::message_type_to_u8(kind);
    let bits = sequence.0.cast_unsigned();
    envelope(
        buf,
        at,
        BINARY_PROTOCOL_VERSION_1 + (code as u32),
        name,
        bits,
    )
}
