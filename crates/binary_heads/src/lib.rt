// The binary protocol's headers and scalars, read at a place of the lent bytes, with no state: the bodies of the Rust's `read_*`. Each
// answers what it found and the place behind it, or the number of a refusal. An i8 and a uuid are read as in the compact protocol (`heads`).
#![tactic(auto)]

ghost use Rattle.std.specs.Prelude.{◌≡◌, ◌≤◌, pos, length};
ghost use Rattle.heads.specs.Answers.{some_at};
ghost use Rattle.protocols.specs.Answers.{truth_at, int16_at, int32_at, int64_at, double_at, binary_at, items_at, pairs_at, items_head_at, pairs_head_at, field_at};
ghost use Rattle.binary_heads.specs.Words.{binary};
ghost use Rattle.binary_heads.specs.Answers.{text_at, kind_at, sized_at, paired_at, named_at, message_at};

use big_endian::Bits16;
use heads::{
    BoolRead, DoubleRead, FieldHead, I16Read, I32Read, I64Read, ListHead, MapHead, PartRead,
};
use numbers::{Bits32, Bits64};
use types::{
    FieldId, MessageTypeRead, Place, SeqNo, TConfiguration, TMessageType, TType, TypeRead,
};

// A message's header: its type and sequence number, where its name starts and ends, and the place behind the header.
#[derive(Clone, Copy)]
pub enum MessageHead {
    Got(TMessageType, SeqNo, Place, Place, Place),
    Refused(u8),
}

// A type, and the place behind its code.
#[derive(Clone, Copy)]
pub enum KindRead {
    Got(TType, Place),
    Refused(u8),
}

#[tactic(auto, using(crate::proofs::Cases::i16_cases))]
pub fn read_i16(s: &[u8], place: Place) -> I16Read
    ensures { result ≡ int16_at binary s.now place.0 }
{
    match big_endian::read_be16(s, place.0) {
        Bits16::Got(bits, next) => I16Read::Got(bits.cast_signed(), Place(next)),
        Bits16::Refused(why) => I16Read::Refused(why),
    }
}

#[tactic(auto, using(crate::proofs::Cases::i32_cases))]
pub fn read_i32(s: &[u8], place: Place) -> I32Read
    ensures { result ≡ int32_at binary s.now place.0 }
{
    match big_endian::read_be32(s, place.0) {
        Bits32::Got(bits, next) => I32Read::Got(bits.cast_signed(), Place(next)),
        Bits32::Refused(why) => I32Read::Refused(why),
    }
}

#[tactic(auto, using(crate::proofs::Cases::i64_cases))]
pub fn read_i64(s: &[u8], place: Place) -> I64Read
    ensures { result ≡ int64_at binary s.now place.0 }
{
    match big_endian::read_be64(s, place.0) {
        Bits64::Got(bits, next) => I64Read::Got(bits.cast_signed(), Place(next)),
        Bits64::Refused(why) => I64Read::Refused(why),
    }
}

// A double's 64 bits.
#[tactic(auto, using(crate::proofs::Cases::double_cases))]
pub fn read_double(s: &[u8], place: Place) -> DoubleRead
    ensures { result ≡ double_at binary s.now place.0 }
{
    match big_endian::read_be64(s, place.0) {
        Bits64::Got(bits, next) => DoubleRead::Got(bits, Place(next)),
        Bits64::Refused(why) => DoubleRead::Refused(why),
    }
}

// The Rust takes any byte but 0 for true.
#[tactic(auto, using(crate::proofs::Cases::truth_cases))]
pub fn read_bool(s: &[u8], place: Place) -> BoolRead
    ensures { result ≡ truth_at binary s.now place.0 }
{
    let at = place.0;
    if s.len() <= at {
        return BoolRead::Refused(types::END);
    }
    match s[at] {
        0 => BoolRead::Got(false, Place(at + 1)),
        1 => BoolRead::Got(true, Place(at + 1)),
        _ => BoolRead::Refused(types::BAD_BOOL),
    }
}

// The next n bytes, if they are there.
#[tactic(auto, using(heads::proofs::Cases::some_cases))]
fn some(s: &[u8], from: usize, n: usize) -> PartRead
    requires { from ≤ length s.now }
    ensures { result ≡ some_at s.now n from }
{
    if s.len() - from < n {
        return PartRead::Refused(types::END);
    }
    PartRead::Got(Place(from), Place(from + n))
}

// So many bytes: the length is checked before a byte is missed.
#[tactic(auto, using(crate::proofs::Cases::sized_cases))]
fn sized(s: &[u8], from: usize, n: u32, limits: TConfiguration) -> PartRead
    requires { from ≤ length s.now }
    ensures { result ≡ sized_at s.now limits n from }
{
    if 2_147_483_647 < n {
        return PartRead::Refused(types::NEGATIVE_SIZE);
    }
    if limits.string < n {
        return PartRead::Refused(types::SIZE_LIMIT);
    }
    some(s, from, n as usize)
}

#[tactic(auto, using(crate::proofs::Cases::bytes_cases))]
pub fn read_bytes(s: &[u8], place: Place, limits: TConfiguration) -> PartRead
    ensures { result ≡ binary_at binary s.now limits place.0 }
{
    match big_endian::read_be32(s, place.0) {
        Bits32::Refused(why) => PartRead::Refused(why),
        Bits32::Got(n, from) => sized(s, from, n, limits),
    }
}

#[tactic(auto, using(crate::proofs::Cases::text_cases))]
pub fn read_string(s: &[u8], place: Place, limits: TConfiguration) -> PartRead
    ensures { result ≡ text_at s.now limits place.0 }
{
    match read_bytes(s, place, limits) {
        PartRead::Refused(why) => PartRead::Refused(why),
        PartRead::Got(start, end) => {
            let a = start.0;
            let e = end.0;
            if utf8::is_utf8(&s[a..e]) {
                return PartRead::Got(start, end);
            }
            PartRead::Refused(types::BAD_UTF8)
        }
    }
}

// A type by its code.
#[tactic(auto, using(crate::proofs::Cases::kind_cases))]
fn read_kind(s: &[u8], at: usize) -> KindRead
    ensures { result ≡ kind_at s.now at }
{
    if s.len() <= at {
        return KindRead::Refused(types::END);
    }
    match binary_codes::field_type_from_u8(s[at]) {
        TypeRead::Refused(why) => KindRead::Refused(why),
        TypeRead::Got(kind) => KindRead::Got(kind, Place(at + 1)),
    }
}

// What a list's header says, whatever stands behind it.
#[tactic(auto, using(crate::proofs::Cases::list_cases))]
fn list_header(s: &[u8], place: Place, limits: TConfiguration) -> ListHead
    ensures { result ≡ items_at binary s.now limits place.0 }
{
    match read_kind(s, place.0) {
        KindRead::Refused(why) => ListHead::Refused(why),
        KindRead::Got(kind, at) => match big_endian::read_be32(s, at.0) {
            Bits32::Refused(why) => ListHead::Refused(why),
            Bits32::Got(n, next) => {
                let why = heads::count_refusal(n, limits);
                if why != 0 {
                    return ListHead::Refused(why);
                }
                ListHead::Got(kind, n, Place(next))
            }
        },
    }
}

// A header whose elements can't be there is refused, before a caller reserves room for them.
#[tactic(auto, using(crate::proofs::Ahead::list_head_cases))]
pub fn read_list_begin(s: &[u8], place: Place, limits: TConfiguration) -> ListHead
    ensures { result ≡ items_head_at binary s.now limits place.0 }
{
    match list_header(s, place, limits) {
        ListHead::Refused(why) => ListHead::Refused(why),
        ListHead::Got(kind, count, next) => {
            if numbers::lacks_room(s.len(), next.0, binary_codes::least_bytes(count, kind)) {
                return ListHead::Refused(types::END);
            }
            ListHead::Got(kind, count, next)
        }
    }
}

// A map's count, once its types are read.
#[tactic(auto, using(crate::proofs::Cases::paired_cases))]
fn paired(s: &[u8], at: usize, key: TType, value: TType, limits: TConfiguration) -> MapHead
    ensures { result ≡ paired_at s.now limits key value at }
{
    match big_endian::read_be32(s, at) {
        Bits32::Refused(why) => MapHead::Refused(why),
        Bits32::Got(n, next) => {
            let why = heads::count_refusal(n, limits);
            if why != 0 {
                return MapHead::Refused(why);
            }
            MapHead::Got(key, value, n, Place(next))
        }
    }
}

// What a map's header says, whatever stands behind it: an empty map has its types too.
fn map_header(s: &[u8], place: Place, limits: TConfiguration) -> MapHead
    ensures { result ≡ pairs_at binary s.now limits place.0 }
{
    match read_kind(s, place.0) {
        KindRead::Refused(why) => MapHead::Refused(why),
        KindRead::Got(key, middle) => match read_kind(s, middle.0) {
            KindRead::Refused(why) => MapHead::Refused(why),
            KindRead::Got(value, at) => paired(s, at.0, key, value, limits),
        },
    }
}

#[tactic(auto, using(crate::proofs::Ahead::map_head_cases))]
pub fn read_map_begin(s: &[u8], place: Place, limits: TConfiguration) -> MapHead
    ensures { result ≡ pairs_head_at binary s.now limits place.0 }
{
    match map_header(s, place, limits) {
        MapHead::Refused(why) => MapHead::Refused(why),
        MapHead::Got(key, value, count, next) => {
            if numbers::lacks_room(
                s.len(),
                next.0,
                binary_codes::least_bytes(count, key) + binary_codes::least_bytes(count, value),
            ) {
                return MapHead::Refused(types::END);
            }
            MapHead::Got(key, value, count, next)
        }
    }
}

// The id is written out, so that no other has a say; a bool's value stands behind the header, as any other's.
#[tactic(auto, using(crate::proofs::Cases::field_cases))]
pub fn read_field_begin(s: &[u8], place: Place) -> FieldHead
    ensures { result ≡ field_at binary s.now (pos 0) place.0 }
{
    let at = place.0;
    if s.len() <= at {
        return FieldHead::Refused(types::END);
    }
    let code = s[at];
    if code == 0 {
        return FieldHead::Stop(Place(at + 1));
    }
    match binary_codes::field_type_from_u8(code) {
        TypeRead::Refused(why) => FieldHead::Refused(why),
        TypeRead::Got(kind) => match read_i16(s, Place(at + 1)) {
            I16Read::Refused(why) => FieldHead::Refused(why),
            I16Read::Got(id, next) => FieldHead::Value(kind, FieldId(id), next),
        },
    }
}

// Behind the first four bytes: the name, and then the sequence number.
fn named(s: &[u8], at: usize, kind: TMessageType, limits: TConfiguration) -> MessageHead
    ensures { result ≡ named_at s.now limits kind at }
{
    match read_string(s, Place(at), limits) {
        PartRead::Refused(why) => MessageHead::Refused(why),
        PartRead::Got(start, end) => match big_endian::read_be32(s, end.0) {
            Bits32::Refused(why) => MessageHead::Refused(why),
            Bits32::Got(bits, next) => {
                MessageHead::Got(kind, SeqNo(bits.cast_signed()), start, end, Place(next))
            }
        },
    }
}

const BINARY_PROTOCOL_VERSION_1: u32 = 0x8001;

// The strict encoding alone. The third byte is ignored, and the fourth is the message's type whole: a leading bit that is set makes it
// none.
#[tactic(auto, using(crate::proofs::Cases::message_cases))]
pub fn read_message_begin(s: &[u8], place: Place, limits: TConfiguration) -> MessageHead
    ensures { result ≡ message_at s.now limits place.0 }
{
    match big_endian::read_be32(s, place.0) {
        Bits32::Refused(why) => MessageHead::Refused(why),
        Bits32::Got(word, at) => {
            if word / 65536 != BINARY_PROTOCOL_VERSION_1 {
                return MessageHead::Refused(types::BAD_VERSION);
            }
            match types::u8_to_message_type((word % 256) as u8) {
                MessageTypeRead::Refused(why) => MessageHead::Refused(why),
                MessageTypeRead::Got(kind) => named(s, at, kind, limits),
            }
        }
    }
}
