// Headers and scalars, read at a place of the lent bytes, with no state: the bodies of the Rust's `read_*`. Each answers what it found and
// the place behind it, or the number of a refusal.
#![tactic(auto)]

ghost use Rattle.std.specs.Prelude.{◌≡◌, ◌*◌, ◌≤◌, ◌<◌, length};
ghost use Rattle.heads.specs.Heads.{least_size};
ghost use Rattle.heads.specs.Answers.{int8_at, int16_at, int32_at, int64_at, double_at, truth_at, some_at, uuid_at, binary_at, text_at, count_why, listed_at, items_at, mapped_at, pairs_at, items_head_at, pairs_head_at, head_at, long_at, field_at, kind_at, message_at, named_at};

use numbers::{Bits64, Int16, Varint32, Varint64};
use types::{
    FieldId, MessageTypeRead, Place, SeqNo, TConfiguration, TMessageType, TType, TypeRead,
};
use zigzag::Zigzag;

#[derive(Clone, Copy)]
pub enum I8Read {
    Got(i8, Place),
    Refused(u8),
}

#[derive(Clone, Copy)]
pub enum I16Read {
    Got(i16, Place),
    Refused(u8),
}

#[derive(Clone, Copy)]
pub enum I32Read {
    Got(i32, Place),
    Refused(u8),
}

#[derive(Clone, Copy)]
pub enum I64Read {
    Got(i64, Place),
    Refused(u8),
}

// A double's 64 bits.
#[derive(Clone, Copy)]
pub enum DoubleRead {
    Got(u64, Place),
    Refused(u8),
}

#[derive(Clone, Copy)]
pub enum BoolRead {
    Got(bool, Place),
    Refused(u8),
}

// A part of the lent bytes: where it starts and where it ends, which is the place behind it.
#[derive(Clone, Copy)]
pub enum PartRead {
    Got(Place, Place),
    Refused(u8),
}

// A list's or a set's header: the type of the elements and how many there are.
#[derive(Clone, Copy)]
pub enum ListHead {
    Got(TType, u32, Place),
    Refused(u8),
}

// A map's: an empty one has no types, which is Stop twice.
#[derive(Clone, Copy)]
pub enum MapHead {
    Got(TType, TType, u32, Place),
    Refused(u8),
}

// A field's header: the struct's end; a bool field with its value; a field of another type.
#[derive(Clone, Copy)]
pub enum FieldHead {
    Stop(Place),
    Bool(bool, FieldId, Place),
    Value(TType, FieldId, Place),
    Refused(u8),
}

// A message's header, with the part that is its name.
#[derive(Clone, Copy)]
pub enum MessageHead {
    Got(TMessageType, SeqNo, Place, Place),
    Refused(u8),
}

pub fn read_i8(s: &[u8], place: Place) -> I8Read
    ensures { result ≡ int8_at s.now place.0 }
{
    let at = place.0;
    if s.len() <= at {
        return I8Read::Refused(types::END);
    }
    I8Read::Got(s[at].cast_signed(), Place(at + 1))
}

pub fn read_i16(s: &[u8], place: Place) -> I16Read
    ensures { result ≡ int16_at s.now place.0 }
{
    match numbers::read_i16(s, place.0) {
        Int16::Got(n, next) => I16Read::Got(n, Place(next)),
        Int16::Refused(why) => I16Read::Refused(why),
    }
}

pub fn read_i32(s: &[u8], place: Place) -> I32Read
    ensures { result ≡ int32_at s.now place.0 }
{
    match numbers::read_varint32(s, place.0) {
        Varint32::Got(n, next) => I32Read::Got(i32::from_zigzag(n), Place(next)),
        Varint32::Refused(why) => I32Read::Refused(why),
    }
}

pub fn read_i64(s: &[u8], place: Place) -> I64Read
    ensures { result ≡ int64_at s.now place.0 }
{
    match numbers::read_varint64(s, place.0) {
        Varint64::Got(n, next) => I64Read::Got(i64::from_zigzag(n), Place(next)),
        Varint64::Refused(why) => I64Read::Refused(why),
    }
}

pub fn read_double(s: &[u8], place: Place) -> DoubleRead
    ensures { result ≡ double_at s.now place.0 }
{
    match numbers::read_le64(s, place.0) {
        Bits64::Got(bits, next) => DoubleRead::Got(bits, Place(next)),
        Bits64::Refused(why) => DoubleRead::Refused(why),
    }
}

// An element's bool. The document first said 0 for false, so 0 is read too.
pub fn read_bool(s: &[u8], place: Place) -> BoolRead
    ensures { result ≡ truth_at s.now place.0 }
{
    let at = place.0;
    if s.len() <= at {
        return BoolRead::Refused(types::END);
    }
    match s[at] {
        0 => BoolRead::Got(false, Place(at + 1)),
        1 => BoolRead::Got(true, Place(at + 1)),
        2 => BoolRead::Got(false, Place(at + 1)),
        _ => BoolRead::Refused(types::BAD_BOOL),
    }
}

// The next n bytes, if they are there.
fn some(s: &[u8], from: usize, n: usize) -> PartRead
    requires { from ≤ length s.now }
    ensures { result ≡ some_at s.now n from }
{
    if s.len() - from < n {
        return PartRead::Refused(types::END);
    }
    PartRead::Got(Place(from), Place(from + n))
}

pub fn read_uuid(s: &[u8], place: Place) -> PartRead
    ensures { result ≡ uuid_at s.now place.0 }
{
    let at = place.0;
    if s.len() < at {
        return PartRead::Refused(types::END);
    }
    some(s, at, 16)
}

// The length is held against its limit before a byte is missed.
pub fn read_bytes(s: &[u8], place: Place, limits: TConfiguration) -> PartRead
    ensures { result ≡ binary_at s.now limits place.0 }
{
    match numbers::read_varint32(s, place.0) {
        Varint32::Refused(why) => PartRead::Refused(why),
        Varint32::Got(n, from) => {
            if limits.string < n {
                return PartRead::Refused(types::SIZE_LIMIT);
            }
            some(s, from, n as usize)
        }
    }
}

pub fn read_string(s: &[u8], place: Place, limits: TConfiguration) -> PartRead
    ensures { result ≡ text_at s.now limits place.0 }
{
    match read_bytes(s, place, limits) {
        PartRead::Refused(why) => PartRead::Refused(why),
        PartRead::Got(start, end) => {
            let a = start.0;
            let e = end.0;
            if utf8::is_utf8(&s[a..e]) {
                return PartRead::Got(start, end);
            }
            PartRead::Refused(types::BAD_UTF8)
        }
    }
}

// What is wrong with a count, in the order of the rules; 0 where nothing is.
pub fn count_refusal(n: u32, limits: TConfiguration) -> u8
    ensures { result ≡ count_why limits n }
{
    if 2_147_483_647 < n {
        return types::NEGATIVE_SIZE;
    }
    if limits.container < n {
        return types::SIZE_LIMIT;
    }
    0
}

// A list's header, once its type and its count are read.
fn listed(kind: TType, n: u32, next: usize, limits: TConfiguration) -> ListHead
    ensures { result ≡ listed_at limits kind n next }
{
    let why = count_refusal(n, limits);
    if why != 0 {
        return ListHead::Refused(why);
    }
    ListHead::Got(kind, n, Place(next))
}

// The fewest bytes that so many values of a type take. The count has 32 bits, so that the product is far from 64.
pub fn least_bytes(count: u32, kind: TType) -> usize
    ensures { (result ≡ count * least_size kind) × (result < 0x10_0000_0000) }
{
    let n = count as usize;
    match kind {
        TType::Double => n * 8,
        TType::Uuid => n * 16,
        TType::Stop => n,
        TType::Bool => n,
        TType::I08 => n,
        TType::I16 => n,
        TType::I32 => n,
        TType::I64 => n,
        TType::String => n,
        TType::List => n,
        TType::Set => n,
        TType::Map => n,
        TType::Struct => n,
    }
}

// What a list's header says, whatever stands behind it.
fn list_header(s: &[u8], place: Place, limits: TConfiguration) -> ListHead
    ensures { result ≡ items_at s.now limits place.0 }
{
    let at = place.0;
    if s.len() <= at {
        return ListHead::Refused(types::END);
    }
    let row = tables::list_row(s[at]);
    match types::u8_to_type((row % 256) as u8) {
        TypeRead::Refused(why) => ListHead::Refused(why),
        TypeRead::Got(kind) => {
            let count = row / 256;
            if count < 15 {
                return listed(kind, count, at + 1, limits);
            }
            match numbers::read_varint32(s, at + 1) {
                Varint32::Refused(why) => ListHead::Refused(why),
                Varint32::Got(n, next) => listed(kind, n, next, limits),
            }
        }
    }
}

// A header whose elements can't be there is refused, before a caller reserves room for them.
pub fn read_list_begin(s: &[u8], place: Place, limits: TConfiguration) -> ListHead
    ensures { result ≡ items_head_at s.now limits place.0 }
{
    match list_header(s, place, limits) {
        ListHead::Refused(why) => ListHead::Refused(why),
        ListHead::Got(kind, count, next) => {
            if numbers::lacks_room(s.len(), next.0, least_bytes(count, kind)) {
                return ListHead::Refused(types::END);
            }
            ListHead::Got(kind, count, next)
        }
    }
}

// A map's header, once its count is read and is not 0: the byte with the two types.
fn mapped(s: &[u8], n: u32, at: usize, limits: TConfiguration) -> MapHead
    ensures { result ≡ mapped_at s.now limits n at }
{
    if s.len() <= at {
        return MapHead::Refused(types::END);
    }
    let b = s[at];
    match types::collection_u8_to_type(b / 16) {
        TypeRead::Refused(why) => MapHead::Refused(why),
        TypeRead::Got(key) => match types::collection_u8_to_type(b % 16) {
            TypeRead::Refused(why) => MapHead::Refused(why),
            TypeRead::Got(value) => {
                let why = count_refusal(n, limits);
                if why != 0 {
                    return MapHead::Refused(why);
                }
                MapHead::Got(key, value, n, Place(at + 1))
            }
        },
    }
}

// What a map's header says, whatever stands behind it.
fn map_header(s: &[u8], place: Place, limits: TConfiguration) -> MapHead
    ensures { result ≡ pairs_at s.now limits place.0 }
{
    match numbers::read_varint32(s, place.0) {
        Varint32::Refused(why) => MapHead::Refused(why),
        Varint32::Got(n, next) => {
            if n == 0 {
                return MapHead::Got(TType::Stop, TType::Stop, 0, Place(next));
            }
            mapped(s, n, next, limits)
        }
    }
}

pub fn read_map_begin(s: &[u8], place: Place, limits: TConfiguration) -> MapHead
    ensures { result ≡ pairs_head_at s.now limits place.0 }
{
    match map_header(s, place, limits) {
        MapHead::Refused(why) => MapHead::Refused(why),
        MapHead::Got(key, value, count, next) => {
            if numbers::lacks_room(
                s.len(),
                next.0,
                least_bytes(count, key) + least_bytes(count, value),
            ) {
                return MapHead::Refused(types::END);
            }
            MapHead::Got(key, value, count, next)
        }
    }
}

// A field's header, once its id is read: a bool's row holds its value.
fn headed(row: u32, id: FieldId, next: Place) -> FieldHead
    ensures { result ≡ head_at row id.0 next.0 }
{
    let kind = row % 256;
    if kind < 3 {
        return FieldHead::Bool(row / 65536 == 1, id, next);
    }
    match types::u8_to_type(kind as u8) {
        TypeRead::Got(kind) => FieldHead::Value(kind, id, next),
        TypeRead::Refused(why) => FieldHead::Refused(why),
    }
}

// The long form: the id is written out behind the first byte.
fn long_field(s: &[u8], at: usize, row: u32) -> FieldHead
    ensures { result ≡ long_at s.now row at }
{
    match numbers::read_i16(s, at) {
        Int16::Got(id, next) => headed(row, FieldId(id), Place(next)),
        Int16::Refused(why) => FieldHead::Refused(why),
    }
}

// The first byte's row in the table has type, delta and bool. The short form is read here and the long one apart, so that the common case
// can be inlined. A bool's value goes along only with its whole header: one that is refused leaves nothing behind.
pub fn read_field_begin(s: &[u8], place: Place, last: FieldId) -> FieldHead
    ensures { result ≡ field_at s.now last.0 place.0 }
{
    let at = place.0;
    if s.len() <= at {
        return FieldHead::Refused(types::END);
    }
    let row = tables::field_row(s[at]);
    let kind = row % 256;
    if kind == 0 {
        return FieldHead::Stop(Place(at + 1));
    }
    if 13 < kind {
        return FieldHead::Refused(types::BAD_TYPE);
    }
    let delta = row / 256 % 256;
    if delta == 0 {
        return long_field(s, at + 1, row);
    }
    let sum = (last.0 as i32) + (delta as i32);
    if 32767 < sum {
        return FieldHead::Refused(types::FIELD_ID);
    }
    headed(row, FieldId(sum as i16), Place(at + 1))
}

// Behind the two first bytes: the sequence number and the name.
fn named(s: &[u8], at: usize, kind: TMessageType, limits: TConfiguration) -> MessageHead
    ensures { result ≡ named_at s.now limits kind at }
{
    match numbers::read_varint32(s, at) {
        Varint32::Refused(why) => MessageHead::Refused(why),
        Varint32::Got(n, next) => match read_string(s, Place(next), limits) {
            PartRead::Refused(why) => MessageHead::Refused(why),
            PartRead::Got(start, end) => {
                MessageHead::Got(kind, SeqNo(n.cast_signed()), start, end)
            }
        },
    }
}

// The second byte: the version, and the message's type.
fn versioned(s: &[u8], at: usize, limits: TConfiguration) -> MessageHead
    ensures { result ≡ kind_at s.now limits at }
{
    if s.len() <= at {
        return MessageHead::Refused(types::END);
    }
    let b = s[at];
    if b % 32 != COMPACT_VERSION {
        return MessageHead::Refused(types::BAD_VERSION);
    }
    match types::u8_to_message_type(b / 32) {
        MessageTypeRead::Refused(why) => MessageHead::Refused(why),
        MessageTypeRead::Got(kind) => named(s, at + 1, kind, limits),
    }
}

const COMPACT_PROTOCOL_ID: u8 = 0x82;

const COMPACT_VERSION: u8 = 0x01;

pub fn read_message_begin(s: &[u8], place: Place, limits: TConfiguration) -> MessageHead
    ensures { result ≡ message_at s.now limits place.0 }
{
    let at = place.0;
    if s.len() <= at {
        return MessageHead::Refused(types::END);
    }
    if s[at] != COMPACT_PROTOCOL_ID {
        return MessageHead::Refused(types::BAD_VERSION);
    }
    versioned(s, at + 1, limits)
}
