// The reader's calls. The row holds the state before the call, and from then on the next one; the number is 0, or that of a refusal.
// Each tests the row, reads at its place, up to where the message must have ended, and puts what was read where the caller lent room; a
// refusal leaves all as it was.
ghost use Rattle.std.specs.Prelude.{◌≡◌, get_or};
ghost use Rattle.heads.specs.Answers.{field_at};
ghost use Rattle.input.specs.Calls.{read_message, read_field, read_bool, read_i8, read_i16, read_i32, read_i64, read_double, read_uuid, read_bytes, read_string, read_list, read_set, read_map};
ghost use Rattle.rows.specs.Row.{last_in, reader_of};
ghost use Rattle.tagrumzil.specs.Short.{ShortRow};
ghost use Rattle.rows.specs.Reads.{ToldBool, ToldI8, ToldI16, ToldI32, ToldI64, ToldDouble, ToldPart, ToldList, ToldMap, ToldField, ToldMessage};

use heads::{
    BoolRead, DoubleRead, FieldHead, I8Read, I16Read, I32Read, I64Read, ListHead, MapHead,
    MessageHead, PartRead,
};
use rows::row;
use types::{FieldId, Place};

// The first byte's row, where that byte is a whole header or ends the struct; else one with no type.
fn short_row(s: &[u8], at: usize, last: i16) -> u32
    ensures { ShortRow s.now last at result }
{
    if s.len() <= at {
        return tables::NO_TYPE;
    }
    let first = tables::field_row(s[at]);
    if first % 256 == 0 {
        return first;
    }
    let delta = first / 256 % 256;
    if delta == 0 {
        return tables::NO_TYPE;
    }
    if 32767 < (last as i32) + (delta as i32) {
        return tables::NO_TYPE;
    }
    first
}

#[tactic(auto, using(crate::proofs::Through::finding))]
fn field_at(s: &[u8], row: &[u64]) -> FieldHead
    ensures { result ≡ field_at s.now (last_in (get_or row.now 1 0)) (get_or row.now 0 0) }
{
    heads::read_field_begin(s, Place(row::place(row)), FieldId(row::last(row)))
}

// A message's header: its type, its sequence number, and where its name stands in the input. The last id is 0 from then on, and the
// message is counted from the header's first byte.
pub fn tagrumzil_read_message_begin(
    s: &[u8],
    row: &mut [u64],
    kind: &mut u8,
    sequence: &mut i32,
    start: &mut usize,
    end: &mut usize,
) -> u8
    ensures { ToldMessage row.old row.new kind.old kind.new sequence.old sequence.new start.old start.new end.old end.new result (read_message s.now (reader_of row.old)) }
{
    let why = row::gate(row, s.len());
    if why != 0 {
        return why;
    }
    let at = row::place(row);
    let cut = row::cut_here(row, s.len());
    match heads::read_message_begin(&s[..cut], Place(at), row::limits(row)) {
        MessageHead::Got(t, number, from, to) => {
            let order = number.0;
            *kind = types::message_type_to_u8(t);
            *sequence = order;
            *start = from.0;
            *end = to.0;
            row::begun(row, at, to.0);
            0
        }
        MessageHead::Refused(why) => input::missing(why, cut, s.len()),
    }
}

// Any field's header.
fn any_field(s: &[u8], row: &mut [u64], kind: &mut u8, id: &mut i16) -> u8
    ensures { ToldField row.old row.new kind.old kind.new id.old id.new result (read_field s.now (reader_of row.old)) }
{
    let why = row::gate(row, s.len());
    if why != 0 {
        return why;
    }
    let cut = row::cut(row, s.len());
    match field_at(&s[..cut], row) {
        FieldHead::Stop(next) => {
            *kind = 0;
            row::put(row, 0, next.0 as u64);
            0
        }
        FieldHead::Bool(truth, last, next) => {
            let n = last.0;
            *kind = 1;
            *id = n;
            row::head(row, next.0, n, types::bool_to_u8(truth));
            0
        }
        FieldHead::Value(t, last, next) => {
            let n = last.0;
            *kind = types::type_to_u8(t);
            *id = n;
            row::head(row, next.0, n, 0);
            0
        }
        FieldHead::Refused(why) => input::missing(why, cut, s.len()),
    }
}

// A field's header. Its type is 0 at the struct's end, and `id` is then left as it is. A bool field's value is in its header: the bool call hands it out.
// One of a single byte goes from the table's row straight to where it is wanted, with no enum between.
pub fn tagrumzil_read_field_begin(s: &[u8], row: &mut [u64], kind: &mut u8, id: &mut i16) -> u8
    ensures { ToldField row.old row.new kind.old kind.new id.old id.new result (read_field s.now (reader_of row.old)) }
{
    let why = row::gate(row, s.len());
    if why != 0 {
        return why;
    }
    let cut = row::cut(row, s.len());
    let at = row::place(row);
    if cut <= at {
        return any_field(s, row, kind, id);
    }
    let last = row::last(row);
    let first = short_row(&s[..cut], at, last);
    let code = first % 256;
    if code == 0 {
        *kind = 0;
        row::put(row, 0, (at + 1) as u64);
        return 0;
    }
    if 13 < code {
        return any_field(s, row, kind, id);
    }
    let sum = (last as i32) + ((first / 256 % 256) as i32);
    let n = sum as i16;
    *kind = code as u8;
    *id = n;
    row::head(row, at + 1, n, (first / 65536) as u8);
    0
}

// A bool: the one that waits from a field's header, for no byte, or else an element.
pub fn tagrumzil_read_bool(s: &[u8], row: &mut [u64], value: &mut bool) -> u8
    ensures { ToldBool row.old row.new value.old value.new result (read_bool s.now (reader_of row.old)) }
{
    let why = row::gate(row, s.len());
    if why == types::OUT_OF_TURN {
        let turn = row::number(row, 1);
        *value = turn / 65536 == 1;
        row::put(row, 1, turn % 65536);
        return 0;
    }
    if why != 0 {
        return why;
    }
    let cut = row::cut(row, s.len());
    match heads::read_bool(&s[..cut], Place(row::place(row))) {
        BoolRead::Got(truth, next) => {
            *value = truth;
            row::put(row, 0, next.0 as u64);
            0
        }
        BoolRead::Refused(why) => input::missing(why, cut, s.len()),
    }
}

pub fn tagrumzil_read_i8(s: &[u8], row: &mut [u64], value: &mut i8) -> u8
    ensures { ToldI8 row.old row.new value.old value.new result (read_i8 s.now (reader_of row.old)) }
{
    let why = row::gate(row, s.len());
    if why != 0 {
        return why;
    }
    let cut = row::cut(row, s.len());
    match heads::read_i8(&s[..cut], Place(row::place(row))) {
        I8Read::Got(n, next) => {
            *value = n;
            row::put(row, 0, next.0 as u64);
            0
        }
        I8Read::Refused(why) => input::missing(why, cut, s.len()),
    }
}

pub fn tagrumzil_read_i16(s: &[u8], row: &mut [u64], value: &mut i16) -> u8
    ensures { ToldI16 row.old row.new value.old value.new result (read_i16 s.now (reader_of row.old)) }
{
    let why = row::gate(row, s.len());
    if why != 0 {
        return why;
    }
    let cut = row::cut(row, s.len());
    match heads::read_i16(&s[..cut], Place(row::place(row))) {
        I16Read::Got(n, next) => {
            *value = n;
            row::put(row, 0, next.0 as u64);
            0
        }
        I16Read::Refused(why) => input::missing(why, cut, s.len()),
    }
}

pub fn tagrumzil_read_i32(s: &[u8], row: &mut [u64], value: &mut i32) -> u8
    ensures { ToldI32 row.old row.new value.old value.new result (read_i32 s.now (reader_of row.old)) }
{
    let why = row::gate(row, s.len());
    if why != 0 {
        return why;
    }
    let cut = row::cut(row, s.len());
    match heads::read_i32(&s[..cut], Place(row::place(row))) {
        I32Read::Got(n, next) => {
            *value = n;
            row::put(row, 0, next.0 as u64);
            0
        }
        I32Read::Refused(why) => input::missing(why, cut, s.len()),
    }
}

pub fn tagrumzil_read_i64(s: &[u8], row: &mut [u64], value: &mut i64) -> u8
    ensures { ToldI64 row.old row.new value.old value.new result (read_i64 s.now (reader_of row.old)) }
{
    let why = row::gate(row, s.len());
    if why != 0 {
        return why;
    }
    let cut = row::cut(row, s.len());
    match heads::read_i64(&s[..cut], Place(row::place(row))) {
        I64Read::Got(n, next) => {
            *value = n;
            row::put(row, 0, next.0 as u64);
            0
        }
        I64Read::Refused(why) => input::missing(why, cut, s.len()),
    }
}

// A double, as its 64 bits.
pub fn tagrumzil_read_double(s: &[u8], row: &mut [u64], bits: &mut u64) -> u8
    ensures { ToldDouble row.old row.new bits.old bits.new result (read_double s.now (reader_of row.old)) }
{
    let why = row::gate(row, s.len());
    if why != 0 {
        return why;
    }
    let cut = row::cut(row, s.len());
    match heads::read_double(&s[..cut], Place(row::place(row))) {
        DoubleRead::Got(n, next) => {
            *bits = n;
            row::put(row, 0, next.0 as u64);
            0
        }
        DoubleRead::Refused(why) => input::missing(why, cut, s.len()),
    }
}

// A uuid: where its 16 bytes stand in the input.
pub fn tagrumzil_read_uuid(s: &[u8], row: &mut [u64], start: &mut usize, end: &mut usize) -> u8
    ensures { ToldPart row.old row.new start.old start.new end.old end.new result (read_uuid s.now (reader_of row.old)) }
{
    let why = row::gate(row, s.len());
    if why != 0 {
        return why;
    }
    let cut = row::cut(row, s.len());
    match heads::read_uuid(&s[..cut], Place(row::place(row))) {
        PartRead::Got(from, to) => {
            *start = from.0;
            *end = to.0;
            row::put(row, 0, to.0 as u64);
            0
        }
        PartRead::Refused(why) => input::missing(why, cut, s.len()),
    }
}

// A binary: where its bytes stand in the input.
pub fn tagrumzil_read_bytes(s: &[u8], row: &mut [u64], start: &mut usize, end: &mut usize) -> u8
    ensures { ToldPart row.old row.new start.old start.new end.old end.new result (read_bytes s.now (reader_of row.old)) }
{
    let why = row::gate(row, s.len());
    if why != 0 {
        return why;
    }
    let cut = row::cut(row, s.len());
    match heads::read_bytes(&s[..cut], Place(row::place(row)), row::limits(row)) {
        PartRead::Got(from, to) => {
            *start = from.0;
            *end = to.0;
            row::put(row, 0, to.0 as u64);
            0
        }
        PartRead::Refused(why) => input::missing(why, cut, s.len()),
    }
}

// A string: the same, and its bytes are UTF-8.
pub fn tagrumzil_read_string(s: &[u8], row: &mut [u64], start: &mut usize, end: &mut usize) -> u8
    ensures { ToldPart row.old row.new start.old start.new end.old end.new result (read_string s.now (reader_of row.old)) }
{
    let why = row::gate(row, s.len());
    if why != 0 {
        return why;
    }
    let cut = row::cut(row, s.len());
    match heads::read_string(&s[..cut], Place(row::place(row)), row::limits(row)) {
        PartRead::Got(from, to) => {
            *start = from.0;
            *end = to.0;
            row::put(row, 0, to.0 as u64);
            0
        }
        PartRead::Refused(why) => input::missing(why, cut, s.len()),
    }
}

// A list's header: its elements' type and how many there are.
pub fn tagrumzil_read_list_begin(s: &[u8], row: &mut [u64], kind: &mut u8, count: &mut u32) -> u8
    ensures { ToldList row.old row.new kind.old kind.new count.old count.new result (read_list s.now (reader_of row.old)) }
{
    let why = row::gate(row, s.len());
    if why != 0 {
        return why;
    }
    let cut = row::cut(row, s.len());
    match heads::read_list_begin(&s[..cut], Place(row::place(row)), row::limits(row)) {
        ListHead::Got(t, n, next) => {
            *kind = types::type_to_u8(t);
            *count = n;
            row::put(row, 0, next.0 as u64);
            0
        }
        ListHead::Refused(why) => input::missing(why, cut, s.len()),
    }
}

pub fn tagrumzil_read_set_begin(s: &[u8], row: &mut [u64], kind: &mut u8, count: &mut u32) -> u8
    ensures { ToldList row.old row.new kind.old kind.new count.old count.new result (read_set s.now (reader_of row.old)) }
{
    let why = row::gate(row, s.len());
    if why != 0 {
        return why;
    }
    let cut = row::cut(row, s.len());
    match heads::read_list_begin(&s[..cut], Place(row::place(row)), row::limits(row)) {
        ListHead::Got(t, n, next) => {
            *kind = types::type_to_u8(t);
            *count = n;
            row::put(row, 0, next.0 as u64);
            0
        }
        ListHead::Refused(why) => input::missing(why, cut, s.len()),
    }
}

// A map's header: the types of its keys and values, which are 0 in an empty one, and how many there are.
pub fn tagrumzil_read_map_begin(
    s: &[u8],
    row: &mut [u64],
    key: &mut u8,
    value: &mut u8,
    count: &mut u32,
) -> u8
    ensures { ToldMap row.old row.new key.old key.new value.old value.new count.old count.new result (read_map s.now (reader_of row.old)) }
{
    let why = row::gate(row, s.len());
    if why != 0 {
        return why;
    }
    let cut = row::cut(row, s.len());
    match heads::read_map_begin(&s[..cut], Place(row::place(row)), row::limits(row)) {
        MapHead::Got(k, v, n, next) => {
            *key = types::type_to_u8(k);
            *value = types::type_to_u8(v);
            *count = n;
            row::put(row, 0, next.0 as u64);
            0
        }
        MapHead::Refused(why) => input::missing(why, cut, s.len()),
    }
}
