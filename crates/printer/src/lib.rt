// The lines of one message and one struct, into a lent buffer: the cycle of skip, with a line for each header and each value.
#![tactic(auto)]

ghost use Rattle.std.specs.Prelude.{◌≡◌, pos};
ghost use Rattle.types.specs.Value as val;
ghost use Rattle.scalars.specs.Scalars.{scalar_of};
ghost use Rattle.scalars.specs.declared.Scalar.TheVariants as S;
ghost use Rattle.heads.specs.Heads.{int8, int16, int32, int64, double, uuid, truth, binary};
ghost use Rattle.skip.specs.Value.{startable};
ghost use Rattle.text.specs.Pen.{inked};
ghost use Rattle.lines.specs.Lines as row;
ghost use Rattle.printer.specs.Telling.{aloud, voiced};
ghost use Rattle.printer.specs.Value.{many_told, pair_told, pairs_told, items_told, map_told, fields_told, struct_told, value_told};
ghost use Rattle.printer.specs.Printing.{prints, message_told, written, whole, print_call};

use heads::{
    BoolRead, DoubleRead, FieldHead, I8Read, I16Read, I32Read, I64Read, ListHead, MapHead,
    MessageHead, PartRead,
};
use scalars::Scalar;
use types::{FieldId, Place, TConfiguration, TType};

// The place behind what was read, or the number of a refusal; and the place behind the text so far.
#[derive(Clone, Copy)]
enum Printed {
    Went(Place, usize),
    Stopped(u8, usize),
}

// How many bytes of text were written, or NO ROOM.
#[derive(Clone, Copy)]
pub enum Text {
    Wrote(usize),
    Refused(u8),
}

fn print_bool(s: &[u8], at: Place, out: &mut [u8], to: usize) -> Printed
    ensures { (result, out.new) ≡ prints (voiced truth (λ b. row.scalar (S.Bool b)) val.truth) s.now at.0 (out.old, to) }
{
    match heads::read_bool(s, at) {
        BoolRead::Got(b, next) => Printed::Went(next, lines::put_scalar(out, to, Scalar::Bool(b))),
        BoolRead::Refused(why) => Printed::Stopped(why, to),
    }
}

fn print_i8(s: &[u8], at: Place, out: &mut [u8], to: usize) -> Printed
    ensures { (result, out.new) ≡ prints (voiced int8 (λ z. row.scalar (S.Int z)) val.i8) s.now at.0 (out.old, to) }
{
    match heads::read_i8(s, at) {
        I8Read::Got(n, next) => {
            let wide = i64::from(n);
            Printed::Went(next, lines::put_scalar(out, to, Scalar::Int(wide)))
        }
        I8Read::Refused(why) => Printed::Stopped(why, to),
    }
}

fn print_i16(s: &[u8], at: Place, out: &mut [u8], to: usize) -> Printed
    ensures { (result, out.new) ≡ prints (voiced int16 (λ z. row.scalar (S.Int z)) val.i16) s.now at.0 (out.old, to) }
{
    match heads::read_i16(s, at) {
        I16Read::Got(n, next) => {
            let wide = i64::from(n);
            Printed::Went(next, lines::put_scalar(out, to, Scalar::Int(wide)))
        }
        I16Read::Refused(why) => Printed::Stopped(why, to),
    }
}

fn print_i32(s: &[u8], at: Place, out: &mut [u8], to: usize) -> Printed
    ensures { (result, out.new) ≡ prints (voiced int32 (λ z. row.scalar (S.Int z)) val.i32) s.now at.0 (out.old, to) }
{
    match heads::read_i32(s, at) {
        I32Read::Got(n, next) => {
            let wide = i64::from(n);
            Printed::Went(next, lines::put_scalar(out, to, Scalar::Int(wide)))
        }
        I32Read::Refused(why) => Printed::Stopped(why, to),
    }
}

fn print_i64(s: &[u8], at: Place, out: &mut [u8], to: usize) -> Printed
    ensures { (result, out.new) ≡ prints (voiced int64 (λ z. row.scalar (S.Int z)) val.i64) s.now at.0 (out.old, to) }
{
    match heads::read_i64(s, at) {
        I64Read::Got(n, next) => Printed::Went(next, lines::put_scalar(out, to, Scalar::Int(n))),
        I64Read::Refused(why) => Printed::Stopped(why, to),
    }
}

fn print_double(s: &[u8], at: Place, out: &mut [u8], to: usize) -> Printed
    ensures { (result, out.new) ≡ prints (voiced double (λ n. row.scalar (scalar_of n)) val.double) s.now at.0 (out.old, to) }
{
    match heads::read_double(s, at) {
        DoubleRead::Got(bits, next) => {
            let value = scalars::of_bits(bits);
            Printed::Went(next, lines::put_scalar(out, to, value))
        }
        DoubleRead::Refused(why) => Printed::Stopped(why, to),
    }
}

fn print_uuid(s: &[u8], at: Place, out: &mut [u8], to: usize) -> Printed
    ensures { (result, out.new) ≡ prints (voiced uuid row.part val.uuid) s.now at.0 (out.old, to) }
{
    match heads::read_uuid(s, at) {
        PartRead::Got(start, end) => {
            let a = start.0;
            let e = end.0;
            Printed::Went(end, lines::put_part(out, to, &s[a..e]))
        }
        PartRead::Refused(why) => Printed::Stopped(why, to),
    }
}

// A string's bytes, as skip takes them: no UTF-8 is checked.
fn print_bytes(s: &[u8], at: Place, limits: TConfiguration, out: &mut [u8], to: usize) -> Printed
    ensures { (result, out.new) ≡ prints (voiced (binary limits) row.part val.bytes) s.now at.0 (out.old, to) }
{
    match heads::read_bytes(s, at, limits) {
        PartRead::Got(start, end) => {
            let a = start.0;
            let e = end.0;
            Printed::Went(end, lines::put_part(out, to, &s[a..e]))
        }
        PartRead::Refused(why) => Printed::Stopped(why, to),
    }
}

// A value where no container may be entered.
#[tactic(auto, using(crate::proofs::Leaf::leaf_cases))]
fn print_leaf(
    s: &[u8],
    at: Place,
    kind: TType,
    limits: TConfiguration,
    out: &mut [u8],
    to: usize,
) -> Printed
    ensures { (result, out.new) ≡ prints (value_told limits 0 kind) s.now at.0 (out.old, to) }
{
    match kind {
        TType::Stop => Printed::Stopped(types::BAD_TYPE, to),
        TType::Bool => print_bool(s, at, out, to),
        TType::I08 => print_i8(s, at, out, to),
        TType::I16 => print_i16(s, at, out, to),
        TType::I32 => print_i32(s, at, out, to),
        TType::I64 => print_i64(s, at, out, to),
        TType::Double => print_double(s, at, out, to),
        TType::String => print_bytes(s, at, limits, out, to),
        TType::List => Printed::Stopped(types::DEPTH, to),
        TType::Set => Printed::Stopped(types::DEPTH, to),
        TType::Map => Printed::Stopped(types::DEPTH, to),
        TType::Struct => Printed::Stopped(types::DEPTH, to),
        TType::Uuid => print_uuid(s, at, out, to),
    }
}

// A value, with `room` levels left.
#[cycle(prints)]
fn print_value(
    s: &[u8],
    at: Place,
    kind: TType,
    room: usize,
    limits: TConfiguration,
    out: &mut [u8],
    to: usize,
) -> Printed
    ensures { (result, out.new) ≡ prints (value_told limits room kind) s.now at.0 (out.old, to) }
{
    if room == 0 {
        return print_leaf(s, at, kind, limits, out, to);
    }
    match kind {
        TType::List => print_items(s, at, kind, room - 1, limits, out, to),
        TType::Set => print_items(s, at, kind, room - 1, limits, out, to),
        TType::Map => print_map(s, at, room - 1, limits, out, to),
        TType::Struct => print_struct(s, at, room - 1, limits, out, to),
        TType::Stop => print_leaf(s, at, kind, limits, out, to),
        TType::Bool => print_leaf(s, at, kind, limits, out, to),
        TType::I08 => print_leaf(s, at, kind, limits, out, to),
        TType::I16 => print_leaf(s, at, kind, limits, out, to),
        TType::I32 => print_leaf(s, at, kind, limits, out, to),
        TType::I64 => print_leaf(s, at, kind, limits, out, to),
        TType::Double => print_leaf(s, at, kind, limits, out, to),
        TType::String => print_leaf(s, at, kind, limits, out, to),
        TType::Uuid => print_leaf(s, at, kind, limits, out, to),
    }
}

// Whether a container's elements can begin: of the type Stop there are none.
#[tactic(auto, using(skip::proofs::Cycle::begin_cases))]
fn can_begin(kind: TType, count: u32) -> bool
    ensures { result ≡ startable kind count }
{
    if count == 0 {
        return true;
    }
    0 < types::type_to_u8(kind)
}

// A list or a set, which `whole` says, that has been entered: `room` levels are left for its elements.
#[cycle(prints)]
fn print_items(
    s: &[u8],
    at: Place,
    whole: TType,
    room: usize,
    limits: TConfiguration,
    out: &mut [u8],
    to: usize,
) -> Printed
    ensures { (result, out.new) ≡ prints (items_told limits (value_told limits room) whole val.list) s.now at.0 (out.old, to) }
{
    match heads::read_list_begin(s, at, limits) {
        ListHead::Refused(why) => Printed::Stopped(why, to),
        ListHead::Got(kind, count, next) => {
            let p = lines::put_items(out, to, whole, kind, count);
            if can_begin(kind, count) {
                return print_many(s, next, kind, count, room, limits, out, p);
            }
            Printed::Stopped(types::BAD_TYPE, p)
        }
    }
}

// So many values of a type.
#[cycle(prints)]
fn print_many(
    s: &[u8],
    at: Place,
    kind: TType,
    count: u32,
    room: usize,
    limits: TConfiguration,
    out: &mut [u8],
    to: usize,
) -> Printed
    ensures { (result, out.new) ≡ prints (many_told (value_told limits room kind) count) s.now at.0 (out.old, to) }
{
    let mut left = count;
    let mut p = at;
    let mut q = to;
    while 0 < left {
        match print_value(s, p, kind, room, limits, out, q) {
            Printed::Went(e, next) => {
                p = e;
                q = next;
            }
            Printed::Stopped(why, next) => {
                return Printed::Stopped(why, next);
            }
        }
        left = left - 1;
    }
    Printed::Went(p, q)
}

// A map that has been entered. A value type Stop is refused before the first key is read.
#[cycle(prints)]
fn print_map(
    s: &[u8],
    at: Place,
    room: usize,
    limits: TConfiguration,
    out: &mut [u8],
    to: usize,
) -> Printed
    ensures { (result, out.new) ≡ prints (map_told limits (value_told limits room)) s.now at.0 (out.old, to) }
{
    match heads::read_map_begin(s, at, limits) {
        MapHead::Refused(why) => Printed::Stopped(why, to),
        MapHead::Got(key, value, count, next) => {
            let p = lines::put_map(out, to, key, value, count);
            if can_begin(key, count) {
                if can_begin(value, count) {
                    return print_pairs(s, next, key, value, count, room, limits, out, p);
                }
                return Printed::Stopped(types::BAD_TYPE, p);
            }
            Printed::Stopped(types::BAD_TYPE, p)
        }
    }
}

// So many keys, each with its value.
#[cycle(prints)]
fn print_pairs(
    s: &[u8],
    at: Place,
    key: TType,
    value: TType,
    count: u32,
    room: usize,
    limits: TConfiguration,
    out: &mut [u8],
    to: usize,
) -> Printed
    ensures { (result, out.new) ≡ prints (pairs_told (value_told limits room key) (value_told limits room value) count) s.now at.0 (out.old, to) }
{
    let mut left = count;
    let mut p = at;
    let mut q = to;
    while 0 < left {
        match print_pair(s, p, key, value, room, limits, out, q) {
            Printed::Went(e, next) => {
                p = e;
                q = next;
            }
            Printed::Stopped(why, next) => {
                return Printed::Stopped(why, next);
            }
        }
        left = left - 1;
    }
    Printed::Went(p, q)
}

// A key, and its value.
#[cycle(prints)]
fn print_pair(
    s: &[u8],
    at: Place,
    key: TType,
    value: TType,
    room: usize,
    limits: TConfiguration,
    out: &mut [u8],
    to: usize,
) -> Printed
    ensures { (result, out.new) ≡ prints (pair_told (value_told limits room key) (value_told limits room value)) s.now at.0 (out.old, to) }
{
    match print_value(s, at, key, room, limits, out, to) {
        Printed::Went(middle, next) => print_value(s, middle, value, room, limits, out, next),
        Printed::Stopped(why, next) => Printed::Stopped(why, next),
    }
}

// A struct that has been entered: its begin, and its fields.
#[cycle(prints)]
fn print_struct(
    s: &[u8],
    at: Place,
    room: usize,
    limits: TConfiguration,
    out: &mut [u8],
    to: usize,
) -> Printed
    ensures { (result, out.new) ≡ prints (struct_told (value_told limits room)) s.now at.0 (out.old, to) }
{
    let q = lines::put_struct(out, to);
    print_fields(s, at, room, limits, out, q)
}

// A struct's fields up to the stop. Its ids begin anew.
#[cycle(prints)]
fn print_fields(
    s: &[u8],
    at: Place,
    room: usize,
    limits: TConfiguration,
    out: &mut [u8],
    to: usize,
) -> Printed
    ensures { (result, out.new) ≡ prints (fields_told (value_told limits room) (pos 0)) s.now at.0 (out.old, to) }
{
    let mut p = at;
    let mut last = FieldId(0);
    let mut q = to;
    loop {
        match heads::read_field_begin(s, p, last) {
            FieldHead::Stop(e) => return Printed::Went(e, lines::put_stop(out, q)),
            FieldHead::Refused(why) => return Printed::Stopped(why, q),
            FieldHead::Bool(b, id, next) => {
                let named = lines::put_field(out, q, id, TType::Bool);
                q = lines::put_scalar(out, named, Scalar::Bool(b));
                last = id;
                p = next;
            }
            FieldHead::Value(kind, id, next) => {
                match print_field(s, next, id, kind, room, limits, out, q) {
                    Printed::Went(e, behind) => {
                        q = behind;
                        last = id;
                        p = e;
                    }
                    Printed::Stopped(why, behind) => return Printed::Stopped(why, behind),
                }
            }
        }
    }
}

// A field whose header has been read: its line, and its value.
#[cycle(prints)]
fn print_field(
    s: &[u8],
    at: Place,
    id: FieldId,
    kind: TType,
    room: usize,
    limits: TConfiguration,
    out: &mut [u8],
    to: usize,
) -> Printed
    ensures { (result, out.new) ≡ prints (aloud (row.field id.0 kind) (value_told limits room kind)) s.now at.0 (out.old, to) }
{
    let q = lines::put_field(out, to, id, kind);
    print_value(s, at, kind, room, limits, out, q)
}

// A message's header, and its struct.
#[tactic(auto, using(crate::proofs::Whole::message_cases))]
fn print_message(
    s: &[u8],
    room: usize,
    limits: TConfiguration,
    out: &mut [u8],
    to: usize,
) -> Printed
    ensures { (result, out.new) ≡ prints (message_told limits room) s.now 0 (out.old, to) }
{
    match heads::read_message_begin(s, Place(0), limits) {
        MessageHead::Refused(why) => Printed::Stopped(why, to),
        MessageHead::Got(kind, seq, start, end) => {
            let a = start.0;
            let e = end.0;
            let q = lines::put_message(out, to, kind, seq, &s[a..e]);
            print_value(s, end, TType::Struct, room, limits, out, q)
        }
    }
}

// The longest string and the largest container that are printed.
const MOST_SIZE: u32 = 65_536;

// All of it, with the line that says how it ended.
fn print_whole(s: &[u8], out: &mut [u8]) -> Text
    ensures { (result, out.new) ≡ written (inked (row.lines (whole s.now)) (out.old, 0)) }
{
    let limits = TConfiguration {
        depth: TConfiguration::MAX_DEPTH,
        string: MOST_SIZE,
        container: MOST_SIZE,
        message: MOST_SIZE,
    };
    match print_message(s, TConfiguration::MAX_DEPTH, limits, out, 0) {
        Printed::Went(end, to) => {
            let used = end.0;
            Text::Wrote(lines::put_end(out, to, used, s.len() - used))
        }
        Printed::Stopped(why, to) => Text::Wrote(lines::put_refusal(out, to, why)),
    }
}

// The longest input that is printed, and room enough for the text of any input.
pub const MOST: usize = 65_536;

pub const ROOM: usize = 4_194_304;

// The text of the input, from the buffer's start on.
pub fn print(s: &[u8], out: &mut [u8]) -> Text
    ensures { (result, out.new) ≡ print_call s.now out.old }
{
    if out.len() < ROOM {
        return Text::Refused(types::NO_ROOM);
    }
    if MOST < s.len() {
        return Text::Wrote(lines::put_refusal(out, 0, types::NO_ROOM));
    }
    print_whole(s, out)
}
