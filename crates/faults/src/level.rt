// One level into a value: its own bytes, or the first of the values inside that skip refuses.
ghost use Rattle.std.specs.Prelude.{◌≡◌, suc, ◌-◌, ◌≤◌, length, pos};
ghost use Rattle.faults.specs.Value.{many, many_pairs, fields, tracked};
ghost use Rattle.faults.specs.Trace.{trace, Level, Deeper};
ghost use Rattle.types.specs.declared.TType.TheVariants as T;

use crate::{Inward, Step, reach};
use heads::{FieldHead, ListHead, MapHead};
use skip::Skipped;
use types::{FieldId, Place, TConfiguration, TType};

// The first of so many elements that is refused.
fn into_items(
    s: &[u8],
    at: Place,
    kind: TType,
    count: u32,
    room: usize,
    limits: TConfiguration,
) -> Inward
    requires { at.0 ≤ length s.now }
    ensures { Level s.now limits room result (trace (many (tracked limits room kind) 0 count) s.now at.0) }
{
    let mut i = 0u32;
    let mut p = at;
    while i < count {
        match skip::skip_value(s, p, kind, room, limits) {
            Skipped::Done(e) => {
                p = e;
            }
            Skipped::Refused(_) => {
                return Inward::Into(Step::Element(i), kind, p);
            }
        }
        i = i + 1;
    }
    Inward::Whole
}

// The first of so many keys and values that is refused.
fn into_pairs(
    s: &[u8],
    at: Place,
    key: TType,
    value: TType,
    count: u32,
    room: usize,
    limits: TConfiguration,
) -> Inward
    requires { at.0 ≤ length s.now }
    ensures { Level s.now limits room result (trace (many_pairs (tracked limits room key) (tracked limits room value) 0 count) s.now at.0) }
{
    let mut i = 0u32;
    let mut p = at;
    while i < count {
        match skip::skip_value(s, p, key, room, limits) {
            Skipped::Refused(_) => {
                return Inward::Into(Step::Key(i), key, p);
            }
            Skipped::Done(middle) => match skip::skip_value(s, middle, value, room, limits) {
                Skipped::Refused(_) => {
                    return Inward::Into(Step::Value(i), value, middle);
                }
                Skipped::Done(e) => {
                    p = e;
                }
            },
        }
        i = i + 1;
    }
    Inward::Whole
}

// The first field of a struct whose header or whose value is refused.
fn into_struct(s: &[u8], at: Place, room: usize, limits: TConfiguration) -> Inward
    requires { at.0 ≤ length s.now }
    ensures { Level s.now limits room result (trace (tracked limits (suc room) T.Struct) s.now at.0) }
{
    let mut p = at;
    let mut last = FieldId(0);
    loop {
        match heads::read_field_begin(s, p, last) {
            FieldHead::Stop(_) => {
                return Inward::Whole;
            }
            FieldHead::Refused(why) => {
                return Inward::Own(why, reach::field_reach(s, p));
            }
            FieldHead::Bool(_, id, next) => {
                last = id;
                p = next;
            }
            FieldHead::Value(kind, id, next) => match skip::skip_value(
                s, next, kind, room, limits,
            ) {
                Skipped::Done(e) => {
                    last = id;
                    p = e;
                }
                Skipped::Refused(_) => {
                    return Inward::Into(Step::Field(id), kind, next);
                }
            },
        }
    }
}

// A list or a set. Elements of the type Stop never begin.
fn into_list(s: &[u8], at: Place, room: usize, limits: TConfiguration) -> Inward
    requires { at.0 ≤ length s.now }
    ensures { Level s.now limits room result (trace (tracked limits (suc room) T.List) s.now at.0) }
{
    match heads::read_list_begin(s, at, limits) {
        ListHead::Refused(why) => {
            return Inward::Own(why, reach::list_reach(s, at));
        }
        ListHead::Got(kind, count, next) => {
            if skip::can_begin(kind, count) {
                return into_items(s, next, kind, count, room, limits);
            }
            return Inward::Own(types::BAD_TYPE, next.0);
        }
    }
}

fn into_map(s: &[u8], at: Place, room: usize, limits: TConfiguration) -> Inward
    requires { at.0 ≤ length s.now }
    ensures { Level s.now limits room result (trace (tracked limits (suc room) T.Map) s.now at.0) }
{
    match heads::read_map_begin(s, at, limits) {
        MapHead::Refused(why) => {
            return Inward::Own(why, reach::map_reach(s, at));
        }
        MapHead::Got(key, value, count, next) => {
            if skip::can_begin(key, count) {
                if skip::can_begin(value, count) {
                    return into_pairs(s, next, key, value, count, room, limits);
                }
                return Inward::Own(types::BAD_TYPE, next.0);
            }
            return Inward::Own(types::BAD_TYPE, next.0);
        }
    }
}

// A value that holds no other, or one that has no room.
fn into_leaf(s: &[u8], at: Place, kind: TType, limits: TConfiguration) -> Inward
    requires { at.0 ≤ length s.now }
    ensures { Deeper s.now limits 0 result (trace (tracked limits 0 kind) s.now at.0) }
{
    match skip::skip_value(s, at, kind, 0, limits) {
        Skipped::Done(_) => {
            return Inward::Whole;
        }
        Skipped::Refused(why) => {
            return Inward::Own(why, reach::leaf_reach(s, at, kind));
        }
    }
}

// With `room` levels left.
pub(crate) fn one_level(
    s: &[u8],
    at: Place,
    kind: TType,
    room: usize,
    limits: TConfiguration,
) -> Inward
    requires { at.0 ≤ length s.now }
    ensures { Deeper s.now limits room result (trace (tracked limits room kind) s.now at.0) }
{
    if room == 0 {
        return into_leaf(s, at, kind, limits);
    }
    match kind {
        TType::List => into_list(s, at, room - 1, limits),
        TType::Set => into_list(s, at, room - 1, limits),
        TType::Map => into_map(s, at, room - 1, limits),
        TType::Struct => into_struct(s, at, room - 1, limits),
        TType::Stop => into_leaf(s, at, kind, limits),
        TType::Bool => into_leaf(s, at, kind, limits),
        TType::I08 => into_leaf(s, at, kind, limits),
        TType::I16 => into_leaf(s, at, kind, limits),
        TType::I32 => into_leaf(s, at, kind, limits),
        TType::I64 => into_leaf(s, at, kind, limits),
        TType::Double => into_leaf(s, at, kind, limits),
        TType::String => into_leaf(s, at, kind, limits),
        TType::Uuid => into_leaf(s, at, kind, limits),
    }
}
