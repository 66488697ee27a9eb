// Skip in the binary protocol: over one value of a type, whatever stands in it, by the rules of the compact protocol's (`skip`). A value's
// skip calls those of list, map and struct, and each of these calls the value's for its elements or fields, with one level of room less.
#![tactic(auto)]

ghost use Rattle.std.specs.Prelude.{◌≡◌, suc};
ghost use Rattle.types.specs.declared.TType.TheVariants as T;
ghost use Rattle.heads.specs.Reader.{some};
ghost use Rattle.skip.specs.Value.{many_pairs};
ghost use Rattle.skip.specs.Skip.{past};
ghost use Rattle.protocols.specs.Value.{value_by};
ghost use Rattle.protocols.specs.Answers.{skip_by};
ghost use Rattle.binary_heads.specs.Words.{binary};
ghost use Rattle.binary_skip.specs.Sizes.{is_fixed};

use heads::{BoolRead, FieldHead, ListHead, MapHead, PartRead};
use skip::Skipped;
use types::{Place, TConfiguration, TType};

// Whether every value of a type has the least size, and nothing is asked of its bytes.
fn is_fixed(kind: TType) -> bool
    ensures { result ≡ is_fixed kind }
{
    match kind {
        TType::I08 => true,
        TType::I16 => true,
        TType::I32 => true,
        TType::I64 => true,
        TType::Double => true,
        TType::Uuid => true,
        TType::Stop => false,
        TType::Bool => false,
        TType::String => false,
        TType::List => false,
        TType::Set => false,
        TType::Map => false,
        TType::Struct => false,
    }
}

// The next n bytes, if they are there.
#[tactic(auto, using(skip::proofs::Leaf::some_cases))]
fn skip_some(s: &[u8], at: usize, n: usize) -> Skipped
    ensures { result ≡ past (some n) s.now at }
{
    if s.len() < at {
        if n == 0 {
            return Skipped::Done(Place(at));
        }
        return Skipped::Refused(types::END);
    }
    if s.len() - at < n {
        return Skipped::Refused(types::END);
    }
    Skipped::Done(Place(at + n))
}

#[tactic(auto, using(crate::proofs::Leaf::leaf_ends))]
fn skip_bool(s: &[u8], at: Place) -> Skipped
    ensures { result ≡ past binary.truth s.now at.0 }
{
    match binary_heads::read_bool(s, at) {
        BoolRead::Got(_, next) => Skipped::Done(next),
        BoolRead::Refused(why) => Skipped::Refused(why),
    }
}

// A string's bytes are passed over unseen: skip checks no UTF-8.
#[tactic(auto, using(crate::proofs::Leaf::leaf_ends))]
fn skip_bytes(s: &[u8], at: Place, limits: TConfiguration) -> Skipped
    ensures { result ≡ past (binary.binary limits) s.now at.0 }
{
    match binary_heads::read_bytes(s, at, limits) {
        PartRead::Got(_, next) => Skipped::Done(next),
        PartRead::Refused(why) => Skipped::Refused(why),
    }
}

// One value where no container may be entered. Those of a fixed size are one comparison.
#[tactic(auto, using(crate::proofs::Leaf::leaf_cases))]
fn skip_leaf(s: &[u8], at: Place, kind: TType, limits: TConfiguration) -> Skipped
    ensures { result ≡ skip_by binary s.now limits 0 kind at.0 }
{
    match kind {
        TType::Stop => Skipped::Refused(types::BAD_TYPE),
        TType::Bool => skip_bool(s, at),
        TType::I08 => skip_some(s, at.0, 1),
        TType::I16 => skip_some(s, at.0, 2),
        TType::I32 => skip_some(s, at.0, 4),
        TType::I64 => skip_some(s, at.0, 8),
        TType::Double => skip_some(s, at.0, 8),
        TType::Uuid => skip_some(s, at.0, 16),
        TType::String => skip_bytes(s, at, limits),
        TType::List => Skipped::Refused(types::DEPTH),
        TType::Set => Skipped::Refused(types::DEPTH),
        TType::Map => Skipped::Refused(types::DEPTH),
        TType::Struct => Skipped::Refused(types::DEPTH),
    }
}

// A value, with `room` levels left.
#[cycle(skips)]
pub fn skip_value(s: &[u8], at: Place, kind: TType, room: usize, limits: TConfiguration) -> Skipped
    ensures { result ≡ skip_by binary s.now limits room kind at.0 }
{
    if room == 0 {
        return skip_leaf(s, at, kind, limits);
    }
    match kind {
        TType::List => skip_list(s, at, room - 1, limits),
        TType::Set => skip_list(s, at, room - 1, limits),
        TType::Map => skip_map(s, at, room - 1, limits),
        TType::Struct => skip_struct(s, at, room - 1, limits),
        TType::Stop => skip_leaf(s, at, kind, limits),
        TType::Bool => skip_leaf(s, at, kind, limits),
        TType::I08 => skip_leaf(s, at, kind, limits),
        TType::I16 => skip_leaf(s, at, kind, limits),
        TType::I32 => skip_leaf(s, at, kind, limits),
        TType::I64 => skip_leaf(s, at, kind, limits),
        TType::Double => skip_leaf(s, at, kind, limits),
        TType::String => skip_leaf(s, at, kind, limits),
        TType::Uuid => skip_leaf(s, at, kind, limits),
    }
}

// A list or a set that has been entered: `room` levels are left for its elements.
#[cycle(skips)]
fn skip_list(s: &[u8], at: Place, room: usize, limits: TConfiguration) -> Skipped
    ensures { result ≡ skip_by binary s.now limits (suc room) T.List at.0 }
{
    match binary_heads::read_list_begin(s, at, limits) {
        ListHead::Refused(why) => Skipped::Refused(why),
        ListHead::Got(kind, count, next) => {
            if skip::can_begin(kind, count) {
                if is_fixed(kind) {
                    return skip_some(s, next.0, binary_codes::least_bytes(count, kind));
                }
                let mut left = count;
                let mut p = next;
                while 0 < left {
                    match skip_value(s, p, kind, room, limits) {
                        Skipped::Done(e) => {
                            p = e;
                        }
                        Skipped::Refused(why) => {
                            return Skipped::Refused(why);
                        }
                    }
                    left = left - 1;
                }
                return Skipped::Done(p);
            }
            Skipped::Refused(types::BAD_TYPE)
        }
    }
}

// A map that has been entered. A value type Stop is refused before the first key is read.
#[cycle(skips)]
fn skip_map(s: &[u8], at: Place, room: usize, limits: TConfiguration) -> Skipped
    ensures { result ≡ skip_by binary s.now limits (suc room) T.Map at.0 }
{
    match binary_heads::read_map_begin(s, at, limits) {
        MapHead::Refused(why) => Skipped::Refused(why),
        MapHead::Got(key, value, count, next) => {
            if skip::can_begin(key, count) {
                if skip::can_begin(value, count) {
                    return skip_pairs(s, next, key, value, count, room, limits);
                }
                return Skipped::Refused(types::BAD_TYPE);
            }
            Skipped::Refused(types::BAD_TYPE)
        }
    }
}

// So many keys, each with its value.
#[cycle(skips)]
fn skip_pairs(
    s: &[u8],
    at: Place,
    key: TType,
    value: TType,
    count: u32,
    room: usize,
    limits: TConfiguration,
) -> Skipped
    ensures { result ≡ past (many_pairs (value_by binary limits room key) (value_by binary limits room value) count) s.now at.0 }
{
    let mut left = count;
    let mut p = at;
    while 0 < left {
        match skip_value(s, p, key, room, limits) {
            Skipped::Refused(why) => {
                return Skipped::Refused(why);
            }
            Skipped::Done(middle) => match skip_value(s, middle, value, room, limits) {
                Skipped::Refused(why) => {
                    return Skipped::Refused(why);
                }
                Skipped::Done(e) => {
                    p = e;
                }
            },
        }
        left = left - 1;
    }
    Skipped::Done(p)
}

// A struct that has been entered: its fields up to the stop.
#[cycle(skips)]
fn skip_struct(s: &[u8], at: Place, room: usize, limits: TConfiguration) -> Skipped
    ensures { result ≡ skip_by binary s.now limits (suc room) T.Struct at.0 }
{
    let mut p = at;
    loop {
        match binary_heads::read_field_begin(s, p) {
            FieldHead::Stop(e) => {
                return Skipped::Done(e);
            }
            FieldHead::Refused(why) => {
                return Skipped::Refused(why);
            }
            FieldHead::Bool(_, _, next) => {
                p = next;
            }
            FieldHead::Value(kind, _, next) => match skip_value(s, next, kind, room, limits) {
                Skipped::Done(e) => {
                    p = e;
                }
                Skipped::Refused(why) => {
                    return Skipped::Refused(why);
                }
            },
        }
    }
}
