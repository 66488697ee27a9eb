// Values that hold no other, one of them or many: they are passed over by their ends alone, and no number is made of their bytes but of an i16's.
ghost use Rattle.std.specs.Prelude.{◌≡◌, ℕ, ◌≤◌};
ghost use Rattle.numbers.specs.Varint.{groups};
ghost use Rattle.heads.specs.Reader.{some};
ghost use Rattle.heads.specs.Heads.{int16, truth, binary};
ghost use Rattle.heads.specs.Answers.{place};
ghost use Rattle.skip.specs.Value.{many, value_of};
ghost use Rattle.skip.specs.Skip.{past, skip_of};
ghost use Rattle.skip.specs.Leaves.{is_leaf, times, none_of, scalar_of, stop_end, Onward};

use crate::Skipped;
use heads::{BoolRead, I16Read, PartRead};
use types::{FieldId, FieldType, Place, TConfiguration, TType};

// Where a run of fields has led: the place behind it, and the last field's id.
#[derive(Clone, Copy)]
pub struct Run {
    pub place: Place,
    pub last: FieldId,
}

// Whether a value of the type holds no other.
pub(crate) fn is_leaf(kind: TType) -> bool
    ensures { result ≡ is_leaf kind }
{
    match kind {
        TType::List => false,
        TType::Set => false,
        TType::Map => false,
        TType::Struct => false,
        TType::Stop => true,
        TType::Bool => true,
        TType::I08 => true,
        TType::I16 => true,
        TType::I32 => true,
        TType::I64 => true,
        TType::Double => true,
        TType::String => true,
        TType::Uuid => true,
    }
}

// The next n bytes, if they are there.
fn skip_some(s: &[u8], at: usize, n: usize) -> Skipped
    ensures { result ≡ past (some n) s.now at }
{
    if s.len() < at {
        if n == 0 {
            return Skipped::Done(Place(at));
        }
        return Skipped::Refused(types::END);
    }
    if s.len() - at < n {
        return Skipped::Refused(types::END);
    }
    Skipped::Done(Place(at + n))
}

// A varint of at most so many bytes, in a loop of its own, so that the short way below can stand in its callers.
fn long_varint(s: &[u8], at: usize, most: usize) -> Skipped
    ensures { result ≡ past (groups most) s.now at }
{
    let mut left = most;
    let mut p = at;
    while 0 < left {
        if s.len() <= p {
            return Skipped::Refused(types::END);
        }
        if s[p] < 128 {
            return Skipped::Done(Place(p + 1));
        }
        p = p + 1;
        left = left - 1;
    }
    Skipped::Refused(types::LONG_VARINT)
}

// Most are of one byte.
fn skip_varint(s: &[u8], at: usize, most: usize) -> Skipped
    ensures { result ≡ past (groups most) s.now at }
{
    if 0 < most {
        if at < s.len() {
            if s[at] < 128 {
                return Skipped::Done(Place(at + 1));
            }
        }
    }
    long_varint(s, at, most)
}

fn skip_bool(s: &[u8], at: Place) -> Skipped
    ensures { result ≡ past truth s.now at.0 }
{
    match heads::read_bool(s, at) {
        BoolRead::Got(_, next) => Skipped::Done(next),
        BoolRead::Refused(why) => Skipped::Refused(why),
    }
}

// An i16 may be out of range, so its number is made.
fn skip_i16(s: &[u8], at: Place) -> Skipped
    ensures { result ≡ past int16 s.now at.0 }
{
    match heads::read_i16(s, at) {
        I16Read::Got(_, next) => Skipped::Done(next),
        I16Read::Refused(why) => Skipped::Refused(why),
    }
}

// A string's bytes are passed over unseen: skip checks no UTF-8.
fn skip_bytes(s: &[u8], at: Place, limits: TConfiguration) -> Skipped
    ensures { result ≡ past (binary limits) s.now at.0 }
{
    match heads::read_bytes(s, at, limits) {
        PartRead::Got(_, next) => Skipped::Done(next),
        PartRead::Refused(why) => Skipped::Refused(why),
    }
}

// Many of them, one behind the other.
fn skip_varints(s: &[u8], at: Place, count: u32, most: usize) -> Skipped
    ensures { result ≡ past (times count (groups most)) s.now at.0 }
{
    let mut left = count;
    let mut p = at;
    while 0 < left {
        match skip_varint(s, p.0, most) {
            Skipped::Done(e) => {
                p = e;
            }
            Skipped::Refused(why) => {
                return Skipped::Refused(why);
            }
        }
        left = left - 1;
    }
    Skipped::Done(p)
}

fn skip_bools(s: &[u8], at: Place, count: u32) -> Skipped
    ensures { result ≡ past (times count truth) s.now at.0 }
{
    let mut left = count;
    let mut p = at;
    while 0 < left {
        match skip_bool(s, p) {
            Skipped::Done(e) => {
                p = e;
            }
            Skipped::Refused(why) => {
                return Skipped::Refused(why);
            }
        }
        left = left - 1;
    }
    Skipped::Done(p)
}

fn skip_i16s(s: &[u8], at: Place, count: u32) -> Skipped
    ensures { result ≡ past (times count int16) s.now at.0 }
{
    let mut left = count;
    let mut p = at;
    while 0 < left {
        match skip_i16(s, p) {
            Skipped::Done(e) => {
                p = e;
            }
            Skipped::Refused(why) => {
                return Skipped::Refused(why);
            }
        }
        left = left - 1;
    }
    Skipped::Done(p)
}

fn skip_strings(s: &[u8], at: Place, count: u32, limits: TConfiguration) -> Skipped
    ensures { result ≡ past (times count (binary limits)) s.now at.0 }
{
    let mut left = count;
    let mut p = at;
    while 0 < left {
        match skip_bytes(s, p, limits) {
            Skipped::Done(e) => {
                p = e;
            }
            Skipped::Refused(why) => {
                return Skipped::Refused(why);
            }
        }
        left = left - 1;
    }
    Skipped::Done(p)
}

// So many of what there is none of, or for which there is no room.
fn skip_none(at: Place, count: u32, why: u8) -> Skipped
    ensures { result ≡ none_of count why at.0 }
{
    if count == 0 {
        return Skipped::Done(at);
    }
    Skipped::Refused(why)
}

// Many values of a type where no container may be entered. Those of a fixed size are one comparison.
pub(crate) fn skip_leaves(
    s: &[u8],
    at: Place,
    kind: TType,
    count: u32,
    limits: TConfiguration,
) -> Skipped
    ensures { result ≡ past (many (value_of limits 0 kind) count) s.now at.0 }
{
    let n = count as usize;
    match kind {
        TType::Stop => skip_none(at, count, types::BAD_TYPE),
        TType::Bool => skip_bools(s, at, count),
        TType::I08 => skip_some(s, at.0, n),
        TType::I16 => skip_i16s(s, at, count),
        TType::I32 => skip_varints(s, at, count, 5),
        TType::I64 => skip_varints(s, at, count, 10),
        TType::Double => skip_some(s, at.0, n * 8),
        TType::String => skip_strings(s, at, count, limits),
        TType::List => skip_none(at, count, types::DEPTH),
        TType::Set => skip_none(at, count, types::DEPTH),
        TType::Map => skip_none(at, count, types::DEPTH),
        TType::Struct => skip_none(at, count, types::DEPTH),
        TType::Uuid => skip_some(s, at.0, n * 16),
    }
}

// One value where no container may be entered.
pub(crate) fn skip_leaf(s: &[u8], at: Place, kind: TType, limits: TConfiguration) -> Skipped
    ensures { result ≡ skip_of s.now limits 0 kind at.0 }
{
    skip_leaves(s, at, kind, 1, limits)
}

// A field's value, where its type has a fixed size or is a varint; of any other BAD TYPE, which here only ends a run.
fn skip_scalar(s: &[u8], at: usize, kind: TType) -> Skipped
    ensures { result ≡ scalar_of s.now kind at }
{
    match kind {
        TType::I08 => skip_some(s, at, 1),
        TType::I16 => skip_i16(s, Place(at)),
        TType::I32 => skip_varint(s, at, 5),
        TType::I64 => skip_varint(s, at, 10),
        TType::Double => skip_some(s, at, 8),
        TType::Uuid => skip_some(s, at, 16),
        TType::Stop => Skipped::Refused(types::BAD_TYPE),
        TType::Bool => Skipped::Refused(types::BAD_TYPE),
        TType::String => Skipped::Refused(types::BAD_TYPE),
        TType::List => Skipped::Refused(types::BAD_TYPE),
        TType::Set => Skipped::Refused(types::BAD_TYPE),
        TType::Map => Skipped::Refused(types::BAD_TYPE),
        TType::Struct => Skipped::Refused(types::BAD_TYPE),
    }
}

// The place behind the byte that ends a struct, where one stands; else the place itself.
pub(crate) fn past_stop(s: &[u8], at: Place) -> Place
    ensures { result ≡ place (stop_end s.now at.0) }
{
    let p = at.0;
    if s.len() <= p {
        return at;
    }
    if s[p] % 16 == 0 {
        return Place(p + 1);
    }
    at
}

// One field, if its header is short, its id below a bound and its value a scalar that is whole; else no step is taken, and what comes here, a refusal too, is
// left to who reads on.
fn skip_field(s: &[u8], at: Place, last: FieldId, below: FieldId) -> Run
    ensures { Onward s.now at.0 last.0 below.0 result.place.0 result.last.0 }
{
    let here = Run { place: at, last };
    let p = at.0;
    if s.len() <= p {
        return here;
    }
    let b = s[p];
    let delta = b / 16;
    if delta == 0 {
        return here;
    }
    let sum = (last.0 as i32) + (delta as i32);
    if (below.0 as i32) <= sum {
        return here;
    }
    let id = FieldId(sum as i16);
    match types::field_u8_to_type(b % 16) {
        FieldType::Truth(_) => Run {
            place: Place(p + 1),
            last: id,
        },
        FieldType::Kind(kind) => match skip_scalar(s, p + 1, kind) {
            Skipped::Done(e) => Run { place: e, last: id },
            Skipped::Refused(_) => here,
        },
        FieldType::Stop => here,
        FieldType::Refused(_) => here,
    }
}

// As many such fields as there are: whoever looks for an id passes over those before it so. Most structs are a run of them and a stop, and no call of another function is left in this loop.
pub fn skip_fields(s: &[u8], at: Place, last: FieldId, below: FieldId) -> Run
    ensures { Onward s.now at.0 last.0 below.0 result.place.0 result.last.0 }
{
    let mut p = at;
    let mut id = last;
    while p.0 < s.len() {
        let next = skip_field(s, p, id, below);
        if next.place.0 <= p.0 {
            return Run { place: p, last: id };
        }
        p = next.place;
        id = next.last;
    }
    Run { place: p, last: id }
}
