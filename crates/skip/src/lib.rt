// Skip: over one value of a type, whatever stands in it. A value's skip calls those of list, map and struct, and each of these calls the value's
// for its elements or fields, with one level of room less; counts and fields are loops, so the stack grows with nesting alone.
#![tactic(auto)]

ghost use Rattle.std.specs.Prelude.{◌≡◌, ◌↔◌, true, false, cond, ℕ, suc, ◌≤◌, length, eqb};
ghost use Rattle.types.specs.Refusals.{OUT_OF_TURN};
ghost use Rattle.types.specs.Codes.{type_code};
ghost use Rattle.heads.specs.Spells.{Formed};
ghost use Rattle.input.specs.State.{sound, cut_of, waits, with_pending};
ghost use Rattle.input.specs.Outcome.{answers, declines};
ghost use Rattle.input.specs.Answers.{as_done};
ghost use Rattle.input.specs.declared.Awaited.TheVariants as W;
ghost use Rattle.skip.specs.Skip.{past, skip_of, skip_to, over, room_of, skip_call, skipped_to};
ghost use Rattle.skip.specs.Value.{startable, many_pairs, value_of};
ghost use Rattle.types.specs.declared.TType.TheVariants as T;

use heads::{FieldHead, ListHead, MapHead};
use input::{Awaited, DoneAnswer, Pending, ReadDone, TCompactInputProtocol};
use types::{FieldId, Place, TConfiguration, TType};

pub mod leaves;

// The place behind the value, or the number of a refusal.
#[derive(Clone, Copy)]
pub enum Skipped {
    Done(Place),
    Refused(u8),
}

// A value, with `room` levels left.
#[cycle(skips)]
pub fn skip_value(s: &[u8], at: Place, kind: TType, room: usize, limits: TConfiguration) -> Skipped
    ensures { result ≡ skip_of s.now limits room kind at.0 }
{
    if room == 0 {
        return leaves::skip_leaf(s, at, kind, limits);
    }
    match kind {
        TType::List => skip_list(s, at, room - 1, limits),
        TType::Set => skip_list(s, at, room - 1, limits),
        TType::Map => skip_map(s, at, room - 1, limits),
        TType::Struct => skip_struct(s, at, room - 1, limits),
        TType::Stop => leaves::skip_leaf(s, at, kind, limits),
        TType::Bool => leaves::skip_leaf(s, at, kind, limits),
        TType::I08 => leaves::skip_leaf(s, at, kind, limits),
        TType::I16 => leaves::skip_leaf(s, at, kind, limits),
        TType::I32 => leaves::skip_leaf(s, at, kind, limits),
        TType::I64 => leaves::skip_leaf(s, at, kind, limits),
        TType::Double => leaves::skip_leaf(s, at, kind, limits),
        TType::String => leaves::skip_leaf(s, at, kind, limits),
        TType::Uuid => leaves::skip_leaf(s, at, kind, limits),
    }
}

// Whether a container's elements can begin: of the type Stop there are none.
pub fn can_begin(kind: TType, count: u32) -> bool
    ensures { result ≡ startable kind count }
{
    if count == 0 {
        return true;
    }
    0 < types::type_to_u8(kind)
}

// A list or a set that has been entered: `room` levels are left for its elements.
#[cycle(skips)]
fn skip_list(s: &[u8], at: Place, room: usize, limits: TConfiguration) -> Skipped
    ensures { result ≡ skip_of s.now limits (suc room) T.List at.0 }
{
    match heads::read_list_begin(s, at, limits) {
        ListHead::Refused(why) => Skipped::Refused(why),
        ListHead::Got(kind, count, next) => {
            if can_begin(kind, count) {
                if leaves::is_leaf(kind) {
                    return leaves::skip_leaves(s, next, kind, count, limits);
                }
                let mut left = count;
                let mut p = next;
                while 0 < left {
                    match skip_value(s, p, kind, room, limits) {
                        Skipped::Done(e) => {
                            p = e;
                        }
                        Skipped::Refused(why) => {
                            return Skipped::Refused(why);
                        }
                    }
                    left = left - 1;
                }
                return Skipped::Done(p);
            }
            Skipped::Refused(types::BAD_TYPE)
        }
    }
}

// A map that has been entered. A value type Stop is refused before the first key is read.
#[cycle(skips)]
fn skip_map(s: &[u8], at: Place, room: usize, limits: TConfiguration) -> Skipped
    ensures { result ≡ skip_of s.now limits (suc room) T.Map at.0 }
{
    match heads::read_map_begin(s, at, limits) {
        MapHead::Refused(why) => Skipped::Refused(why),
        MapHead::Got(key, value, count, next) => {
            if can_begin(key, count) {
                if can_begin(value, count) {
                    return skip_pairs(s, next, key, value, count, room, limits);
                }
                return Skipped::Refused(types::BAD_TYPE);
            }
            Skipped::Refused(types::BAD_TYPE)
        }
    }
}

// So many keys, each with its value.
#[cycle(skips)]
fn skip_pairs(
    s: &[u8],
    at: Place,
    key: TType,
    value: TType,
    count: u32,
    room: usize,
    limits: TConfiguration,
) -> Skipped
    ensures { result ≡ past (many_pairs (value_of limits room key) (value_of limits room value) count) s.now at.0 }
{
    let mut left = count;
    let mut p = at;
    while 0 < left {
        match skip_value(s, p, key, room, limits) {
            Skipped::Refused(why) => {
                return Skipped::Refused(why);
            }
            Skipped::Done(middle) => match skip_value(s, middle, value, room, limits) {
                Skipped::Refused(why) => {
                    return Skipped::Refused(why);
                }
                Skipped::Done(e) => {
                    p = e;
                }
            },
        }
        left = left - 1;
    }
    Skipped::Done(p)
}

// A struct that has been entered: its fields up to the stop. Its ids begin anew.
#[cycle(skips)]
fn skip_struct(s: &[u8], at: Place, room: usize, limits: TConfiguration) -> Skipped
    ensures { result ≡ skip_of s.now limits (suc room) T.Struct at.0 }
{
    let mut p = at;
    let mut last = FieldId(0);
    loop {
        let run = leaves::skip_fields(s, p, last, FieldId(32767));
        p = run.place;
        last = run.last;
        let end = leaves::past_stop(s, p);
        if p.0 < end.0 {
            return Skipped::Done(end);
        }
        match heads::read_field_begin(s, p, last) {
            FieldHead::Stop(e) => {
                return Skipped::Done(e);
            }
            FieldHead::Refused(why) => {
                return Skipped::Refused(why);
            }
            FieldHead::Bool(_, id, next) => {
                last = id;
                p = next;
            }
            FieldHead::Value(kind, id, next) => match skip_value(s, next, kind, room, limits) {
                Skipped::Done(e) => {
                    last = id;
                    p = e;
                }
                Skipped::Refused(why) => {
                    return Skipped::Refused(why);
                }
            },
        }
    }
}

// From the reader's place on, where no bool waits.
fn skip_on(state: TCompactInputProtocol, s: &[u8], kind: TType) -> ReadDone
    requires { state.depth ≤ state.limits.depth }
    ensures { result ≡ as_done (over state (skip_to s.now (cut_of state) state.limits (room_of state) kind state.place.0)) }
{
    let room = state.limits.depth - state.depth;
    let end = state.cut(s.len());
    match skip_value(&s[..end], state.place, kind, room, state.limits) {
        Skipped::Refused(why) => ReadDone {
            answer: DoneAnswer::Refused(input::missing(why, end, s.len())),
            state,
        },
        Skipped::Done(to) => {
            let mut next = state;
            next.place = to;
            ReadDone {
                answer: DoneAnswer::Done,
                state: next,
            }
        }
    }
}

// Where a bool waits it is taken by a skip of Bool, for no byte.
fn skip_waiting(state: TCompactInputProtocol, kind: TType) -> ReadDone
    ensures { result ≡ as_done (cond (eqb (type_code kind) 1) (answers tt (with_pending state W.Nothing)) (declines OUT_OF_TURN state)) }
{
    if types::type_to_u8(kind) == 1 {
        let mut next = state;
        let nothing = Pending(Awaited::Nothing);
        next.pending = nothing;
        return ReadDone {
            answer: DoneAnswer::Done,
            state: next,
        };
    }
    ReadDone {
        answer: DoneAnswer::Refused(types::OUT_OF_TURN),
        state,
    }
}

fn skip_call(state: TCompactInputProtocol, s: &[u8], kind: TType) -> ReadDone
    ensures { result ≡ skip_call s.now state kind }
{
    if state.is_sound(s.len()) {
        let pending = state.pending;
        let awaited = pending.0;
        return match awaited {
            Awaited::Nothing => skip_on(state, s, kind),
            Awaited::Truth(_) => skip_waiting(state, kind),
        };
    }
    ReadDone {
        answer: DoneAnswer::Refused(types::BAD_STATE),
        state,
    }
}

// Over one value of a type. In a sound state with no bool waiting it succeeds exactly on a well-formed value within the limits.
pub fn skip(state: TCompactInputProtocol, s: &[u8], kind: TType) -> ReadDone
    ensures answer { result ≡ skip_call s.now state kind }
    ensures exact { sound (length s.now) state ≡ true → waits state.pending.0 ≡ false → (e : ℕ) → (result ≡ skipped_to state e) ↔ (Formed s.now state.limits (room_of state) kind state.place.0 e × (e ≤ cut_of state)) }
{
    skip_call(state, s, kind)
}
