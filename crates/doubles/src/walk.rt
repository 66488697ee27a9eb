// The walk over a value: every double in it is counted, and its answer put into a lent row, as far as that goes. The cycle is skip's own; what holds no
// double is left to skip.
ghost use Rattle.std.specs.Prelude.{◌≡◌, ◌<◌, pos};
ghost use Rattle.types.specs.Value.{truth};
ghost use Rattle.types.specs.declared.TType.TheVariants as T;
ghost use Rattle.heads.specs.Reader.{read_at};
ghost use Rattle.skip.specs.Walk.{fields};
ghost use Rattle.skip.specs.Value.{many, many_pairs, value_of};
ghost use Rattle.skip.specs.Skip.{skip_of};
ghost use Rattle.doubles.specs.Doubles.{doubles_of, doubles_all, doubles_pairs};
ghost use Rattle.doubles.specs.Walked.{code, jotted, bare, bare_both, is_double, double_tree, pair_of, doubles_pair, doubles_in, passed_by, Walks, Further};

use crate::Walked;
use heads::{DoubleRead, FieldHead, ListHead, MapHead};
use single::{Counts, Single};
use skip::Skipped;
use types::{FieldId, Place, TConfiguration, TType};

// Where a run of fields has led: the place behind it, the last field's id, and the counts.
#[derive(Clone, Copy)]
struct Run {
    place: Place,
    last: FieldId,
    counts: Counts,
}

// An answer by number.
fn answer_number(answer: Single) -> u8
    ensures { result ≡ code answer }
{
    match answer {
        Single::Yes => 0,
        Single::No => 1,
        Single::NotANumber => 2,
    }
}

// Whether a value of the type holds no double.
fn is_bare(kind: TType) -> bool
    ensures { result ≡ bare kind }
{
    match kind {
        TType::Double => false,
        TType::List => false,
        TType::Set => false,
        TType::Map => false,
        TType::Struct => false,
        TType::Stop => true,
        TType::Bool => true,
        TType::I08 => true,
        TType::I16 => true,
        TType::I32 => true,
        TType::I64 => true,
        TType::String => true,
        TType::Uuid => true,
    }
}

fn both_bare(key: TType, value: TType) -> bool
    ensures { result ≡ bare_both key value }
{
    if is_bare(key) {
        return is_bare(value);
    }
    false
}

fn is_double(kind: TType) -> bool
    ensures { result ≡ is_double kind }
{
    match kind {
        TType::Double => true,
        TType::Stop => false,
        TType::Bool => false,
        TType::I08 => false,
        TType::I16 => false,
        TType::I32 => false,
        TType::I64 => false,
        TType::String => false,
        TType::List => false,
        TType::Set => false,
        TType::Map => false,
        TType::Struct => false,
        TType::Uuid => false,
    }
}

// One double more. The row gets its answer where it is long enough.
fn jot(counts: Counts, bits: u64, row: &mut [u8]) -> Counts
    ensures { (result, row.new) ≡ jotted (counts, row.old) bits }
{
    let some = std::num::wrapping_add_u64(counts.yes, counts.no);
    let n = std::num::wrapping_add_u64(some, counts.nan) as usize;
    if n < row.len() {
        row[n] = answer_number(single::held(bits));
        return single::counted(counts, bits);
    }
    single::counted(counts, bits)
}

fn walk_double(s: &[u8], at: Place, counts: Counts, row: &mut [u8]) -> Walked
    ensures { Walks doubles_of (read_at double_tree s.now at.0) (counts, row.old) result row.new }
{
    match heads::read_double(s, at) {
        DoubleRead::Got(bits, next) => Walked::Done(next, jot(counts, bits, row)),
        DoubleRead::Refused(why) => Walked::Refused(why),
    }
}

// So many, one behind the other.
fn walk_doubles(s: &[u8], at: Place, count: u32, counts: Counts, row: &mut [u8]) -> Walked
    ensures { Walks doubles_all (read_at (many double_tree count) s.now at.0) (counts, row.old) result row.new }
{
    let mut left = count;
    let mut p = at;
    let mut so_far = counts;
    while 0 < left {
        match walk_double(s, p, so_far, row) {
            Walked::Done(e, next) => {
                p = e;
                so_far = next;
            }
            Walked::Refused(why) => {
                return Walked::Refused(why);
            }
        }
        left = left - 1;
    }
    Walked::Done(p, so_far)
}

// One field, if its header is short and its value a double that is whole; else no step is taken, and what comes here, a refusal too, is left to who reads on.
fn walk_field(s: &[u8], at: Place, last: FieldId, counts: Counts, row: &mut [u8]) -> Run
    ensures { Further s.now at.0 last.0 (counts, row.old) result.place.0 result.last.0 (result.counts, row.new) }
{
    let here = Run {
        place: at,
        last,
        counts,
    };
    let p = at.0;
    if s.len() <= p {
        return here;
    }
    let b = s[p];
    let delta = b / 16;
    if delta == 0 {
        return here;
    }
    if b % 16 != 7 {
        return here;
    }
    let sum = (last.0 as i32) + (delta as i32);
    if 32767 < sum {
        return here;
    }
    let id = FieldId(sum as i16);
    match heads::read_double(s, Place(p + 1)) {
        DoubleRead::Got(bits, next) => {
            let more = jot(counts, bits, row);
            Run {
                place: next,
                last: id,
                counts: more,
            }
        }
        DoubleRead::Refused(_) => here,
    }
}

// As many such fields as there are: a trial's points are a run of them and a stop.
fn walk_run(s: &[u8], at: Place, last: FieldId, counts: Counts, row: &mut [u8]) -> Run
    ensures { Further s.now at.0 last.0 (counts, row.old) result.place.0 result.last.0 (result.counts, row.new) }
{
    let mut p = at;
    let mut id = last;
    let mut so_far = counts;
    while p.0 < s.len() {
        let next = walk_field(s, p, id, so_far, row);
        if next.place.0 <= p.0 {
            return next;
        }
        p = next.place;
        id = next.last;
        so_far = next.counts;
    }
    Run {
        place: p,
        last: id,
        counts: so_far,
    }
}

// A value that holds no double, or is refused: it is skip's.
#[tactic(auto, using(crate::proofs::Cases::past_cases))]
fn walk_past(
    s: &[u8],
    at: Place,
    kind: TType,
    room: usize,
    limits: TConfiguration,
    counts: Counts,
) -> Walked
    ensures { result ≡ passed_by counts (skip_of s.now limits room kind at.0) }
{
    match skip::skip_value(s, at, kind, room, limits) {
        Skipped::Done(e) => Walked::Done(e, counts),
        Skipped::Refused(why) => Walked::Refused(why),
    }
}

// A value, with `room` levels left.
#[cycle(walks)]
pub(crate) fn walk_value(
    s: &[u8],
    at: Place,
    kind: TType,
    room: usize,
    limits: TConfiguration,
    counts: Counts,
    row: &mut [u8],
) -> Walked
    ensures { Walks doubles_of (read_at (value_of limits room kind) s.now at.0) (counts, row.old) result row.new }
{
    if is_double(kind) {
        return walk_double(s, at, counts, row);
    }
    if room == 0 {
        return walk_past(s, at, kind, 0, limits, counts);
    }
    match kind {
        TType::List => walk_list(s, at, room, limits, counts, row),
        TType::Set => walk_list(s, at, room, limits, counts, row),
        TType::Map => walk_map(s, at, room, limits, counts, row),
        TType::Struct => walk_struct(s, at, room - 1, limits, counts, row),
        TType::Stop => walk_past(s, at, kind, room, limits, counts),
        TType::Bool => walk_past(s, at, kind, room, limits, counts),
        TType::I08 => walk_past(s, at, kind, room, limits, counts),
        TType::I16 => walk_past(s, at, kind, room, limits, counts),
        TType::I32 => walk_past(s, at, kind, room, limits, counts),
        TType::I64 => walk_past(s, at, kind, room, limits, counts),
        TType::Double => walk_past(s, at, kind, room, limits, counts),
        TType::String => walk_past(s, at, kind, room, limits, counts),
        TType::Uuid => walk_past(s, at, kind, room, limits, counts),
    }
}

// A list or a set. One whose elements hold no double is passed over whole; so is one of the type Stop, of which there are none.
#[cycle(walks)]
fn walk_list(
    s: &[u8],
    at: Place,
    room: usize,
    limits: TConfiguration,
    counts: Counts,
    row: &mut [u8],
) -> Walked
    requires { 0 < room }
    ensures { Walks doubles_of (read_at (value_of limits room T.List) s.now at.0) (counts, row.old) result row.new }
{
    match heads::read_list_begin(s, at, limits) {
        ListHead::Refused(why) => Walked::Refused(why),
        ListHead::Got(kind, count, next) => {
            if is_bare(kind) {
                return walk_past(s, at, TType::List, room, limits, counts);
            }
            if is_double(kind) {
                return walk_doubles(s, next, count, counts, row);
            }
            walk_many(s, next, kind, count, room - 1, limits, counts, row)
        }
    }
}

// So many values of a type.
#[cycle(walks)]
fn walk_many(
    s: &[u8],
    at: Place,
    kind: TType,
    count: u32,
    room: usize,
    limits: TConfiguration,
    counts: Counts,
    row: &mut [u8],
) -> Walked
    ensures { Walks doubles_all (read_at (many (value_of limits room kind) count) s.now at.0) (counts, row.old) result row.new }
{
    let mut left = count;
    let mut p = at;
    let mut so_far = counts;
    while 0 < left {
        match walk_value(s, p, kind, room, limits, so_far, row) {
            Walked::Done(e, next) => {
                p = e;
                so_far = next;
            }
            Walked::Refused(why) => {
                return Walked::Refused(why);
            }
        }
        left = left - 1;
    }
    Walked::Done(p, so_far)
}

// A map. One whose keys and values hold no double is passed over whole.
#[cycle(walks)]
fn walk_map(
    s: &[u8],
    at: Place,
    room: usize,
    limits: TConfiguration,
    counts: Counts,
    row: &mut [u8],
) -> Walked
    requires { 0 < room }
    ensures { Walks doubles_of (read_at (value_of limits room T.Map) s.now at.0) (counts, row.old) result row.new }
{
    match heads::read_map_begin(s, at, limits) {
        MapHead::Refused(why) => Walked::Refused(why),
        MapHead::Got(key, value, count, next) => {
            if both_bare(key, value) {
                return walk_past(s, at, TType::Map, room, limits, counts);
            }
            if skip::can_begin(key, count) {
                if skip::can_begin(value, count) {
                    return walk_pairs(s, next, key, value, count, room - 1, limits, counts, row);
                }
                return Walked::Refused(types::BAD_TYPE);
            }
            Walked::Refused(types::BAD_TYPE)
        }
    }
}

// So many keys, each with its value.
#[cycle(walks)]
fn walk_pairs(
    s: &[u8],
    at: Place,
    key: TType,
    value: TType,
    count: u32,
    room: usize,
    limits: TConfiguration,
    counts: Counts,
    row: &mut [u8],
) -> Walked
    ensures { Walks doubles_pairs (read_at (many_pairs (value_of limits room key) (value_of limits room value) count) s.now at.0) (counts, row.old) result row.new }
{
    let mut left = count;
    let mut p = at;
    let mut so_far = counts;
    while 0 < left {
        match walk_pair(s, p, key, value, room, limits, so_far, row) {
            Walked::Done(e, next) => {
                p = e;
                so_far = next;
            }
            Walked::Refused(why) => {
                return Walked::Refused(why);
            }
        }
        left = left - 1;
    }
    Walked::Done(p, so_far)
}

// A key, and its value.
#[cycle(walks)]
fn walk_pair(
    s: &[u8],
    at: Place,
    key: TType,
    value: TType,
    room: usize,
    limits: TConfiguration,
    counts: Counts,
    row: &mut [u8],
) -> Walked
    ensures { Walks doubles_pair (read_at (pair_of (value_of limits room key) (value_of limits room value)) s.now at.0) (counts, row.old) result row.new }
{
    match walk_value(s, at, key, room, limits, counts, row) {
        Walked::Done(middle, more) => walk_value(s, middle, value, room, limits, more, row),
        Walked::Refused(why) => Walked::Refused(why),
    }
}

// A struct that has been entered: its fields up to the stop. Its ids begin anew.
#[cycle(walks)]
fn walk_struct(
    s: &[u8],
    at: Place,
    room: usize,
    limits: TConfiguration,
    counts: Counts,
    row: &mut [u8],
) -> Walked
    ensures { Walks doubles_in (read_at (fields truth (value_of limits room) (pos 0)) s.now at.0) (counts, row.old) result row.new }
{
    let mut p = at;
    let mut last = FieldId(0);
    let mut so_far = counts;
    loop {
        let run = walk_run(s, p, last, so_far, row);
        p = run.place;
        last = run.last;
        so_far = run.counts;
        match heads::read_field_begin(s, p, last) {
            FieldHead::Stop(e) => {
                return Walked::Done(e, so_far);
            }
            FieldHead::Refused(why) => {
                return Walked::Refused(why);
            }
            FieldHead::Bool(_, id, next) => {
                last = id;
                p = next;
            }
            FieldHead::Value(kind, id, next) => {
                match walk_value(s, next, kind, room, limits, so_far, row) {
                    Walked::Done(e, more) => {
                        so_far = more;
                        last = id;
                        p = e;
                    }
                    Walked::Refused(why) => {
                        return Walked::Refused(why);
                    }
                }
            }
        }
    }
}
