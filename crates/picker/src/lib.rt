// The picker: one walk that says for each wanted field id where the last field of that id and type has its value, whatever else stands in the struct.
// The struct is walked twice: first skip accepts or refuses it, so that nothing is written before a refusal; then its own fields are noted in
// the rows. Fields of inner structs are passed over with the value that holds them.
#![tactic(auto)]

ghost use Rattle.std.specs.Prelude.{◌≡◌, true, cond, List, ℕ, ◌+◌, ◌*◌, ◌≤◌, ◌<◌, eqb, length, pos};
ghost use Rattle.types.specs.Value.{Tree, truth};
ghost use Rattle.numbers.specs.Varint.{got};
ghost use Rattle.heads.specs.Reader.{read_at};
ghost use Rattle.input.specs.Outcome.{declines};
ghost use Rattle.input.specs.Answers.{as_done};
ghost use Rattle.skip.specs.Walk.{Entry, fields};
ghost use Rattle.skip.specs.Value.{value_of};
ghost use Rattle.skip.specs.Leaves.{Onward};
ghost use Rattle.picker.specs.Pick.{on_struct, forgets, written, pick_call, picked_rows};
ghost use Rattle.picker.specs.Notes.{put_row, note_row, note, note_all, clear, nearer_of, least_past};

use heads::FieldHead;
use input::{DoneAnswer, ReadDone, TCompactInputProtocol};
use skip::leaves::{Run, skip_fields};
use skip::{Skipped, skip_value};
use types::{FieldId, Place, TConfiguration, TType};

// The kinds of answer: what stands first in a row.
pub const ABSENT: usize = 0;

pub const WRONG_TYPE: usize = 1;

pub const HERE: usize = 2;

pub const FALSE: usize = 3;

pub const TRUE: usize = 4;

fn put_row(rows: &mut [usize], j: usize, kind: usize, start: usize, end: usize)
    requires { 3 * j + 3 ≤ length rows.old }
    ensures { rows.new ≡ put_row j (record { kind = kind; start = start; end = end }) rows.old }
{
    rows[3 * j] = kind;
    rows[3 * j + 1] = start;
    rows[3 * j + 2] = end;
}

fn clear_rows(rows: &mut [usize], n: usize)
    requires { 3 * n ≤ length rows.old }
    ensures { rows.new ≡ clear n 0 rows.old }
{
    let mut j: usize = 0;
    while j < n {
        put_row(rows, j, ABSENT, 0, 0);
        j = j + 1;
    }
}

// Whether what a row says gives way to a field of its id: to one of the wanted type always, so that the last of them stays; to one of another type
// only where nothing was said.
fn gives_way(before: usize, same: bool) -> bool
    ensures { result ≡ cond same true (eqb before 0) }
{
    if same {
        return true;
    }
    before == ABSENT
}

// A field that has the id (`mine`) and the type (`same`) wanted in row j, or not.
fn note_row(
    rows: &mut [usize],
    j: usize,
    mine: bool,
    same: bool,
    kind: usize,
    start: usize,
    end: usize,
)
    requires { 3 * j + 3 ≤ length rows.old }
    ensures { rows.new ≡ note_row mine same (record { kind = kind; start = start; end = end }) j rows.old }
{
    if mine {
        if gives_way(rows[3 * j], same) {
            if same {
                put_row(rows, j, kind, start, end);
                return;
            }
            put_row(rows, j, WRONG_TYPE, 0, 0);
            return;
        }
        return;
    }
}

// A field of the struct, noted in the row of its id, if that is wanted.
fn note_field(
    ids: &[i16],
    kinds: &[u8],
    rows: &mut [usize],
    id: FieldId,
    code: u8,
    kind: usize,
    start: usize,
    end: usize,
)
    requires { (length kinds.now ≡ length ids.now) × (3 * length ids.now ≤ length rows.old) }
    ensures { rows.new ≡ note id.0 code (record { kind = kind; start = start; end = end }) ids.now kinds.now 0 rows.old }
{
    let mut j: usize = 0;
    while j < ids.len() {
        let mine = wanted::same_id(id, FieldId(ids[j]));
        note_row(rows, j, mine, code == kinds[j], kind, start, end);
        j = j + 1;
    }
}

fn truth_kind(truth: bool) -> usize
    ensures { result ≡ cond truth 4 3 }
{
    if truth {
        return TRUE;
    }
    FALSE
}

// Of two ids the lesser, if the first lies past `last`; else the second.
fn nearer(last: FieldId, id: FieldId, next: FieldId) -> FieldId
    ensures { result.0 ≡ nearer_of last.0 id.0 next.0 }
{
    if last.0 < id.0 {
        if id.0 < next.0 {
            return id;
        }
        return next;
    }
    next
}

// The least wanted id past `last`: a field with an id between the two is in no row.
fn next_wanted(ids: &[i16], last: FieldId) -> FieldId
    ensures { result.0 ≡ least_past last.0 ids.now (pos 32767) }
{
    let mut next = FieldId(32767);
    let mut j: usize = 0;
    while j < ids.len() {
        next = nearer(last, FieldId(ids[j]), next);
        j = j + 1;
    }
    next
}

// Short fields before the next wanted id, passed over as skip passes over them.
fn pass_unwanted(s: &[u8], at: Place, last: FieldId, ids: &[i16]) -> Run
    ensures { Onward s.now at.0 last.0 (least_past last.0 ids.now (pos 32767)) result.place.0 result.last.0 }
{
    skip_fields(s, at, last, next_wanted(ids, last))
}

// The fields directly in a struct, each noted as the walk finds it, but for those that no row is for.
fn note_struct(
    s: &[u8],
    at: Place,
    room: usize,
    limits: TConfiguration,
    ids: &[i16],
    kinds: &[u8],
    rows: &mut [usize],
)
    requires { (length kinds.now ≡ length ids.now) × (3 * length ids.now ≤ length rows.old) }
    ensures { (fs : List (Entry Tree)) (e : ℕ) → read_at (fields truth (value_of limits room) (pos 0)) s.now at.0 ≡ got fs e → rows.new ≡ note_all ids.now kinds.now fs at.0 rows.old }
{
    let mut p = at;
    let mut last = FieldId(0);
    loop {
        let run = pass_unwanted(s, p, last, ids);
        p = run.place;
        last = run.last;
        match heads::read_field_begin(s, p, last) {
            FieldHead::Stop(_) => return,
            FieldHead::Refused(_) => return,
            FieldHead::Bool(b, id, next) => {
                note_field(ids, kinds, rows, id, 1, truth_kind(b), 0, 0);
                last = id;
                p = next;
            }
            FieldHead::Value(kind, id, next) => match skip_value(s, next, kind, room, limits) {
                Skipped::Refused(_) => return,
                Skipped::Done(e) => {
                    let code = types::type_to_u8(kind);
                    note_field(ids, kinds, rows, id, code, HERE, next.0, e.0);
                    last = id;
                    p = e;
                }
            },
        }
    }
}

fn refuse(why: u8, state: TCompactInputProtocol) -> ReadDone
    ensures { result ≡ as_done (declines why state) }
{
    ReadDone {
        answer: DoneAnswer::Refused(why),
        state,
    }
}

// From the reader's place on, where the list and the room have passed.
fn pick_on(
    state: TCompactInputProtocol,
    s: &[u8],
    ids: &[i16],
    kinds: &[u8],
    rows: &mut [usize],
) -> ReadDone
    requires { (length kinds.now ≡ length ids.now) × (3 * length ids.now ≤ length rows.old) × (state.depth < state.limits.depth) }
    ensures { (result ≡ as_done (forgets (on_struct s.now state))) × (rows.new ≡ written ids.now kinds.now state.place.0 (on_struct s.now state).said rows.old) }
{
    let room = state.limits.depth - state.depth;
    let end = state.cut(s.len());
    match skip_value(&s[..end], state.place, TType::Struct, room, state.limits) {
        Skipped::Refused(why) => ReadDone {
            answer: DoneAnswer::Refused(input::missing(why, end, s.len())),
            state,
        },
        Skipped::Done(to) => {
            clear_rows(rows, ids.len());
            note_struct(
                &s[..end],
                state.place,
                room - 1,
                state.limits,
                ids,
                kinds,
                rows,
            );
            let mut next = state;
            next.place = to;
            ReadDone {
                answer: DoneAnswer::Done,
                state: next,
            }
        }
    }
}

// For each wanted id, with its type by number, the row kind, start, end: where the last field of that id and type directly in the struct at the
// reader's place has its value. The reader moves behind the struct, as skip of it does.
pub fn pick(
    state: TCompactInputProtocol,
    s: &[u8],
    ids: &[i16],
    kinds: &[u8],
    rows: &mut [usize],
) -> ReadDone
    ensures answer { result ≡ pick_call ids.now kinds.now (length rows.old) s.now state }
    ensures rows { rows.new ≡ picked_rows ids.now kinds.now s.now state rows.old }
{
    let why = state.refusal(s.len());
    if why != 0 {
        return refuse(why, state);
    }
    if wanted::is_listed(ids, kinds) {
        if state.depth < state.limits.depth {
            if 3 * ids.len() <= rows.len() {
                return pick_on(state, s, ids, kinds, rows);
            }
            return refuse(types::NO_ROOM, state);
        }
        return refuse(types::DEPTH, state);
    }
    refuse(types::BAD_LIST, state)
}
