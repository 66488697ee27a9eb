// Where and why a struct is refused: the number, the offset of the last byte read, and the path to it. Skip is asked first; what it refuses is
// looked into one level at a time, where skip says which of the values inside is the first that it refuses. How far refused bytes were read, and
// one level inward, stand in modules of their own.
#![tactic(auto)]

ghost use Rattle.std.specs.Prelude.{◌≡◌, ◌++◌, ◌-◌, ◌+◌, ◌*◌, ◌≤◌, length, take, drop};
ghost use Rattle.input.specs.State.{cut_of};
ghost use Rattle.faults.specs.Value.{tracked};
ghost use Rattle.faults.specs.Fault.{kind_of, number_of, struct_fault, verdict, told_in, why_call, why_message, why_row};
ghost use Rattle.faults.specs.Trace.{trace, step_of, Tells};

use heads::MessageHead;
use input::TCompactInputProtocol;
use skip::Skipped;
use types::{FieldId, Place, TConfiguration, TType};

mod level;
mod reach;

// The place behind what is accepted; or a refusal's number, the offset, and how many steps the path has.
#[derive(Clone, Copy)]
pub enum Verdict {
    Accepted(Place),
    Refused(u8, usize, usize),
}

// One step of a path.
#[derive(Clone, Copy)]
pub enum Step {
    Field(FieldId),
    Element(u32),
    Key(u32),
    Value(u32),
}

// One level inward: nothing is refused; the value's own bytes are, with the place behind the last that was read; or a value inside is.
#[derive(Clone, Copy)]
pub enum Inward {
    Whole,
    Own(u8, usize),
    Into(Step, TType, Place),
}

// The whole way: a refusal's number, or 0 where nothing is refused; the place behind the last byte read; how many steps, and two numbers for each.
#[derive(Clone, Copy)]
pub struct Traced {
    pub number: u8,
    pub reach: usize,
    pub count: usize,
    pub rows: [i64; 128],
}

// What a step is told as: the first of its two numbers.
fn step_kind(step: Step) -> i64
    ensures { result ≡ kind_of (step_of step) }
{
    match step {
        Step::Field(_) => 0,
        Step::Element(_) => 1,
        Step::Key(_) => 2,
        Step::Value(_) => 3,
    }
}

fn step_number(step: Step) -> i64
    ensures { result ≡ number_of (step_of step) }
{
    match step {
        Step::Field(id) => id.0 as i64,
        Step::Element(i) => i as i64,
        Step::Key(i) => i as i64,
        Step::Value(i) => i as i64,
    }
}

// The way to what is refused, from outside in: at most 64 levels.
fn find(s: &[u8], at: Place, kind: TType, room: usize, limits: TConfiguration) -> Traced
    requires at_in_bounds { at.0 ≤ length s.now }
    requires room_bound { room ≤ 64 }
    ensures { Tells result (trace (tracked limits room kind) s.now at.0) }
{
    let mut rows = [0i64; 128];
    let mut count = 0usize;
    let mut p = at;
    let mut inner = kind;
    let mut left = room;
    loop {
        match level::one_level(s, p, inner, left, limits) {
            Inward::Whole => {
                return Traced {
                    number: 0,
                    reach: 0,
                    count: 0,
                    rows,
                };
            }
            Inward::Own(number, reach) => {
                return Traced {
                    number,
                    reach,
                    count,
                    rows,
                };
            }
            Inward::Into(step, next, place) => {
                left = left - 1;
                inner = next;
                p = place;
                rows[2 * count] = step_kind(step);
                rows[2 * count + 1] = step_number(step);
                count = count + 1;
            }
        }
    }
}

fn put_row(row: &mut [i64], rows: [i64; 128], n: usize)
    requires { (n ≤ length row.old) × (n ≤ 128) }
    ensures { row.new ≡ take n rows ++ drop n row.old }
{
    let mut j: usize = 0;
    while j < n {
        row[j] = rows[j];
        j = j + 1;
    }
}

// The last byte read; the start where none was.
fn last_read(start: usize, reach: usize) -> usize
    requires { start ≤ reach }
    ensures { result ≡ start + (reach - start - 1) }
{
    if reach == start {
        return start;
    }
    reach - 1
}

// From the reader's place on, where neither BAD STATE nor OUT OF TURN is.
fn why_on(state: TCompactInputProtocol, s: &[u8], row: &mut [i64]) -> Verdict
    requires { (state.depth ≤ state.limits.depth) × (state.limits.depth ≤ 64) × (state.place.0 ≤ length s.now) × (state.place.0 ≤ cut_of state) }
    ensures { (result ≡ verdict (length row.old) state.place.0 (struct_fault s.now state)) × (row.new ≡ told_in row.old (struct_fault s.now state)) }
{
    let start = state.place;
    let room = state.limits.depth - state.depth;
    let end = state.cut(s.len());
    match skip::skip_value(&s[..end], start, TType::Struct, room, state.limits) {
        Skipped::Done(to) => Verdict::Accepted(to),
        Skipped::Refused(_) => {
            let told = find(&s[..end], start, TType::Struct, room, state.limits);
            if row.len() < 2 * told.count {
                return Verdict::Refused(types::NO_ROOM, start.0, 0);
            }
            let rows = told.rows;
            put_row(row, rows, 2 * told.count);
            let number = input::missing(told.number, end, s.len());
            Verdict::Refused(number, last_read(start.0, told.reach), told.count)
        }
    }
}

// Why skip refuses the struct at the reader's place. The lent row gets two numbers for each step of the path, from outside in: 0 and a field's id,
// 1 and an element's number, 2 and a key's, 3 and a value's; 128 are always enough. The reader stays where it is.
pub fn why(state: TCompactInputProtocol, s: &[u8], row: &mut [i64]) -> Verdict
    ensures answer { result ≡ why_call (length row.old) s.now state }
    ensures row { row.new ≡ why_row s.now state row.old }
{
    let number = state.refusal(s.len());
    if number != 0 {
        return Verdict::Refused(number, state.place.0, 0);
    }
    why_on(state, s, row)
}

// Why the message's header at the reader's place is refused: it has no path.
pub fn why_message(state: TCompactInputProtocol, s: &[u8]) -> Verdict
    ensures { result ≡ why_message s.now state }
{
    let number = state.refusal(s.len());
    if number != 0 {
        return Verdict::Refused(number, state.place.0, 0);
    }
    let start = state.place;
    let end = input::cut_at(start.0, state.limits.message as usize, s.len());
    match heads::read_message_begin(&s[..end], start, state.limits) {
        MessageHead::Got(_, _, _, to) => Verdict::Accepted(to),
        MessageHead::Refused(why) => {
            let reach = reach::message_reach(&s[..end], start, state.limits);
            let number = input::missing(why, end, s.len());
            Verdict::Refused(number, last_read(start.0, reach), 0)
        }
    }
}
