// How many of a struct's doubles an f32 holds, and the answer for each. One walk does both, and its refusal is skip's.
#![tactic(auto)]

ghost use Rattle.std.specs.Prelude.{◌≡◌, ◌≤◌, length};
ghost use Rattle.types.specs.Value.{Tree};
ghost use Rattle.input.specs.Outcome.{says, declines};
ghost use Rattle.doubles.specs.Doubles.{doubles_of};
ghost use Rattle.doubles.specs.Walked.{total, jot_all};
ghost use Rattle.doubles.specs.Calls.{ahead, none, as_counts, counts_call, declines_row, row_call, answered_row};

use input::TCompactInputProtocol;
use single::Counts;
use types::{Place, TType};

mod walk;

// The place behind a value, with the counts so far; or the number of a refusal.
#[derive(Clone, Copy)]
pub enum Walked {
    Done(Place, Counts),
    Refused(u8),
}

#[derive(Clone, Copy)]
pub enum CountsAnswer {
    Got(Counts),
    Refused(u8),
}

#[derive(Clone, Copy)]
pub struct ReadCounts {
    pub answer: CountsAnswer,
    pub state: TCompactInputProtocol,
}

// How many answers there are.
#[derive(Clone, Copy)]
pub enum RowAnswer {
    Got(usize),
    Refused(u8),
}

#[derive(Clone, Copy)]
pub struct ReadRow {
    pub answer: RowAnswer,
    pub state: TCompactInputProtocol,
}

fn refuse_counts(why: u8, state: TCompactInputProtocol) -> ReadCounts
    ensures { result ≡ as_counts (declines why state) }
{
    ReadCounts {
        answer: CountsAnswer::Refused(why),
        state,
    }
}

// From the reader's place on, where neither BAD STATE nor OUT OF TURN is. No row is wanted: the one byte lent takes the first answer.
fn counts_on(state: TCompactInputProtocol, s: &[u8]) -> ReadCounts
    requires { state.depth ≤ state.limits.depth }
    ensures { result ≡ as_counts (ahead s.now state) }
{
    let room = state.limits.depth - state.depth;
    let end = state.cut(s.len());
    let mut unread = [0u8; 1];
    let zero = Counts {
        yes: 0,
        no: 0,
        nan: 0,
    };
    match walk::walk_value(
        &s[..end],
        state.place,
        TType::Struct,
        room,
        state.limits,
        zero,
        &mut unread,
    ) {
        Walked::Refused(why) => refuse_counts(input::missing(why, end, s.len()), state),
        Walked::Done(to, counts) => {
            let mut next = state;
            next.place = to;
            ReadCounts {
                answer: CountsAnswer::Got(counts),
                state: next,
            }
        }
    }
}

// How many of the doubles in the struct at the reader's place an f32 holds, how many it does not, and how many are not a number. The reader moves behind the
// struct, as skip of it does.
#[tactic(auto, using(crate::proofs::Call::call_cases))]
pub fn f32_counts(state: TCompactInputProtocol, s: &[u8]) -> ReadCounts
    ensures { result ≡ counts_call s.now state }
{
    let why = state.refusal(s.len());
    if why != 0 {
        return refuse_counts(why, state);
    }
    counts_on(state, s)
}

fn refuse_row(why: u8, state: TCompactInputProtocol) -> ReadRow
    ensures { result ≡ declines_row why state }
{
    ReadRow {
        answer: RowAnswer::Refused(why),
        state,
    }
}

// The walk once more, over a struct that has been counted: now the row gets the answers.
#[tactic(auto, using(crate::proofs::Answers::put_cases))]
fn put_answers(state: TCompactInputProtocol, s: &[u8], row: &mut [u8])
    requires { state.depth ≤ state.limits.depth }
    ensures { (t : Tree) → (ahead s.now state).said ≡ says t → row.new ≡ (jot_all (doubles_of t) (none, row.old)).1 }
{
    let room = state.limits.depth - state.depth;
    let end = state.cut(s.len());
    let zero = Counts {
        yes: 0,
        no: 0,
        nan: 0,
    };
    walk::walk_value(
        &s[..end],
        state.place,
        TType::Struct,
        room,
        state.limits,
        zero,
        row,
    );
}

// How many were counted.
fn counted_in_all(counts: Counts) -> usize
    ensures { result ≡ total counts }
{
    let some = std::num::wrapping_add_u64(counts.yes, counts.no);
    std::num::wrapping_add_u64(some, counts.nan) as usize
}

// For each double in the struct at the reader's place, in the tree's order, whether an f32 holds it: 0 yes, 1 no, 2 not a number, at the front of the lent
// row. The struct is walked twice, so that nothing is written before a refusal. The reader moves behind it, as skip of it does.
pub fn f32_answers(state: TCompactInputProtocol, s: &[u8], row: &mut [u8]) -> ReadRow
    ensures answer { result ≡ row_call (length row.old) s.now state }
    ensures row { row.new ≡ answered_row s.now state row.old }
{
    let first = f32_counts(state, s);
    let answer = first.answer;
    let next = first.state;
    match answer {
        CountsAnswer::Refused(why) => refuse_row(why, state),
        CountsAnswer::Got(counts) => {
            let n = counted_in_all(counts);
            if row.len() < n {
                return refuse_row(types::NO_ROOM, state);
            }
            put_answers(state, s, row);
            ReadRow {
                answer: RowAnswer::Got(n),
                state: next,
            }
        }
    }
}
