// Which of a struct's doubles an f32 holds.
ghost use Rattle.std.specs.Prelude.{◌≡◌, length};
ghost use Rattle.doubles.specs.Calls.{counts_call, row_call, answered_row};
ghost use Rattle.rows.specs.Row.{reader_of};
ghost use Rattle.tagrumzil.specs.Single.{ToldCounts, ToldRow};

use doubles::{CountsAnswer, RowAnswer};
use input::{DoneAnswer, ReadDone};
use rows::{row, told};

// How many of the doubles in the struct an f32 holds, how many it does not, and how many are not a number. The reader moves behind the struct; where it is refused the counts
// stay.
#[tactic(auto, using(crate::proofs::Singles::told_singles))]
pub fn tagrumzil_f32_counts(
    s: &[u8],
    row: &mut [u64],
    yes: &mut u64,
    no: &mut u64,
    nan: &mut u64,
) -> u8
    ensures { ToldCounts row.old row.new yes.old yes.new no.old no.new nan.old nan.new result (counts_call s.now (reader_of row.old)) }
{
    let read = doubles::f32_counts(row::reader_of(row), s);
    let answer = read.answer;
    let state = read.state;
    match answer {
        CountsAnswer::Got(counts) => {
            *yes = counts.yes;
            *no = counts.no;
            *nan = counts.nan;
            let done = ReadDone {
                answer: DoneAnswer::Done,
                state,
            };
            told::told_done(row, done)
        }
        CountsAnswer::Refused(why) => {
            let lost = ReadDone {
                answer: DoneAnswer::Refused(why),
                state,
            };
            told::told_done(row, lost)
        }
    }
}

// The answer for each of them, in the tree's order: 0 yes, 1 no, 2 not a number; and how many there are.
pub fn tagrumzil_f32_answers(s: &[u8], row: &mut [u64], answers: &mut [u8], count: &mut usize) -> u8
    ensures told_row { ToldRow row.old row.new count.old count.new result (row_call (length answers.old) s.now (reader_of row.old)) }
    ensures answers_after { answers.new ≡ answered_row s.now (reader_of row.old) answers.old }
{
    let read = doubles::f32_answers(row::reader_of(row), s, answers);
    let answer = read.answer;
    let state = read.state;
    match answer {
        RowAnswer::Got(n) => {
            *count = n;
            let done = ReadDone {
                answer: DoneAnswer::Done,
                state,
            };
            told::told_done(row, done)
        }
        RowAnswer::Refused(why) => {
            let lost = ReadDone {
                answer: DoneAnswer::Refused(why),
                state,
            };
            told::told_done(row, lost)
        }
    }
}
