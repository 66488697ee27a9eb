// What a call answered that was made with the whole state, in the row: a refusal leaves it as it is.
ghost use Rattle.rows.specs.Reads.{ToldDone};

use crate::row;
use input::{DoneAnswer, ReadDone};

#[tactic(auto, using(crate::proofs::Ids::done_told))]
pub fn told_done(row: &mut [u64], read: ReadDone) -> u8
    ensures { ToldDone row.old row.new result read }
{
    let state = read.state;
    let answer = read.answer;
    match answer {
        DoneAnswer::Done => row::keep_reader(row, 0, state),
        DoneAnswer::Refused(why) => row::keep_reader(row, why, state),
    }
}
