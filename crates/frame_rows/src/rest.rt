// Where a frame rests, in five numbers.
ghost use Rattle.std.specs.Prelude.{◌≡◌};
ghost use Rattle.frame_rows.specs.Row.{type_of, goal_typed, goal_of, on_goal, varint_of, now_of, now_in, put_goal, put_form, put_wait, put_now};

use crate::{GoalRead, NowRead, open};
use frame::{Goal, Now, Part, Wait};
use rows::row;
use types::TypeRead;

#[tactic(auto, using(crate::proofs::Cases::goals))]
fn goal_of(g: u64, t: u64) -> GoalRead
    ensures { result ≡ goal_of g t }
{
    if g == 0 {
        return GoalRead::Got(Goal::Flag);
    }
    if g == 1 {
        return match open::type_of(t) {
            TypeRead::Got(kind) => GoalRead::Got(Goal::Id(kind)),
            TypeRead::Refused(_) => GoalRead::Refused,
        };
    }
    if g == 2 {
        return match open::type_of(t) {
            TypeRead::Got(kind) => GoalRead::Got(Goal::Count(kind)),
            TypeRead::Refused(_) => GoalRead::Refused,
        };
    }
    if g == 3 {
        return GoalRead::Got(Goal::Pairs);
    }
    if g == 4 {
        return GoalRead::Got(Goal::Length);
    }
    if g == 5 {
        return GoalRead::Got(Goal::Short);
    }
    GoalRead::Refused
}

#[tactic(auto, using(crate::proofs::Cases::varints))]
fn varint_of(n: u64, g: u64, t: u64, groups: u64) -> NowRead
    ensures { result ≡ varint_of n g t groups }
{
    if n < 4294967296 {
        if groups < 256 {
            let part = Part {
                groups: groups as u8,
                low: n as u32,
            };
            return match goal_of(g, t) {
                GoalRead::Got(goal) => NowRead::Got(Now::Asks(Wait::Varint(goal, part))),
                GoalRead::Refused => NowRead::Refused,
            };
        }
        return NowRead::Refused;
    }
    NowRead::Refused
}

#[tactic(auto, using(crate::proofs::Cases::nows))]
fn now_of(form: u64, n: u64, g: u64, t: u64, groups: u64) -> NowRead
    ensures { result ≡ now_of form n g t groups }
{
    if form == 0 {
        return NowRead::Got(Now::Asks(Wait::Head));
    }
    if form == 1 {
        return NowRead::Got(Now::Asks(Wait::Truth));
    }
    if form == 2 {
        return NowRead::Got(Now::Asks(Wait::List));
    }
    if form == 3 {
        if n < 4294967296 {
            return NowRead::Got(Now::Asks(Wait::Types(n as u32)));
        }
        return NowRead::Refused;
    }
    if form == 4 {
        return varint_of(n, g, t, groups);
    }
    if form == 6 {
        return NowRead::Got(Now::Done(n as usize));
    }
    if n < 256 {
        if form == 5 {
            return NowRead::Got(Now::Asks(Wait::Number(n as u8)));
        }
        if form == 7 {
            return NowRead::Got(Now::Refused(n as u8));
        }
        return NowRead::Refused;
    }
    NowRead::Refused
}

pub(crate) fn now_at(row: &[u64]) -> NowRead
    ensures { result ≡ now_in row.now }
{
    let form = row::number(row, 7);
    let n = row::number(row, 8);
    let g = row::number(row, 9);
    let t = row::number(row, 10);
    let groups = row::number(row, 11);
    now_of(form, n, g, t, groups)
}

fn put_goal(row: &mut [u64], goal: Goal)
    ensures { row.new ≡ put_goal row.old goal }
{
    match goal {
        Goal::Flag => row::put(row, 9, 0),
        Goal::Id(kind) => {
            row::put(row, 9, 1);
            row::put(row, 10, types::type_to_u8(kind) as u64);
        }
        Goal::Count(kind) => {
            row::put(row, 9, 2);
            row::put(row, 10, types::type_to_u8(kind) as u64);
        }
        Goal::Pairs => row::put(row, 9, 3),
        Goal::Length => row::put(row, 9, 4),
        Goal::Short => row::put(row, 9, 5),
    }
}

// A form with a number of its own.
#[tactic(auto, using(crate::proofs::Puts::form_puts))]
fn put_form(row: &mut [u64], form: u64, n: u64)
    ensures { row.new ≡ put_form row.old form n }
{
    row::put(row, 7, form);
    row::put(row, 8, n);
}

fn put_wait(row: &mut [u64], wait: Wait)
    ensures { row.new ≡ put_wait row.old wait }
{
    match wait {
        Wait::Head => row::put(row, 7, 0),
        Wait::Truth => row::put(row, 7, 1),
        Wait::List => row::put(row, 7, 2),
        Wait::Types(n) => put_form(row, 3, n as u64),
        Wait::Varint(goal, part) => {
            put_form(row, 4, part.low as u64);
            row::put(row, 11, part.groups as u64);
            put_goal(row, goal);
        }
        Wait::Number(k) => put_form(row, 5, k as u64),
    }
}

pub(crate) fn put_now(row: &mut [u64], spot: Now)
    ensures { row.new ≡ put_now row.old spot }
{
    match spot {
        Now::Asks(wait) => put_wait(row, wait),
        Now::Done(n) => put_form(row, 6, n as u64),
        Now::Refused(why) => put_form(row, 7, why as u64),
    }
}
