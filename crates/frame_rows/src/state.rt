// The whole state: from a row, and back into it; and what a call leaves with its caller.
ghost use Rattle.std.specs.Prelude.{◌≡◌, ◌≤◌, get_or};
ghost use Rattle.frame_rows.specs.Row.{holds, frame_in, no_frame, frame_of, rest_in, put_counts, put_places, most_open, framed, limited};
ghost use Rattle.frame.specs.Numbers.{number_frame};
ghost use Rattle.frame_rows.specs.Tell.{frame_after};

use crate::{NowRead, open, rest};
use frame::{FrameAnswer, FrameSkip, Level, Nest, Now, Resting, Stand, Taken};
use rows::row;
use types::{FieldId, TConfiguration};

const NUMBERS: usize = 268;

// What a call answers that waits for more bytes.
pub const MORE: u8 = 255;

// Whether a row holds a state.
#[tactic(auto, using(crate::proofs::Cases::holding))]
fn is_held(row: &[u64]) -> bool
    ensures { result ≡ holds row.now }
{
    if row.len() != NUMBERS {
        return false;
    }
    let depth = row::number(row, 5);
    if 64 < depth {
        return false;
    }
    match rest::now_at(row) {
        NowRead::Got(_) => open::all_nests(row, depth as usize),
        NowRead::Refused => false,
    }
}

#[tactic(auto, using(crate::proofs::Cases::resting))]
fn rest_of(row: &[u64]) -> Resting
    ensures { result ≡ rest_in row.now }
{
    match rest::now_at(row) {
        NowRead::Got(spot) => Resting(spot),
        NowRead::Refused => Resting(Now::Refused(types::BAD_STATE)),
    }
}

#[tactic(auto, using(crate::proofs::Puts::frames))]
fn frame_in(row: &[u64]) -> FrameSkip
    requires { get_or row.now 5 0 ≤ 64 }
    ensures { result ≡ frame_in row.now }
{
    let left = row::number(row, 0) as usize;
    let taken = row::number(row, 1) as usize;
    let behind = row::number(row, 2) as usize;
    let depth = row::number(row, 5) as usize;
    let body = row::number(row, 6) as usize;
    let levels = open::levels_of(row, depth);
    let rest = rest_of(row);
    let limits = row::limits(row);
    let stand = Stand {
        levels,
        depth,
        body,
        rest,
    };
    FrameSkip {
        limits,
        left,
        taken,
        behind,
        stand,
    }
}

#[tactic(auto, unfolding(crate::specs::Row::no_frame))]
fn no_frame() -> FrameSkip
    ensures { result ≡ no_frame }
{
    let base = Level(Nest::Fields(FieldId(0)));
    let levels = [base; 64];
    let limits = TConfiguration {
        depth: 65,
        string: 0,
        container: 0,
        message: 0,
    };
    let stand = Stand {
        levels,
        depth: 0,
        body: 0,
        rest: Resting(Now::Refused(types::BAD_STATE)),
    };
    FrameSkip {
        limits,
        left: 0,
        taken: 0,
        behind: 0,
        stand,
    }
}

// The state that a row holds; of any other row one that every call refuses.
#[tactic(auto, using(crate::proofs::Puts::frames))]
pub fn frame_of(row: &[u64]) -> FrameSkip
    ensures { result ≡ frame_of row.now }
{
    if is_held(row) {
        return frame_in(row);
    }
    no_frame()
}

#[tactic(auto, using(crate::proofs::Puts::most))]
fn most_open(depth: usize) -> usize
    ensures { (result ≡ most_open depth) × (result ≤ 64) }
{
    if depth < 64 {
        return depth;
    }
    64
}

#[tactic(auto, using(crate::proofs::Puts::number_puts))]
fn put_counts(row: &mut [u64], left: usize, taken: usize, behind: usize)
    ensures { row.new ≡ put_counts row.old left taken behind }
{
    row::put(row, 0, left as u64);
    row::put(row, 1, taken as u64);
    row::put(row, 2, behind as u64);
}

#[tactic(auto, using(crate::proofs::Puts::number_puts))]
fn put_places(row: &mut [u64], depth: usize, body: usize)
    ensures { row.new ≡ put_places row.old depth body }
{
    row::put(row, 5, depth as u64);
    row::put(row, 6, body as u64);
}

// A state's numbers into the row; limits never change.
#[tactic(auto, using(crate::proofs::Puts::state_puts))]
pub fn keep(row: &mut [u64], state: FrameSkip)
    ensures { row.new ≡ framed row.old state }
{
    let stand = state.stand;
    let resting = stand.rest;
    let spot = resting.0;
    let levels = stand.levels;
    put_counts(row, state.left, state.taken, state.behind);
    put_places(row, stand.depth, stand.body);
    rest::put_now(row, spot);
    open::put_nests(row, levels, most_open(stand.depth));
}

// The limits of a frame that begins, in the form of a reader's row.
#[tactic(auto, using(crate::proofs::Puts::limit_puts))]
pub fn limit(row: &mut [u64], depth: u32, string: u32, container: u32, message: u32)
    ensures { row.new ≡ limited row.old (record { depth = depth; string = string; container = container; message = message }) }
{
    row::put(row, 3, (depth as u64) + (message as u64) * 4294967296);
    row::put(row, 4, (string as u64) + (container as u64) * 4294967296);
}

// What a call answers, told: the row holds its state from now on; BAD STATE leaves it as it was.
#[tactic(auto, using(crate::proofs::Puts::tells))]
pub fn tell(row: &mut [u64], taken: Taken) -> u8
    ensures { (result ≡ number_frame taken.answer) × (row.new ≡ frame_after row.old taken.state taken.answer) }
{
    let answer = taken.answer;
    let state = taken.state;
    match answer {
        FrameAnswer::More => {
            keep(row, state);
            MORE
        }
        FrameAnswer::Done(_) => {
            keep(row, state);
            0
        }
        FrameAnswer::Refused(why) => {
            if why != types::BAD_STATE {
                keep(row, state);
            }
            why
        }
    }
}
