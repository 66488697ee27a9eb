// Frames from the radio: a skip of one struct whose bytes come in bursts, its state in a lent row.
ghost use Rattle.std.specs.Prelude.{◌≡◌};
ghost use Rattle.frame.specs.State.{close_of};
ghost use Rattle.frame_rows.specs.Row.{frame_of};
ghost use Rattle.frame_rows.specs.Tell.{ToldFrame, TookFrame, AnnouncedFrame};

use frame::{FrameAnswer, FrameSkip};
use frame_rows::state;
use types::TConfiguration;

const NUMBERS: usize = 268;

// A frame of an announced length, of which nothing has come.
#[tactic(auto, using(crate::proofs::Framed::announcing))]
pub fn tagrumzil_frame_announce(
    row: &mut [u64],
    length: usize,
    depth: u32,
    string: u32,
    container: u32,
    message: u32,
) -> u8
    ensures { AnnouncedFrame row.old row.new length (record { depth = depth; string = string; container = container; message = message }) result }
{
    let limits = TConfiguration {
        depth: depth as usize,
        string,
        container,
        message,
    };
    let frame = FrameSkip::announce(length, limits);
    if row.len() != NUMBERS {
        return types::BAD_STATE;
    }
    if limits.in_range() {
        state::limit(row, depth, string, container, message);
        state::keep(row, frame);
        return 0;
    }
    types::BAD_STATE
}

// A burst: its bytes are taken, up to the frame's end. 0 with the bytes used where the frame has ended, 255 where it waits for more.
#[tactic(auto, using(crate::proofs::Framed::taking))]
pub fn tagrumzil_frame_take(row: &mut [u64], burst: &[u8], used: &mut usize) -> u8
    ensures { TookFrame row.old row.new burst.now used.old used.new result }
{
    let frame = state::frame_of(row);
    let taken = frame.take(burst);
    let n = state::tell(row, taken);
    let answer = taken.answer;
    match answer {
        FrameAnswer::More => n,
        FrameAnswer::Done(to) => {
            *used = to;
            n
        }
        FrameAnswer::Refused(_) => n,
    }
}

// No more bytes come.
#[tactic(auto, using(crate::proofs::Framed::closing))]
pub fn tagrumzil_frame_close(row: &mut [u64], used: &mut usize) -> u8
    ensures { ToldFrame row.old row.new used.old used.new result (close_of (frame_of row.old)) }
{
    let frame = state::frame_of(row);
    let taken = frame.close();
    let n = state::tell(row, taken);
    let answer = taken.answer;
    match answer {
        FrameAnswer::More => n,
        FrameAnswer::Done(to) => {
            *used = to;
            n
        }
        FrameAnswer::Refused(_) => n,
    }
}
