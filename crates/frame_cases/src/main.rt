// Skips many frames in one run, each in bursts of several lengths. Standard input is a row of cases: a line that begins with the number of the frame's
// bytes, and then those bytes. The line is written again, and below it the answer for one burst, for bursts of 5 bytes and for bursts of one, each with an
// empty burst before it. What the crate's own skip answered, in the same form, is the file stdout.
#![tactic(auto)]

ghost use Rattle.std.specs.Prelude.{◌<◌};

use frame::{FrameAnswer, FrameSkip};
use std::io;

// The most that is read, which is one burst.
const ROW: usize = 262_144;

fn fed(bytes: &[u8], step: usize) -> FrameAnswer
    requires { 0 < step }
{
    let mut state = FrameSkip::announce(bytes.len(), cases::WIDEST);
    for burst in bytes.chunks(step) {
        state = state.take(b"").state.take(burst).state;
    }
    state.close().answer
}

fn show(rt: &impl Print, bytes: &[u8]) -> io::Result<()> {
    for step in [ROW, 5, 1] {
        match fed(bytes, step) {
            FrameAnswer::More => println!(rt; "")?,
            FrameAnswer::Done(used) => println!(rt; "done {used}")?,
            FrameAnswer::Refused(why) => println!(rt; "refused {why}")?,
        }
    }
    Ok(())
}

fn main(rt: HostRuntime) -> io::Result<()> {
    cases::answer_all(rt.alloc(), &mut rt.stdin(), &rt, ROW, |_, bytes| {
        show(&rt, bytes)
    })
}
