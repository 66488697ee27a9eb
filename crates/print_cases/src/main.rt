// Prints many messages in one run. Standard input is a row of cases: a line that begins with the number of the message's bytes and goes on with what
// they are, and then those bytes. The line is written again, and below it the text that the printing program has for them. What the crate's own reader
// printed, in the same form, is the file stdout.
#![tactic(auto)]

use printer::Text;
use std::io;

// The most that is read.
const ROW: usize = 262_144;

// Room for the text of any message.
const TEXT_ROOM: usize = 4_194_304;

fn show(rt: &impl Print, out: &mut [u8], message: &[u8]) -> io::Result<()> {
    match printer::print(message, out) {
        Text::Wrote(end) => rt.write_all(&out[..end.min(out.len())]),
        Text::Refused(_) => Ok(()),
    }
}

fn main(rt: HostRuntime) -> io::Result<()> {
    let mut out = system::zeros(rt.alloc(), TEXT_ROOM)?;
    cases::answer_all(rt.alloc(), &mut rt.stdin(), &rt, ROW, |_, message| {
        show(&rt, &mut out, message)
    })
}
