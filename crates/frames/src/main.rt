// Skips one frame from standard input: its announced length, a line in decimal, and then its bytes as they come, a burst being what one read gives. It
// answers `done USED` or `refused N` as soon as that is known. The skip is the library's; here are the reads, the limits and the line.
#![tactic(auto)]

use frame::{FrameAnswer, FrameSkip, Taken};
use std::io;
use std::io::Read;
use types::TConfiguration;

// The most that one read takes.
const BURST: usize = 65_536;

// A read brings a byte or the end, so the turns outlast any frame.
const TURNS: u64 = 4_294_967_296;

const LIMITS: TConfiguration = TConfiguration {
    depth: 64,
    string: 65_536,
    container: 65_536,
    message: 2_147_483_647,
};

// One byte of the first line.
fn next_byte(input: &mut impl Read) -> Option<u8> {
    let mut byte = [0u8; 1];
    match input.read(&mut byte) {
        Ok(0) | Err(_) => None,
        Ok(_) => Some(byte[0]),
    }
}

// The number with one more digit, where it is one and there is room for it.
fn longer(value: usize, digit: u8) -> Option<usize> {
    if !digit.is_ascii_digit() {
        return None;
    }
    value
        .checked_mul(10)?
        .checked_add(usize::from(digit - b'0'))
}

// The first line: one to 19 digits, no other byte (`parse` would take a sign), and a line end.
fn read_length(input: &mut impl Read) -> Option<usize> {
    let mut length = None;
    for _ in 0..20 {
        let byte = next_byte(input)?;
        if byte == b'\n' {
            return length;
        }
        length = Some(longer(length.unwrap_or(0), byte)?);
    }
    None
}

// One read, and what comes with it. No more input is a close.
fn next_burst(input: &mut impl Read, burst: &mut [u8], state: FrameSkip) -> Taken {
    match input.read(burst) {
        Ok(0) | Err(_) => state.close(),
        Ok(n) => state.take(&burst[..n]),
    }
}

// An empty burst first: some frames have their answer with the announcement.
fn listen(input: &mut impl Read, length: usize) -> FrameAnswer {
    let mut burst = system::buffer::<BURST>();
    let mut taken = FrameSkip::announce(length, LIMITS).take(b"");
    for _ in 0..TURNS {
        if !matches!(taken.answer, FrameAnswer::More) {
            break;
        }
        taken = next_burst(input, &mut burst, taken.state);
    }
    taken.answer
}

fn main(rt: HostRuntime) -> io::Result<()> {
    let mut input = rt.stdin();
    let Some(length) = read_length(&mut input) else {
        return eprintln!(rt; "frames: the first line must be the frame's length");
    };
    match listen(&mut input, length) {
        FrameAnswer::More => Ok(()),
        FrameAnswer::Done(used) => println!(rt; "done {used}"),
        FrameAnswer::Refused(why) => println!(rt; "refused {why}"),
    }
}
