// Says of many structs and messages, in one run, where and why they are refused. Standard input is a row of cases: a line that begins
// with the number of the case's bytes and goes on with its kind and what it is, and then those bytes. The line is written again, and
// below it what the library says. What a model said, in the same form, is the file stdout.
//
// A case of the kind `message` is a message, of which all lines are written. One of the kind `struct` is a reader's state in eight
// numbers, 4 bytes each, and the input: the limits on depth, strings and containers, the ceiling, the place, where the message began,
// the depth, and 1 where a bool waits. Of it the first line is written. One of the kind `day` is a day file, of whose messages 0 to 7
// the first lines are written.
#![tactic(auto)]

use input::{Awaited, Pending, TCompactInputProtocol};
use std::alloc::Global;
use std::io;
use types::{FieldId, Place, TConfiguration};

// The most that is read.
const ROW: usize = 524_288;

// More than the longest text.
const TEXT_ROOM: usize = 8192;

// The bytes of a state.
const STATE: usize = 32;

// The number at a place of a state.
fn size_at(state: &[u8], at: usize) -> usize {
    cases::number_at(state, at) as usize
}

fn state_of(state: &[u8]) -> TCompactInputProtocol {
    let awaited = match cases::number_at(state, 28) {
        0 => Awaited::Nothing,
        _ => Awaited::Truth(true),
    };
    TCompactInputProtocol {
        place: Place(size_at(state, 16)),
        last: FieldId(0),
        depth: size_at(state, 24),
        ids: [0; 64],
        pending: Pending(awaited),
        limits: TConfiguration {
            depth: size_at(state, 0),
            string: cases::number_at(state, 4),
            container: cases::number_at(state, 8),
            message: cases::number_at(state, 12),
        },
        begin: Place(size_at(state, 20)),
    }
}

fn put_struct(out: &mut [u8], s: &[u8]) -> usize {
    match s.split_at_checked(STATE) {
        Some((state, bytes)) => { fault_lines::put_struct(out, 0, state_of(state), bytes, false) }
        None => 0,
    }
}

fn put_day(out: &mut [u8], file: &[u8]) -> usize {
    let mut to = 0;
    for k in 0..8 {
        to = fault_lines::put_day_fault(out, to, file, k);
    }
    to
}

// The kind's first letter stands behind the number of five digits.
fn show(alloc: Global, rt: &impl Print, line: &[u8], s: &[u8]) -> io::Result<()> {
    system::print_text(alloc, rt, TEXT_ROOM, |out| match line.get(6) {
        Some(b's') => put_struct(out, s),
        Some(b'd') => put_day(out, s),
        _ => fault_lines::put_fault(out, 0, s, true),
    })
}

fn main(rt: HostRuntime) -> io::Result<()> {
    cases::answer_all(rt.alloc(), &mut rt.stdin(), &rt, ROW, |line, s| {
        show(rt.alloc(), &rt, line, s)
    })
}
