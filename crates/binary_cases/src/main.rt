// Makes many calls of the binary reader in one run. Standard input is a row of cases: a line of six numbers (how many bytes, the call, the
// limits, and of the state the place, the beginning and the depth), and then the bytes. The line is written again, and below it what the
// call answers and the state that it hands back. What a model written from the public document answers, in the same form, is the file
// stdout.
#![tactic(auto)]

ghost use Rattle.std.specs.Prelude.{◌<◌};

mod answer;

use answer::Answer;
use binary_input::TBinaryInputProtocol;
use std::io;
use types::{Place, TConfiguration, TypeRead};

// The most that is read.
const ROW: usize = 262_144;

// The limits by their number: none to speak of, small ones, a low ceiling, and one out of its range.
fn limits(which: usize) -> TConfiguration {
    match which {
        0 => cases::WIDEST,
        1 => TConfiguration {
            depth: 3,
            string: 5,
            container: 3,
            ..cases::WIDEST
        },
        2 => TConfiguration {
            message: 12,
            ..cases::WIDEST
        },
        _ => TConfiguration {
            depth: 65,
            ..cases::WIDEST
        },
    }
}

// What a call answered, and the state that it handed back.
type Called = (Answer, TBinaryInputProtocol);

macro_rules! called {
    ($call:expr) => {{
        let read = $call;
        (Answer::from(read.answer), read.state)
    }};
}

// A call by its number: headers and structs. Those of 20 and above are skips of the type of that number less 20; where there is none there is no answer.
fn call(state: TBinaryInputProtocol, s: &[u8], call: usize) -> Option<Called> {
    match call {
        0 => Some(called!(state.read_message_begin(s))),
        1 => Some(called!(state.read_field_begin(s))),
        2 => Some(called!(state.read_list_begin(s))),
        3 => Some(called!(state.read_map_begin(s))),
        13 => Some(called!(state.read_struct_begin(s))),
        14 => Some(called!(state.read_struct_end(s))),
        0..20 => Some(scalar(state, s, call)),
        _ => match types::u8_to_type(u8::try_from(call - 20).ok()?) {
            TypeRead::Got(kind) => Some(called!(state.skip(s, kind))),
            TypeRead::Refused(_) => None,
        },
    }
}

fn scalar(state: TBinaryInputProtocol, s: &[u8], call: usize) -> Called {
    match call {
        4 => called!(state.read_bool(s)),
        5 => called!(state.read_i8(s)),
        6 => called!(state.read_i16(s)),
        7 => called!(state.read_i32(s)),
        8 => called!(state.read_i64(s)),
        9 => called!(state.read_double(s)),
        10 => called!(state.read_uuid(s)),
        11 => called!(state.read_bytes(s)),
        _ => called!(state.read_string(s)),
    }
}

// Number k of the line; 0 where it has fewer.
fn number(line: &[u8], k: usize) -> usize
    ensures { result < 100000 }
{
    match line.split(|b| *b == b' ').nth(k) {
        Some(word) => cases::leading_number(word),
        None => 0,
    }
}

fn show(rt: &impl Print, line: &[u8], s: &[u8]) -> io::Result<()> {
    let state = TBinaryInputProtocol {
        limits: limits(number(line, 2)),
        place: Place(number(line, 3)),
        begin: Place(number(line, 4)),
        depth: number(line, 5),
    };
    let Some((answer, behind)) = call(state, s, number(line, 1)) else {
        return Ok(());
    };
    let place = behind.place.0;
    let begin = behind.begin.0;
    let depth = behind.depth;
    println!(rt; "{answer} at {place} {begin} {depth}")
}

fn main(rt: HostRuntime) -> io::Result<()> {
    cases::answer_all(rt.alloc(), &mut rt.stdin(), &rt, ROW, |line, s| {
        show(&rt, line, s)
    })
}
