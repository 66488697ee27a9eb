// Replays cases that outside judges have answered. A line of standard input is a case, `GROUP WORD WORD ..`; it is written again with its
// answer behind it, `read u32 df8903 = 50399 3`. Empty lines, and lines that begin with #, are written as they stand.
// The judges' answers, in the same form, are the file stdout.
#![tactic(auto)]

mod call_cases;
mod line;
mod number_cases;
mod say;
mod utf8_cases;
mod writer;

use line::Line;
use std::alloc::Global;
use std::io;

// The most that is read.
const INPUT: usize = 2_097_152;

// The case's answer, by its group. Another crate's cases are one more group.
fn answer(alloc: Global, rt: &impl Print, line: Line<'_>) -> io::Result<()> {
    match line.name(0) {
        b"read" => number_cases::read(alloc, rt, line),
        b"write" => number_cases::write(rt, line),
        b"utf8" => utf8_cases::passes(alloc, rt, line),
        b"gap" => utf8_cases::gap(alloc, rt, line),
        b"call" => call_cases::call(alloc, rt, line),
        b"skip" => call_cases::skip(alloc, rt, line),
        b"reader" => call_cases::row(alloc, rt, line),
        b"writer" => writer::row(alloc, rt, line),
        _ => rt.write_all(b" ?"),
    }
}

fn case(alloc: Global, rt: &impl Print, line: &[u8]) -> io::Result<()> {
    rt.write_all(line)?;
    if !line.is_empty() && !line.starts_with(b"#") {
        rt.write_all(b" =")?;
        answer(alloc, rt, Line(line))?;
    }
    rt.write_all(b"\n")
}

fn main(rt: HostRuntime) -> io::Result<()> {
    let input = system::read_up_to(rt.alloc(), &mut rt.stdin(), INPUT)?;
    for line in input.split_inclusive(|b| *b == b'\n') {
        case(rt.alloc(), &rt, line.strip_suffix(b"\n").unwrap_or(line))?;
    }
    Ok(())
}
