// A day's messages in one file: `day list FILE` has a line for each message, `day fault FILE` has one that says whether the message is
// good, and where and why it is not, `day get FILE K` writes message K as it is, `day pack FILE..` puts messages that stand in files of
// their own into one day file. The work is the libraries'; here are the arguments, the files and the buffers. What is refused is said
// on standard error, and nothing is written then.
#![tactic(auto)]

ghost use Rattle.std.specs.Prelude.{◌≡◌, ◌≤◌, ◌<◌, length, IfOk, IfSome};
ghost use Rattle.system.specs.Counts.{IsPrefixLen};

use days::Checked;
use numbers::Wrote;
use std::io::Read;
use std::rt::{Env, Files};
use std::{io, str};
use system::{LONGEST_WORD, Program};

// The most bytes that a file may have.
const MOST: usize = 3_145_728;

// The most messages of a day.
const MESSAGES: usize = 4096;

// Zeros in place. A contract that gives no more than how many: a proof that sees them would compute them.
fn ends_room() -> [usize; 4096]
    ensures { 4096 ≡ length result }
{
    [0; MESSAGES]
}

// More than the longest line: a name has at most 65,536 bytes, two digits each.
const LINE_ROOM: usize = 262_144;

const NO_DAY: &str = ": refused 18, no day file";

// What is wrong, and with what.
fn complain(err: &impl Print, what: &[u8], words: &str) -> io::Result<()> {
    err.write_all(b"day: ")?;
    err.write_all(what)?;
    println!(err; "{words}")
}

// Whether the file ends here. A read that fails, and a file that goes on, are said.
fn ends_here(file: &mut impl Read, err: &impl Print, path: &[u8]) -> io::Result<bool> {
    let mut more = system::buffer::<4096>();
    match file.read(&mut more) {
        Err(e) => {
            system::fail(err, path, &e)?;
            Ok(false)
        }
        Ok(0) => Ok(true),
        Ok(_) => {
            complain(err, path, ": does not fit, 3145728 bytes are the most")?;
            Ok(false)
        }
    }
}

// The whole file at the room's start, and how many bytes it has. None where it is empty, or does not fit, or can't be read, which is said.
fn load<R: Env + Files + Print, E: Print>(
    program: &Program<'_, R, E>,
    path: &[u8],
    room: &mut [u8],
) -> io::Result<Option<usize>>
    ensures { IfOk result (λ file. IfSome file (λ n. IsPrefixLen n room.new)) }
{
    let mut file = match system::open(program.rt, path) {
        Ok(file) => file,
        Err(e) => {
            system::fail(program.err, path, &e)?;
            return Ok(None);
        }
    };
    let n = system::read_full(&mut file, room);
    if !ends_here(&mut file, program.err, path)? {
        return Ok(None);
    }
    if n == 0 {
        complain(program.err, path, ": is empty")?;
        return Ok(None);
    }
    Ok(Some(n))
}

// An argument, whole, at the room's start, and its length; 0 where there is none or an empty one, which is said.
fn word<R: Env + Files + Print, E: Print>(
    program: &Program<'_, R, E>,
    i: usize,
    room: &mut [u8],
) -> io::Result<usize>
    ensures { IfOk result (λ n. IsPrefixLen n room.new) }
{
    let n = match system::argument(program.rt, i, room) {
        Ok(n) => n,
        Err(e) => {
            program.fail_at("argument", &e)?;
            return Ok(0);
        }
    };
    if n == 0 {
        complain(program.err, b"an argument", " is empty")?;
    }
    Ok(n)
}

// How many messages a day has. None where the file is no day. (Out of line, as `list` is: where its loops lie decides what they cost, docs/BENCHMARKS.md.)
#[inline(never)]
fn count_of(file: &[u8]) -> Option<usize> {
    match days::check_day(file) {
        Checked::Count(count) => Some(count),
        Checked::Refused(_) => None,
    }
}

// The line of each message, which `put_line` puts at a buffer's start; it answers the line's end.
#[inline(never)]
fn list<R: Env + Files + Print, E: Print, F: Fn(&mut [u8], usize) -> usize>(
    program: &Program<'_, R, E>,
    path: &[u8],
    file: &[u8],
    put_line: F,
) -> io::Result<()>
    requires { F.IsAlwaysCallable put_line }
{
    let Some(count) = count_of(file) else {
        return complain(program.err, path, NO_DAY);
    };
    let mut line = system::buffer::<LINE_ROOM>();
    for k in 0..count {
        let end = put_line(&mut line, k);
        // One that fills the buffer may have been cut off, and is not written.
        if line.len() <= end {
            return complain(program.err, b"a line", " does not fit");
        }
        if !program.put_out(&line[..end])? {
            return Ok(());
        }
    }
    Ok(())
}

// The number of decimal digits alone: `parse` would take a sign. None where it is over 99,999: no message has such a number.
fn number(word: &[u8]) -> Option<usize>
    ensures { IfSome result (λ n. n < 100000) }
{
    if !word.iter().all(|b| b.is_ascii_digit()) {
        return None;
    }
    str::from_utf8(word)
        .ok()?
        .parse()
        .ok()
        .filter(|n| *n < 100_000)
}

// The message whose number is the third argument, as it is.
fn get<R: Env + Files + Print, E: Print>(
    program: &Program<'_, R, E>,
    path: &[u8],
    file: &[u8],
) -> io::Result<()> {
    let mut digits = system::buffer::<LONGEST_WORD>();
    let n = word(program, 3, &mut digits)?;
    if n == 0 {
        return Ok(());
    }
    if count_of(file).is_none() {
        return complain(program.err, path, NO_DAY);
    }
    let message = match number(&digits[..n]) {
        Some(k) => days::message(file, k),
        None => b"",
    };
    if message.is_empty() {
        return complain(program.err, path, ": refused 18, no message of this number");
    }
    program.put_out(message)?;
    Ok(())
}

// `list`, `fault` and `get`: the file is the second argument.
fn look<R: Env + Files + Print, E: Print>(
    program: &Program<'_, R, E>,
    verb: &[u8],
    room: &mut [u8],
) -> io::Result<()> {
    let mut name = system::buffer::<LONGEST_WORD>();
    let n = word(program, 2, &mut name)?;
    if n == 0 {
        return Ok(());
    }
    let path = &name[..n];
    let Some(n) = load(program, path, room)? else {
        return Ok(());
    };
    let file = &room[..n];
    match verb {
        b"list" => list(program, path, file, |line, k| {
            day_lines::put_line(line, 0, file, k)
        }),
        b"fault" => list(program, path, file, |line, k| {
            fault_lines::put_day_fault(line, 0, file, k)
        }),
        _ => get(program, path, file),
    }
}

// Every file that is named, one behind the other at the room's start, and their ends. Where the last one ends; None where one is refused.
fn gather<R: Env + Files + Print, E: Print>(
    program: &Program<'_, R, E>,
    room: &mut [u8],
    ends: &mut [usize],
) -> io::Result<Option<usize>>
    ensures { IfOk result (λ end. IfSome end (λ n. IsPrefixLen n room.new)) }
{
    let mut path = system::buffer::<LONGEST_WORD>();
    let mut at = 0;
    for i in 0..ends.len() {
        let n = word(program, i + 2, &mut path)?;
        let Some(k) = load(program, &path[..n], &mut room[at..])? else {
            return Ok(None);
        };
        at += k;
        ends[i] = at;
    }
    Ok(Some(at))
}

// The day of the files that are named.
fn pack<R: Env + Files + Print, E: Print>(
    program: &Program<'_, R, E>,
    files: usize,
    room: &mut [u8],
) -> io::Result<()> {
    if MESSAGES < files {
        return complain(
            program.err,
            b"the day",
            ": refused 18, more than 4096 messages",
        );
    }
    let mut ends = ends_room();
    let Some(end) = gather(program, room, &mut ends[..files])? else {
        return Ok(());
    };
    let mut out = system::buffer::<MOST>();
    match days::write_day(&mut out, &room[..end], &ends[..files]) {
        Wrote::To(end) => {
            program.put_out(&out[..end.min(MOST)])?;
            Ok(())
        }
        Wrote::Refused(_) => complain(
            program.err,
            b"the day",
            " does not fit, 3145728 bytes are the most",
        ),
    }
}

// What a verb asks for. The room for a file is made once here, since the stack would not hold one for each.
fn run<R: Env + Files + Print, E: Print>(
    program: &Program<'_, R, E>,
    verb: &[u8],
) -> io::Result<()> {
    let mut room = system::buffer::<MOST>();
    match verb {
        // More than a day has messages count as one more.
        b"pack" => {
            let words = system::argument_count(program.rt, MESSAGES + 3);
            pack(program, words.saturating_sub(2), &mut room)
        }
        _ => look(program, verb, &mut room),
    }
}

fn main(rt: HostRuntime) -> io::Result<()> {
    let program = Program {
        name: "day",
        rt: &rt,
        err: &rt.stderr(),
    };
    let mut room = system::buffer::<LONGEST_WORD>();
    let n = word(&program, 1, &mut room)?;
    let verb = &room[..n];
    match verb {
        b"list" | b"fault" | b"get" | b"pack" => run(&program, verb),
        _ => complain(
            program.err,
            b"list FILE",
            " | fault FILE | get FILE NUMBER | pack FILE...",
        ),
    }
}
