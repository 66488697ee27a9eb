// Answers many cases of a day file in one run. Standard input is a row of cases: a line that begins with the number of the case's bytes
// and goes on with its kind and what it is, and then those bytes. The line is written again, and below it the answers of the library. What
// a model answered, in the same form, is the file stdout.
//
// A case of the kind `file` is a day file, good or bad. One of the kind `write` is a call of the writer: the room lent and the number of
// ends, each 4 bytes, the ends, 8 bytes each, and the messages' bytes.
#![tactic(auto)]

use days::{Checked, Part};
use numbers::Wrote;
use std::alloc::{AllocError, Global};
use std::io;

// The most that is read, and that is written of a case.
const ROW: usize = 262_144;

// The most that is lent to the writer, and what it is filled with, so that what the writer leaves is seen.
const LENT: usize = 32_768;

const MARK: u8 = 0xaa;

// More ends than a day may have.
const ENDS: usize = 4352;

// The numbers of the messages that are asked for.
const ASKED: [usize; 8] = [0, 1, 2, 3, 4095, 4096, 0x1_0000_0000, 0xffff_ffff_ffff_ffff];

// " ", a number.
fn put_number(out: &mut [u8], to: usize, n: usize) -> usize {
    let a = text::put_word(out, to, b" ");
    text::put_decimal(out, a, n as u64)
}

// "refused ", a number, " ".
fn put_refused(out: &mut [u8], to: usize, why: u8) -> usize {
    let a = text::put_word(out, to, b"refused");
    let b = put_number(out, a, usize::from(why));
    text::put_word(out, b, b" ")
}

// What the check answers.
fn put_check(out: &mut [u8], file: &[u8]) -> usize {
    match days::check_day(file) {
        Checked::Count(n) => {
            let a = text::put_word(out, 0, b"count");
            let b = put_number(out, a, n);
            text::put_word(out, b, b"\n")
        }
        Checked::Refused(why) => lines::put_refusal(out, 0, why),
    }
}

// A message's places, and a space.
fn put_part(out: &mut [u8], to: usize, file: &[u8], k: usize) -> usize {
    match days::find_message(file, k) {
        Part::At(start, end) => {
            let a = text::put_word(out, to, b"at");
            let b = put_number(out, a, start);
            let c = put_number(out, b, end);
            text::put_word(out, c, b" ")
        }
        Part::Refused(why) => put_refused(out, to, why),
    }
}

// What the two calls for message k answer: its places, and its bytes.
fn put_found(out: &mut [u8], to: usize, file: &[u8], k: usize) -> usize {
    let a = text::put_decimal(out, to, k as u64);
    let b = text::put_word(out, a, b" ");
    let c = put_part(out, b, file, k);
    lines::put_part(out, c, days::message(file, k))
}

// The check, and the messages asked for.
fn put_file(out: &mut [u8], file: &[u8]) -> usize {
    let mut to = put_check(out, file);
    for k in ASKED {
        to = put_found(out, to, file, k);
    }
    to
}

// The writer's answer, and the whole of the lent output behind it.
fn put_write(text: &mut [u8], lent: &mut [u8], bytes: &[u8], ends: &[usize]) -> usize {
    let to = match days::write_day(lent, bytes, ends) {
        Wrote::To(n) => {
            let a = text::put_word(text, 0, b"to");
            let b = put_number(text, a, n);
            text::put_word(text, b, b" ")
        }
        Wrote::Refused(why) => put_refused(text, 0, why),
    };
    lines::put_part(text, to, lent)
}

// So many ends, from the front of the bytes, 0 where they are not there; and the bytes behind those that are.
fn read_ends(alloc: Global, bytes: &[u8], count: usize) -> Result<(Vec<usize>, &[u8]), AllocError> {
    let mut ends = Vec::new(alloc);
    let mut rest = bytes;
    for _ in 0..count {
        let Some((end, behind)) = rest.split_first_chunk::<8>() else {
            break;
        };
        ends.push(usize::from_le_bytes(*end))?;
        rest = behind;
    }
    ends.resize(count.min(ENDS), 0)?;
    Ok((ends, rest))
}

fn show_write(alloc: Global, rt: &impl Print, s: &[u8]) -> io::Result<()> {
    let Some((sizes, rest)) = s.split_at_checked(8) else {
        return Ok(());
    };
    let room = cases::number_at(sizes, 0) as usize;
    let count = cases::number_at(sizes, 4) as usize;
    let (ends, bytes) = read_ends(alloc, rest, count)?;
    let mut lent = vec![in alloc; MARK; room.min(LENT)]?;
    system::print_text(alloc, rt, ROW, |text| {
        put_write(text, &mut lent, bytes, &ends)
    })
}

// A call of the writer has a `w` behind its number of five digits.
fn show(alloc: Global, rt: &impl Print, line: &[u8], s: &[u8]) -> io::Result<()> {
    match line.get(6) {
        Some(b'w') => show_write(alloc, rt, s),
        _ => system::print_text(alloc, rt, ROW, |out| put_file(out, s)),
    }
}

fn main(rt: HostRuntime) -> io::Result<()> {
    cases::answer_all(rt.alloc(), &mut rt.stdin(), &rt, ROW, |line, s| {
        show(rt.alloc(), &rt, line, s)
    })
}
