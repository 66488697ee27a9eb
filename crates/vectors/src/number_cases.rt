// The cases of crate numbers: a number read from bytes, or written as bytes.
use crate::line::Line;
use crate::say;
use crate::say::{Answer, Hex};
use numbers::{Bits64, Int16, Varint32, Varint64, Wrote};
use std::alloc::Global;
use std::io;
use zigzag::Zigzag;

// `read KIND BYTES PLACE`: the number read at the place of these bytes, and the place behind it. Without a PLACE it is 0.
pub(crate) fn read(alloc: Global, rt: &impl Print, line: Line<'_>) -> io::Result<()> {
    let bytes = line.bytes(alloc, 2, 4096)?;
    let (answer, behind) = read_at(line.name(1), &bytes, line.size(3));
    say::tell(rt, answer, behind)
}

// The number, and the place behind it: a varint, plain or as zigzag, a byte, or a double's eight.
fn read_at(kind: &[u8], s: &[u8], at: usize) -> (Answer<'static>, usize) {
    match kind {
        b"u32" => match numbers::read_varint32(s, at) {
            Varint32::Got(n, p) => (Answer::Number(u64::from(n)), p),
            Varint32::Refused(why) => (Answer::Refused(why), at),
        },
        b"i32" => match numbers::read_varint32(s, at) {
            Varint32::Got(n, p) => (Answer::Signed(i64::from(i32::from_zigzag(n))), p),
            Varint32::Refused(why) => (Answer::Refused(why), at),
        },
        b"u64" => match numbers::read_varint64(s, at) {
            Varint64::Got(n, p) => (Answer::Number(n), p),
            Varint64::Refused(why) => (Answer::Refused(why), at),
        },
        b"i64" => match numbers::read_varint64(s, at) {
            Varint64::Got(n, p) => (Answer::Signed(i64::from_zigzag(n)), p),
            Varint64::Refused(why) => (Answer::Refused(why), at),
        },
        b"i8" => read_i8(s, at),
        b"i16" => match numbers::read_i16(s, at) {
            Int16::Got(n, p) => (Answer::Signed(i64::from(n)), p),
            Int16::Refused(why) => (Answer::Refused(why), at),
        },
        b"double" => match numbers::read_le64(s, at) {
            Bits64::Got(n, p) => (Answer::Bits(n), p),
            Bits64::Refused(why) => (Answer::Refused(why), at),
        },
        _ => (Answer::Refused(0), at),
    }
}

fn read_i8(s: &[u8], at: usize) -> (Answer<'static>, usize) {
    if s.len() <= at {
        return (Answer::Refused(types::END), at);
    }
    (Answer::Signed(i64::from(s[at].cast_signed())), at + 1)
}

// `write KIND NUMBER PLACE`: the bytes written at the place of a buffer of 16. Without a PLACE it is 0.
pub(crate) fn write(rt: &impl Print, line: Line<'_>) -> io::Result<()> {
    let at = line.size(3);
    let mut room = [0u8; 16];
    match write_at(line, &mut room, at) {
        Wrote::To(p) => print!(rt; " {}", Hex(room.get(at..p).unwrap_or(b""))),
        Wrote::Refused(why) => rt.print(Answer::Refused(why)),
    }
}

// A varint of 32 or 64 bits, or eight bytes. An i16 is written as the i32 that it is; a double is given by its bits, in hex.
fn write_at(line: Line<'_>, buf: &mut [u8], at: usize) -> Wrote {
    match line.name(1) {
        b"u32" => numbers::write_varint32(buf, at, line.number32(2)),
        b"u64" => numbers::write_varint64(buf, at, line.number(2)),
        b"i16" | b"i32" => { numbers::write_varint32(buf, at, line.signed32(2).to_zigzag()) }
        b"i64" => numbers::write_varint64(buf, at, line.signed(2).to_zigzag()),
        _ => numbers::write_le64(buf, at, line.bits(2)),
    }
}
