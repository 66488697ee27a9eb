// `writer DEPTH STRING CONTAINER ROOM CALL ..`: a row of calls of a new writer under these limits, over a buffer of so many bytes, each aa.
// Each call answers the place behind it, or `refused N`, and the next goes on from the state that it hands back. The whole buffer stands last,
// so that a refused call is seen to have kept it.
ghost use Rattle.std.specs.Prelude.{◌≤◌};

use crate::line::Line;
use crate::say;
use crate::say::{Answer, Hex};
use output::{TCompactOutputProtocol, WriteAnswer, Written};
use std::alloc::{AllocError, Global};
use std::io;
use types::{FieldId, MessageTypeRead, Place, SeqNo, TMessageType, TType, TypeRead};

const MARK: u8 = 0xaa;

// The longest buffer that is lent, and the longest argument.
const ROOM: usize = 65_536;

// A row over so many bytes, where there are as many.
pub(crate) fn row(alloc: Global, rt: &impl Print, line: Line<'_>) -> io::Result<()> {
    let room = line.size(4);
    if ROOM < room {
        return Ok(());
    }
    let mut lent = vec![in alloc; MARK; room]?;
    calls(alloc, rt, &mut lent, line)?;
    print!(rt; " {}", Hex(&lent))
}

// The calls from the fifth word on; a line of more than a thousand words ends there. (How many words a call takes is told by its name.)
fn calls(alloc: Global, rt: &impl Print, lent: &mut [u8], line: Line<'_>) -> io::Result<()> {
    let mut state = TCompactOutputProtocol::new(line.limits());
    let mut i: usize = 5;
    while i < 1000 {
        let name = line.name(i);
        if name.is_empty() {
            break;
        }
        let written = call(alloc, state, lent, name, line, i + 1)?;
        state = written.state;
        let answer = match written.answer {
            WriteAnswer::Written => Answer::Done,
            WriteAnswer::Refused(why) => Answer::Refused(why),
        };
        say::tell(rt, answer, state.place.0)?;
        i += 1 + arity(name);
    }
    Ok(())
}

// How many words follow the call's name.
fn arity(name: &[u8]) -> usize
    ensures { result ≤ 3 }
{
    match name {
        b"begin" | b"end" | b"stop" => 0,
        b"field" | b"list" | b"set" => 2,
        b"message" | b"map" => 3,
        _ => 1,
    }
}

// One call, its arguments from word i on.
fn call(
    alloc: Global,
    st: TCompactOutputProtocol,
    buf: &mut [u8],
    name: &[u8],
    line: Line<'_>,
    i: usize,
) -> Result<Written, AllocError>
    requires { i ≤ 1000 }
{
    match name {
        b"message" => {
            let words = line.bytes(alloc, i + 2, ROOM)?;
            let sequence = SeqNo(line.signed32(i + 1));
            Ok(st.write_message_begin(buf, message_kind(line, i), sequence, &words))
        }
        b"bytes" => Ok(st.write_bytes(buf, &line.bytes(alloc, i, ROOM)?)),
        b"string" => Ok(st.write_string(buf, &line.bytes(alloc, i, ROOM)?)),
        b"begin" => Ok(st.write_struct_begin(buf)),
        b"end" => Ok(st.write_struct_end(buf)),
        b"field" => {
            let id = FieldId(short(line, i + 1));
            Ok(st.write_field_begin(buf, kind(line, i), id))
        }
        b"stop" => Ok(st.write_field_stop(buf)),
        b"list" => Ok(st.write_list_begin(buf, kind(line, i), line.signed32(i + 1))),
        b"set" => Ok(st.write_set_begin(buf, kind(line, i), line.signed32(i + 1))),
        b"map" => {
            let value = kind(line, i + 1);
            Ok(st.write_map_begin(buf, kind(line, i), value, line.signed32(i + 2)))
        }
        _ => Ok(scalar(st, buf, name, line, i)),
    }
}

fn scalar(
    st: TCompactOutputProtocol,
    buf: &mut [u8],
    name: &[u8],
    line: Line<'_>,
    i: usize,
) -> Written {
    match name {
        b"bool" => st.write_bool(buf, line.number(i) != 0),
        b"i8" => st.write_i8(buf, tiny(line, i)),
        b"i16" => st.write_i16(buf, short(line, i)),
        b"i32" => st.write_i32(buf, line.signed32(i)),
        b"i64" => st.write_i64(buf, line.signed(i)),
        b"double" => st.write_double(buf, line.bits(i)),
        b"uuid" => st.write_uuid(buf, &line.sixteen(i)),
        _ => put(st, name, line, i),
    }
}

// No calls: these put the state where no call would bring it.
fn put(st: TCompactOutputProtocol, name: &[u8], line: Line<'_>, i: usize) -> Written {
    let mut state = st;
    let mut answer = WriteAnswer::Written;
    match name {
        b"place" => state.place = Place(line.size(i)),
        b"depth" => state.depth = line.size(i),
        b"ceiling" => state.limits.message = line.number32(i),
        b"began" => state.begin = Place(line.size(i)),
        _ => answer = WriteAnswer::Refused(0),
    }
    Written { answer, state }
}

// A type by its number; Stop where there is none.
fn kind(line: Line<'_>, i: usize) -> TType {
    match types::u8_to_type(line.number8(i)) {
        TypeRead::Got(k) => k,
        TypeRead::Refused(_) => TType::Stop,
    }
}

fn message_kind(line: Line<'_>, i: usize) -> TMessageType {
    match types::u8_to_message_type(line.number8(i)) {
        MessageTypeRead::Got(k) => k,
        MessageTypeRead::Refused(_) => TMessageType::Call,
    }
}

// A number of 8 bits, and one of 16: the low bits of the word's.
fn tiny(line: Line<'_>, i: usize) -> i8 {
    ((line.signed32(i).cast_unsigned() % 0x100) as u8).cast_signed()
}

fn short(line: Line<'_>, i: usize) -> i16 {
    ((line.signed32(i).cast_unsigned() % 0x1_0000) as u16).cast_signed()
}
