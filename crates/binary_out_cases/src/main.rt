// Makes rows of the binary writer's calls. Standard input is a row of cases: a line that begins with the number of the case's bytes and goes on with what it is,
// and then those bytes. The line is written again, and below it what the calls answer. What a model answered, in the same form, is the file stdout.
//
// A case is a writer's state in eight numbers, 4 bytes each, lowest first (the limits on depth, strings and containers, the ceiling, the place, where the message
// began, the depth, the buffer's length), and then calls. A call is its number, two bytes a and b, a number of 8 bytes, lowest first, a length of 4, and so many bytes.
// Each answers the place behind it, or `refused N`, and the next goes on from the state that it hands back. The whole buffer, in which each byte was aa, stands
// last, so that a refused call is seen to have kept it.
#![tactic(auto)]

ghost use Rattle.std.specs.Prelude.{length};
ghost use Rattle.std.specs.Iterator.{at_most};

use binary_output::{BinaryWritten, TBinaryOutputProtocol};
use output::WriteAnswer;
use std::alloc::Global;
use std::io;
use types::{
    FieldId, MessageTypeRead, Place, SeqNo, TConfiguration, TMessageType, TType, TypeRead,
};

// The most that is read, and that is written of a case.
const ROW: usize = 524_288;

const TEXT_ROOM: usize = 8192;

// The longest buffer that is lent, and what it is filled with.
const LENT: usize = 4096;

const MARK: u8 = 0xaa;

// The bytes of a state, and those of a call before its own.
const STATE: usize = 32;

const HEAD: usize = 15;

// The number at a place of a state.
fn size_at(state: &[u8], at: usize) -> usize {
    cases::number_at(state, at) as usize
}

fn state_of(state: &[u8]) -> TBinaryOutputProtocol {
    TBinaryOutputProtocol {
        place: Place(size_at(state, 16)),
        depth: size_at(state, 24),
        limits: TConfiguration {
            depth: size_at(state, 0),
            string: cases::number_at(state, 4),
            container: cases::number_at(state, 8),
            message: cases::number_at(state, 12),
        },
        begin: Place(size_at(state, 20)),
    }
}

#[derive(Clone, Copy)]
struct Call<'a> {
    name: u8,
    a: u8,
    b: u8,
    n: u64,
    bytes: &'a [u8],
}

// The calls that are left of a case: each has its own bytes behind it, and the first that is cut short ends the row.
#[derive(Drop)]
struct Calls<'a>(&'a [u8]);

impl<'a> Iterator for Calls<'a> {
    type Item = Call<'a>;

    ghost remaining = { λ s. at_most (length s.0.now) };

    fn next(&mut self) -> Option<Call<'a>> {
        let (head, behind) = self.0.split_first_chunk::<HEAD>()?;
        let (bytes, rest) = behind.split_at_checked(size_at(head, 11))?;
        self.0 = rest;
        Some(Call {
            name: head[0],
            a: head[1],
            b: head[2],
            n: cases::long_at(head, 3),
            bytes,
        })
    }
}

// A type by its code; Stop where there is none.
fn kind(code: u8) -> TType {
    match binary_codes::field_type_from_u8(code) {
        TypeRead::Got(k) => k,
        TypeRead::Refused(_) => TType::Stop,
    }
}

fn message_kind(code: u8) -> TMessageType {
    match types::u8_to_message_type(code) {
        MessageTypeRead::Got(k) => k,
        MessageTypeRead::Refused(_) => TMessageType::Call,
    }
}

// Numbers of 16 and 32 bits: the low bits of n.
fn short(n: u64) -> i16 {
    ((n % 0x1_0000) as u16).cast_signed()
}

fn word(n: u64) -> i32 {
    ((n % 0x1_0000_0000) as u32).cast_signed()
}

fn uuid(st: TBinaryOutputProtocol, buf: &mut [u8], bytes: &[u8]) -> BinaryWritten {
    let mut id = [0u8; 16];
    puts::copy(&mut id, 0, bytes);
    st.write_uuid(buf, &id)
}

// One call: the headers, and the values.
fn make(st: TBinaryOutputProtocol, buf: &mut [u8], call: Call<'_>) -> BinaryWritten {
    let Call { name, a, b, n, .. } = call;
    match name {
        1 => st.write_message_begin(buf, message_kind(a), SeqNo(word(n)), call.bytes),
        2 => st.write_struct_begin(buf),
        3 => st.write_struct_end(buf),
        4 => st.write_field_begin(buf, kind(a), FieldId(short(n))),
        5 => st.write_field_stop(buf),
        6 => st.write_list_begin(buf, kind(a), word(n)),
        7 => st.write_set_begin(buf, kind(a), word(n)),
        8 => st.write_map_begin(buf, kind(a), kind(b), word(n)),
        _ => value(st, buf, call),
    }
}

fn value(st: TBinaryOutputProtocol, buf: &mut [u8], call: Call<'_>) -> BinaryWritten {
    let Call { a, n, bytes, .. } = call;
    match call.name {
        9 => st.write_bool(buf, a != 0),
        10 => st.write_i8(buf, a.cast_signed()),
        11 => st.write_i16(buf, short(n)),
        12 => st.write_i32(buf, word(n)),
        13 => st.write_i64(buf, n.cast_signed()),
        14 => st.write_double(buf, n),
        15 => uuid(st, buf, bytes),
        16 => st.write_bytes(buf, bytes),
        _ => st.write_string(buf, bytes),
    }
}

// The place, or the refusal, and a space.
fn put_answer(out: &mut [u8], to: usize, answer: WriteAnswer, place: usize) -> usize {
    let end = match answer {
        WriteAnswer::Written => text::put_decimal(out, to, place as u64),
        WriteAnswer::Refused(why) => {
            let behind = text::put_word(out, to, b"refused ");
            text::put_decimal(out, behind, u64::from(why))
        }
    };
    text::put_byte(out, end, b' ')
}

// The calls one after the other, and the lent buffer.
fn put_case(out: &mut [u8], lent: &mut [u8], state: &[u8], rest: &[u8]) -> usize {
    let mut state = state_of(state);
    let mut to = 0;
    for call in Calls(rest) {
        let written = make(state, lent, call);
        state = written.state;
        to = put_answer(out, to, written.answer, state.place.0);
    }
    let end = text::put_bytes(out, to, lent);
    text::put_byte(out, end, b'\n')
}

// A case that has its whole state, over so many bytes, where there are as many.
fn show(alloc: Global, rt: &impl Print, s: &[u8]) -> io::Result<()> {
    let room = size_at(s, 28);
    if LENT < room {
        return Ok(());
    }
    let mut lent = vec![in alloc; MARK; room]?;
    system::print_text(alloc, rt, TEXT_ROOM, |out| {
        let (state, rest) = s.split_at(STATE.min(s.len()));
        put_case(out, &mut lent, state, rest)
    })
}

fn main(rt: HostRuntime) -> io::Result<()> {
    cases::answer_all(rt.alloc(), &mut rt.stdin(), &rt, ROW, |_, s| {
        show(rt.alloc(), &rt, s)
    })
}
