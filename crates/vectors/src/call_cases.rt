// The cases of crates input and skip: a call of a new reader over these bytes, under limits 64, 2,147,483,647 and 2,147,483,647; and rows of calls.
ghost use Rattle.std.specs.Prelude.{◌≤◌};

use crate::line::Line;
use crate::say;
use crate::say::Answer;
use input::{
    BoolAnswer, DoneAnswer, DoubleAnswer, FieldAnswer, I8Answer, I16Answer, I32Answer, I64Answer,
    ListAnswer, MapAnswer, MessageAnswer, PartAnswer, TCompactInputProtocol,
};
use std::alloc::Global;
use std::io;
use types::{Place, TType, TypeRead};

// The most bytes that are read.
const ROOM: usize = 4096;

// What a call answered, and the state that it handed back.
type Called<'a> = (Answer<'a>, TCompactInputProtocol);

macro_rules! called {
    ($call:expr) => {{
        let read = $call;
        (Answer::from(read.answer), read.state)
    }};
}

fn fresh() -> TCompactInputProtocol {
    TCompactInputProtocol::new(cases::WIDEST)
}

fn tell(rt: &impl Print, called: Called<'_>) -> io::Result<()> {
    let (answer, state) = called;
    say::tell(rt, answer, state.place.0)
}

// `call NAME BYTES`: what the call answers, and the next place.
pub(crate) fn call(alloc: Global, rt: &impl Print, line: Line<'_>) -> io::Result<()> {
    let bytes = line.bytes(alloc, 2, ROOM)?;
    match line.name(1) {
        b"field" => two_fields(rt, &bytes),
        name => tell(rt, one(fresh(), &bytes, name, line, 3)),
    }
}

// `skip TYPE BYTES`: the place behind a value of the type with this number.
pub(crate) fn skip(alloc: Global, rt: &impl Print, line: Line<'_>) -> io::Result<()> {
    let bytes = line.bytes(alloc, 2, ROOM)?;
    tell(rt, skipped(fresh(), &bytes, line.number8(1)))
}

// `reader DEPTH STRING CONTAINER BYTES CALL ..`: a row of calls of a new reader under these limits. Each call goes on from the state that the one
// before has handed back, a refused one too. A line of more than a thousand words ends there. (How many words a call takes is told by its name.)
pub(crate) fn row(alloc: Global, rt: &impl Print, line: Line<'_>) -> io::Result<()> {
    let bytes = line.bytes(alloc, 4, ROOM)?;
    let mut state = TCompactInputProtocol::new(line.limits());
    let mut i: usize = 5;
    while i < 1000 {
        let name = line.name(i);
        if name.is_empty() {
            break;
        }
        let called = one(state, &bytes, name, line, i + 1);
        tell(rt, called)?;
        state = called.1;
        i += 1 + arity(name);
    }
    Ok(())
}

// How many words follow the call's name: only skip has an argument, and what is put into the state.
fn arity(name: &[u8]) -> usize
    ensures { result ≤ 1 }
{
    match name {
        b"skip" | b"ceiling" | b"began" => 1,
        _ => 0,
    }
}

// One call; word i of the line is its argument.
fn one<'a>(
    st: TCompactInputProtocol,
    s: &'a [u8],
    name: &[u8],
    line: Line<'_>,
    i: usize,
) -> Called<'a> {
    match name {
        b"field" => called!(st.read_field_begin(s)),
        b"list" => called!(st.read_list_begin(s)),
        b"set" => called!(st.read_set_begin(s)),
        b"map" => called!(st.read_map_begin(s)),
        b"begin" => called!(st.read_struct_begin(s)),
        b"end" => called!(st.read_struct_end(s)),
        b"skip" => skipped(st, s, line.number8(i)),
        b"ceiling" => {
            let mut state = st;
            state.limits.message = line.number32(i);
            (Answer::Done, state)
        }
        b"began" => {
            let mut state = st;
            state.begin = Place(line.size(i));
            (Answer::Done, state)
        }
        _ => scalar(st, s, name),
    }
}

fn scalar<'a>(st: TCompactInputProtocol, s: &'a [u8], name: &[u8]) -> Called<'a> {
    match name {
        b"bool" => called!(st.read_bool(s)),
        b"i8" => called!(st.read_i8(s)),
        b"i16" => called!(st.read_i16(s)),
        b"i32" => called!(st.read_i32(s)),
        b"i64" => called!(st.read_i64(s)),
        b"double" => called!(st.read_double(s)),
        b"message" => message(st, s),
        b"bytes" => {
            let read = st.read_bytes(s);
            (part(read.answer, st.bytes(s)), read.state)
        }
        b"string" => {
            let read = st.read_string(s);
            (part(read.answer, st.string(s)), read.state)
        }
        b"uuid" => {
            let read = st.read_uuid(s);
            (part(read.answer, st.uuid(s)), read.state)
        }
        _ => (Answer::Refused(0), st),
    }
}

// A skip of the type of this number.
fn skipped(st: TCompactInputProtocol, s: &[u8], code: u8) -> Called<'_> {
    match types::u8_to_type(code) {
        TypeRead::Got(kind) => called!(skip::skip(st, s, kind)),
        TypeRead::Refused(why) => (Answer::Refused(why), st),
    }
}

fn message(st: TCompactInputProtocol, s: &[u8]) -> Called<'_> {
    let read = st.read_message_begin(s);
    let answer = match read.answer {
        MessageAnswer::Got(kind, sequence, _, _) => Answer::Message(
            types::message_type_to_u8(kind),
            sequence.0,
            st.message_name(s),
        ),
        MessageAnswer::Refused(why) => Answer::Refused(why),
    };
    (answer, read.state)
}

// The bytes that are handed out for a part.
fn part(answer: PartAnswer, handed: &[u8]) -> Answer<'_> {
    match answer {
        PartAnswer::Got(_, _) => Answer::Bytes(handed),
        PartAnswer::Refused(why) => Answer::Refused(why),
    }
}

// A field is read twice in a row, so that an id may lean on the one before. A bool's value is taken at once; that of another type is no part of the case.
fn two_fields(rt: &impl Print, s: &[u8]) -> io::Result<()> {
    let mut state = fresh();
    for _ in 0..2 {
        let read = state.read_field_begin(s);
        state = read.state;
        tell(rt, (Answer::from(read.answer), state))?;
        match read.answer {
            FieldAnswer::Field(TType::Bool, _) => {
                let (answer, behind) = called!(state.read_bool(s));
                rt.print(answer)?;
                state = behind;
            }
            FieldAnswer::Field(_, _) => {}
            FieldAnswer::Stop | FieldAnswer::Refused(_) => break,
        }
    }
    Ok(())
}

impl From<DoneAnswer> for Answer<'_> {
    fn from(answer: DoneAnswer) -> Self {
        match answer {
            DoneAnswer::Done => Answer::Done,
            DoneAnswer::Refused(why) => Answer::Refused(why),
        }
    }
}

impl From<FieldAnswer> for Answer<'_> {
    fn from(answer: FieldAnswer) -> Self {
        match answer {
            FieldAnswer::Stop => Answer::Stop,
            FieldAnswer::Field(kind, id) => Answer::Field(types::type_to_u8(kind), id.0),
            FieldAnswer::Refused(why) => Answer::Refused(why),
        }
    }
}

impl From<ListAnswer> for Answer<'_> {
    fn from(answer: ListAnswer) -> Self {
        match answer {
            ListAnswer::Got(kind, count) => Answer::Items(types::type_to_u8(kind), count),
            ListAnswer::Refused(why) => Answer::Refused(why),
        }
    }
}

impl From<MapAnswer> for Answer<'_> {
    fn from(answer: MapAnswer) -> Self {
        match answer {
            MapAnswer::Got(key, value, count) => {
                Answer::Map(types::type_to_u8(key), types::type_to_u8(value), count)
            }
            MapAnswer::Refused(why) => Answer::Refused(why),
        }
    }
}

impl From<BoolAnswer> for Answer<'_> {
    fn from(answer: BoolAnswer) -> Self {
        match answer {
            BoolAnswer::Got(truth) => Answer::Truth(truth),
            BoolAnswer::Refused(why) => Answer::Refused(why),
        }
    }
}

impl From<I8Answer> for Answer<'_> {
    fn from(answer: I8Answer) -> Self {
        match answer {
            I8Answer::Got(n) => Answer::Signed(i64::from(n)),
            I8Answer::Refused(why) => Answer::Refused(why),
        }
    }
}

impl From<I16Answer> for Answer<'_> {
    fn from(answer: I16Answer) -> Self {
        match answer {
            I16Answer::Got(n) => Answer::Signed(i64::from(n)),
            I16Answer::Refused(why) => Answer::Refused(why),
        }
    }
}

impl From<I32Answer> for Answer<'_> {
    fn from(answer: I32Answer) -> Self {
        match answer {
            I32Answer::Got(n) => Answer::Signed(i64::from(n)),
            I32Answer::Refused(why) => Answer::Refused(why),
        }
    }
}

impl From<I64Answer> for Answer<'_> {
    fn from(answer: I64Answer) -> Self {
        match answer {
            I64Answer::Got(n) => Answer::Signed(n),
            I64Answer::Refused(why) => Answer::Refused(why),
        }
    }
}

impl From<DoubleAnswer> for Answer<'_> {
    fn from(answer: DoubleAnswer) -> Self {
        match answer {
            DoubleAnswer::Got(bits) => Answer::Bits(bits),
            DoubleAnswer::Refused(why) => Answer::Refused(why),
        }
    }
}
