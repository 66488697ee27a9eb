// A case's answer as text. Each part of an answer comes with a space before it.
use std::{fmt, io};

// Bytes as hex, `-` where there are none.
#[derive(Clone, Copy)]
pub(crate) struct Hex<'a>(pub(crate) &'a [u8]);

impl fmt::Display for Hex<'_> {
    fn fmt<W: fmt::Write>(&self, f: &mut fmt::Formatter<W>) -> fmt::Result {
        if self.0.is_empty() {
            return write!(f, "-");
        }
        for b in self.0 {
            write!(f, "{b:02x}")?;
        }
        Ok(())
    }
}

// What a call answers, types by their codes. No refusal has the number 0: it stands for a case that is not known.
#[derive(Clone, Copy)]
pub(crate) enum Answer<'a> {
    Done,
    Stop,
    Field(u8, i16),
    Items(u8, u32),
    Map(u8, u8, u32),
    Message(u8, i32, &'a [u8]),
    Bytes(&'a [u8]),
    Truth(bool),
    Number(u64),
    Signed(i64),
    // of a double
    Bits(u64),
    Refused(u8),
}

impl fmt::Display for Answer<'_> {
    fn fmt<W: fmt::Write>(&self, f: &mut fmt::Formatter<W>) -> fmt::Result {
        match *self {
            Answer::Done => Ok(()),
            Answer::Stop => write!(f, " stop"),
            Answer::Field(kind, id) => write!(f, " {kind} {id}"),
            Answer::Items(kind, count) => write!(f, " {kind} {count}"),
            Answer::Map(key, value, count) => write!(f, " {key} {value} {count}"),
            Answer::Message(kind, sequence, name) => {
                write!(f, " {kind} {sequence} {}", Hex(name))
            }
            Answer::Bytes(bytes) => write!(f, " {}", Hex(bytes)),
            Answer::Truth(true) => write!(f, " yes"),
            Answer::Truth(false) => write!(f, " no"),
            Answer::Number(n) => write!(f, " {n}"),
            Answer::Signed(n) => write!(f, " {n}"),
            Answer::Bits(n) => write!(f, " {n:016x}"),
            Answer::Refused(why) => write!(f, " refused {why}"),
        }
    }
}

// The answer, and the place behind what was read or written; a refusal has none.
pub(crate) fn tell(rt: &impl Print, answer: Answer<'_>, place: usize) -> io::Result<()> {
    rt.print(answer)?;
    match answer {
        Answer::Refused(_) => Ok(()),
        _ => print!(rt; " {place}"),
    }
}
