// What a call of the reader answers, and how it is told: each number as it is, a signed one and a double as its bits, and of types the codes.
use input::{
    BoolAnswer, DoneAnswer, DoubleAnswer, FieldAnswer, I8Answer, I16Answer, I32Answer, I64Answer,
    ListAnswer, MapAnswer, MessageAnswer, PartAnswer,
};
use std::fmt;
use types::TType;

#[derive(Clone, Copy)]
pub(crate) enum Answer {
    Done,
    Stop,
    Number(u64),
    Pair(u64, u64),
    Triple(u64, u64, u64),
    Message(u64, u64, u64, u64),
    Refused(u8),
}

impl fmt::Display for Answer {
    fn fmt<W: fmt::Write>(&self, f: &mut fmt::Formatter<W>) -> fmt::Result {
        match *self {
            Answer::Done => write!(f, "got"),
            Answer::Stop => write!(f, "stop"),
            Answer::Number(n) => write!(f, "got {n}"),
            Answer::Pair(a, b) => write!(f, "got {a} {b}"),
            Answer::Triple(a, b, c) => write!(f, "got {a} {b} {c}"),
            Answer::Message(a, b, c, d) => write!(f, "got {a} {b} {c} {d}"),
            Answer::Refused(why) => write!(f, "refused {why}"),
        }
    }
}

fn code(kind: TType) -> u64 {
    u64::from(types::type_to_u8(kind))
}

impl From<DoneAnswer> for Answer {
    fn from(answer: DoneAnswer) -> Answer {
        match answer {
            DoneAnswer::Done => Answer::Done,
            DoneAnswer::Refused(why) => Answer::Refused(why),
        }
    }
}

impl From<PartAnswer> for Answer {
    fn from(answer: PartAnswer) -> Answer {
        match answer {
            PartAnswer::Got(start, end) => Answer::Pair(start.0 as u64, end.0 as u64),
            PartAnswer::Refused(why) => Answer::Refused(why),
        }
    }
}

impl From<ListAnswer> for Answer {
    fn from(answer: ListAnswer) -> Answer {
        match answer {
            ListAnswer::Got(kind, count) => Answer::Pair(code(kind), u64::from(count)),
            ListAnswer::Refused(why) => Answer::Refused(why),
        }
    }
}

impl From<MapAnswer> for Answer {
    fn from(answer: MapAnswer) -> Answer {
        match answer {
            MapAnswer::Got(key, value, count) => {
                Answer::Triple(code(key), code(value), u64::from(count))
            }
            MapAnswer::Refused(why) => Answer::Refused(why),
        }
    }
}

impl From<FieldAnswer> for Answer {
    fn from(answer: FieldAnswer) -> Answer {
        match answer {
            FieldAnswer::Stop => Answer::Stop,
            FieldAnswer::Field(kind, id) => {
                Answer::Pair(code(kind), u64::from(id.0.cast_unsigned()))
            }
            FieldAnswer::Refused(why) => Answer::Refused(why),
        }
    }
}

impl From<MessageAnswer> for Answer {
    fn from(answer: MessageAnswer) -> Answer {
        match answer {
            MessageAnswer::Got(kind, sequence, start, end) => Answer::Message(
                u64::from(types::message_type_to_u8(kind)),
                u64::from(sequence.0.cast_unsigned()),
                start.0 as u64,
                end.0 as u64,
            ),
            MessageAnswer::Refused(why) => Answer::Refused(why),
        }
    }
}

impl From<BoolAnswer> for Answer {
    fn from(answer: BoolAnswer) -> Answer {
        match answer {
            BoolAnswer::Got(truth) => Answer::Number(u64::from(truth)),
            BoolAnswer::Refused(why) => Answer::Refused(why),
        }
    }
}

impl From<I8Answer> for Answer {
    fn from(answer: I8Answer) -> Answer {
        match answer {
            I8Answer::Got(n) => Answer::Number(u64::from(n.cast_unsigned())),
            I8Answer::Refused(why) => Answer::Refused(why),
        }
    }
}

impl From<I16Answer> for Answer {
    fn from(answer: I16Answer) -> Answer {
        match answer {
            I16Answer::Got(n) => Answer::Number(u64::from(n.cast_unsigned())),
            I16Answer::Refused(why) => Answer::Refused(why),
        }
    }
}

impl From<I32Answer> for Answer {
    fn from(answer: I32Answer) -> Answer {
        match answer {
            I32Answer::Got(n) => Answer::Number(u64::from(n.cast_unsigned())),
            I32Answer::Refused(why) => Answer::Refused(why),
        }
    }
}

impl From<I64Answer> for Answer {
    fn from(answer: I64Answer) -> Answer {
        match answer {
            I64Answer::Got(n) => Answer::Number(n.cast_unsigned()),
            I64Answer::Refused(why) => Answer::Refused(why),
        }
    }
}

impl From<DoubleAnswer> for Answer {
    fn from(answer: DoubleAnswer) -> Answer {
        match answer {
            DoubleAnswer::Got(bits) => Answer::Number(bits),
            DoubleAnswer::Refused(why) => Answer::Refused(why),
        }
    }
}
