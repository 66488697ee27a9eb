// A reader that keeps the lent bytes beside its state: thin calls over those of `input` and `skip`. Each hands back what that call answers, and the
// reader with the next state.
#![tactic(auto)]

ghost use Rattle.std.specs.Prelude.{◌≡◌};
ghost use Rattle.lent.specs.Lent.{lent, lent_message, lent_field, lent_skip};
ghost use Rattle.lent.specs.Count.{count_fields};

use input::{DoneAnswer, FieldAnswer, MessageAnswer, TCompactInputProtocol};
use types::{Place, TType};

// The fields stand in the order in which the calls of `input` and `skip` take them.
#[derive(Clone, Copy)]
pub struct LentReader<'a> {
    pub state: TCompactInputProtocol,
    pub bytes: &'a [u8],
}

#[derive(Clone, Copy)]
pub struct LentMessage<'a> {
    pub answer: MessageAnswer,
    pub reader: LentReader<'a>,
}

#[derive(Clone, Copy)]
pub struct LentField<'a> {
    pub answer: FieldAnswer,
    pub reader: LentReader<'a>,
}

#[derive(Clone, Copy)]
pub struct LentDone<'a> {
    pub answer: DoneAnswer,
    pub reader: LentReader<'a>,
}

impl<'a> LentReader<'a> {
    pub fn new(state: TCompactInputProtocol, bytes: &'a [u8]) -> LentReader<'a>
        ensures { result ≡ lent state bytes.entry }
    {
        LentReader { state, bytes }
    }

    pub fn into_state(self) -> TCompactInputProtocol
        ensures { result ≡ self.entry.state }
    {
        self.state
    }

    pub fn read_message_begin(self) -> LentMessage<'a>
        ensures { result ≡ lent_message self.entry }
    {
        let read = self.state.read_message_begin(self.bytes);
        let state = read.state;
        LentMessage {
            answer: read.answer,
            reader: LentReader {
                state,
                bytes: self.bytes,
            },
        }
    }

    pub fn read_field_begin(self) -> LentField<'a>
        ensures { result ≡ lent_field self.entry }
    {
        let read = self.state.read_field_begin(self.bytes);
        let state = read.state;
        LentField {
            answer: read.answer,
            reader: LentReader {
                state,
                bytes: self.bytes,
            },
        }
    }

    pub fn skip(self, kind: TType) -> LentDone<'a>
        ensures { result ≡ lent_skip self.entry kind }
    {
        let read = skip::skip(self.state, self.bytes, kind);
        let state = read.state;
        LentDone {
            answer: read.answer,
            reader: LentReader {
                state,
                bytes: self.bytes,
            },
        }
    }
}

// How many fields the struct of a message has, and where it ends; or the number of a refusal.
#[derive(Clone, Copy)]
pub enum Counted {
    Done(usize, Place),
    Refused(u8),
}

// The use of it, for a caller with a state and bytes: a message's header is read, and the fields of its struct are stepped over. There are no more fields than
// bytes, since each has a byte of its own.
pub fn count_fields(state: TCompactInputProtocol, bytes: &[u8]) -> Counted
    ensures { result ≡ count_fields bytes.now state }
{
    let begun = LentReader::new(state, bytes).read_message_begin();
    match begun.answer {
        MessageAnswer::Refused(why) => return Counted::Refused(why),
        MessageAnswer::Got(_, _, _, _) => {}
    }
    let mut reader = begun.reader;
    let mut count = 0;
    while count < bytes.len() {
        let head = reader.read_field_begin();
        match head.answer {
            FieldAnswer::Stop => return Counted::Done(count, head.reader.state.place),
            FieldAnswer::Refused(why) => return Counted::Refused(why),
            FieldAnswer::Field(kind, _) => {
                let past = head.reader.skip(kind);
                match past.answer {
                    DoneAnswer::Refused(why) => return Counted::Refused(why),
                    DoneAnswer::Done => {}
                }
                reader = past.reader;
                count = count + 1;
            }
        }
    }
    Counted::Refused(types::END)
}
