// Headers.
ghost use Rattle.std.specs.Prelude.{◌≡◌};
ghost use Rattle.binary_input.specs.Calls.{read_message, read_field, read_list, read_set, read_map};

use crate::{ReadField, ReadList, ReadMap, ReadMessage, TBinaryInputProtocol};
use binary_heads::MessageHead;
use heads::{FieldHead, ListHead, MapHead};
use input::{FieldAnswer, ListAnswer, MapAnswer, MessageAnswer};
use types::TType;

impl TBinaryInputProtocol {
    // The strict encoding alone.
    #[tactic(auto, using(crate::proofs::Cases::message_cases))]
    pub fn read_message_begin(self, s: &[u8]) -> ReadMessage
        ensures { result ≡ read_message s.now self }
    {
        let why = self.refusal(s.len());
        if why != 0 {
            return ReadMessage {
                answer: MessageAnswer::Refused(why),
                state: self,
            };
        }
        let end = input::cut_at(self.place.0, self.limits.message as usize, s.len());
        match binary_heads::read_message_begin(&s[..end], self.place, self.limits) {
            MessageHead::Refused(why) => ReadMessage {
                answer: MessageAnswer::Refused(input::missing(why, end, s.len())),
                state: self,
            },
            MessageHead::Got(kind, sequence, start, stop, to) => {
                let begin = self.place;
                let mut next = self;
                next.place = to;
                next.begin = begin;
                ReadMessage {
                    answer: MessageAnswer::Got(kind, sequence, start, stop),
                    state: next,
                }
            }
        }
    }

    // No header here is of a bool with its value: that of a bool field is any field's.
    #[tactic(auto, using(crate::proofs::Cases::field_cases))]
    pub fn read_field_begin(self, s: &[u8]) -> ReadField
        ensures { result ≡ read_field s.now self }
    {
        let why = self.refusal(s.len());
        if why != 0 {
            return ReadField {
                answer: FieldAnswer::Refused(why),
                state: self,
            };
        }
        let mut next = self;
        let end = self.cut(s.len());
        match binary_heads::read_field_begin(&s[..end], self.place) {
            FieldHead::Refused(why) => ReadField {
                answer: FieldAnswer::Refused(input::missing(why, end, s.len())),
                state: next,
            },
            FieldHead::Stop(place) => {
                next.place = place;
                ReadField {
                    answer: FieldAnswer::Stop,
                    state: next,
                }
            }
            FieldHead::Bool(_, id, place) => {
                next.place = place;
                ReadField {
                    answer: FieldAnswer::Field(TType::Bool, id),
                    state: next,
                }
            }
            FieldHead::Value(kind, id, place) => {
                next.place = place;
                ReadField {
                    answer: FieldAnswer::Field(kind, id),
                    state: next,
                }
            }
        }
    }

    #[tactic(auto, using(crate::proofs::Cases::list_cases))]
    pub fn read_list_begin(self, s: &[u8]) -> ReadList
        ensures { result ≡ read_list s.now self }
    {
        let why = self.refusal(s.len());
        if why != 0 {
            return ReadList {
                answer: ListAnswer::Refused(why),
                state: self,
            };
        }
        let end = self.cut(s.len());
        match binary_heads::read_list_begin(&s[..end], self.place, self.limits) {
            ListHead::Refused(why) => ReadList {
                answer: ListAnswer::Refused(input::missing(why, end, s.len())),
                state: self,
            },
            ListHead::Got(kind, count, place) => {
                let mut next = self;
                next.place = place;
                ReadList {
                    answer: ListAnswer::Got(kind, count),
                    state: next,
                }
            }
        }
    }

    // A set's header is a list's.
    #[tactic(auto, using(crate::proofs::Cases::set_is))]
    pub fn read_set_begin(self, s: &[u8]) -> ReadList
        ensures { result ≡ read_set s.now self }
    {
        self.read_list_begin(s)
    }

    #[tactic(auto, using(crate::proofs::Cases::map_cases))]
    pub fn read_map_begin(self, s: &[u8]) -> ReadMap
        ensures { result ≡ read_map s.now self }
    {
        let why = self.refusal(s.len());
        if why != 0 {
            return ReadMap {
                answer: MapAnswer::Refused(why),
                state: self,
            };
        }
        let end = self.cut(s.len());
        match binary_heads::read_map_begin(&s[..end], self.place, self.limits) {
            MapHead::Refused(why) => ReadMap {
                answer: MapAnswer::Refused(input::missing(why, end, s.len())),
                state: self,
            },
            MapHead::Got(key, value, count, place) => {
                let mut next = self;
                next.place = place;
                ReadMap {
                    answer: MapAnswer::Got(key, value, count),
                    state: next,
                }
            }
        }
    }
}
