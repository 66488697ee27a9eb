// Headers.
ghost use Rattle.std.specs.Prelude.{◌≡◌};
ghost use Rattle.input.specs.Calls.{read_message, read_field, read_list, read_set, read_map};

use crate::{
    Awaited, FieldAnswer, ListAnswer, MapAnswer, MessageAnswer, Pending, ReadField, ReadList,
    ReadMap, ReadMessage, TCompactInputProtocol,
};
use heads::{FieldHead, ListHead, MapHead, MessageHead};
use types::{FieldId, TType};

impl TCompactInputProtocol {
    // A message's fields start anew: the last id is 0.
    pub fn read_message_begin(self, s: &[u8]) -> ReadMessage
        ensures { result ≡ read_message s.now self }
    {
        let why = self.refusal(s.len());
        if why != 0 {
            return ReadMessage {
                answer: MessageAnswer::Refused(why),
                state: self,
            };
        }
        let end = crate::cut_at(self.place.0, self.limits.message as usize, s.len());
        match heads::read_message_begin(&s[..end], self.place, self.limits) {
            MessageHead::Refused(why) => ReadMessage {
                answer: MessageAnswer::Refused(crate::missing(why, end, s.len())),
                state: self,
            },
            MessageHead::Got(kind, sequence, start, to) => {
                let last = FieldId(0);
                let begin = self.place;
                let mut next = self;
                next.place = to;
                next.last = last;
                next.begin = begin;
                ReadMessage {
                    answer: MessageAnswer::Got(kind, sequence, start, to),
                    state: next,
                }
            }
        }
    }

    // A bool field's value waits for the bool call, once its whole header is read.
    pub fn read_field_begin(self, s: &[u8]) -> ReadField
        ensures { result ≡ read_field s.now self }
    {
        let why = self.refusal(s.len());
        if why != 0 {
            return ReadField {
                answer: FieldAnswer::Refused(why),
                state: self,
            };
        }
        let mut next = self;
        let end = self.cut(s.len());
        match heads::read_field_begin(&s[..end], self.place, self.last) {
            FieldHead::Refused(why) => ReadField {
                answer: FieldAnswer::Refused(crate::missing(why, end, s.len())),
                state: next,
            },
            FieldHead::Stop(place) => {
                next.place = place;
                ReadField {
                    answer: FieldAnswer::Stop,
                    state: next,
                }
            }
            FieldHead::Bool(truth, id, place) => {
                let pending = Pending(Awaited::Truth(truth));
                next.place = place;
                next.last = id;
                next.pending = pending;
                ReadField {
                    answer: FieldAnswer::Field(TType::Bool, id),
                    state: next,
                }
            }
            FieldHead::Value(kind, id, place) => {
                next.place = place;
                next.last = id;
                ReadField {
                    answer: FieldAnswer::Field(kind, id),
                    state: next,
                }
            }
        }
    }

    pub fn read_list_begin(self, s: &[u8]) -> ReadList
        ensures { result ≡ read_list s.now self }
    {
        let why = self.refusal(s.len());
        if why != 0 {
            return ReadList {
                answer: ListAnswer::Refused(why),
                state: self,
            };
        }
        let end = self.cut(s.len());
        match heads::read_list_begin(&s[..end], self.place, self.limits) {
            ListHead::Refused(why) => ReadList {
                answer: ListAnswer::Refused(crate::missing(why, end, s.len())),
                state: self,
            },
            ListHead::Got(kind, count, place) => {
                let mut next = self;
                next.place = place;
                ReadList {
                    answer: ListAnswer::Got(kind, count),
                    state: next,
                }
            }
        }
    }

    // A set's header is a list's.
    pub fn read_set_begin(self, s: &[u8]) -> ReadList
        ensures { result ≡ read_set s.now self }
    {
        self.read_list_begin(s)
    }

    pub fn read_map_begin(self, s: &[u8]) -> ReadMap
        ensures { result ≡ read_map s.now self }
    {
        let why = self.refusal(s.len());
        if why != 0 {
            return ReadMap {
                answer: MapAnswer::Refused(why),
                state: self,
            };
        }
        let end = self.cut(s.len());
        match heads::read_map_begin(&s[..end], self.place, self.limits) {
            MapHead::Refused(why) => ReadMap {
                answer: MapAnswer::Refused(crate::missing(why, end, s.len())),
                state: self,
            },
            MapHead::Got(key, value, count, place) => {
                let mut next = self;
                next.place = place;
                ReadMap {
                    answer: MapAnswer::Got(key, value, count),
                    state: next,
                }
            }
        }
    }
}
