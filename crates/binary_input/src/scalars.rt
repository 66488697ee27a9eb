// Scalars.
ghost use Rattle.std.specs.Prelude.{◌≡◌};
ghost use Rattle.binary_input.specs.Calls.{read_bool, read_i8, read_i16, read_i32, read_i64, read_double, read_uuid, read_bytes, read_string};

use crate::{
    ReadBool, ReadDouble, ReadI8, ReadI16, ReadI32, ReadI64, ReadPart, TBinaryInputProtocol,
};
use heads::{BoolRead, DoubleRead, I8Read, I16Read, I32Read, I64Read, PartRead};
use input::{BoolAnswer, DoubleAnswer, I8Answer, I16Answer, I32Answer, I64Answer, PartAnswer};

impl TBinaryInputProtocol {
    // A bool is a byte, in a field too: none ever waits.
    #[tactic(auto, using(crate::proofs::Cases::bool_cases))]
    pub fn read_bool(self, s: &[u8]) -> ReadBool
        ensures { result ≡ read_bool s.now self }
    {
        let why = self.refusal(s.len());
        if why != 0 {
            return ReadBool {
                answer: BoolAnswer::Refused(why),
                state: self,
            };
        }
        let end = self.cut(s.len());
        match binary_heads::read_bool(&s[..end], self.place) {
            BoolRead::Refused(why) => ReadBool {
                answer: BoolAnswer::Refused(input::missing(why, end, s.len())),
                state: self,
            },
            BoolRead::Got(truth, place) => {
                let mut next = self;
                next.place = place;
                ReadBool {
                    answer: BoolAnswer::Got(truth),
                    state: next,
                }
            }
        }
    }

    #[tactic(auto, using(crate::proofs::Cases::i8_cases))]
    pub fn read_i8(self, s: &[u8]) -> ReadI8
        ensures { result ≡ read_i8 s.now self }
    {
        let why = self.refusal(s.len());
        if why != 0 {
            return ReadI8 {
                answer: I8Answer::Refused(why),
                state: self,
            };
        }
        let end = self.cut(s.len());
        match heads::read_i8(&s[..end], self.place) {
            I8Read::Refused(why) => ReadI8 {
                answer: I8Answer::Refused(input::missing(why, end, s.len())),
                state: self,
            },
            I8Read::Got(n, place) => {
                let mut next = self;
                next.place = place;
                ReadI8 {
                    answer: I8Answer::Got(n),
                    state: next,
                }
            }
        }
    }

    #[tactic(auto, using(crate::proofs::Cases::i16_cases))]
    pub fn read_i16(self, s: &[u8]) -> ReadI16
        ensures { result ≡ read_i16 s.now self }
    {
        let why = self.refusal(s.len());
        if why != 0 {
            return ReadI16 {
                answer: I16Answer::Refused(why),
                state: self,
            };
        }
        let end = self.cut(s.len());
        match binary_heads::read_i16(&s[..end], self.place) {
            I16Read::Refused(why) => ReadI16 {
                answer: I16Answer::Refused(input::missing(why, end, s.len())),
                state: self,
            },
            I16Read::Got(n, place) => {
                let mut next = self;
                next.place = place;
                ReadI16 {
                    answer: I16Answer::Got(n),
                    state: next,
                }
            }
        }
    }

    #[tactic(auto, using(crate::proofs::Cases::i32_cases))]
    pub fn read_i32(self, s: &[u8]) -> ReadI32
        ensures { result ≡ read_i32 s.now self }
    {
        let why = self.refusal(s.len());
        if why != 0 {
            return ReadI32 {
                answer: I32Answer::Refused(why),
                state: self,
            };
        }
        let end = self.cut(s.len());
        match binary_heads::read_i32(&s[..end], self.place) {
            I32Read::Refused(why) => ReadI32 {
                answer: I32Answer::Refused(input::missing(why, end, s.len())),
                state: self,
            },
            I32Read::Got(n, place) => {
                let mut next = self;
                next.place = place;
                ReadI32 {
                    answer: I32Answer::Got(n),
                    state: next,
                }
            }
        }
    }

    #[tactic(auto, using(crate::proofs::Cases::i64_cases))]
    pub fn read_i64(self, s: &[u8]) -> ReadI64
        ensures { result ≡ read_i64 s.now self }
    {
        let why = self.refusal(s.len());
        if why != 0 {
            return ReadI64 {
                answer: I64Answer::Refused(why),
                state: self,
            };
        }
        let end = self.cut(s.len());
        match binary_heads::read_i64(&s[..end], self.place) {
            I64Read::Refused(why) => ReadI64 {
                answer: I64Answer::Refused(input::missing(why, end, s.len())),
                state: self,
            },
            I64Read::Got(n, place) => {
                let mut next = self;
                next.place = place;
                ReadI64 {
                    answer: I64Answer::Got(n),
                    state: next,
                }
            }
        }
    }

    #[tactic(auto, using(crate::proofs::Cases::double_cases))]
    pub fn read_double(self, s: &[u8]) -> ReadDouble
        ensures { result ≡ read_double s.now self }
    {
        let why = self.refusal(s.len());
        if why != 0 {
            return ReadDouble {
                answer: DoubleAnswer::Refused(why),
                state: self,
            };
        }
        let end = self.cut(s.len());
        match binary_heads::read_double(&s[..end], self.place) {
            DoubleRead::Refused(why) => ReadDouble {
                answer: DoubleAnswer::Refused(input::missing(why, end, s.len())),
                state: self,
            },
            DoubleRead::Got(bits, place) => {
                let mut next = self;
                next.place = place;
                ReadDouble {
                    answer: DoubleAnswer::Got(bits),
                    state: next,
                }
            }
        }
    }

    #[tactic(auto, using(crate::proofs::Cases::uuid_cases))]
    pub fn read_uuid(self, s: &[u8]) -> ReadPart
        ensures { result ≡ read_uuid s.now self }
    {
        let why = self.refusal(s.len());
        if why != 0 {
            return ReadPart {
                answer: PartAnswer::Refused(why),
                state: self,
            };
        }
        let end = self.cut(s.len());
        match heads::read_uuid(&s[..end], self.place) {
            PartRead::Refused(why) => ReadPart {
                answer: PartAnswer::Refused(input::missing(why, end, s.len())),
                state: self,
            },
            PartRead::Got(start, place) => {
                let mut next = self;
                next.place = place;
                ReadPart {
                    answer: PartAnswer::Got(start, place),
                    state: next,
                }
            }
        }
    }

    #[tactic(auto, using(crate::proofs::Cases::bytes_cases))]
    pub fn read_bytes(self, s: &[u8]) -> ReadPart
        ensures { result ≡ read_bytes s.now self }
    {
        let why = self.refusal(s.len());
        if why != 0 {
            return ReadPart {
                answer: PartAnswer::Refused(why),
                state: self,
            };
        }
        let end = self.cut(s.len());
        match binary_heads::read_bytes(&s[..end], self.place, self.limits) {
            PartRead::Refused(why) => ReadPart {
                answer: PartAnswer::Refused(input::missing(why, end, s.len())),
                state: self,
            },
            PartRead::Got(start, place) => {
                let mut next = self;
                next.place = place;
                ReadPart {
                    answer: PartAnswer::Got(start, place),
                    state: next,
                }
            }
        }
    }

    #[tactic(auto, using(crate::proofs::Cases::string_cases))]
    pub fn read_string(self, s: &[u8]) -> ReadPart
        ensures { result ≡ read_string s.now self }
    {
        let why = self.refusal(s.len());
        if why != 0 {
            return ReadPart {
                answer: PartAnswer::Refused(why),
                state: self,
            };
        }
        let end = self.cut(s.len());
        match binary_heads::read_string(&s[..end], self.place, self.limits) {
            PartRead::Refused(why) => ReadPart {
                answer: PartAnswer::Refused(input::missing(why, end, s.len())),
                state: self,
            },
            PartRead::Got(start, place) => {
                let mut next = self;
                next.place = place;
                ReadPart {
                    answer: PartAnswer::Got(start, place),
                    state: next,
                }
            }
        }
    }
}
