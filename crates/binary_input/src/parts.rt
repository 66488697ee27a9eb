// The parts of the lent bytes: a second call, with the arguments of the first, hands out what that one found; nothing where it was refused.
ghost use Rattle.std.specs.Prelude.{◌≡◌};
ghost use Rattle.binary_input.specs.Calls.{name_part, bytes_part, string_part, uuid_part};

use crate::TBinaryInputProtocol;
use input::{MessageAnswer, PartAnswer};

impl TBinaryInputProtocol {
    #[tactic(auto, using(crate::proofs::Handed::message_parts))]
    pub fn message_name(self, s: &[u8]) -> &[u8]
        ensures { result.now ≡ name_part s.now self }
    {
        let read = self.read_message_begin(s);
        let answer = read.answer;
        match answer {
            MessageAnswer::Got(_, _, start, end) => {
                let a = start.0;
                let e = end.0;
                &s[a..e]
            }
            MessageAnswer::Refused(_) => &s[..0],
        }
    }

    #[tactic(auto, using(crate::proofs::Handed::bytes_parts))]
    pub fn bytes(self, s: &[u8]) -> &[u8]
        ensures { result.now ≡ bytes_part s.now self }
    {
        let read = self.read_bytes(s);
        let answer = read.answer;
        match answer {
            PartAnswer::Got(start, end) => {
                let a = start.0;
                let e = end.0;
                &s[a..e]
            }
            PartAnswer::Refused(_) => &s[..0],
        }
    }

    #[tactic(auto, using(crate::proofs::Handed::string_parts))]
    pub fn string(self, s: &[u8]) -> &[u8]
        ensures { result.now ≡ string_part s.now self }
    {
        let read = self.read_string(s);
        let answer = read.answer;
        match answer {
            PartAnswer::Got(start, end) => {
                let a = start.0;
                let e = end.0;
                &s[a..e]
            }
            PartAnswer::Refused(_) => &s[..0],
        }
    }

    #[tactic(auto, using(crate::proofs::Handed::uuid_parts))]
    pub fn uuid(self, s: &[u8]) -> &[u8]
        ensures { result.now ≡ uuid_part s.now self }
    {
        let read = self.read_uuid(s);
        let answer = read.answer;
        match answer {
            PartAnswer::Got(start, end) => {
                let a = start.0;
                let e = end.0;
                &s[a..e]
            }
            PartAnswer::Refused(_) => &s[..0],
        }
    }
}
