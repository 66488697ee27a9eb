// Skip by a type's number, and what the struct calls do with the lent row of 64 ids.
ghost use Rattle.std.specs.Prelude.{◌≡◌, get_or, set, pos};
ghost use Rattle.rows.specs.Structs.{skip_by};

use input::{DoneAnswer, ReadDone, TCompactInputProtocol};
use types::TypeRead;

#[tactic(auto, using(crate::proofs::Ids::skipping))]
pub fn skip_by(state: TCompactInputProtocol, s: &[u8], kind: u8) -> ReadDone
    ensures { result ≡ skip_by s.now kind state }
{
    match types::u8_to_type(kind) {
        TypeRead::Got(t) => skip::skip(state, s, t),
        TypeRead::Refused(wrong) => {
            let why = state.refusal(s.len());
            if why != 0 {
                return ReadDone {
                    answer: DoneAnswer::Refused(why),
                    state,
                };
            }
            ReadDone {
                answer: DoneAnswer::Refused(wrong),
                state,
            }
        }
    }
}

#[tactic(auto, using(crate::proofs::Ids::saving))]
pub fn save(ids: &mut [i16], depth: usize, last: i16)
    ensures { ids.new ≡ set ids.old depth last }
{
    if depth < ids.len() {
        ids[depth] = last;
    }
}

#[tactic(auto, using(crate::proofs::Ids::saving))]
pub fn saved(ids: &[i16], depth: usize) -> i16
    ensures { result ≡ get_or ids.now depth (pos 0) }
{
    if depth < ids.len() {
        return ids[depth];
    }
    0
}
