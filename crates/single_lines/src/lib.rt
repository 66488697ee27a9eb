// What is said of a message's doubles, into a lent buffer at a place: as much as fits, as in `text`.
#![tactic(auto)]

ghost use Rattle.std.specs.Prelude.{◌≡◌};
ghost use Rattle.input.specs.State.{fresh};
ghost use Rattle.text.specs.Pen.{inked};
ghost use Rattle.doubles.specs.Calls.{counts_call};
ghost use Rattle.single_lines.specs.Told.{counts_line, struct_line, limits, singles_text};

use doubles::CountsAnswer;
use input::{MessageAnswer, TCompactInputProtocol};
use single::Counts;
use types::TConfiguration;

// The longest name, string or container, and the ceiling: the printing program's.
const MOST_SIZE: u32 = 65_536;

// The most bytes of a message, as the printing program has it.
const MOST_BYTES: usize = 65_536;

fn reader() -> TCompactInputProtocol
    ensures { result ≡ fresh limits }
{
    TCompactInputProtocol::new(TConfiguration {
        depth: TConfiguration::MAX_DEPTH,
        string: MOST_SIZE,
        container: MOST_SIZE,
        message: MOST_SIZE,
    })
}

#[tactic(auto, using(crate::proofs::Rows::counts_text))]
fn put_counts(out: &mut [u8], to: usize, counts: Counts) -> usize
    ensures { (out.new, result) ≡ inked (counts_line counts) (out.old, to) }
{
    let a = text::put_word(out, to, b"yes ");
    let b = text::put_decimal(out, a, counts.yes);
    let c = text::put_word(out, b, b" no ");
    let d = text::put_decimal(out, c, counts.no);
    let e = text::put_word(out, d, b" nan ");
    let f = text::put_decimal(out, e, counts.nan);
    text::put_word(out, f, b"\n")
}

// What is said of the struct at a reader's place.
pub fn put_struct(out: &mut [u8], to: usize, state: TCompactInputProtocol, s: &[u8]) -> usize
    ensures { (out.new, result) ≡ inked (struct_line (counts_call s.now state).answer) (out.old, to) }
{
    let read = doubles::f32_counts(state, s);
    let answer = read.answer;
    match answer {
        CountsAnswer::Got(counts) => put_counts(out, to, counts),
        CountsAnswer::Refused(why) => lines::put_refusal(out, to, why),
    }
}

// What is said of a message: its header is read, and the doubles of its struct are counted.
pub fn put_singles(out: &mut [u8], to: usize, s: &[u8]) -> usize
    ensures { (out.new, result) ≡ inked (singles_text s.now) (out.old, to) }
{
    if MOST_BYTES < s.len() {
        return lines::put_refusal(out, to, types::NO_ROOM);
    }
    let read = reader().read_message_begin(s);
    let answer = read.answer;
    let next = read.state;
    match answer {
        MessageAnswer::Got(_, _, _, _) => put_struct(out, to, next, s),
        MessageAnswer::Refused(why) => lines::put_refusal(out, to, why),
    }
}
