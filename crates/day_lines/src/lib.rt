// The line of one message of a day file, into a lent buffer at a place: as much as fits, as in `text`.
#![tactic(auto)]

ghost use Rattle.std.specs.Prelude.{◌≡◌};
ghost use Rattle.input.specs.State.{fresh};
ghost use Rattle.text.specs.Pen.{inked};
ghost use Rattle.lines.specs.Lines.{line};
ghost use Rattle.day_lines.specs.Listed.{limits, head_item, spaced, day_line};

use days::Part;
use input::{MessageAnswer, TCompactInputProtocol};
use types::TConfiguration;

// The longest name that is listed, and the ceiling: the printing program's.
const MOST_SIZE: u32 = 65_536;

fn reader() -> TCompactInputProtocol
    ensures { result ≡ fresh limits }
{
    TCompactInputProtocol::new(TConfiguration {
        depth: TConfiguration::MAX_DEPTH,
        string: MOST_SIZE,
        container: MOST_SIZE,
        message: MOST_SIZE,
    })
}

// A message's header, or why it is refused. Nothing behind the header is looked at.
fn put_head(out: &mut [u8], to: usize, bytes: &[u8]) -> usize
    ensures { (out.new, result) ≡ inked (line (head_item bytes.now)) (out.old, to) }
{
    let state = reader();
    let read = state.read_message_begin(bytes);
    let answer = read.answer;
    match answer {
        MessageAnswer::Got(kind, sequence, _, _) => {
            let name = state.message_name(bytes);
            lines::put_message(out, to, kind, sequence, name)
        }
        MessageAnswer::Refused(why) => lines::put_refusal(out, to, why),
    }
}

// A number, and a space behind it.
fn put_number(out: &mut [u8], to: usize, n: usize) -> usize
    ensures { (out.new, result) ≡ inked (spaced n) (out.old, to) }
{
    let a = text::put_decimal(out, to, n as u64);
    text::put_word(out, a, b" ")
}

// The line of message k; where there is none, the line of BAD DAY.
pub fn put_line(out: &mut [u8], to: usize, file: &[u8], k: usize) -> usize
    ensures { (out.new, result) ≡ inked (day_line file.now k) (out.old, to) }
{
    match days::find_message(file, k) {
        Part::At(start, _) => {
            let bytes = days::message(file, k);
            let a = put_number(out, to, k);
            let b = put_number(out, a, start);
            let c = put_number(out, b, bytes.len());
            put_head(out, c, bytes)
        }
        Part::Refused(why) => lines::put_refusal(out, to, why),
    }
}
