// The day file: its check, the places of one message, the writer.
ghost use Rattle.std.specs.Prelude.{◌≡◌};
ghost use Rattle.days.specs.Day.{check_of, message_of};
ghost use Rattle.days.specs.Write.{day_wrote, day_put};
ghost use Rattle.tagrumzil.specs.Day.{FoundCount, FoundPart, PutDay};

use days::{Checked, Part};
use numbers::Wrote;

// How many messages the file has.
#[tactic(auto, using(crate::proofs::Daily::daily))]
pub fn tagrumzil_check_day(file: &[u8], count: &mut usize) -> u8
    ensures { FoundCount count.old count.new result (check_of file.now) }
{
    match days::check_day(file) {
        Checked::Count(n) => {
            *count = n;
            0
        }
        Checked::Refused(why) => why,
    }
}

// Where message k starts and ends in the file.
#[tactic(auto, using(crate::proofs::Daily::daily))]
pub fn tagrumzil_day_message(file: &[u8], k: usize, start: &mut usize, end: &mut usize) -> u8
    ensures { FoundPart start.old start.new end.old end.new result (message_of file.now k) }
{
    match days::find_message(file, k) {
        Part::At(a, e) => {
            *start = a;
            *end = e;
            0
        }
        Part::Refused(why) => why,
    }
}

// The file of the messages that stand one behind the other in `bytes`, each up to its end.
pub fn tagrumzil_write_day(out: &mut [u8], bytes: &[u8], ends: &[usize], length: &mut usize) -> u8
    ensures put_day { PutDay length.old length.new result (day_wrote out.old bytes.now ends.now) }
    ensures out_after { out.new ≡ day_put out.old bytes.now ends.now }
{
    match days::write_day(out, bytes, ends) {
        Wrote::To(n) => {
            *length = n;
            0
        }
        Wrote::Refused(why) => why,
    }
}
