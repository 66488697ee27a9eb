// The day file: its check, the places of one message, the writer.
ghost use Rattle.std.specs.Prelude.{◌≡◌};
ghost use Rattle.days.specs.Day.{check_of, message_of};
ghost use Rattle.days.specs.Write.{day_wrote, day_put};
ghost use Rattle.tagrumzil.specs.Day.{FoundCount, FoundPart, PutDay};

use tagrumzil::day;

#[unsafe(no_mangle)]
pub extern "C" fn tagrumzil_check_day(file: &[u8], count: &mut usize) -> u8
    ensures { FoundCount count.old count.new result (check_of file.now) }
{
    day::tagrumzil_check_day(file, count)
}

#[unsafe(no_mangle)]
pub extern "C" fn tagrumzil_day_message(
    file: &[u8],
    k: usize,
    start: &mut usize,
    end: &mut usize,
) -> u8
    ensures { FoundPart start.old start.new end.old end.new result (message_of file.now k) }
{
    day::tagrumzil_day_message(file, k, start, end)
}

#[unsafe(no_mangle)]
pub extern "C" fn tagrumzil_write_day(
    out: &mut [u8],
    bytes: &[u8],
    ends: &[usize],
    length: &mut usize,
) -> u8
    ensures put_day { PutDay length.old length.new result (day_wrote out.old bytes.now ends.now) }
    ensures out_after { out.new ≡ day_put out.old bytes.now ends.now }
{
    day::tagrumzil_write_day(out, bytes, ends, length)
}
