// Frames from the radio.
ghost use Rattle.frame.specs.State.{close_of};
ghost use Rattle.frame_rows.specs.Row.{frame_of};
ghost use Rattle.frame_rows.specs.Tell.{ToldFrame, TookFrame, AnnouncedFrame};

use tagrumzil::frames;

#[unsafe(no_mangle)]
pub extern "C" fn tagrumzil_frame_announce(
    row: &mut [u64],
    length: usize,
    depth: u32,
    string: u32,
    container: u32,
    message: u32,
) -> u8
    ensures { AnnouncedFrame row.old row.new length (record { depth = depth; string = string; container = container; message = message }) result }
{
    frames::tagrumzil_frame_announce(row, length, depth, string, container, message)
}

#[unsafe(no_mangle)]
pub extern "C" fn tagrumzil_frame_take(row: &mut [u64], burst: &[u8], used: &mut usize) -> u8
    ensures { TookFrame row.old row.new burst.now used.old used.new result }
{
    frames::tagrumzil_frame_take(row, burst, used)
}

#[unsafe(no_mangle)]
pub extern "C" fn tagrumzil_frame_close(row: &mut [u64], used: &mut usize) -> u8
    ensures { ToldFrame row.old row.new used.old used.new result (close_of (frame_of row.old)) }
{
    frames::tagrumzil_frame_close(row, used)
}
