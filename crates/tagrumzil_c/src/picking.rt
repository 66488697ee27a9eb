// The picker.
ghost use Rattle.std.specs.Prelude.{◌≡◌, length};
ghost use Rattle.picker.specs.Pick.{pick_call, picked_rows};
ghost use Rattle.rows.specs.Row.{reader_of};
ghost use Rattle.rows.specs.Reads.{ToldDone};

use tagrumzil::picking;

#[unsafe(no_mangle)]
pub extern "C" fn tagrumzil_pick(
    s: &[u8],
    row: &mut [u64],
    wanted: &[i16],
    kinds: &[u8],
    found: &mut [usize],
) -> u8
    ensures told_done { ToldDone row.old row.new result (pick_call wanted.now kinds.now (length found.old) s.now (reader_of row.old)) }
    ensures found_after { found.new ≡ picked_rows wanted.now kinds.now s.now (reader_of row.old) found.old }
{
    picking::tagrumzil_pick(s, row, wanted, kinds, found)
}
