// Skip, and the reader's struct calls.
ghost use Rattle.input.specs.Calls.{struct_begin, struct_end};
ghost use Rattle.rows.specs.Row.{reader_of};
ghost use Rattle.rows.specs.Reads.{ToldDone};
ghost use Rattle.rows.specs.Structs.{skip_by, struct_reader, BegunRead, EndedRead};

use tagrumzil::nested;

#[unsafe(no_mangle)]
pub extern "C" fn tagrumzil_skip(s: &[u8], row: &mut [u64], kind: u8) -> u8
    ensures { ToldDone row.old row.new result (skip_by s.now kind (reader_of row.old)) }
{
    nested::tagrumzil_skip(s, row, kind)
}

#[unsafe(no_mangle)]
pub extern "C" fn tagrumzil_read_struct_begin(s: &[u8], row: &mut [u64], ids: &mut [i16]) -> u8
    ensures { BegunRead row.old row.new ids.old ids.new result (struct_reader row.old ids.old) (struct_begin s.now (struct_reader row.old ids.old)) }
{
    nested::tagrumzil_read_struct_begin(s, row, ids)
}

#[unsafe(no_mangle)]
pub extern "C" fn tagrumzil_read_struct_end(s: &[u8], row: &mut [u64], ids: &[i16]) -> u8
    ensures { EndedRead row.old row.new ids.now result (struct_end s.now (struct_reader row.old ids.now)) }
{
    nested::tagrumzil_read_struct_end(s, row, ids)
}
