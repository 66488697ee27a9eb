// Skip; and the reader's struct calls, which save and restore the last id in a lent row of 64 ids.
ghost use Rattle.std.specs.Prelude.{◌≡◌};
ghost use Rattle.input.specs.Calls.{struct_begin, struct_end};
ghost use Rattle.rows.specs.Row.{reader_of};
ghost use Rattle.rows.specs.Reads.{ToldDone};
ghost use Rattle.rows.specs.Structs.{skip_by, struct_reader, BegunRead, EndedRead};

use rows::{row, structs, told};

const IDS: usize = 64;

// Over one value of the type.
#[tactic(auto, using(crate::proofs::Nesting::skip_through))]
pub fn tagrumzil_skip(s: &[u8], row: &mut [u64], kind: u8) -> u8
    ensures { ToldDone row.old row.new result (skip_by s.now kind (reader_of row.old)) }
{
    let read = structs::skip_by(row::reader_of(row), s, kind);
    told::told_done(row, read)
}

pub fn tagrumzil_read_struct_begin(s: &[u8], row: &mut [u64], ids: &mut [i16]) -> u8
    ensures { BegunRead row.old row.new ids.old ids.new result (struct_reader row.old ids.old) (struct_begin s.now (struct_reader row.old ids.old)) }
{
    if ids.len() != IDS {
        return types::BAD_STATE;
    }
    let why = row::gate(row, s.len());
    if why != 0 {
        return why;
    }
    let depth = row::number(row, 2);
    if row::deepest(row) <= depth {
        return types::DEPTH;
    }
    structs::save(ids, depth as usize, row::last(row));
    row::put(row, 1, 0);
    row::put(row, 2, depth + 1);
    0
}

pub fn tagrumzil_read_struct_end(s: &[u8], row: &mut [u64], ids: &[i16]) -> u8
    ensures { EndedRead row.old row.new ids.now result (struct_end s.now (struct_reader row.old ids.now)) }
{
    if ids.len() != IDS {
        return types::BAD_STATE;
    }
    let why = row::gate(row, s.len());
    if why != 0 {
        return why;
    }
    let depth = row::number(row, 2);
    if depth == 0 {
        return types::OUT_OF_TURN;
    }
    let last = structs::saved(ids, (depth - 1) as usize);
    row::put(row, 1, row::id_no(last));
    row::put(row, 2, depth - 1);
    0
}
