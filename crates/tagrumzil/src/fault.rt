// Where and why the struct at a reader's place is refused.
ghost use Rattle.std.specs.Prelude.{◌≡◌, length};
ghost use Rattle.faults.specs.Fault.{why_call, why_row};
ghost use Rattle.rows.specs.Row.{reader_of};
ghost use Rattle.tagrumzil.specs.Fault.{ToldFault};

use faults::Verdict;
use rows::row;

// 0 and the place behind the struct; or the number, the offset and how many steps the path has, which stand in `path`, two numbers
// each. The row stays.
pub fn tagrumzil_why(
    s: &[u8],
    row: &[u64],
    path: &mut [i64],
    offset: &mut usize,
    steps: &mut usize,
) -> u8
    ensures told_fault { ToldFault offset.new steps.new result (why_call (length path.old) s.now (reader_of row.now)) }
    ensures path_after { path.new ≡ why_row s.now (reader_of row.now) path.old }
{
    match faults::why(row::reader_of(row), s, path) {
        Verdict::Accepted(end) => {
            *offset = end.0;
            *steps = 0;
            0
        }
        Verdict::Refused(why, at, count) => {
            *offset = at;
            *steps = count;
            why
        }
    }
}
