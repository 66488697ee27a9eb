// Which of a struct's doubles an f32 holds.
ghost use Rattle.std.specs.Prelude.{◌≡◌, length};
ghost use Rattle.doubles.specs.Calls.{counts_call, row_call, answered_row};
ghost use Rattle.rows.specs.Row.{reader_of};
ghost use Rattle.tagrumzil.specs.Single.{ToldCounts, ToldRow};

use tagrumzil::settling;

#[unsafe(no_mangle)]
pub extern "C" fn tagrumzil_f32_counts(
    s: &[u8],
    row: &mut [u64],
    yes: &mut u64,
    no: &mut u64,
    nan: &mut u64,
) -> u8
    ensures { ToldCounts row.old row.new yes.old yes.new no.old no.new nan.old nan.new result (counts_call s.now (reader_of row.old)) }
{
    settling::tagrumzil_f32_counts(s, row, yes, no, nan)
}

#[unsafe(no_mangle)]
pub extern "C" fn tagrumzil_f32_answers(
    s: &[u8],
    row: &mut [u64],
    answers: &mut [u8],
    count: &mut usize,
) -> u8
    ensures told_row { ToldRow row.old row.new count.old count.new result (row_call (length answers.old) s.now (reader_of row.old)) }
    ensures answers_after { answers.new ≡ answered_row s.now (reader_of row.old) answers.old }
{
    settling::tagrumzil_f32_answers(s, row, answers, count)
}
