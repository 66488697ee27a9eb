// The reader's calls.
ghost use Rattle.input.specs.Calls.{read_message, read_field, read_bool, read_i8, read_i16, read_i32, read_i64, read_double, read_uuid, read_bytes, read_string, read_list, read_set, read_map};
ghost use Rattle.rows.specs.Row.{reader_of};
ghost use Rattle.rows.specs.Reads.{ToldBool, ToldI8, ToldI16, ToldI32, ToldI64, ToldDouble, ToldPart, ToldList, ToldMap, ToldField, ToldMessage};

use tagrumzil::reading;

#[unsafe(no_mangle)]
pub extern "C" fn tagrumzil_read_message_begin(
    s: &[u8],
    row: &mut [u64],
    kind: &mut u8,
    sequence: &mut i32,
    start: &mut usize,
    end: &mut usize,
) -> u8
    ensures { ToldMessage row.old row.new kind.old kind.new sequence.old sequence.new start.old start.new end.old end.new result (read_message s.now (reader_of row.old)) }
{
    reading::tagrumzil_read_message_begin(s, row, kind, sequence, start, end)
}

#[unsafe(no_mangle)]
pub extern "C" fn tagrumzil_read_field_begin(
    s: &[u8],
    row: &mut [u64],
    kind: &mut u8,
    id: &mut i16,
) -> u8
    ensures { ToldField row.old row.new kind.old kind.new id.old id.new result (read_field s.now (reader_of row.old)) }
{
    reading::tagrumzil_read_field_begin(s, row, kind, id)
}

#[unsafe(no_mangle)]
pub extern "C" fn tagrumzil_read_bool(s: &[u8], row: &mut [u64], value: &mut bool) -> u8
    ensures { ToldBool row.old row.new value.old value.new result (read_bool s.now (reader_of row.old)) }
{
    reading::tagrumzil_read_bool(s, row, value)
}

#[unsafe(no_mangle)]
pub extern "C" fn tagrumzil_read_i8(s: &[u8], row: &mut [u64], value: &mut i8) -> u8
    ensures { ToldI8 row.old row.new value.old value.new result (read_i8 s.now (reader_of row.old)) }
{
    reading::tagrumzil_read_i8(s, row, value)
}

#[unsafe(no_mangle)]
pub extern "C" fn tagrumzil_read_i16(s: &[u8], row: &mut [u64], value: &mut i16) -> u8
    ensures { ToldI16 row.old row.new value.old value.new result (read_i16 s.now (reader_of row.old)) }
{
    reading::tagrumzil_read_i16(s, row, value)
}

#[unsafe(no_mangle)]
pub extern "C" fn tagrumzil_read_i32(s: &[u8], row: &mut [u64], value: &mut i32) -> u8
    ensures { ToldI32 row.old row.new value.old value.new result (read_i32 s.now (reader_of row.old)) }
{
    reading::tagrumzil_read_i32(s, row, value)
}

#[unsafe(no_mangle)]
pub extern "C" fn tagrumzil_read_i64(s: &[u8], row: &mut [u64], value: &mut i64) -> u8
    ensures { ToldI64 row.old row.new value.old value.new result (read_i64 s.now (reader_of row.old)) }
{
    reading::tagrumzil_read_i64(s, row, value)
}

#[unsafe(no_mangle)]
pub extern "C" fn tagrumzil_read_double(s: &[u8], row: &mut [u64], bits: &mut u64) -> u8
    ensures { ToldDouble row.old row.new bits.old bits.new result (read_double s.now (reader_of row.old)) }
{
    reading::tagrumzil_read_double(s, row, bits)
}

#[unsafe(no_mangle)]
pub extern "C" fn tagrumzil_read_uuid(
    s: &[u8],
    row: &mut [u64],
    start: &mut usize,
    end: &mut usize,
) -> u8
    ensures { ToldPart row.old row.new start.old start.new end.old end.new result (read_uuid s.now (reader_of row.old)) }
{
    reading::tagrumzil_read_uuid(s, row, start, end)
}

#[unsafe(no_mangle)]
pub extern "C" fn tagrumzil_read_bytes(
    s: &[u8],
    row: &mut [u64],
    start: &mut usize,
    end: &mut usize,
) -> u8
    ensures { ToldPart row.old row.new start.old start.new end.old end.new result (read_bytes s.now (reader_of row.old)) }
{
    reading::tagrumzil_read_bytes(s, row, start, end)
}

#[unsafe(no_mangle)]
pub extern "C" fn tagrumzil_read_string(
    s: &[u8],
    row: &mut [u64],
    start: &mut usize,
    end: &mut usize,
) -> u8
    ensures { ToldPart row.old row.new start.old start.new end.old end.new result (read_string s.now (reader_of row.old)) }
{
    reading::tagrumzil_read_string(s, row, start, end)
}

#[unsafe(no_mangle)]
pub extern "C" fn tagrumzil_read_list_begin(
    s: &[u8],
    row: &mut [u64],
    kind: &mut u8,
    count: &mut u32,
) -> u8
    ensures { ToldList row.old row.new kind.old kind.new count.old count.new result (read_list s.now (reader_of row.old)) }
{
    reading::tagrumzil_read_list_begin(s, row, kind, count)
}

#[unsafe(no_mangle)]
pub extern "C" fn tagrumzil_read_set_begin(
    s: &[u8],
    row: &mut [u64],
    kind: &mut u8,
    count: &mut u32,
) -> u8
    ensures { ToldList row.old row.new kind.old kind.new count.old count.new result (read_set s.now (reader_of row.old)) }
{
    reading::tagrumzil_read_set_begin(s, row, kind, count)
}

#[unsafe(no_mangle)]
pub extern "C" fn tagrumzil_read_map_begin(
    s: &[u8],
    row: &mut [u64],
    key: &mut u8,
    value: &mut u8,
    count: &mut u32,
) -> u8
    ensures { ToldMap row.old row.new key.old key.new value.old value.new count.old count.new result (read_map s.now (reader_of row.old)) }
{
    reading::tagrumzil_read_map_begin(s, row, key, value, count)
}
