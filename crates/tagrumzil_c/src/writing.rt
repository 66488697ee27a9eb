// The writer's calls.
ghost use Rattle.std.specs.Prelude.{◌≡◌};
ghost use Rattle.output.specs.Calls.{stop_call, bool_call, i8_call, int_call, double_call, uuid_call, bytes_call, string_call};
ghost use Rattle.rows.specs.Row.{writer_of};
ghost use Rattle.rows.specs.Structs.{struct_writer, begin_writes, begin_leaves, end_writes, end_leaves, BegunWrite, EndedWrite};
ghost use Rattle.rows.specs.Writes.{Made, field_by, items_by, pairs_by, message_by};

use output::Uuid;
use tagrumzil::writing;

#[unsafe(no_mangle)]
pub extern "C" fn tagrumzil_write_message_begin(
    buf: &mut [u8],
    row: &mut [u64],
    kind: u8,
    sequence: i32,
    name: &[u8],
) -> u8
    ensures { Made row.old row.new buf.old buf.new result (writer_of row.old) (message_by (writer_of row.old) kind (record { 0 = sequence }) name.now) }
{
    writing::tagrumzil_write_message_begin(buf, row, kind, sequence, name)
}

#[unsafe(no_mangle)]
pub extern "C" fn tagrumzil_write_struct_begin(
    buf: &mut [u8],
    row: &mut [u64],
    ids: &mut [i16],
) -> u8
    ensures begun_write { BegunWrite row.old row.new ids.old ids.new result (struct_writer row.old ids.old) (begin_writes buf.old (struct_writer row.old ids.old)) }
    ensures buf_after { buf.new ≡ begin_leaves buf.old (struct_writer row.old ids.old) }
{
    writing::tagrumzil_write_struct_begin(buf, row, ids)
}

#[unsafe(no_mangle)]
pub extern "C" fn tagrumzil_write_struct_end(buf: &mut [u8], row: &mut [u64], ids: &[i16]) -> u8
    ensures ended_write { EndedWrite row.old row.new ids.now result (end_writes buf.old (struct_writer row.old ids.now)) }
    ensures buf_after { buf.new ≡ end_leaves buf.old (struct_writer row.old ids.now) }
{
    writing::tagrumzil_write_struct_end(buf, row, ids)
}

#[unsafe(no_mangle)]
pub extern "C" fn tagrumzil_write_field_begin(
    buf: &mut [u8],
    row: &mut [u64],
    kind: u8,
    id: i16,
) -> u8
    ensures { Made row.old row.new buf.old buf.new result (writer_of row.old) (field_by (writer_of row.old) kind (record { 0 = id })) }
{
    writing::tagrumzil_write_field_begin(buf, row, kind, id)
}

#[unsafe(no_mangle)]
pub extern "C" fn tagrumzil_write_field_stop(buf: &mut [u8], row: &mut [u64]) -> u8
    ensures { Made row.old row.new buf.old buf.new result (writer_of row.old) (stop_call (writer_of row.old)) }
{
    writing::tagrumzil_write_field_stop(buf, row)
}

#[unsafe(no_mangle)]
pub extern "C" fn tagrumzil_write_bool(buf: &mut [u8], row: &mut [u64], truth: bool) -> u8
    ensures { Made row.old row.new buf.old buf.new result (writer_of row.old) (bool_call (writer_of row.old) truth) }
{
    writing::tagrumzil_write_bool(buf, row, truth)
}

#[unsafe(no_mangle)]
pub extern "C" fn tagrumzil_write_i8(buf: &mut [u8], row: &mut [u64], n: i8) -> u8
    ensures { Made row.old row.new buf.old buf.new result (writer_of row.old) (i8_call (writer_of row.old) n) }
{
    writing::tagrumzil_write_i8(buf, row, n)
}

#[unsafe(no_mangle)]
pub extern "C" fn tagrumzil_write_i16(buf: &mut [u8], row: &mut [u64], n: i16) -> u8
    ensures { Made row.old row.new buf.old buf.new result (writer_of row.old) (int_call (writer_of row.old) n) }
{
    writing::tagrumzil_write_i16(buf, row, n)
}

#[unsafe(no_mangle)]
pub extern "C" fn tagrumzil_write_i32(buf: &mut [u8], row: &mut [u64], n: i32) -> u8
    ensures { Made row.old row.new buf.old buf.new result (writer_of row.old) (int_call (writer_of row.old) n) }
{
    writing::tagrumzil_write_i32(buf, row, n)
}

#[unsafe(no_mangle)]
pub extern "C" fn tagrumzil_write_i64(buf: &mut [u8], row: &mut [u64], n: i64) -> u8
    ensures { Made row.old row.new buf.old buf.new result (writer_of row.old) (int_call (writer_of row.old) n) }
{
    writing::tagrumzil_write_i64(buf, row, n)
}

#[unsafe(no_mangle)]
pub extern "C" fn tagrumzil_write_double(buf: &mut [u8], row: &mut [u64], bits: u64) -> u8
    ensures { Made row.old row.new buf.old buf.new result (writer_of row.old) (double_call (writer_of row.old) bits) }
{
    writing::tagrumzil_write_double(buf, row, bits)
}

#[unsafe(no_mangle)]
pub extern "C" fn tagrumzil_write_uuid(buf: &mut [u8], row: &mut [u64], uuid: &Uuid) -> u8
    ensures { Made row.old row.new buf.old buf.new result (writer_of row.old) (uuid_call (writer_of row.old) uuid.now) }
{
    writing::tagrumzil_write_uuid(buf, row, uuid)
}

#[unsafe(no_mangle)]
pub extern "C" fn tagrumzil_write_bytes(buf: &mut [u8], row: &mut [u64], blob: &[u8]) -> u8
    ensures { Made row.old row.new buf.old buf.new result (writer_of row.old) (bytes_call (writer_of row.old) blob.now) }
{
    writing::tagrumzil_write_bytes(buf, row, blob)
}

#[unsafe(no_mangle)]
pub extern "C" fn tagrumzil_write_string(buf: &mut [u8], row: &mut [u64], text: &[u8]) -> u8
    ensures { Made row.old row.new buf.old buf.new result (writer_of row.old) (string_call (writer_of row.old) text.now) }
{
    writing::tagrumzil_write_string(buf, row, text)
}

#[unsafe(no_mangle)]
pub extern "C" fn tagrumzil_write_list_begin(
    buf: &mut [u8],
    row: &mut [u64],
    kind: u8,
    count: i32,
) -> u8
    ensures { Made row.old row.new buf.old buf.new result (writer_of row.old) (items_by (writer_of row.old) kind count) }
{
    writing::tagrumzil_write_list_begin(buf, row, kind, count)
}

#[unsafe(no_mangle)]
pub extern "C" fn tagrumzil_write_set_begin(
    buf: &mut [u8],
    row: &mut [u64],
    kind: u8,
    count: i32,
) -> u8
    ensures { Made row.old row.new buf.old buf.new result (writer_of row.old) (items_by (writer_of row.old) kind count) }
{
    writing::tagrumzil_write_set_begin(buf, row, kind, count)
}

#[unsafe(no_mangle)]
pub extern "C" fn tagrumzil_write_map_begin(
    buf: &mut [u8],
    row: &mut [u64],
    key: u8,
    value: u8,
    count: i32,
) -> u8
    ensures { Made row.old row.new buf.old buf.new result (writer_of row.old) (pairs_by (writer_of row.old) key value count) }
{
    writing::tagrumzil_write_map_begin(buf, row, key, value, count)
}
