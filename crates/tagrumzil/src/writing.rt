// The writer's calls, over the row itself: the row is tested, then the arguments and the ceiling, the bytes are put at its place, and it
// moves behind them. The number is 0, or that of a refusal, which leaves row and buffer as they are.
ghost use Rattle.std.specs.Prelude.{◌≡◌, length};
ghost use Rattle.types.specs.Codes.{type_by_number};
ghost use Rattle.types.specs.Refusals.{OUT_OF_TURN};
ghost use Rattle.types.specs.declared.TypeRead.TheVariants as R;
ghost use Rattle.output.specs.State.{unsound, or_else, turn};
ghost use Rattle.output.specs.Calls.{stop_call, bool_call, i8_call, int_call, double_call, uuid_call, bytes_call, string_call};
ghost use Rattle.rows.specs.Row.{writer_of};
ghost use Rattle.rows.specs.Structs.{struct_writer, begin_writes, begin_leaves, end_writes, end_leaves, BegunWrite, EndedWrite};
ghost use Rattle.rows.specs.Writes.{Made, field_by, items_by, pairs_by, pairs_of_types, message_by};

use output::Uuid;
use puts::wrong;
use rows::{row, stops, structs};
use types::{FieldId, MessageTypeRead, SeqNo, TType, TypeRead};
use zigzag::Zigzag;

const IDS: usize = 64;

// A message's header. A type out of 1 to 4 is BAD MESSAGE TYPE. The message is counted from the header's first byte.
pub fn tagrumzil_write_message_begin(
    buf: &mut [u8],
    row: &mut [u64],
    kind: u8,
    sequence: i32,
    name: &[u8],
) -> u8
    ensures { Made row.old row.new buf.old buf.new result (writer_of row.old) (message_by (writer_of row.old) kind (record { 0 = sequence }) name.now) }
{
    let why = row::writer_gate(row, buf.len());
    if why != 0 {
        return why;
    }
    match types::u8_to_message_type(kind) {
        MessageTypeRead::Refused(no) => no,
        MessageTypeRead::Got(message) => {
            let stop = stops::message(row, SeqNo(sequence), name);
            if stop != 0 {
                return stop;
            }
            let at = row::place(row);
            let wrote = puts::message(buf, at, message, SeqNo(sequence), name);
            row::wrote_anew(row, at, wrote)
        }
    }
}

// The struct calls save and restore the last id in a lent row of 64 ids. No byte is written.
pub fn tagrumzil_write_struct_begin(buf: &mut [u8], row: &mut [u64], ids: &mut [i16]) -> u8
    ensures begun_write { BegunWrite row.old row.new ids.old ids.new result (struct_writer row.old ids.old) (begin_writes buf.old (struct_writer row.old ids.old)) }
    ensures buf_after { buf.new ≡ begin_leaves buf.old (struct_writer row.old ids.old) }
{
    if ids.len() != IDS {
        return types::BAD_STATE;
    }
    let why = row::writer_gate(row, buf.len());
    if why != 0 {
        return why;
    }
    let depth = row::number(row, 2);
    if row::deepest(row) <= depth {
        return types::DEPTH;
    }
    structs::save(ids, depth as usize, row::last(row));
    row::put(row, 1, 0);
    row::put(row, 2, depth + 1);
    0
}

pub fn tagrumzil_write_struct_end(buf: &mut [u8], row: &mut [u64], ids: &[i16]) -> u8
    ensures ended_write { EndedWrite row.old row.new ids.now result (end_writes buf.old (struct_writer row.old ids.now)) }
    ensures buf_after { buf.new ≡ end_leaves buf.old (struct_writer row.old ids.now) }
{
    if ids.len() != IDS {
        return types::BAD_STATE;
    }
    let why = row::writer_gate(row, buf.len());
    if why != 0 {
        return why;
    }
    let depth = row::number(row, 2);
    if depth == 0 {
        return types::OUT_OF_TURN;
    }
    let last = structs::saved(ids, (depth - 1) as usize);
    row::put(row, 1, row::id_no(last));
    row::put(row, 2, depth - 1);
    0
}

// A field's header. Stop is no field's type. A bool's header waits for the bool call, which writes it with the value in it: the row notes the id.
pub fn tagrumzil_write_field_begin(buf: &mut [u8], row: &mut [u64], kind: u8, id: i16) -> u8
    ensures { Made row.old row.new buf.old buf.new result (writer_of row.old) (field_by (writer_of row.old) kind (record { 0 = id })) }
{
    let why = row::writer_gate(row, buf.len());
    if why != 0 {
        return why;
    }
    if kind == 0 {
        return types::BAD_TYPE;
    }
    match types::u8_to_type(kind) {
        TypeRead::Refused(no) => no,
        TypeRead::Got(_) => {
            if kind == 1 {
                let turn = row::number(row, 1);
                row::put(row, 1, turn + (row::id_no(id) + 1) * 65536);
                return 0;
            }
            let last = FieldId(row::last(row));
            let stop = stops::field(row, last, FieldId(id), kind);
            if stop != 0 {
                return stop;
            }
            let wrote = puts::field_header(buf, row::place(row), last, FieldId(id), kind);
            row::headed(row, id, wrote)
        }
    }
}

// The byte that ends a struct's fields.
pub fn tagrumzil_write_field_stop(buf: &mut [u8], row: &mut [u64]) -> u8
    ensures { Made row.old row.new buf.old buf.new result (writer_of row.old) (stop_call (writer_of row.old)) }
{
    let why = row::writer_gate(row, buf.len());
    if why != 0 {
        return why;
    }
    let stop = stops::over(row, 1, 0);
    if stop != 0 {
        return stop;
    }
    let wrote = numbers::write_byte(buf, row::place(row), 0);
    row::wrote(row, wrote)
}

// The header of the bool field that waits, behind the row's test. One more than the id's bits is what waits: 65,535 on from there its low
// 16 bits are the id's.
fn waiting_bool(buf: &mut [u8], row: &mut [u64], truth: bool) -> u8
    requires { OUT_OF_TURN ≡ or_else (unsound (length buf.old) (writer_of row.old)) (turn (writer_of row.old).pending.0) }
    ensures { Made row.old row.new buf.old buf.new result (writer_of row.old) (bool_call (writer_of row.old) truth) }
{
    let code = types::bool_to_u8(truth);
    let id = row::id_of(row::number(row, 1) / 65536 + 65535);
    let last = FieldId(row::last(row));
    let stop = stops::field(row, last, FieldId(id), code);
    if stop != 0 {
        return stop;
    }
    let wrote = puts::field_header(buf, row::place(row), last, FieldId(id), code);
    row::headed(row, id, wrote)
}

// An element; or the header of the bool field that waits, which is why any other call is out of turn.
pub fn tagrumzil_write_bool(buf: &mut [u8], row: &mut [u64], truth: bool) -> u8
    ensures { Made row.old row.new buf.old buf.new result (writer_of row.old) (bool_call (writer_of row.old) truth) }
{
    let why = row::writer_gate(row, buf.len());
    if why == types::OUT_OF_TURN {
        return waiting_bool(buf, row, truth);
    }
    if why != 0 {
        return why;
    }
    let stop = stops::over(row, 1, 0);
    if stop != 0 {
        return stop;
    }
    let wrote = numbers::write_byte(buf, row::place(row), types::bool_to_u8(truth));
    row::wrote(row, wrote)
}

pub fn tagrumzil_write_i8(buf: &mut [u8], row: &mut [u64], n: i8) -> u8
    ensures { Made row.old row.new buf.old buf.new result (writer_of row.old) (i8_call (writer_of row.old) n) }
{
    let why = row::writer_gate(row, buf.len());
    if why != 0 {
        return why;
    }
    let stop = stops::over(row, 1, 0);
    if stop != 0 {
        return stop;
    }
    let wrote = numbers::write_byte(buf, row::place(row), n.cast_unsigned());
    row::wrote(row, wrote)
}

pub fn tagrumzil_write_i16(buf: &mut [u8], row: &mut [u64], n: i16) -> u8
    ensures { Made row.old row.new buf.old buf.new result (writer_of row.old) (int_call (writer_of row.old) n) }
{
    let why = row::writer_gate(row, buf.len());
    if why != 0 {
        return why;
    }
    let z = n.to_zigzag();
    let stop = stops::number(row, z as u64);
    if stop != 0 {
        return stop;
    }
    let wrote = numbers::write_varint32(buf, row::place(row), z as u32);
    row::wrote(row, wrote)
}

pub fn tagrumzil_write_i32(buf: &mut [u8], row: &mut [u64], n: i32) -> u8
    ensures { Made row.old row.new buf.old buf.new result (writer_of row.old) (int_call (writer_of row.old) n) }
{
    let why = row::writer_gate(row, buf.len());
    if why != 0 {
        return why;
    }
    let z = n.to_zigzag();
    let stop = stops::number(row, z as u64);
    if stop != 0 {
        return stop;
    }
    let wrote = numbers::write_varint32(buf, row::place(row), z);
    row::wrote(row, wrote)
}

pub fn tagrumzil_write_i64(buf: &mut [u8], row: &mut [u64], n: i64) -> u8
    ensures { Made row.old row.new buf.old buf.new result (writer_of row.old) (int_call (writer_of row.old) n) }
{
    let why = row::writer_gate(row, buf.len());
    if why != 0 {
        return why;
    }
    let z = n.to_zigzag();
    let stop = stops::number(row, z);
    if stop != 0 {
        return stop;
    }
    let wrote = numbers::write_varint64(buf, row::place(row), z);
    row::wrote(row, wrote)
}

// A double, given as its 64 bits.
pub fn tagrumzil_write_double(buf: &mut [u8], row: &mut [u64], bits: u64) -> u8
    ensures { Made row.old row.new buf.old buf.new result (writer_of row.old) (double_call (writer_of row.old) bits) }
{
    let why = row::writer_gate(row, buf.len());
    if why != 0 {
        return why;
    }
    let stop = stops::over(row, 8, 0);
    if stop != 0 {
        return stop;
    }
    let wrote = numbers::write_le64(buf, row::place(row), bits);
    row::wrote(row, wrote)
}

pub fn tagrumzil_write_uuid(buf: &mut [u8], row: &mut [u64], uuid: &Uuid) -> u8
    ensures { Made row.old row.new buf.old buf.new result (writer_of row.old) (uuid_call (writer_of row.old) uuid.now) }
{
    let why = row::writer_gate(row, buf.len());
    if why != 0 {
        return why;
    }
    let stop = stops::plain(row, uuid);
    if stop != 0 {
        return stop;
    }
    let wrote = puts::copy(buf, row::place(row), uuid);
    row::wrote(row, wrote)
}

pub fn tagrumzil_write_bytes(buf: &mut [u8], row: &mut [u64], blob: &[u8]) -> u8
    ensures { Made row.old row.new buf.old buf.new result (writer_of row.old) (bytes_call (writer_of row.old) blob.now) }
{
    let why = row::writer_gate(row, buf.len());
    if why != 0 {
        return why;
    }
    let stop = stops::bytes(row, blob);
    if stop != 0 {
        return stop;
    }
    let wrote = puts::binary(buf, row::place(row), blob);
    row::wrote(row, wrote)
}

// A string: bytes that are not UTF-8 are refused.
pub fn tagrumzil_write_string(buf: &mut [u8], row: &mut [u64], text: &[u8]) -> u8
    ensures { Made row.old row.new buf.old buf.new result (writer_of row.old) (string_call (writer_of row.old) text.now) }
{
    let why = row::writer_gate(row, buf.len());
    if why != 0 {
        return why;
    }
    let stop = stops::string(row, text);
    if stop != 0 {
        return stop;
    }
    let wrote = puts::binary(buf, row::place(row), text);
    row::wrote(row, wrote)
}

// A list's header, and a set's.
fn items_begin(buf: &mut [u8], row: &mut [u64], kind: u8, count: i32) -> u8
    ensures { Made row.old row.new buf.old buf.new result (writer_of row.old) (items_by (writer_of row.old) kind count) }
{
    let why = row::writer_gate(row, buf.len());
    if why != 0 {
        return why;
    }
    match types::u8_to_type(kind) {
        TypeRead::Refused(no) => no,
        TypeRead::Got(element) => {
            let stop = stops::items(row, element, count);
            if stop != 0 {
                return stop;
            }
            let wrote = puts::items(buf, row::place(row), element, wrong::size_of(count));
            row::wrote(row, wrote)
        }
    }
}

#[tactic(auto, using(crate::proofs::Making::items_by_lem))]
pub fn tagrumzil_write_list_begin(buf: &mut [u8], row: &mut [u64], kind: u8, count: i32) -> u8
    ensures { Made row.old row.new buf.old buf.new result (writer_of row.old) (items_by (writer_of row.old) kind count) }
{
    items_begin(buf, row, kind, count)
}

#[tactic(auto, using(crate::proofs::Making::items_by_lem))]
pub fn tagrumzil_write_set_begin(buf: &mut [u8], row: &mut [u64], kind: u8, count: i32) -> u8
    ensures { Made row.old row.new buf.old buf.new result (writer_of row.old) (items_by (writer_of row.old) kind count) }
{
    items_begin(buf, row, kind, count)
}

// A map's header behind the row's test, from its key's type on.
fn pairs_begin(buf: &mut [u8], row: &mut [u64], key: TType, value: u8, count: i32) -> u8
    requires { 0 ≡ or_else (unsound (length buf.old) (writer_of row.old)) (turn (writer_of row.old).pending.0) }
    ensures { Made row.old row.new buf.old buf.new result (writer_of row.old) (pairs_of_types (writer_of row.old) count (R.Got key) (type_by_number value)) }
{
    match types::u8_to_type(value) {
        TypeRead::Refused(no) => no,
        TypeRead::Got(element) => {
            let stop = stops::pairs(row, key, element, count);
            if stop != 0 {
                return stop;
            }
            let wrote = puts::pairs(buf, row::place(row), key, element, wrong::size_of(count));
            row::wrote(row, wrote)
        }
    }
}

// A map's header. An empty map has no types, so the numbers given for them have no say.
pub fn tagrumzil_write_map_begin(
    buf: &mut [u8],
    row: &mut [u64],
    key: u8,
    value: u8,
    count: i32,
) -> u8
    ensures { Made row.old row.new buf.old buf.new result (writer_of row.old) (pairs_by (writer_of row.old) key value count) }
{
    let why = row::writer_gate(row, buf.len());
    if why != 0 {
        return why;
    }
    if count == 0 {
        let stop = stops::over(row, 1, 0);
        if stop != 0 {
            return stop;
        }
        let wrote = numbers::write_byte(buf, row::place(row), 0);
        return row::wrote(row, wrote);
    }
    match types::u8_to_type(key) {
        TypeRead::Refused(no) => no,
        TypeRead::Got(k) => pairs_begin(buf, row, k, value, count),
    }
}
