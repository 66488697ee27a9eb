// What stops a writer's call behind the row's own test: what its arguments show, and then MESSAGE SIZE, where its bytes pass the ceiling.
ghost use Rattle.std.specs.Prelude.{◌≡◌, ◌+◌, ◌%◌, length};
ghost use Rattle.std.specs.Int.{w32};
ghost use Rattle.std.proofs.Common.{of_z};
ghost use Rattle.numbers.specs.Varint.{fewest};
ghost use Rattle.puts.specs.Bytes.{above, field_bytes, items_bytes, pairs_bytes, string_bytes};
ghost use Rattle.puts.specs.Wrong.{or_else, length_wrong, text_wrong, count_wrong};
ghost use Rattle.output.specs.State as O;
ghost use Rattle.output.specs.Calls.{size_wrong};
ghost use Rattle.rows.specs.Row.{limits_of, writer_in};

use crate::row;
use puts::wrong;
use types::{FieldId, SeqNo, TType};

// A number or a header takes fewer bytes than this, so that it is measured near the ceiling only.
const AMPLE: usize = 16;

// The bytes are counted in two parts, since a string's length and that of its varint could wrap.
#[tactic(auto, using(crate::proofs::Sizes::overs))]
pub fn over(row: &[u64], head: usize, body: usize) -> u8
    ensures { result ≡ size_wrong (writer_in row.now) (head + body) }
{
    let left = row::left(row);
    if left < head {
        return types::MESSAGE_SIZE;
    }
    if left - head < body {
        return types::MESSAGE_SIZE;
    }
    0
}

#[tactic(auto, using(crate::proofs::Sizes::sizes))]
pub fn plain(row: &[u64], bytes: &[u8]) -> u8
    ensures { result ≡ size_wrong (writer_in row.now) (length bytes.now) }
{
    over(row, 0, bytes.len())
}

pub fn number(row: &[u64], n: u64) -> u8
    ensures { result ≡ size_wrong (writer_in row.now) (length (fewest n)) }
{
    if AMPLE <= row::left(row) {
        return 0;
    }
    over(row, numbers::varint_len(n), 0)
}

#[tactic(auto, using(crate::proofs::Sizes::sizes))]
pub fn field(row: &[u64], last: FieldId, id: FieldId, code: u8) -> u8
    ensures { result ≡ size_wrong (writer_in row.now) (length (field_bytes last.0 id.0 (code % 16))) }
{
    if AMPLE <= row::left(row) {
        return 0;
    }
    over(row, puts::field_len(last, id, code), 0)
}

#[tactic(auto, using(crate::proofs::Sizes::sizes))]
fn items_size(row: &[u64], kind: TType, count: u32) -> u8
    ensures { result ≡ size_wrong (writer_in row.now) (length (items_bytes kind count)) }
{
    if AMPLE <= row::left(row) {
        return 0;
    }
    over(row, puts::items_len(kind, count), 0)
}

#[tactic(auto, using(crate::proofs::Sizes::sizes))]
fn pairs_size(row: &[u64], key: TType, value: TType, count: u32) -> u8
    ensures { result ≡ size_wrong (writer_in row.now) (length (pairs_bytes key value count)) }
{
    if AMPLE <= row::left(row) {
        return 0;
    }
    over(row, puts::pairs_len(key, value, count), 0)
}

#[tactic(auto, using(crate::proofs::Sizes::counts))]
pub fn items(row: &[u64], kind: TType, count: i32) -> u8
    ensures { result ≡ or_else (count_wrong (limits_of row.now) kind kind count) (size_wrong (writer_in row.now) (length (items_bytes kind (above count)))) }
{
    let why = wrong::count_refusal(kind, kind, count, row::limits(row));
    if why != 0 {
        return why;
    }
    items_size(row, kind, wrong::size_of(count))
}

#[tactic(auto, using(crate::proofs::Sizes::counts))]
pub fn pairs(row: &[u64], key: TType, value: TType, count: i32) -> u8
    ensures { result ≡ or_else (count_wrong (limits_of row.now) key value count) (size_wrong (writer_in row.now) (length (pairs_bytes key value (above count)))) }
{
    let why = wrong::count_refusal(key, value, count, row::limits(row));
    if why != 0 {
        return why;
    }
    pairs_size(row, key, value, wrong::size_of(count))
}

#[tactic(auto, using(crate::proofs::Sizes::strings))]
pub fn bytes(row: &[u64], blob: &[u8]) -> u8
    ensures { result ≡ or_else (length_wrong (limits_of row.now) blob.now) (size_wrong (writer_in row.now) (length (string_bytes blob.now))) }
{
    let why = wrong::length_refusal(blob, row::limits(row));
    if why != 0 {
        return why;
    }
    over(row, numbers::varint_len(blob.len() as u64), blob.len())
}

#[tactic(auto, using(crate::proofs::Sizes::strings))]
pub fn string(row: &[u64], text: &[u8]) -> u8
    ensures { result ≡ or_else (text_wrong (limits_of row.now) text.now) (size_wrong (writer_in row.now) (length (string_bytes text.now))) }
{
    let why = wrong::text_refusal(text, row::limits(row));
    if why != 0 {
        return why;
    }
    over(row, numbers::varint_len(text.len() as u64), text.len())
}

// A message is counted from its own first byte.
#[tactic(auto, using(crate::proofs::Sizes::anews))]
fn over_anew(row: &[u64], head: usize, body: usize) -> u8
    ensures { result ≡ size_wrong (O.begun_here (writer_in row.now)) (head + body) }
{
    let most = row::ceiling(row);
    if most < head {
        return types::MESSAGE_SIZE;
    }
    if most - head < body {
        return types::MESSAGE_SIZE;
    }
    0
}

#[tactic(auto, using(crate::proofs::Sizes::messages))]
pub fn message(row: &[u64], sequence: SeqNo, name: &[u8]) -> u8
    ensures { result ≡ or_else (text_wrong (limits_of row.now) name.now) (size_wrong (O.begun_here (writer_in row.now)) (2 + length (fewest (of_z w32 sequence.0)) + length (fewest (length name.now)) + length name.now)) }
{
    let why = wrong::text_refusal(name, row::limits(row));
    if why != 0 {
        return why;
    }
    over_anew(row, puts::message_head(sequence, name), name.len())
}
