// A state in a lent row of six numbers: what a call asks of it and leaves in it, and the whole state where a call needs one.
ghost use Rattle.std.specs.Prelude.{◌≡◌, cond, ◌+◌, ◌-◌, ◌<◌, min, get_or, set, leb, ltb};
ghost use Rattle.std.specs.Int.{w16};
ghost use Rattle.std.proofs.Common.{of_z};
ghost use Rattle.types.specs.Refusals.{OUT_OF_TURN, BAD_STATE};
ghost use Rattle.input.specs.State as I;
ghost use Rattle.output.specs.State as O;
ghost use Rattle.rows.specs.Row.{last_in, turn_of, limits_of, no_limits, awaited_of, awaited_no, reader_of, writer_of, gate_of, reader_in, writer_in, refilled, reader_after, wrote_number, wrote_row, headed_row, begun_row};

use input::{Awaited, Pending, TCompactInputProtocol};
use numbers::Wrote;
use types::{FieldId, Place, TConfiguration};

const NUMBERS: usize = 6;

// What waits stands above the last id's 16 bits: a reader's is below 3, a writer's below 65,537.
const READER_TOP: u64 = 196608;

const WRITER_TOP: u64 = 4295032832;

pub fn number(row: &[u64], i: usize) -> u64
    ensures { result ≡ get_or row.now i 0 }
{
    if i < row.len() {
        return row[i];
    }
    0
}

#[tactic(auto, using(crate::proofs::Cases::numbers))]
pub fn put(row: &mut [u64], i: usize, n: u64)
    ensures { row.new ≡ set row.old i n }
{
    if i < row.len() {
        row[i] = n;
    }
}

pub fn place(row: &[u64]) -> usize
    ensures { result ≡ get_or row.now 0 0 }
{
    number(row, 0) as usize
}

// An id from the low 16 bits of a number, and its bits.
pub fn id_of(n: u64) -> i16
    ensures { result ≡ last_in n }
{
    ((n % 65536) as u16).cast_signed()
}

#[tactic(auto, using(crate::proofs::Cases::ids))]
pub fn id_no(id: i16) -> u64
    ensures { (result ≡ of_z w16 id) × (result < 65536) }
{
    id.cast_unsigned() as u64
}

#[tactic(auto, using(crate::proofs::Cases::ids))]
pub fn last(row: &[u64]) -> i16
    ensures { result ≡ last_in (get_or row.now 1 0) }
{
    id_of(number(row, 1))
}

#[tactic(auto, using(crate::proofs::Cases::limiting))]
pub fn limits(row: &[u64]) -> TConfiguration
    ensures { result ≡ limits_of row.now }
{
    let tops = number(row, 3);
    let sizes = number(row, 4);
    TConfiguration {
        depth: (tops % 4294967296) as usize,
        string: (sizes % 4294967296) as u32,
        container: (sizes / 4294967296) as u32,
        message: (tops / 4294967296) as u32,
    }
}

// The limit on depth, and the ceiling.
pub fn deepest(row: &[u64]) -> u64
    ensures { result ≡ (limits_of row.now).depth }
{
    number(row, 3) % 4294967296
}

pub fn ceiling(row: &[u64]) -> usize
    ensures { result ≡ (limits_of row.now).message }
{
    (number(row, 3) / 4294967296) as usize
}

// Where the message began.
pub fn begin(row: &[u64]) -> usize
    ensures { result ≡ get_or row.now 5 0 }
{
    number(row, 5) as usize
}

// How many bytes the ceiling leaves the message.
pub fn left(row: &[u64]) -> usize
    ensures { result ≡ O.left_of (writer_in row.now) }
{
    let most = ceiling(row);
    let at = place(row);
    let begin = begin(row);
    if at < begin {
        return most;
    }
    let used = at - begin;
    if most < used {
        return 0;
    }
    most - used
}

// How many bytes there are from a place on.
fn ahead(len: usize, at: usize) -> usize
    ensures { result ≡ len - at }
{
    if len < at {
        return 0;
    }
    len - at
}

fn least(a: usize, b: usize) -> usize
    ensures { result ≡ min a b }
{
    if a < b {
        return a;
    }
    b
}

// Where reading ends, of a row that passes: at the input's end, or before it where the message must have ended. It is put together from
// the place on, since so the compiler sees that it lies behind it.
pub fn cut(row: &[u64], len: usize) -> usize
    ensures { result ≡ get_or row.now 0 0 + min (O.left_of (writer_in row.now)) (len - get_or row.now 0 0) }
{
    let at = place(row);
    at + least(left(row), ahead(len, at))
}

// The same of a message that begins here.
pub fn cut_here(row: &[u64], len: usize) -> usize
    ensures { result ≡ min (I.cut_of (I.begun_here (reader_in row.now))) len }
{
    input::cut_at(place(row), ceiling(row), len)
}

// The last two tests of a row: of the bytes that its message has, and of what waits. Nothing waits is asked first, so that the compiler
// makes jumps of the row's tests and not one long sum of truths.
#[tactic(auto, using(crate::proofs::Cases::waitings))]
fn waits(used: u64, message: u64, turn: u64, top: u64) -> u8
    ensures { result ≡ cond (leb used message) (cond (ltb turn 65536) 0 (cond (ltb turn top) OUT_OF_TURN BAD_STATE)) BAD_STATE }
{
    if turn < 65536 {
        if message < used {
            return types::BAD_STATE;
        }
        return 0;
    }
    if message < used {
        return types::BAD_STATE;
    }
    if turn < top {
        return types::OUT_OF_TURN;
    }
    types::BAD_STATE
}

// What a call refuses before it looks at anything else: BAD STATE, then OUT OF TURN; 0 where neither is. `top` is above what number 1 may be.
#[tactic(auto, using(crate::proofs::Cases::gates))]
fn refusal(row: &[u64], len: usize, top: u64) -> u8
    ensures { result ≡ gate_of top len row.now }
{
    if row.len() == NUMBERS {
        let at = row[0];
        let turn = row[1];
        let depth = row[2];
        let tops = row[3];
        let sizes = row[4];
        let begin = row[5];
        let most = tops % 4294967296;
        let message = tops / 4294967296;
        if 64 < most {
            return types::BAD_STATE;
        }
        if 2147483647 < sizes % 4294967296 {
            return types::BAD_STATE;
        }
        if 2147483647 < sizes / 4294967296 {
            return types::BAD_STATE;
        }
        if 2147483647 < message {
            return types::BAD_STATE;
        }
        if (len as u64) < at {
            return types::BAD_STATE;
        }
        if most < depth {
            return types::BAD_STATE;
        }
        if at < begin {
            return types::BAD_STATE;
        }
        return waits(at - begin, message, turn, top);
    }
    types::BAD_STATE
}

#[tactic(auto, using(crate::proofs::Gate::passing))]
pub fn gate(row: &[u64], len: usize) -> u8
    ensures { result ≡ I.gate len (reader_of row.now) }
{
    refusal(row, len, READER_TOP)
}

#[tactic(auto, using(crate::proofs::Gate::passing))]
pub fn writer_gate(row: &[u64], len: usize) -> u8
    ensures { result ≡ O.or_else (O.unsound len (writer_of row.now)) (O.turn (writer_of row.now).pending.0) }
{
    refusal(row, len, WRITER_TOP)
}

// Behind a header, with its last id and what waits.
#[tactic(auto, using(crate::proofs::Cases::heading))]
pub fn head(row: &mut [u64], at: usize, id: i16, waits: u8)
    ensures { row.new ≡ set (set row.old 0 at) 1 (turn_of id waits) }
{
    put(row, 0, at as u64);
    put(row, 1, id_no(id) + (waits as u64) * 65536);
}

// Behind a message's header, which began at `from`: the last id is 0.
#[tactic(auto, using(crate::proofs::Cases::begun_put))]
pub fn begun(row: &mut [u64], from: usize, at: usize)
    ensures { row.new ≡ set (set (set row.old 0 at) 1 0) 5 from }
{
    put(row, 0, at as u64);
    put(row, 1, 0);
    put(row, 5, from as u64);
}

// What was written, told: the row moves behind it, or stays where it was refused.
#[tactic(auto, using(crate::proofs::Cases::writings))]
pub fn wrote(row: &mut [u64], wrote: Wrote) -> u8
    ensures { (result ≡ wrote_number wrote) × (row.new ≡ wrote_row row.old wrote) }
{
    match wrote {
        Wrote::To(p) => {
            put(row, 0, p as u64);
            0
        }
        Wrote::Refused(why) => why,
    }
}

// The same of a field's header, whose id is the last one from then on.
#[tactic(auto, using(crate::proofs::Cases::writings))]
pub fn headed(row: &mut [u64], id: i16, wrote: Wrote) -> u8
    ensures { (result ≡ wrote_number wrote) × (row.new ≡ headed_row row.old id wrote) }
{
    match wrote {
        Wrote::To(p) => {
            put(row, 0, p as u64);
            put(row, 1, id_no(id));
            0
        }
        Wrote::Refused(why) => why,
    }
}

// The same of a message's header, which began at `from`.
#[tactic(auto, using(crate::proofs::Cases::writings))]
pub fn wrote_anew(row: &mut [u64], from: usize, wrote: Wrote) -> u8
    ensures { (result ≡ wrote_number wrote) × (row.new ≡ begun_row row.old from wrote) }
{
    match wrote {
        Wrote::To(p) => {
            put(row, 0, p as u64);
            put(row, 5, from as u64);
            0
        }
        Wrote::Refused(why) => why,
    }
}

#[tactic(auto, using(crate::proofs::Cases::tests), unfolding(crate::specs::Row::awaited_of))]
fn awaited_of(n: u64) -> Awaited
    ensures { result ≡ awaited_of n }
{
    if n == 0 {
        return Awaited::Nothing;
    }
    Awaited::Truth(n == 1)
}

fn awaited_no(awaited: Awaited) -> u64
    ensures { (result ≡ awaited_no awaited) × (result < 65537) }
{
    match awaited {
        Awaited::Nothing => 0,
        Awaited::Truth(truth) => types::bool_to_u8(truth) as u64,
    }
}

fn no_limits() -> TConfiguration
    ensures { result ≡ no_limits }
{
    TConfiguration {
        depth: 65,
        string: 0,
        container: 0,
        message: 0,
    }
}

#[tactic(auto, using(crate::proofs::Cases::readers))]
pub fn reader_of(row: &[u64]) -> TCompactInputProtocol
    ensures { result ≡ reader_of row.now }
{
    if row.len() != NUMBERS {
        return TCompactInputProtocol::new(no_limits());
    }
    let turn = row[1];
    if READER_TOP <= turn {
        return TCompactInputProtocol::new(no_limits());
    }
    let at = row[0] as usize;
    let depth = row[2] as usize;
    let begin = row[5] as usize;
    TCompactInputProtocol {
        place: Place(at),
        last: FieldId(id_of(turn)),
        depth,
        ids: [0; 64],
        pending: Pending(awaited_of(turn / 65536)),
        limits: limits(row),
        begin: Place(begin),
    }
}

#[tactic(auto, using(crate::proofs::Cases::refills))]
fn refill(row: &mut [u64], at: usize, last: i16, depth: usize, waits: u64, begin: usize)
    requires { waits < 65537 }
    ensures { row.new ≡ refilled row.old at last depth waits begin }
{
    if row.len() == NUMBERS {
        row[0] = at as u64;
        row[1] = id_no(last) + waits * 65536;
        row[2] = depth as u64;
        row[5] = begin as u64;
    }
}

// The number as it is; where it is 0 the row holds the state from now on.
pub fn keep_reader(row: &mut [u64], why: u8, state: TCompactInputProtocol) -> u8
    ensures { (result ≡ why) × (row.new ≡ reader_after row.old why state) }
{
    if why == 0 {
        let pending = state.pending;
        let awaited = pending.0;
        let at = state.place.0;
        let last = state.last.0;
        let begin = state.begin.0;
        refill(row, at, last, state.depth, awaited_no(awaited), begin);
    }
    why
}
