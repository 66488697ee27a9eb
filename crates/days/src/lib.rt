// A day's messages in one file: a count N, N+1 offsets, the messages. Writer, check, and one message by its number.
#![tactic(auto)]

ghost use Rattle.std.specs.Prelude.{◌≡◌, Bool, true, false, ◌+◌, ◌*◌, ◌≤◌, ◌<◌, length};
ghost use Rattle.std.proofs.lemmas.List.Edits.{sets};
ghost use Rattle.std.proofs.Math.Seq.{slice};
ghost use Rattle.numbers.specs.Fixed.{little, four};
ghost use Rattle.days.specs.Day.{number, check_of, message_of, part_of};
ghost use Rattle.days.specs.Write.{up_to, fitting, header_of, day_wrote, day_put};

use numbers::{Bits32, Wrote};

// How many messages there are, or BAD DAY.
#[derive(Clone, Copy)]
pub enum Checked {
    Count(usize),
    Refused(u8),
}

// Where a message starts and ends in the file, or BAD DAY.
#[derive(Clone, Copy)]
pub enum Part {
    At(usize, usize),
    Refused(u8),
}

// Number k of the header.
fn number_at(file: &[u8], k: usize) -> usize
    requires { 4 * k + 4 ≤ length file.now }
    ensures { (result ≡ number file.now k) × (result < 0x1_0000_0000) }
{
    match numbers::read_le32(file, 4 * k) {
        Bits32::Got(n, _) => n as usize,
        Bits32::Refused(_) => 0,
    }
}

// Whether the file keeps the rules: its number of messages.
pub fn check_day(file: &[u8]) -> Checked
    ensures { result ≡ check_of file.now }
{
    if file.len() < 8 {
        return Checked::Refused(types::BAD_DAY);
    }
    let n = number_at(file, 0);
    if 4096 < n {
        return Checked::Refused(types::BAD_DAY);
    }
    let base = 4 * n + 8;
    if file.len() < base {
        return Checked::Refused(types::BAD_DAY);
    }
    let mut last = number_at(file, 1);
    if last != base {
        return Checked::Refused(types::BAD_DAY);
    }
    let mut i: usize = 0;
    while i < n {
        let next = number_at(file, i + 2);
        if next <= last {
            return Checked::Refused(types::BAD_DAY);
        }
        last = next;
        i = i + 1;
    }
    if last != file.len() {
        return Checked::Refused(types::BAD_DAY);
    }
    Checked::Count(n)
}

// Message k, by its places. The whole file is checked first.
pub fn find_message(file: &[u8], k: usize) -> Part
    ensures { result ≡ message_of file.now k }
{
    match check_day(file) {
        Checked::Count(n) => {
            if n <= k {
                return Part::Refused(types::BAD_DAY);
            }
            let start = number_at(file, k + 1);
            let end = number_at(file, k + 2);
            Part::At(start, end)
        }
        Checked::Refused(why) => Part::Refused(why),
    }
}

// Message k as a part of the lent file: no bytes where it is refused, since no message is empty.
pub fn message(file: &[u8], k: usize) -> &[u8]
    ensures { result.now ≡ part_of file.now (message_of file.now k) }
{
    match find_message(file, k) {
        Part::At(start, end) => &file[start..end],
        Part::Refused(_) => &file[..0],
    }
}

// Whether the ends rise from 0 to the length.
fn ends_rise(ends: &[usize], all: usize) -> bool
    ensures { result ≡ up_to all 0 ends.now }
{
    let mut at: usize = 0;
    let mut i: usize = 0;
    while i < ends.len() {
        let end = ends[i];
        if end <= at {
            return false;
        }
        at = end;
        i = i + 1;
    }
    at == all
}

// Whether the messages make a day.
fn makes_day(bytes: &[u8], ends: &[usize]) -> bool
    ensures { result ≡ fitting bytes.now ends.now }
{
    if 4096 < ends.len() {
        return false;
    }
    if 4294967295 - (4 * ends.len() + 8) < bytes.len() {
        return false;
    }
    ends_rise(ends, bytes.len())
}

// Number k of the header, put.
fn put_number(out: &mut [u8], k: usize, n: usize)
    requires { 4 * k + 4 ≤ length out.old }
    ensures { out.new ≡ sets out.old (4 * k) (four n) }
{
    numbers::write_le32(out, 4 * k, (n % 0x1_0000_0000) as u32);
}

// The header: the count, the first offset, and each end moved behind the header.
fn put_header(out: &mut [u8], bytes: &[u8], ends: &[usize])
    requires { (fitting bytes.now ends.now ≡ true) × (4 * length ends.now + 8 ≤ length out.old) }
    ensures { out.new ≡ sets out.old 0 (header_of ends.now) }
{
    let base = 4 * ends.len() + 8;
    put_number(out, 0, ends.len());
    put_number(out, 1, base);
    let mut i: usize = 0;
    while i < ends.len() {
        put_number(out, i + 2, base + ends[i]);
        i = i + 1;
    }
}

// The day of the messages that stand one behind the other in `bytes`, each up to its end. The answer is the file's length.
pub fn write_day(out: &mut [u8], bytes: &[u8], ends: &[usize]) -> Wrote
    ensures { (result ≡ day_wrote out.old bytes.now ends.now) × (out.new ≡ day_put out.old bytes.now ends.now) }
{
    if makes_day(bytes, ends) {
        let base = 4 * ends.len() + 8;
        if out.len() < base + bytes.len() {
            return Wrote::Refused(types::NO_ROOM);
        }
        put_header(out, bytes, ends);
        return puts::copy(out, base, bytes);
    }
    Wrote::Refused(types::BAD_DAY)
}
