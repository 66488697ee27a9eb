// What is said of a fault, into a lent buffer at a place: as much as fits, as in `text`. The first line is for machines; the lines
// below it, where they are wanted, are for people.
#![tactic(auto)]

ghost use Rattle.std.specs.Prelude.{◌≡◌, [], ◌-◌, ◌*◌, ◌≤◌, length};
ghost use Rattle.input.specs.State.{fresh};
ghost use Rattle.text.specs.Pen.{inked};
ghost use Rattle.text.specs.Words.{ascii};
ghost use Rattle.faults.specs.Fault.{accepted, fault, faults};
ghost use Rattle.fault_lines.specs.Row.{kind_word, row_words};
ghost use Rattle.fault_lines.specs.Told.{refused_at, fault_line, words_of, name_of, spaced_hex, own_hex, around, below_of, struct_text, head_text, limits, long_text, fault_text, day_fault};

use days::Part;
use faults::Verdict;
use input::TCompactInputProtocol;
use types::TConfiguration;

// The longest name, string or container, and the ceiling: the printing program's.
const MOST_SIZE: u32 = 65_536;

// The most bytes of a message, as the printing program has it.
const MOST_BYTES: usize = 65_536;

// Two numbers for each step of a path, of which there are at most 64.
fn row_room() -> [i64; 128]
    ensures { 128 ≡ length result }
{
    [0; 128]
}

fn reader() -> TCompactInputProtocol
    ensures { result ≡ fresh limits }
{
    TCompactInputProtocol::new(TConfiguration {
        depth: TConfiguration::MAX_DEPTH,
        string: MOST_SIZE,
        container: MOST_SIZE,
        message: MOST_SIZE,
    })
}

fn wide(b: u8) -> u64
    ensures { result ≡ b }
{
    b as u64
}

// A step's word, by the first of its two numbers.
fn put_kind(out: &mut [u8], to: usize, kind: i64) -> usize
    ensures { (out.new, result) ≡ inked (kind_word kind) (out.old, to) }
{
    if kind == 0 {
        return text::put_word(out, to, b"field ");
    }
    if kind == 1 {
        return text::put_word(out, to, b"element ");
    }
    if kind == 2 {
        return text::put_word(out, to, b"key ");
    }
    text::put_word(out, to, b"value ")
}

// The steps, from outside in, with something before each.
fn put_steps(out: &mut [u8], to: usize, before: &[u8], row: &[i64], steps: usize) -> usize
    requires { 2 * steps ≤ length row.now }
    ensures { (out.new, result) ≡ inked (row_words before.now steps row.now) (out.old, to) }
{
    let mut p = to;
    let mut k: usize = 0;
    while k < steps {
        let kind = row[2 * k];
        let number = row[2 * k + 1];
        p = text::put_word(out, p, before);
        p = put_kind(out, p, kind);
        p = text::put_int(out, p, number);
        k = k + 1;
    }
    p
}

// `refused NUMBER at OFFSET`; the path and the line's end follow.
fn put_number(out: &mut [u8], to: usize, why: u8, offset: usize) -> usize
    ensures { (out.new, result) ≡ inked (refused_at why offset) (out.old, to) }
{
    let a = text::put_word(out, to, b"refused ");
    let b = text::put_decimal(out, a, wide(why));
    let c = text::put_word(out, b, b" at ");
    text::put_decimal(out, c, offset as u64)
}

fn put_accepted(out: &mut [u8], to: usize, used: usize) -> usize
    ensures { (out.new, result) ≡ inked (fault_line (accepted used)) (out.old, to) }
{
    let a = text::put_word(out, to, b"accepted ");
    let b = text::put_decimal(out, a, used as u64);
    text::put_word(out, b, b"\n")
}

// The line of a refusal that has no path.
fn put_refused(out: &mut [u8], to: usize, why: u8, offset: usize) -> usize
    ensures { (out.new, result) ≡ inked (fault_line (fault why offset [])) (out.old, to) }
{
    let a = put_number(out, to, why, offset);
    text::put_word(out, a, b"\n")
}

// A refusal's name and sentence.
fn put_words(out: &mut [u8], to: usize, why: u8) -> usize
    ensures { (out.new, result) ≡ inked (words_of why) (out.old, to) }
{
    match why {
        0 => text::put_word(out, to, b"UNKNOWN"),
        1 => text::put_word(
            out,
            to,
            b"END: a byte needed lies past the input, or a container's elements can't be in what is left of it",
        ),
        2 => text::put_word(
            out,
            to,
            b"BAD VERSION: the first message byte is not 0x82, or the version is not 1",
        ),
        3 => text::put_word(out, to, b"BAD MESSAGE TYPE: a message type out of 1 to 4"),
        4 => text::put_word(
            out,
            to,
            b"BAD TYPE: a code without a type, or Stop where a value's type is asked",
        ),
        5 => text::put_word(out, to, b"BAD BOOL: an element bool is not 0, 1 or 2"),
        6 => text::put_word(
            out,
            to,
            b"LONG VARINT: a varint of more bytes than its width allows",
        ),
        7 => text::put_word(
            out,
            to,
            b"FIELD ID: the last id plus the delta is over 32767",
        ),
        8 => text::put_word(out, to, b"SIZE LIMIT: a length or count over its limit"),
        9 => text::put_word(out, to, b"NEGATIVE SIZE: a count below 0"),
        10 => text::put_word(
            out,
            to,
            b"DEPTH: a struct or a container beyond the depth limit",
        ),
        11 => text::put_word(
            out,
            to,
            b"BAD UTF-8: a string or a message name that is not UTF-8",
        ),
        12 => text::put_word(out, to, b"OUT OF TURN: a bool waits for the bool call"),
        13 => text::put_word(out, to, b"UNKNOWN"),
        14 => text::put_word(
            out,
            to,
            b"NO ROOM: more bytes than there is room for, which is 65536 for a message",
        ),
        15 => text::put_word(
            out,
            to,
            b"BAD STATE: a limit out of its range, a place out of its message, or a state that is none",
        ),
        16 => text::put_word(out, to, b"BAD LIST: a list of wanted fields that is none"),
        17 => text::put_word(
            out,
            to,
            b"RANGE: an i16, as value or field id, outside -32768 to 32767",
        ),
        18 => text::put_word(
            out,
            to,
            b"BAD DAY: no day file, or no message of this number",
        ),
        19 => text::put_word(
            out,
            to,
            b"MESSAGE SIZE: a byte needed lies past the message's ceiling, with input behind it",
        ),
        _ => text::put_word(out, to, b"UNKNOWN"),
    }
}

fn put_name(out: &mut [u8], to: usize, why: u8) -> usize
    ensures { (out.new, result) ≡ inked (name_of why) (out.old, to) }
{
    let a = put_words(out, to, why);
    text::put_word(out, a, b".\n")
}

// Bytes, two hex digits for each, a space before them.
fn put_spaced(out: &mut [u8], to: usize, bytes: &[u8]) -> usize
    ensures { (out.new, result) ≡ inked (spaced_hex bytes.now) (out.old, to) }
{
    let mut p = to;
    let mut i: usize = 0;
    while i < bytes.len() {
        p = text::put_word(out, p, b" ");
        p = text::put_hex(out, p, wide(bytes[i]), 2);
        i = i + 1;
    }
    p
}

// The byte of the offset, marked, and up to seven behind it; a byte that is missing is --.
fn put_own(out: &mut [u8], to: usize, bytes: &[u8]) -> usize
    ensures { (out.new, result) ≡ inked (own_hex bytes.now) (out.old, to) }
{
    if bytes.len() == 0 {
        return text::put_word(out, to, b" [--]\n");
    }
    let a = text::put_word(out, to, b" [");
    let b = text::put_hex(out, a, wide(bytes[0]), 2);
    let c = text::put_word(out, b, b"]");
    let d = put_spaced(out, c, &bytes[1..eight(bytes.len())]);
    text::put_word(out, d, b"\n")
}

// At most eight.
fn eight(n: usize) -> usize
    ensures { result ≡ 8 - (8 - n) }
{
    if n < 8 {
        return n;
    }
    8
}

// The place of the first byte that is shown.
fn first_shown(offset: usize) -> usize
    ensures { result ≡ offset - 8 }
{
    if offset < 8 {
        return 0;
    }
    offset - 8
}

fn put_around(out: &mut [u8], to: usize, s: &[u8], offset: usize) -> usize
    ensures { (out.new, result) ≡ inked (around s.now offset) (out.old, to) }
{
    if s.len() < offset {
        return to;
    }
    let first = first_shown(offset);
    let a = text::put_decimal(out, to, first as u64);
    let b = text::put_word(out, a, b":");
    let c = put_spaced(out, b, &s[first..offset]);
    put_own(out, c, &s[offset..])
}

// A struct's fault for people: the name, the path as a sentence, the bytes.
fn put_below(
    out: &mut [u8],
    to: usize,
    s: &[u8],
    why: u8,
    offset: usize,
    row: &[i64],
    steps: usize,
) -> usize
    requires { 2 * steps ≤ length row.now }
    ensures { (out.new, result) ≡ inked (below_of s.now why offset (row_words (ascii ", ") steps row.now)) (out.old, to) }
{
    let a = put_name(out, to, why);
    let b = text::put_word(out, a, b"In the struct");
    let c = put_steps(out, b, b", ", row, steps);
    let d = text::put_word(out, c, b".\n");
    put_around(out, d, s, offset)
}

// What is said of the struct at a reader's place.
pub fn put_struct(
    out: &mut [u8],
    to: usize,
    state: TCompactInputProtocol,
    s: &[u8],
    more: bool,
) -> usize
    ensures { (out.new, result) ≡ inked (struct_text more s.now (faults s.now state)) (out.old, to) }
{
    let mut row = row_room();
    match faults::why(state, s, &mut row) {
        Verdict::Accepted(used) => put_accepted(out, to, used.0),
        Verdict::Refused(why, offset, steps) => {
            let a = put_number(out, to, why, offset);
            let b = put_steps(out, a, b" ", &row, steps);
            let c = text::put_word(out, b, b"\n");
            if more {
                return put_below(out, c, s, why, offset, &row, steps);
            }
            c
        }
    }
}

// What is said of a message's header that is refused.
fn put_head(out: &mut [u8], to: usize, s: &[u8], why: u8, offset: usize, more: bool) -> usize
    ensures { (out.new, result) ≡ inked (head_text more s.now why offset) (out.old, to) }
{
    let a = put_refused(out, to, why, offset);
    if more {
        let b = put_name(out, a, why);
        let c = text::put_word(out, b, b"In the message's header.\n");
        return put_around(out, c, s, offset);
    }
    a
}

// What is said of a message of more bytes than are read.
fn put_long(out: &mut [u8], to: usize, more: bool) -> usize
    ensures { (out.new, result) ≡ inked (long_text more) (out.old, to) }
{
    let a = put_refused(out, to, types::NO_ROOM, 0);
    if more {
        return put_name(out, a, types::NO_ROOM);
    }
    a
}

// What is said of a message: its first line, and the lines below it where they are wanted.
pub fn put_fault(out: &mut [u8], to: usize, s: &[u8], more: bool) -> usize
    ensures { (out.new, result) ≡ inked (fault_text more s.now) (out.old, to) }
{
    if MOST_BYTES < s.len() {
        return put_long(out, to, more);
    }
    let state = reader();
    match faults::why_message(state, s) {
        Verdict::Accepted(_) => {
            let read = state.read_message_begin(s);
            put_struct(out, to, read.state, s, more)
        }
        Verdict::Refused(why, offset, _) => put_head(out, to, s, why, offset, more),
    }
}

// The first line of message k of a day file, its number before it; where there is none, the line of BAD DAY.
pub fn put_day_fault(out: &mut [u8], to: usize, file: &[u8], k: usize) -> usize
    ensures { (out.new, result) ≡ inked (day_fault file.now k) (out.old, to) }
{
    let a = text::put_decimal(out, to, k as u64);
    let b = text::put_word(out, a, b" ");
    match days::find_message(file, k) {
        Part::At(_, _) => put_fault(out, b, days::message(file, k), false),
        Part::Refused(why) => put_refused(out, b, why, 0),
    }
}
