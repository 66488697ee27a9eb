// A row of cases, as the case programs read it from standard input: a line that begins with the number of the case's bytes and goes on with what it is, and then those bytes.
#![tactic(auto)]

ghost use Rattle.std.specs.Prelude.{◌≡◌, ◌+◌, ◌<◌, ◌≤◌, ◌++◌, [], length, take, drop, IfSome, MatchOption};
ghost use Rattle.std.specs.Int.{from_le_bytes, w32, w64};
ghost use Rattle.std.specs.Iterator.{at_most};

use std::alloc::Global;
use std::io;
use std::io::Read;
use types::TConfiguration;

// The limits under which nothing is refused for its size: the widest that a state may have.
pub const WIDEST: TConfiguration = TConfiguration {
    depth: 64,
    string: 2_147_483_647,
    container: 2_147_483_647,
    message: 2_147_483_647,
};

// A case: its line, with the line's end, and its bytes where the row has all of them.
#[derive(Clone, Copy)]
pub struct Case<'a> {
    pub line: &'a [u8],
    pub bytes: Option<&'a [u8]>,
}

// The cases that are left of a row. A line that has no end is no case, and behind one that is cut short there is none.
#[derive(Drop)]
pub struct Cases<'a>(pub &'a [u8]);

impl<'a> Iterator for Cases<'a> {
    type Item = Case<'a>;

    // What is left before is the line, the bytes and what is left behind them, in this order.
    ghost next_gives = { λ s r t. IfSome r (λ c. MatchOption c.bytes (t.0.now ≡ []) (λ b. c.line.now ++ (b.now ++ t.0.now) ≡ s.0.now)) };

    ghost remaining = { λ s. at_most (length s.0.now) };

    fn next(&mut self) -> Option<Case<'a>> {
        let end = self.0.iter().position(|b| *b == b'\n')?;
        let (line, behind) = self.0.split_at(end + 1);
        match behind.split_at_checked(leading_number(line)) {
            Some((bytes, rest)) => {
                self.0 = rest;
                Some(Case {
                    line,
                    bytes: Some(bytes),
                })
            }
            None => {
                self.0 = b"";
                Some(Case { line, bytes: None })
            }
        }
    }
}

// Reads a row of at most so many bytes, writes each case's line again, and has `show` write below it what comes of the case: it is lent the line and the bytes.
pub fn answer_all<F: FnMut(&[u8], &[u8]) -> io::Result<()>>(
    alloc: Global,
    input: &mut impl Read,
    out: &impl Print,
    most: usize,
    mut show: F,
) -> io::Result<()>
    requires { F.IsAlwaysCallable show }
{
    let row = system::read_up_to(alloc, input, most)?;
    for case in Cases(&row) {
        out.write_all(case.line)?;
        if let Some(bytes) = case.bytes {
            show(case.line, bytes)?;
        }
    }
    Ok(())
}

// The number of up to five digits that a line begins with; 0 where it begins with none.
pub fn leading_number(line: &[u8]) -> usize
    ensures { result < 100000 }
{
    let mut n: usize = 0;
    for digit in line {
        if !digit.is_ascii_digit() || 9999 < n {
            break;
        }
        n = n * 10 + usize::from(*digit - b'0');
    }
    n
}

// The number of four bytes at a place, lowest first; 0 where they are not there.
pub fn number_at(bytes: &[u8], at: usize) -> u32
    ensures whole { at + 4 ≤ length bytes.now → result ≡ from_le_bytes w32 (take 4 (drop at bytes.now)) }
    ensures short { length bytes.now < at + 4 → result ≡ 0 }
{
    match chunk_at(bytes, at) {
        Some(four) => u32::from_le_bytes(*four),
        None => 0,
    }
}

// The number of eight bytes at a place, lowest first; 0 where they are not there.
pub fn long_at(bytes: &[u8], at: usize) -> u64
    ensures whole { at + 8 ≤ length bytes.now → result ≡ from_le_bytes w64 (take 8 (drop at bytes.now)) }
    ensures short { length bytes.now < at + 8 → result ≡ 0 }
{
    match chunk_at(bytes, at) {
        Some(eight) => u64::from_le_bytes(*eight),
        None => 0,
    }
}

// So many bytes at a place, where they are there.
fn chunk_at<const N: usize>(bytes: &[u8], at: usize) -> Option<&[u8; N]>
    ensures { MatchOption result (length bytes.now < at + N) (λ chunk. (at + N ≤ length bytes.now) × (chunk.now ≡ take N (drop at bytes.now))) }
{
    match bytes.split_at_checked(at) {
        Some((_, rest)) => match rest.split_first_chunk::<N>() {
            Some((chunk, _)) => Some(chunk),
            None => None,
        },
        None => None,
    }
}
