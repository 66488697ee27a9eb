// Reading a case: the words of its line, and the bytes and numbers that they spell.
ghost use Rattle.std.specs.Prelude.{◌<◌};

use std::alloc::{AllocError, Global};
use types::TConfiguration;

#[derive(Clone, Copy)]
pub(crate) struct Line<'a>(pub(crate) &'a [u8]);

impl<'a> Line<'a> {
    // The n-th word, counted from 0; empty where the line has fewer.
    fn word(self, n: usize) -> &'a [u8] {
        self.0.split(|b| *b == b' ').nth(n).unwrap_or(b"")
    }

    // The n-th word as a name, which has at most eight bytes. Zeros before it say nothing.
    pub(crate) fn name(self, n: usize) -> &'a [u8] {
        let word = self.word(n);
        match word.iter().position(|b| *b != 0) {
            Some(start) if word.len() - start <= 8 => &word[start..],
            _ => b"",
        }
    }

    // The bytes that the n-th word spells in hex, up to so many. `-` spells none.
    pub(crate) fn bytes(self, alloc: Global, n: usize, most: usize) -> Result<Vec<u8>, AllocError> {
        let (pairs, _) = self.word(n).as_chunks::<2>();
        pairs.iter().take(most).map(spelled).collect(alloc)
    }

    // Sixteen bytes: those that the n-th word spells, and zeros behind them.
    pub(crate) fn sixteen(self, n: usize) -> [u8; 16] {
        let (pairs, _) = self.word(n).as_chunks::<2>();
        let mut bytes = [0u8; 16];
        for (byte, pair) in bytes.iter_mut().zip(pairs) {
            *byte = spelled(pair);
        }
        bytes
    }

    // The number whose bytes the n-th word spells in hex, at most 16 of them; 0 where it has more than 64 bits.
    pub(crate) fn bits(self, n: usize) -> u64 {
        let (pairs, _) = self.word(n).as_chunks::<2>();
        pairs
            .iter()
            .take(16)
            .try_fold(0u64, |n, pair| {
                n.checked_mul(256)?.checked_add(u64::from(spelled(pair)))
            })
            .unwrap_or(0)
    }

    // The number that the n-th word spells; 0 where the line has fewer.
    pub(crate) fn number(self, n: usize) -> u64 {
        decimal(self.word(n))
    }

    // Its low 32 bits, and its low 8.
    pub(crate) fn number32(self, n: usize) -> u32 {
        (self.number(n) % 0x1_0000_0000) as u32
    }

    pub(crate) fn number8(self, n: usize) -> u8 {
        (self.number(n) % 0x100) as u8
    }

    pub(crate) fn size(self, n: usize) -> usize {
        self.number(n) as usize
    }

    // A row's limits, words 1 to 3: depth, longest string, largest container. The ceiling is the largest till a row puts another.
    pub(crate) fn limits(self) -> TConfiguration {
        TConfiguration {
            depth: self.size(1),
            string: self.number32(2),
            container: self.number32(3),
            ..cases::WIDEST
        }
    }

    // The number from -2^63 to 2^63 - 1 that the n-th word spells; 0 where it spells none.
    pub(crate) fn signed(self, n: usize) -> i64 {
        let word = self.word(n);
        match word.strip_prefix(b"-") {
            Some(digits) => 0i64.checked_sub_unsigned(decimal(digits)).unwrap_or(0),
            None => i64::try_from(decimal(word)).unwrap_or(0),
        }
    }

    // The number from -2^31 to 2^31 - 1 that the n-th word spells; 0 where it spells none.
    pub(crate) fn signed32(self, n: usize) -> i32 {
        i32::try_from(self.signed(n)).unwrap_or(0)
    }
}

// What a hex digit stands for; 0 for any other byte.
fn nibble(c: u8) -> u8
    ensures { result < 16 }
{
    match c {
        b'0'..=b'9' => c - b'0',
        b'a'..=b'f' => c - b'a' + 10,
        _ => 0,
    }
}

// The byte that two hex digits spell.
fn spelled(pair: &[u8; 2]) -> u8 {
    nibble(pair[0]) * 16 + nibble(pair[1])
}

// The number that digits spell; 0 where it is over 64 bits. `parse` would refuse a word with other bytes in it, which count as a hex digit or as 0 here.
fn decimal(word: &[u8]) -> u64 {
    word.iter()
        .try_fold(0u64, |n, c| {
            n.checked_mul(10)?.checked_add(u64::from(nibble(*c)))
        })
        .unwrap_or(0)
}
