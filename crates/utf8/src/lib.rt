// The check of RFC 3629: whether bytes are UTF-8.
#![tactic(auto)]

ghost use Rattle.std.specs.Prelude.{◌≡◌, ℕ, ◌/◌, ◌<◌, ◌≤◌, length, drop, get_or};
ghost use Rattle.utf8.specs.Utf8.{utf8, decode, width};

// From so many bytes on 64 at a step are faster than a character at a time.
const LONG: usize = 128;

// How many bytes the character at `at` takes whose first byte is 110xxxxx; 0 where there is none. C0 and C1 would spell what one
// byte spells.
#[tactic(auto, using(crate::proofs::Cases::two_cases))]
fn two(s: &[u8], at: usize) -> usize
    requires { (at < length s.now) × (get_or s.now at 0 / 32 ≡ 6) }
    ensures { result ≡ width (decode (drop at s.now)) }
{
    if s.len() - at < 2 {
        return 0;
    }
    let b = s[at];
    let x = s[at + 1];
    if x / 64 != 2 {
        return 0;
    }
    if b < 0xC2 {
        return 0;
    }
    2
}

// The same for 1110xxxx. Below E0 A0 two bytes are enough; ED A0 to ED BF would spell D800 to DFFF.
#[tactic(auto, using(crate::proofs::Cases::three_cases))]
fn three(s: &[u8], at: usize) -> usize
    requires { (at < length s.now) × (get_or s.now at 0 / 16 ≡ 14) }
    ensures { result ≡ width (decode (drop at s.now)) }
{
    if s.len() - at < 3 {
        return 0;
    }
    let b = s[at];
    let x = s[at + 1];
    let y = s[at + 2];
    if x / 64 != 2 {
        return 0;
    }
    if y / 64 != 2 {
        return 0;
    }
    if b == 0xE0 {
        if x < 0xA0 {
            return 0;
        }
        return 3;
    }
    if b == 0xED {
        if 0x9F < x {
            return 0;
        }
        return 3;
    }
    3
}

// The same for 11110xxx. Below F0 90 three bytes are enough; above F4 8F the number is over 10FFFF.
#[tactic(auto, using(crate::proofs::Cases::four_cases))]
fn four(s: &[u8], at: usize) -> usize
    requires { (at < length s.now) × (get_or s.now at 0 / 8 ≡ 30) }
    ensures { result ≡ width (decode (drop at s.now)) }
{
    if s.len() - at < 4 {
        return 0;
    }
    let b = s[at];
    let x = s[at + 1];
    if x / 64 != 2 {
        return 0;
    }
    if s[at + 2] / 64 != 2 {
        return 0;
    }
    if s[at + 3] / 64 != 2 {
        return 0;
    }
    if b == 0xF0 {
        if x < 0x90 {
            return 0;
        }
        return 4;
    }
    if b < 0xF4 {
        return 4;
    }
    if b == 0xF4 {
        if 0x8F < x {
            return 0;
        }
        return 4;
    }
    0
}

// The same for any first byte that is not 0xxxxxxx.
#[tactic(auto, using(crate::proofs::Cases::char_none))]
fn char_len(s: &[u8], at: usize) -> usize
    requires { (at < length s.now) × (0x80 ≤ get_or s.now at 0) }
    ensures { result ≡ width (decode (drop at s.now)) }
{
    let b = s[at];
    if b / 32 == 6 {
        return two(s, at);
    }
    if b / 16 == 14 {
        return three(s, at);
    }
    if b / 8 == 30 {
        return four(s, at);
    }
    0
}

// Whether the bytes are UTF-8, by std.
#[tactic(auto, using(crate::proofs::Library::text_cases))]
fn rest_is_utf8(s: &[u8]) -> bool
    ensures { result ≡ utf8 s.now }
{
    std::str::from_utf8(s).is_ok()
}

// The same where wide characters come first: they, and a byte below 128 between two of them, are stepped over here, which is faster for
// them than std is. From two bytes below 128 on std reads the rest.
#[inline(never)]
#[tactic(auto, using(crate::proofs::Steps::steps))]
fn wide_is_utf8(s: &[u8]) -> bool
    ensures { result ≡ utf8 s.now }
{
    let mut at = 0;
    while at < s.len() {
        if s[at] < 128 {
            if s.len() - at < 2 {
                return true;
            }
            if s[at + 1] < 128 {
                return rest_is_utf8(&s[at..]);
            }
            at += 1;
        } else {
            let n = char_len(s, at);
            if n == 0 {
                return false;
            }
            at += n;
        }
    }
    true
}

// The same of long text, by the kit's `simdutf8`.
#[inline(never)]
fn long_is_utf8(s: &[u8]) -> bool
    ensures { result ≡ utf8 s.now }
{
    simdutf8::is_utf8(s)
}

// Whether the bytes are UTF-8: it is proved to pass just what the table of the RFC has. (The two long ways are kept out of line: else
// the shortest texts pay for them too.)
pub fn is_utf8(s: &[u8]) -> bool
    ensures { result ≡ utf8 s.now }
{
    if LONG <= s.len() {
        return long_is_utf8(s);
    }
    if s.is_empty() || s[0] < 128 {
        return rest_is_utf8(s);
    }
    wide_is_utf8(s)
}
