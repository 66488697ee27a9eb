// What is wrong with the arguments of a call that writes: the number of a refusal, or 0 where nothing is.
ghost use Rattle.std.specs.Prelude.{◌≡◌};
ghost use Rattle.puts.specs.Bytes.{above};
ghost use Rattle.puts.specs.Wrong.{length_wrong, text_wrong, field_wrong, count_wrong};

use types::{TConfiguration, TType};

// What is wrong with a binary's length, and with a string: 0 where nothing is.
pub fn length_refusal(bytes: &[u8], limits: TConfiguration) -> u8
    ensures { result ≡ length_wrong limits bytes.now }
{
    if (limits.string as usize) < bytes.len() {
        return types::SIZE_LIMIT;
    }
    0
}

pub fn text_refusal(bytes: &[u8], limits: TConfiguration) -> u8
    ensures { result ≡ text_wrong limits bytes.now }
{
    let why = length_refusal(bytes, limits);
    if why != 0 {
        return why;
    }
    if utf8::is_utf8(bytes) {
        return 0;
    }
    types::BAD_UTF8
}

// The end of a struct is no field.
pub fn field_refusal(kind: TType) -> u8
    ensures { result ≡ field_wrong kind }
{
    if types::type_to_u8(kind) == 0 {
        return types::BAD_TYPE;
    }
    0
}

// What is wrong with a container's count, for the types of what it holds. One below 0 must not pass as a small one.
pub fn count_refusal(a: TType, b: TType, count: i32, limits: TConfiguration) -> u8
    ensures { result ≡ count_wrong limits a b count }
{
    if count < 0 {
        return types::NEGATIVE_SIZE;
    }
    let n = count as u32;
    if n == 0 {
        return 0;
    }
    if types::type_to_u8(a) == 0 {
        return types::BAD_TYPE;
    }
    if types::type_to_u8(b) == 0 {
        return types::BAD_TYPE;
    }
    if limits.container < n {
        return types::SIZE_LIMIT;
    }
    0
}

// A count that has passed, as a number of elements.
pub fn size_of(count: i32) -> u32
    ensures { result ≡ above count }
{
    if 0 <= count {
        return count as u32;
    }
    0
}
