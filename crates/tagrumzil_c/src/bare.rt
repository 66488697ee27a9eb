// The library's own number, and the number calls.
ghost use Rattle.std.specs.Prelude.{◌≡◌, length};
ghost use Rattle.numbers.specs.Varint.{fewest};
ghost use Rattle.zigzag.specs.Zigzag.{zigzag, unzigzag};
ghost use Rattle.tagrumzil.specs.Bare.{placed32, placed64, placed16, placed_bits, Found32, Found64, Found16, FoundBits, PutNumber};

use tagrumzil::bare;

#[unsafe(no_mangle)]
pub extern "C" fn tagrumzil_version() -> u32
    ensures { result ≡ 1 }
{
    bare::tagrumzil_version()
}

#[unsafe(no_mangle)]
pub extern "C" fn tagrumzil_varint32(s: &[u8], at: usize, value: &mut u32, end: &mut usize) -> u8
    ensures { Found32 value.old value.new end.old end.new result (placed32 s.now at) }
{
    bare::tagrumzil_varint32(s, at, value, end)
}

#[unsafe(no_mangle)]
pub extern "C" fn tagrumzil_varint64(s: &[u8], at: usize, value: &mut u64, end: &mut usize) -> u8
    ensures { Found64 value.old value.new end.old end.new result (placed64 s.now at) }
{
    bare::tagrumzil_varint64(s, at, value, end)
}

#[unsafe(no_mangle)]
pub extern "C" fn tagrumzil_i16(s: &[u8], at: usize, value: &mut i16, end: &mut usize) -> u8
    ensures { Found16 value.old value.new end.old end.new result (placed16 s.now at) }
{
    bare::tagrumzil_i16(s, at, value, end)
}

#[unsafe(no_mangle)]
pub extern "C" fn tagrumzil_le64(s: &[u8], at: usize, value: &mut u64, end: &mut usize) -> u8
    ensures { FoundBits value.old value.new end.old end.new result (placed_bits s.now at) }
{
    bare::tagrumzil_le64(s, at, value, end)
}

#[unsafe(no_mangle)]
pub extern "C" fn tagrumzil_put_varint(buf: &mut [u8], at: usize, n: u64, end: &mut usize) -> u8
    ensures { PutNumber buf.old buf.new end.old end.new result at (fewest n) }
{
    bare::tagrumzil_put_varint(buf, at, n, end)
}

#[unsafe(no_mangle)]
pub extern "C" fn tagrumzil_varint_len(n: u64) -> usize
    ensures { result ≡ length (fewest n) }
{
    bare::tagrumzil_varint_len(n)
}

#[unsafe(no_mangle)]
pub extern "C" fn tagrumzil_zigzag_to_i32(n: u32) -> i32
    ensures { result ≡ unzigzag n }
{
    bare::tagrumzil_zigzag_to_i32(n)
}

#[unsafe(no_mangle)]
pub extern "C" fn tagrumzil_zigzag_to_i64(n: u64) -> i64
    ensures { result ≡ unzigzag n }
{
    bare::tagrumzil_zigzag_to_i64(n)
}

#[unsafe(no_mangle)]
pub extern "C" fn tagrumzil_i32_to_zigzag(n: i32) -> u32
    ensures { result ≡ zigzag n }
{
    bare::tagrumzil_i32_to_zigzag(n)
}

#[unsafe(no_mangle)]
pub extern "C" fn tagrumzil_i64_to_zigzag(n: i64) -> u64
    ensures { result ≡ zigzag n }
{
    bare::tagrumzil_i64_to_zigzag(n)
}
