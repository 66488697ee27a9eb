// The codes of the types in the binary protocol, both ways, and the fewest bytes that values of a type take.
#![tactic(auto)]

ghost use Rattle.std.specs.Prelude.{◌≡◌, ◌*◌, ◌<◌};
ghost use Rattle.binary_codes.specs.Codes.{binary_code, by_binary_code, least_size};

use types::{TType, TypeRead};

pub fn field_type_to_u8(kind: TType) -> u8
    ensures { result ≡ binary_code kind }
{
    match kind {
        TType::Stop => 0x00,
        TType::Bool => 0x02,
        TType::I08 => 0x03,
        TType::Double => 0x04,
        TType::I16 => 0x06,
        TType::I32 => 0x08,
        TType::I64 => 0x0A,
        TType::String => 0x0B,
        TType::Struct => 0x0C,
        TType::Map => 0x0D,
        TType::Set => 0x0E,
        TType::List => 0x0F,
        TType::Uuid => 0x10,
    }
}

// The Rust takes 1 for Void, which is no type of a value and not in the document's list.
pub fn field_type_from_u8(code: u8) -> TypeRead
    ensures { result ≡ by_binary_code code }
{
    match code {
        0 => TypeRead::Got(TType::Stop),
        1 => TypeRead::Refused(types::BAD_TYPE),
        2 => TypeRead::Got(TType::Bool),
        3 => TypeRead::Got(TType::I08),
        4 => TypeRead::Got(TType::Double),
        5 => TypeRead::Refused(types::BAD_TYPE),
        6 => TypeRead::Got(TType::I16),
        7 => TypeRead::Refused(types::BAD_TYPE),
        8 => TypeRead::Got(TType::I32),
        9 => TypeRead::Refused(types::BAD_TYPE),
        10 => TypeRead::Got(TType::I64),
        11 => TypeRead::Got(TType::String),
        12 => TypeRead::Got(TType::Struct),
        13 => TypeRead::Got(TType::Map),
        14 => TypeRead::Got(TType::Set),
        15 => TypeRead::Got(TType::List),
        16 => TypeRead::Got(TType::Uuid),
        _ => TypeRead::Refused(types::BAD_TYPE),
    }
}

// The fewest bytes that so many values of a type take. The count has 32 bits, so that the product is far from 64.
pub fn least_bytes(count: u32, kind: TType) -> usize
    ensures { (result ≡ count * least_size kind) × (result < 0x10_0000_0000) }
{
    let n = count as usize;
    match kind {
        TType::Stop => n,
        TType::Bool => n,
        TType::I08 => n,
        TType::Struct => n,
        TType::I16 => n * 2,
        TType::I32 => n * 4,
        TType::String => n * 4,
        TType::List => n * 5,
        TType::Set => n * 5,
        TType::Map => n * 6,
        TType::I64 => n * 8,
        TType::Double => n * 8,
        TType::Uuid => n * 16,
    }
}
