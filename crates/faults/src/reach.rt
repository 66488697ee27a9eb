// How far bytes that are refused were read: the place behind the last byte, a single byte that was missing counted.
ghost use Rattle.std.specs.Prelude.{◌≡◌, ◌≤◌, length};
ghost use Rattle.faults.specs.Heads.{groups, named, versioned, message};
ghost use Rattle.faults.specs.Trace.{up_to, HeadReach, ListReach, MapReach, LeafReach};

use heads::PartRead;
use numbers::Varint32;
use types::{FieldType, MessageTypeRead, Place, TConfiguration, TMessageType, TType, TypeRead};

// A varint of at most so many bytes.
pub(crate) fn number_reach(s: &[u8], at: usize, most: usize) -> usize
    requires { at ≤ length s.now }
    ensures { result ≡ up_to (groups most) s.now at }
{
    let mut left = most;
    let mut p = at;
    while 0 < left {
        if s.len() <= p {
            return p + 1;
        }
        let b = s[p];
        p = p + 1;
        if b < 128 {
            return p;
        }
        left = left - 1;
    }
    p
}

// A field's header that is refused: to its first byte, or through the id behind it.
pub(crate) fn field_reach(s: &[u8], at: Place) -> usize
    requires { at.0 ≤ length s.now }
    ensures { HeadReach s.now at.0 result }
{
    let p = at.0;
    if s.len() <= p {
        return p + 1;
    }
    let b = s[p];
    if b / 16 == 0 {
        match types::field_u8_to_type(b % 16) {
            FieldType::Stop => {
                return p + 1;
            }
            FieldType::Refused(_) => {
                return p + 1;
            }
            FieldType::Truth(_) => {
                return number_reach(s, p + 1, 5);
            }
            FieldType::Kind(_) => {
                return number_reach(s, p + 1, 5);
            }
        }
    }
    p + 1
}

// A list's header: to its first byte, or through the count behind it.
pub(crate) fn list_reach(s: &[u8], at: Place) -> usize
    requires { at.0 ≤ length s.now }
    ensures { ListReach s.now at.0 result }
{
    let p = at.0;
    if s.len() <= p {
        return p + 1;
    }
    let b = s[p];
    if b / 16 < 15 {
        return p + 1;
    }
    match types::collection_u8_to_type(b % 16) {
        TypeRead::Refused(_) => {
            return p + 1;
        }
        TypeRead::Got(_) => {
            return number_reach(s, p + 1, 5);
        }
    }
}

// A map's header: through its count, and to the byte with the types where there is one.
pub(crate) fn map_reach(s: &[u8], at: Place) -> usize
    requires { at.0 ≤ length s.now }
    ensures { MapReach s.now at.0 result }
{
    match numbers::read_varint32(s, at.0) {
        Varint32::Refused(_) => {
            return number_reach(s, at.0, 5);
        }
        Varint32::Got(n, next) => {
            if n == 0 {
                return next;
            }
            return next + 1;
        }
    }
}

// A value that holds no other and is refused: a double or a uuid cut short is unread, and so is a string's body. A container has no room here.
pub(crate) fn leaf_reach(s: &[u8], at: Place, kind: TType) -> usize
    requires { at.0 ≤ length s.now }
    ensures { LeafReach s.now at.0 kind result }
{
    match kind {
        TType::Bool => at.0 + 1,
        TType::I08 => at.0 + 1,
        TType::I16 => number_reach(s, at.0, 5),
        TType::I32 => number_reach(s, at.0, 5),
        TType::I64 => number_reach(s, at.0, 10),
        TType::String => number_reach(s, at.0, 5),
        TType::Stop => at.0,
        TType::Double => at.0,
        TType::Uuid => at.0,
        TType::List => at.0,
        TType::Set => at.0,
        TType::Map => at.0,
        TType::Struct => at.0,
    }
}

// Behind a message's two first bytes: the sequence number, and the name with its length. A name that is not UTF-8 has been read whole.
fn named_reach(s: &[u8], at: usize, kind: TMessageType, limits: TConfiguration) -> usize
    requires { at ≤ length s.now }
    ensures { result ≡ up_to (named limits kind) s.now at }
{
    match numbers::read_varint32(s, at) {
        Varint32::Refused(_) => number_reach(s, at, 5),
        Varint32::Got(_, next) => match heads::read_bytes(s, Place(next), limits) {
            PartRead::Refused(_) => number_reach(s, next, 5),
            PartRead::Got(_, end) => end.0,
        },
    }
}

// A message's second byte, and what stands behind it.
fn versioned_reach(s: &[u8], at: usize, limits: TConfiguration) -> usize
    requires { at ≤ length s.now }
    ensures { result ≡ up_to (versioned limits) s.now at }
{
    if s.len() <= at {
        return at + 1;
    }
    let b = s[at];
    if b % 32 != 1 {
        return at + 1;
    }
    match types::u8_to_message_type(b / 32) {
        MessageTypeRead::Refused(_) => at + 1,
        MessageTypeRead::Got(kind) => named_reach(s, at + 1, kind, limits),
    }
}

// A message's header.
pub(crate) fn message_reach(s: &[u8], at: Place, limits: TConfiguration) -> usize
    requires { at.0 ≤ length s.now }
    ensures { result ≡ up_to (message limits) s.now at.0 }
{
    let p = at.0;
    if s.len() <= p {
        return p + 1;
    }
    if s[p] != 0x82 {
        return p + 1;
    }
    versioned_reach(s, p + 1, limits)
}
