// What every crate above shares: the refusal numbers, the types with their codes, the kinds of numbers that must not be mixed, and the limits.
#![tactic(auto)]

ghost use Rattle.std.specs.Prelude.{◌≡◌};
ghost use Rattle.types.specs.Codes.{type_by_number, element_type, field_type, type_code, truth_code, message_by_number, message_code};
ghost use Rattle.types.specs.Limits.{in_range, defaults};

// The refusal numbers. 13 is unused: it was for a number that does not fit its array of 3, 5 or 10 bytes, and every number does.
pub const END: u8 = 1;

pub const BAD_VERSION: u8 = 2;

pub const BAD_MESSAGE_TYPE: u8 = 3;

pub const BAD_TYPE: u8 = 4;

pub const BAD_BOOL: u8 = 5;

pub const LONG_VARINT: u8 = 6;

pub const FIELD_ID: u8 = 7;

pub const SIZE_LIMIT: u8 = 8;

pub const NEGATIVE_SIZE: u8 = 9;

pub const DEPTH: u8 = 10;

pub const BAD_UTF8: u8 = 11;

pub const OUT_OF_TURN: u8 = 12;

pub const NO_ROOM: u8 = 14;

pub const BAD_STATE: u8 = 15;

pub const BAD_LIST: u8 = 16;

pub const RANGE: u8 = 17;

pub const BAD_DAY: u8 = 18;

pub const MESSAGE_SIZE: u8 = 19;

// A field's id, a message's sequence number and a place in the lent bytes: three kinds of number, each a type of its own.
#[derive(Clone, Copy)]
pub struct FieldId(pub i16);

#[derive(Clone, Copy)]
pub struct SeqNo(pub i32);

#[derive(Clone, Copy)]
pub struct Place(pub usize);

// The types of the protocol, with the names of the Rust. (Its Void and Utf7 have no code here.)
#[derive(Clone, Copy)]
pub enum TType {
    Stop,
    Bool,
    I08,
    I16,
    I32,
    I64,
    Double,
    String,
    List,
    Set,
    Map,
    Struct,
    Uuid,
}

#[derive(Clone, Copy)]
pub enum TMessageType {
    Call,
    Reply,
    Exception,
    OneWay,
}

// The type of a code, or BAD TYPE.
#[derive(Clone, Copy)]
pub enum TypeRead {
    Got(TType),
    Refused(u8),
}

// What a field's code says: the struct's end, a bool with its value, another type, or BAD TYPE.
#[derive(Clone, Copy)]
pub enum FieldType {
    Stop,
    Truth(bool),
    Kind(TType),
    Refused(u8),
}

// The type of a message, or BAD MESSAGE TYPE.
#[derive(Clone, Copy)]
pub enum MessageTypeRead {
    Got(TMessageType),
    Refused(u8),
}

// A type by its number. 1 is Bool; 2, which is only a false field's code, has no type.
pub fn u8_to_type(code: u8) -> TypeRead
    ensures { result ≡ type_by_number code }
{
    match code {
        0 => TypeRead::Got(TType::Stop),
        1 => TypeRead::Got(TType::Bool),
        2 => TypeRead::Refused(BAD_TYPE),
        3 => TypeRead::Got(TType::I08),
        4 => TypeRead::Got(TType::I16),
        5 => TypeRead::Got(TType::I32),
        6 => TypeRead::Got(TType::I64),
        7 => TypeRead::Got(TType::Double),
        8 => TypeRead::Got(TType::String),
        9 => TypeRead::Got(TType::List),
        10 => TypeRead::Got(TType::Set),
        11 => TypeRead::Got(TType::Map),
        12 => TypeRead::Got(TType::Struct),
        13 => TypeRead::Got(TType::Uuid),
        _ => TypeRead::Refused(BAD_TYPE),
    }
}

// The type of a container's elements: both codes of a bool are Bool there.
pub fn collection_u8_to_type(code: u8) -> TypeRead
    ensures { result ≡ element_type code }
{
    if code == 2 {
        return TypeRead::Got(TType::Bool);
    }
    u8_to_type(code)
}

// A field's code: a bool's carries its value.
pub fn field_u8_to_type(code: u8) -> FieldType
    ensures { result ≡ field_type code }
{
    match code {
        0 => FieldType::Stop,
        1 => FieldType::Truth(true),
        2 => FieldType::Truth(false),
        _ => match u8_to_type(code) {
            TypeRead::Got(kind) => FieldType::Kind(kind),
            TypeRead::Refused(no) => FieldType::Refused(no),
        },
    }
}

// The code of a type: in a container, by number, and in a field of any type but Bool.
pub fn type_to_u8(kind: TType) -> u8
    ensures { result ≡ type_code kind }
{
    match kind {
        TType::Stop => 0,
        TType::Bool => 1,
        TType::I08 => 3,
        TType::I16 => 4,
        TType::I32 => 5,
        TType::I64 => 6,
        TType::Double => 7,
        TType::String => 8,
        TType::List => 9,
        TType::Set => 10,
        TType::Map => 11,
        TType::Struct => 12,
        TType::Uuid => 13,
    }
}

// A bool's code in a field's header, and its byte as an element.
pub fn bool_to_u8(truth: bool) -> u8
    ensures { result ≡ truth_code truth }
{
    if truth { 1 } else { 2 }
}

pub fn u8_to_message_type(number: u8) -> MessageTypeRead
    ensures { result ≡ message_by_number number }
{
    match number {
        1 => MessageTypeRead::Got(TMessageType::Call),
        2 => MessageTypeRead::Got(TMessageType::Reply),
        3 => MessageTypeRead::Got(TMessageType::Exception),
        4 => MessageTypeRead::Got(TMessageType::OneWay),
        _ => MessageTypeRead::Refused(BAD_MESSAGE_TYPE),
    }
}

pub fn message_type_to_u8(kind: TMessageType) -> u8
    ensures { result ≡ message_code kind }
{
    match kind {
        TMessageType::Call => 1,
        TMessageType::Reply => 2,
        TMessageType::Exception => 3,
        TMessageType::OneWay => 4,
    }
}

// The limits: how deep structs and containers may nest, how long a string, how large a container and how large a message may be.
#[derive(Clone, Copy)]
pub struct TConfiguration {
    pub depth: usize,
    pub string: u32,
    pub container: u32,
    pub message: u32,
}

impl TConfiguration {
    pub const MAX_DEPTH: usize = 64;

    pub const MAX_SIZE: u32 = 2_147_483_647;

    pub const DEFAULT_RECURSION_LIMIT: usize = 64;

    pub const DEFAULT_STRING_LIMIT: u32 = 104_857_600;
    // The Rust has no limit here; the largest count that the protocol can say stands in.
    pub const DEFAULT_CONTAINER_LIMIT: u32 = 2_147_483_647;

    pub const DEFAULT_MESSAGE_LIMIT: u32 = 104_857_600;

    pub fn default() -> Self
        ensures { result ≡ defaults }
    {
        Self {
            depth: TConfiguration::DEFAULT_RECURSION_LIMIT,
            string: TConfiguration::DEFAULT_STRING_LIMIT,
            container: TConfiguration::DEFAULT_CONTAINER_LIMIT,
            message: TConfiguration::DEFAULT_MESSAGE_LIMIT,
        }
    }

    // Whether every limit is in its range: a state with another is refused BAD STATE.
    pub fn in_range(self) -> bool
        ensures { result ≡ in_range self }
    {
        if TConfiguration::MAX_DEPTH < self.depth {
            return false;
        }
        if TConfiguration::MAX_SIZE < self.string {
            return false;
        }
        if TConfiguration::MAX_SIZE < self.container {
            return false;
        }
        if TConfiguration::MAX_SIZE < self.message {
            return false;
        }
        true
    }
}
