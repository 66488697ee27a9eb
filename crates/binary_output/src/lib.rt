// The binary writer: TBinaryOutputProtocol, its strict form, as a state by value, over a lent buffer. Every call answers Written or the number of a refusal,
// and hands back the next state; a refused call hands back the state as it was and leaves the buffer's bytes.
#![tactic(auto)]

ghost use Rattle.std.specs.Prelude.{◌≡◌, ◌+◌, length};
ghost use Rattle.puts.specs.Wrong.{or_else};
ghost use Rattle.binary_output.specs.State.{begun, begun_at, unsound, left_of, begun_here};
ghost use Rattle.binary_output.specs.Calls.{refused_by, settled, size_wrong, begin_wrong, end_wrong, writes, leaves, message_call, struct_begin_call, struct_end_call, field_call, stop_call, bool_call, i8_call, i16_call, i32_call, i64_call, double_call, uuid_call, bytes_call, string_call, items_call, pairs_call};

use numbers::Wrote;
use output::{Uuid, WriteAnswer};
use puts::wrong;
use types::{FieldId, Place, SeqNo, TConfiguration, TMessageType, TType};

// How many structs are open; the limits; and where the message began, from which its ceiling counts.
#[derive(Clone, Copy)]
pub struct TBinaryOutputProtocol {
    pub place: Place,
    pub depth: usize,
    pub limits: TConfiguration,
    pub begin: Place,
}

#[derive(Clone, Copy)]
pub struct BinaryWritten {
    pub answer: WriteAnswer,
    pub state: TBinaryOutputProtocol,
}

impl TBinaryOutputProtocol {
    // At the start of its buffer.
    pub fn new(limits: TConfiguration) -> Self
        ensures { result ≡ begun limits }
    {
        TBinaryOutputProtocol::new_at(Place(0), limits)
    }

    // In the middle of its buffer: what stands before has no part in the count.
    pub fn new_at(place: Place, limits: TConfiguration) -> Self
        ensures { result ≡ begun_at place limits }
    {
        Self {
            place,
            depth: 0,
            limits,
            begin: place,
        }
    }

    // BAD STATE, or 0.
    fn unsound(self, len: usize) -> u8
        ensures { result ≡ unsound len self }
    {
        if self.limits.in_range() {
            if len < self.place.0 {
                return types::BAD_STATE;
            }
            if self.limits.depth < self.depth {
                return types::BAD_STATE;
            }
            if self.place.0 < self.begin.0 {
                return types::BAD_STATE;
            }
            if (self.limits.message as usize) < self.place.0 - self.begin.0 {
                return types::BAD_STATE;
            }
            return 0;
        }
        types::BAD_STATE
    }

    // How many bytes more the ceiling leaves the message.
    fn left(self) -> usize
        ensures { result ≡ left_of self }
    {
        let most = self.limits.message as usize;
        if self.place.0 < self.begin.0 {
            return most;
        }
        let used = self.place.0 - self.begin.0;
        if most < used {
            return 0;
        }
        most - used
    }

    // What is wrong with a call's arguments, or else MESSAGE SIZE where its bytes, of which it has `head` and `body`, pass the ceiling.
    fn over(self, wrong: u8, head: usize, body: usize) -> u8
        ensures { result ≡ or_else wrong (size_wrong self (head + body)) }
    {
        if wrong != 0 {
            return wrong;
        }
        let left = self.left();
        if left < head {
            return types::MESSAGE_SIZE;
        }
        if left - head < body {
            return types::MESSAGE_SIZE;
        }
        0
    }

    // The same for bytes as they are.
    fn bytes_over(self, bytes: &[u8]) -> u8
        ensures { result ≡ or_else 0 (size_wrong self (length bytes.now)) }
    {
        self.over(0, 0, bytes.len())
    }

    // The same for a message that begins here.
    fn over_anew(self, wrong: u8, head: usize, body: usize) -> u8
        ensures { result ≡ or_else wrong (size_wrong (begun_here self) (head + body)) }
    {
        let begin = self.place;
        let mut next = self;
        next.begin = begin;
        next.over(wrong, head, body)
    }

    // What stops a call: BAD STATE, or else what is wrong with it.
    fn refusal(self, len: usize, wrong: u8) -> u8
        ensures { result ≡ or_else (unsound len self) wrong }
    {
        let why = self.unsound(len);
        if why != 0 {
            return why;
        }
        wrong
    }

    fn refused(self, why: u8) -> BinaryWritten
        ensures { result ≡ refused_by self why }
    {
        BinaryWritten {
            answer: WriteAnswer::Refused(why),
            state: self,
        }
    }

    // The state behind what was written.
    fn moved(self, wrote: Wrote) -> BinaryWritten
        ensures { result ≡ settled self self wrote }
    {
        match wrote {
            Wrote::Refused(why) => self.refused(why),
            Wrote::To(p) => {
                let mut next = self;
                let place = Place(p);
                next.place = place;
                BinaryWritten {
                    answer: WriteAnswer::Written,
                    state: next,
                }
            }
        }
    }

    // The state behind a message's header: the message began at its first byte.
    fn begun(self, wrote: Wrote) -> BinaryWritten
        ensures { result ≡ settled self (begun_here self) wrote }
    {
        match wrote {
            Wrote::Refused(why) => self.refused(why),
            Wrote::To(p) => {
                let begin = self.place;
                let mut next = self;
                let place = Place(p);
                next.place = place;
                next.begin = begin;
                BinaryWritten {
                    answer: WriteAnswer::Written,
                    state: next,
                }
            }
        }
    }

    fn begin_refusal(self) -> u8
        ensures { result ≡ begin_wrong self }
    {
        if self.limits.depth <= self.depth {
            return types::DEPTH;
        }
        0
    }

    fn end_refusal(self) -> u8
        ensures { result ≡ end_wrong self }
    {
        if self.depth == 0 {
            return types::OUT_OF_TURN;
        }
        0
    }

    pub fn write_message_begin(
        self,
        buf: &mut [u8],
        kind: TMessageType,
        sequence: SeqNo,
        name: &[u8],
    ) -> BinaryWritten
        ensures { (result ≡ writes buf.old self (message_call self kind sequence name.now)) × (buf.new ≡ leaves buf.old self (message_call self kind sequence name.now)) }
    {
        let wrong = wrong::text_refusal(name, self.limits);
        let why = self.refusal(buf.len(), self.over_anew(wrong, 12, name.len()));
        if why != 0 {
            return self.refused(why);
        }
        let at = self.place.0;
        let wrote = binary_puts::message(buf, at, kind, sequence, name);
        self.begun(wrote)
    }

    pub fn write_struct_begin(self, buf: &mut [u8]) -> BinaryWritten
        ensures { (result ≡ writes buf.old self (struct_begin_call self)) × (buf.new ≡ leaves buf.old self (struct_begin_call self)) }
    {
        let why = self.refusal(buf.len(), self.begin_refusal());
        if why != 0 {
            return self.refused(why);
        }
        let depth = self.depth;
        let mut next = self;
        next.depth = depth + 1;
        BinaryWritten {
            answer: WriteAnswer::Written,
            state: next,
        }
    }

    pub fn write_struct_end(self, buf: &mut [u8]) -> BinaryWritten
        ensures { (result ≡ writes buf.old self (struct_end_call self)) × (buf.new ≡ leaves buf.old self (struct_end_call self)) }
    {
        let why = self.refusal(buf.len(), self.end_refusal());
        if why != 0 {
            return self.refused(why);
        }
        let depth = self.depth;
        let mut next = self;
        next.depth = depth - 1;
        BinaryWritten {
            answer: WriteAnswer::Written,
            state: next,
        }
    }

    pub fn write_field_begin(self, buf: &mut [u8], kind: TType, id: FieldId) -> BinaryWritten
        ensures { (result ≡ writes buf.old self (field_call self kind id)) × (buf.new ≡ leaves buf.old self (field_call self kind id)) }
    {
        let wrong = wrong::field_refusal(kind);
        let why = self.refusal(buf.len(), self.over(wrong, 3, 0));
        if why != 0 {
            return self.refused(why);
        }
        let at = self.place.0;
        let wrote = binary_puts::field_header(buf, at, kind, id);
        self.moved(wrote)
    }

    pub fn write_field_stop(self, buf: &mut [u8]) -> BinaryWritten
        ensures { (result ≡ writes buf.old self (stop_call self)) × (buf.new ≡ leaves buf.old self (stop_call self)) }
    {
        let why = self.refusal(buf.len(), self.over(0, 1, 0));
        if why != 0 {
            return self.refused(why);
        }
        let at = self.place.0;
        let wrote = numbers::write_byte(buf, at, 0);
        self.moved(wrote)
    }

    pub fn write_bool(self, buf: &mut [u8], truth: bool) -> BinaryWritten
        ensures { (result ≡ writes buf.old self (bool_call self truth)) × (buf.new ≡ leaves buf.old self (bool_call self truth)) }
    {
        let why = self.refusal(buf.len(), self.over(0, 1, 0));
        if why != 0 {
            return self.refused(why);
        }
        let at = self.place.0;
        let wrote = numbers::write_byte(buf, at, binary_puts::bool_to_u8(truth));
        self.moved(wrote)
    }

    pub fn write_i8(self, buf: &mut [u8], n: i8) -> BinaryWritten
        ensures { (result ≡ writes buf.old self (i8_call self n)) × (buf.new ≡ leaves buf.old self (i8_call self n)) }
    {
        let why = self.refusal(buf.len(), self.over(0, 1, 0));
        if why != 0 {
            return self.refused(why);
        }
        let at = self.place.0;
        let wrote = numbers::write_byte(buf, at, n.cast_unsigned());
        self.moved(wrote)
    }

    pub fn write_i16(self, buf: &mut [u8], n: i16) -> BinaryWritten
        ensures { (result ≡ writes buf.old self (i16_call self n)) × (buf.new ≡ leaves buf.old self (i16_call self n)) }
    {
        let why = self.refusal(buf.len(), self.over(0, 2, 0));
        if why != 0 {
            return self.refused(why);
        }
        let at = self.place.0;
        let wrote = big_endian::write_be16(buf, at, n.cast_unsigned());
        self.moved(wrote)
    }

    pub fn write_i32(self, buf: &mut [u8], n: i32) -> BinaryWritten
        ensures { (result ≡ writes buf.old self (i32_call self n)) × (buf.new ≡ leaves buf.old self (i32_call self n)) }
    {
        let why = self.refusal(buf.len(), self.over(0, 4, 0));
        if why != 0 {
            return self.refused(why);
        }
        let at = self.place.0;
        let wrote = big_endian::write_be32(buf, at, n.cast_unsigned());
        self.moved(wrote)
    }

    pub fn write_i64(self, buf: &mut [u8], n: i64) -> BinaryWritten
        ensures { (result ≡ writes buf.old self (i64_call self n)) × (buf.new ≡ leaves buf.old self (i64_call self n)) }
    {
        let why = self.refusal(buf.len(), self.over(0, 8, 0));
        if why != 0 {
            return self.refused(why);
        }
        let at = self.place.0;
        let wrote = big_endian::write_be64(buf, at, n.cast_unsigned());
        self.moved(wrote)
    }

    // A double is its 64 bits, so that any bits are kept.
    pub fn write_double(self, buf: &mut [u8], bits: u64) -> BinaryWritten
        ensures { (result ≡ writes buf.old self (double_call self bits)) × (buf.new ≡ leaves buf.old self (double_call self bits)) }
    {
        let why = self.refusal(buf.len(), self.over(0, 8, 0));
        if why != 0 {
            return self.refused(why);
        }
        let at = self.place.0;
        let wrote = big_endian::write_be64(buf, at, bits);
        self.moved(wrote)
    }

    pub fn write_uuid(self, buf: &mut [u8], uuid: &Uuid) -> BinaryWritten
        ensures { (result ≡ writes buf.old self (uuid_call self uuid.now)) × (buf.new ≡ leaves buf.old self (uuid_call self uuid.now)) }
    {
        let why = self.refusal(buf.len(), self.bytes_over(uuid));
        if why != 0 {
            return self.refused(why);
        }
        let at = self.place.0;
        let wrote = puts::copy(buf, at, uuid);
        self.moved(wrote)
    }

    pub fn write_bytes(self, buf: &mut [u8], blob: &[u8]) -> BinaryWritten
        ensures { (result ≡ writes buf.old self (bytes_call self blob.now)) × (buf.new ≡ leaves buf.old self (bytes_call self blob.now)) }
    {
        let wrong = wrong::length_refusal(blob, self.limits);
        let why = self.refusal(buf.len(), self.over(wrong, 4, blob.len()));
        if why != 0 {
            return self.refused(why);
        }
        let at = self.place.0;
        let wrote = binary_puts::binary(buf, at, blob);
        self.moved(wrote)
    }

    pub fn write_string(self, buf: &mut [u8], text: &[u8]) -> BinaryWritten
        ensures { (result ≡ writes buf.old self (string_call self text.now)) × (buf.new ≡ leaves buf.old self (string_call self text.now)) }
    {
        let wrong = wrong::text_refusal(text, self.limits);
        let why = self.refusal(buf.len(), self.over(wrong, 4, text.len()));
        if why != 0 {
            return self.refused(why);
        }
        let at = self.place.0;
        let wrote = binary_puts::binary(buf, at, text);
        self.moved(wrote)
    }

    pub fn write_list_begin(self, buf: &mut [u8], kind: TType, count: i32) -> BinaryWritten
        ensures { (result ≡ writes buf.old self (items_call self kind count)) × (buf.new ≡ leaves buf.old self (items_call self kind count)) }
    {
        let wrong = wrong::count_refusal(kind, kind, count, self.limits);
        let why = self.refusal(buf.len(), self.over(wrong, 5, 0));
        if why != 0 {
            return self.refused(why);
        }
        let at = self.place.0;
        let wrote = binary_puts::items(buf, at, kind, wrong::size_of(count));
        self.moved(wrote)
    }

    pub fn write_set_begin(self, buf: &mut [u8], element: TType, count: i32) -> BinaryWritten
        ensures { (result ≡ writes buf.old self (items_call self element count)) × (buf.new ≡ leaves buf.old self (items_call self element count)) }
    {
        let wrong = wrong::count_refusal(element, element, count, self.limits);
        let why = self.refusal(buf.len(), self.over(wrong, 5, 0));
        if why != 0 {
            return self.refused(why);
        }
        let at = self.place.0;
        let wrote = binary_puts::items(buf, at, element, wrong::size_of(count));
        self.moved(wrote)
    }

    // Of an empty map the types given have no say.
    pub fn write_map_begin(
        self,
        buf: &mut [u8],
        key: TType,
        value: TType,
        count: i32,
    ) -> BinaryWritten
        ensures { (result ≡ writes buf.old self (pairs_call self key value count)) × (buf.new ≡ leaves buf.old self (pairs_call self key value count)) }
    {
        let wrong = wrong::count_refusal(key, value, count, self.limits);
        let why = self.refusal(buf.len(), self.over(wrong, 6, 0));
        if why != 0 {
            return self.refused(why);
        }
        let at = self.place.0;
        let wrote = binary_puts::pairs(buf, at, key, value, wrong::size_of(count));
        self.moved(wrote)
    }
}
