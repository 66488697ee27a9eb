// The writer: TCompactOutputProtocol as a state by value, over a lent buffer. Every call answers Written or the number of a refusal, and hands
// back the next state; a refused call hands back the state as it was and leaves the buffer's bytes.
#![tactic(auto)]

ghost use Rattle.std.specs.Prelude.{◌≡◌, ◌+◌, length};
ghost use Rattle.output.specs.State.{begun, begun_at, unsound, in_turn, left_of, begun_here, headed};
ghost use Rattle.puts.specs.Bytes.{above, items_bytes, pairs_bytes};
ghost use Rattle.puts.specs.Wrong.{or_else, count_wrong};
ghost use Rattle.output.specs.Calls.{refused_by, settled, size_wrong, begin_wrong, end_wrong, writes, leaves, message_call, struct_begin_call, struct_end_call, field_call, stop_call, bool_call, i8_call, int_call, double_call, uuid_call, bytes_call, string_call, items_call, pairs_call};

use numbers::Wrote;
use puts::wrong;
use types::{FieldId, Place, SeqNo, TConfiguration, TMessageType, TType};
use zigzag::Zigzag;

// The bool field whose header waits for its value, if there is one.
#[derive(Clone, Copy)]
pub enum AwaitedField {
    Nothing,
    Field(FieldId),
}

#[derive(Clone, Copy)]
pub struct PendingField(pub AwaitedField);

// The last field's id; how many structs are open, and for each the id to go back to; a bool field that waits; the limits; and where the
// message began, from which its ceiling counts.
#[derive(Clone, Copy)]
pub struct TCompactOutputProtocol {
    pub place: Place,
    pub last: FieldId,
    pub depth: usize,
    pub ids: [i16; 64],
    pub pending: PendingField,
    pub limits: TConfiguration,
    pub begin: Place,
}

// A uuid is its 16 bytes: no other number of them can be given.
pub type Uuid = [u8; 16];

#[derive(Clone, Copy)]
pub enum WriteAnswer {
    Written,
    Refused(u8),
}

#[derive(Clone, Copy)]
pub struct Written {
    pub answer: WriteAnswer,
    pub state: TCompactOutputProtocol,
}

impl TCompactOutputProtocol {
    // At the start of its buffer.
    pub fn new(limits: TConfiguration) -> Self
        ensures { result ≡ begun limits }
    {
        TCompactOutputProtocol::new_at(Place(0), limits)
    }

    // In the middle of its buffer: what stands before has no part in the count.
    pub fn new_at(place: Place, limits: TConfiguration) -> Self
        ensures { result ≡ begun_at place limits }
    {
        Self {
            place,
            last: FieldId(0),
            depth: 0,
            ids: [0; 64],
            pending: PendingField(AwaitedField::Nothing),
            limits,
            begin: place,
        }
    }

    // BAD STATE, or 0.
    fn unsound(self, len: usize) -> u8
        ensures { result ≡ unsound len self }
    {
        if self.limits.in_range() {
            if len < self.place.0 {
                return types::BAD_STATE;
            }
            if self.limits.depth < self.depth {
                return types::BAD_STATE;
            }
            if self.place.0 < self.begin.0 {
                return types::BAD_STATE;
            }
            if (self.limits.message as usize) < self.place.0 - self.begin.0 {
                return types::BAD_STATE;
            }
            return 0;
        }
        types::BAD_STATE
    }

    // How many bytes more the ceiling leaves the message.
    fn left(self) -> usize
        ensures { result ≡ left_of self }
    {
        let most = self.limits.message as usize;
        if self.place.0 < self.begin.0 {
            return most;
        }
        let used = self.place.0 - self.begin.0;
        if most < used {
            return 0;
        }
        most - used
    }

    // What is wrong with a call's arguments, or else MESSAGE SIZE where its bytes, of which it has `head` and `body`, pass the ceiling.
    fn over(self, wrong: u8, head: usize, body: usize) -> u8
        ensures { result ≡ or_else wrong (size_wrong self (head + body)) }
    {
        if wrong != 0 {
            return wrong;
        }
        let left = self.left();
        if left < head {
            return types::MESSAGE_SIZE;
        }
        if left - head < body {
            return types::MESSAGE_SIZE;
        }
        0
    }

    // The same for a list's or a set's header, for a map's, and for bytes as they are.
    fn items_over(self, kind: TType, count: i32) -> u8
        ensures { result ≡ or_else (count_wrong self.limits kind kind count) (size_wrong self (length (items_bytes kind (above count)))) }
    {
        let wrong = wrong::count_refusal(kind, kind, count, self.limits);
        self.over(wrong, puts::items_len(kind, wrong::size_of(count)), 0)
    }

    fn pairs_over(self, key: TType, value: TType, count: i32) -> u8
        ensures { result ≡ or_else (count_wrong self.limits key value count) (size_wrong self (length (pairs_bytes key value (above count)))) }
    {
        let wrong = wrong::count_refusal(key, value, count, self.limits);
        self.over(wrong, puts::pairs_len(key, value, wrong::size_of(count)), 0)
    }

    fn bytes_over(self, bytes: &[u8]) -> u8
        ensures { result ≡ or_else 0 (size_wrong self (length bytes.now)) }
    {
        self.over(0, 0, bytes.len())
    }

    // The same for a message that begins here.
    fn over_anew(self, wrong: u8, head: usize, body: usize) -> u8
        ensures { result ≡ or_else wrong (size_wrong (begun_here self) (head + body)) }
    {
        let begin = self.place;
        let mut next = self;
        next.begin = begin;
        next.over(wrong, head, body)
    }

    // What stops the bool call, which is never out of turn.
    fn stop(self, len: usize, wrong: u8) -> u8
        ensures { result ≡ or_else (unsound len self) wrong }
    {
        let why = self.unsound(len);
        if why != 0 {
            return why;
        }
        wrong
    }

    // What stops a call: BAD STATE, OUT OF TURN while a bool is pending, or else what is wrong with its arguments.
    fn refusal(self, len: usize, wrong: u8) -> u8
        ensures { result ≡ or_else (unsound len self) (in_turn self wrong) }
    {
        let why = self.unsound(len);
        if why != 0 {
            return why;
        }
        let pending = self.pending;
        let awaited = pending.0;
        match awaited {
            AwaitedField::Nothing => wrong,
            AwaitedField::Field(_) => types::OUT_OF_TURN,
        }
    }

    fn refused(self, why: u8) -> Written
        ensures { result ≡ refused_by self why }
    {
        Written {
            answer: WriteAnswer::Refused(why),
            state: self,
        }
    }

    // The state behind what was written.
    fn moved(self, wrote: Wrote) -> Written
        ensures { result ≡ settled self self wrote }
    {
        match wrote {
            Wrote::Refused(why) => self.refused(why),
            Wrote::To(p) => {
                let mut next = self;
                let place = Place(p);
                next.place = place;
                Written {
                    answer: WriteAnswer::Written,
                    state: next,
                }
            }
        }
    }

    // The state behind a message's header: the message began at its first byte.
    fn begun(self, wrote: Wrote) -> Written
        ensures { result ≡ settled self (begun_here self) wrote }
    {
        match wrote {
            Wrote::Refused(why) => self.refused(why),
            Wrote::To(p) => {
                let begin = self.place;
                let mut next = self;
                let place = Place(p);
                next.place = place;
                next.begin = begin;
                Written {
                    answer: WriteAnswer::Written,
                    state: next,
                }
            }
        }
    }

    // The state behind a field's header: its id is the last one, and no bool is pending.
    fn headed(self, id: FieldId, wrote: Wrote) -> Written
        ensures { result ≡ settled self (headed self id) wrote }
    {
        match wrote {
            Wrote::Refused(why) => self.refused(why),
            Wrote::To(p) => {
                let mut next = self;
                let place = Place(p);
                let pending = PendingField(AwaitedField::Nothing);
                next.place = place;
                next.last = id;
                next.pending = pending;
                Written {
                    answer: WriteAnswer::Written,
                    state: next,
                }
            }
        }
    }

    fn begin_refusal(self) -> u8
        ensures { result ≡ begin_wrong self }
    {
        if self.limits.depth <= self.depth {
            return types::DEPTH;
        }
        0
    }

    fn end_refusal(self) -> u8
        ensures { result ≡ end_wrong self }
    {
        if self.depth == 0 {
            return types::OUT_OF_TURN;
        }
        0
    }

    // The last id stays: only a struct's begin sets it to 0.
    pub fn write_message_begin(
        self,
        buf: &mut [u8],
        kind: TMessageType,
        sequence: SeqNo,
        name: &[u8],
    ) -> Written
        ensures { (result ≡ writes buf.old self (message_call self kind sequence name.now)) × (buf.new ≡ leaves buf.old self (message_call self kind sequence name.now)) }
    {
        let wrong = wrong::text_refusal(name, self.limits);
        let why = self.refusal(
            buf.len(),
            self.over_anew(wrong, puts::message_head(sequence, name), name.len()),
        );
        if why != 0 {
            return self.refused(why);
        }
        let at = self.place.0;
        let wrote = puts::message(buf, at, kind, sequence, name);
        self.begun(wrote)
    }

    pub fn write_struct_begin(self, buf: &mut [u8]) -> Written
        ensures { (result ≡ writes buf.old self (struct_begin_call self)) × (buf.new ≡ leaves buf.old self (struct_begin_call self)) }
    {
        let why = self.refusal(buf.len(), self.begin_refusal());
        if why != 0 {
            return self.refused(why);
        }
        let depth = self.depth;
        let id = self.last.0;
        let last = FieldId(0);
        let mut next = self;
        next.ids[depth] = id;
        next.last = last;
        next.depth = depth + 1;
        Written {
            answer: WriteAnswer::Written,
            state: next,
        }
    }

    pub fn write_struct_end(self, buf: &mut [u8]) -> Written
        ensures { (result ≡ writes buf.old self (struct_end_call self)) × (buf.new ≡ leaves buf.old self (struct_end_call self)) }
    {
        let why = self.refusal(buf.len(), self.end_refusal());
        if why != 0 {
            return self.refused(why);
        }
        let back = self.depth - 1;
        let last = FieldId(self.ids[back]);
        let mut next = self;
        next.last = last;
        next.depth = back;
        Written {
            answer: WriteAnswer::Written,
            state: next,
        }
    }

    // A bool's header holds its value, so it waits for the bool call.
    pub fn write_field_begin(self, buf: &mut [u8], kind: TType, id: FieldId) -> Written
        ensures { (result ≡ writes buf.old self (field_call self kind id)) × (buf.new ≡ leaves buf.old self (field_call self kind id)) }
    {
        let code = types::type_to_u8(kind);
        if code == 1 {
            let why = self.refusal(buf.len(), 0);
            if why != 0 {
                return self.refused(why);
            }
            let pending = PendingField(AwaitedField::Field(id));
            let mut next = self;
            next.pending = pending;
            return Written {
                answer: WriteAnswer::Written,
                state: next,
            };
        }
        let wrong = wrong::field_refusal(kind);
        let why = self.refusal(
            buf.len(),
            self.over(wrong, puts::field_len(self.last, id, code), 0),
        );
        if why != 0 {
            return self.refused(why);
        }
        let at = self.place.0;
        let wrote = puts::field_header(buf, at, self.last, id, code);
        self.headed(id, wrote)
    }

    pub fn write_field_stop(self, buf: &mut [u8]) -> Written
        ensures { (result ≡ writes buf.old self (stop_call self)) × (buf.new ≡ leaves buf.old self (stop_call self)) }
    {
        let why = self.refusal(buf.len(), self.over(0, 1, 0));
        if why != 0 {
            return self.refused(why);
        }
        let at = self.place.0;
        let wrote = numbers::write_byte(buf, at, 0);
        self.moved(wrote)
    }

    // The header of the field that is pending, or else an element.
    pub fn write_bool(self, buf: &mut [u8], truth: bool) -> Written
        ensures { (result ≡ writes buf.old self (bool_call self truth)) × (buf.new ≡ leaves buf.old self (bool_call self truth)) }
    {
        let at = self.place.0;
        let code = types::bool_to_u8(truth);
        let pending = self.pending;
        let awaited = pending.0;
        match awaited {
            AwaitedField::Nothing => {
                let why = self.stop(buf.len(), self.over(0, 1, 0));
                if why != 0 {
                    return self.refused(why);
                }
                let wrote = numbers::write_byte(buf, at, code);
                self.moved(wrote)
            }
            AwaitedField::Field(id) => {
                let why = self.stop(
                    buf.len(),
                    self.over(0, puts::field_len(self.last, id, code), 0),
                );
                if why != 0 {
                    return self.refused(why);
                }
                let wrote = puts::field_header(buf, at, self.last, id, code);
                self.headed(id, wrote)
            }
        }
    }

    pub fn write_i8(self, buf: &mut [u8], n: i8) -> Written
        ensures { (result ≡ writes buf.old self (i8_call self n)) × (buf.new ≡ leaves buf.old self (i8_call self n)) }
    {
        let why = self.refusal(buf.len(), self.over(0, 1, 0));
        if why != 0 {
            return self.refused(why);
        }
        let at = self.place.0;
        let wrote = numbers::write_byte(buf, at, n.cast_unsigned());
        self.moved(wrote)
    }

    pub fn write_i16(self, buf: &mut [u8], n: i16) -> Written
        ensures { (result ≡ writes buf.old self (int_call self n)) × (buf.new ≡ leaves buf.old self (int_call self n)) }
    {
        let z: u16 = n.to_zigzag();
        let why = self.refusal(buf.len(), self.over(0, numbers::varint_len(z as u64), 0));
        if why != 0 {
            return self.refused(why);
        }
        let at = self.place.0;
        let wrote = numbers::write_varint32(buf, at, z as u32);
        self.moved(wrote)
    }

    pub fn write_i32(self, buf: &mut [u8], n: i32) -> Written
        ensures { (result ≡ writes buf.old self (int_call self n)) × (buf.new ≡ leaves buf.old self (int_call self n)) }
    {
        let z: u32 = n.to_zigzag();
        let why = self.refusal(buf.len(), self.over(0, numbers::varint_len(z as u64), 0));
        if why != 0 {
            return self.refused(why);
        }
        let at = self.place.0;
        let wrote = numbers::write_varint32(buf, at, z);
        self.moved(wrote)
    }

    pub fn write_i64(self, buf: &mut [u8], n: i64) -> Written
        ensures { (result ≡ writes buf.old self (int_call self n)) × (buf.new ≡ leaves buf.old self (int_call self n)) }
    {
        let z: u64 = n.to_zigzag();
        let why = self.refusal(buf.len(), self.over(0, numbers::varint_len(z), 0));
        if why != 0 {
            return self.refused(why);
        }
        let at = self.place.0;
        let wrote = numbers::write_varint64(buf, at, z);
        self.moved(wrote)
    }

    // A double is its 64 bits, so that any bits are kept.
    pub fn write_double(self, buf: &mut [u8], bits: u64) -> Written
        ensures { (result ≡ writes buf.old self (double_call self bits)) × (buf.new ≡ leaves buf.old self (double_call self bits)) }
    {
        let why = self.refusal(buf.len(), self.over(0, 8, 0));
        if why != 0 {
            return self.refused(why);
        }
        let at = self.place.0;
        let wrote = numbers::write_le64(buf, at, bits);
        self.moved(wrote)
    }

    pub fn write_uuid(self, buf: &mut [u8], uuid: &Uuid) -> Written
        ensures { (result ≡ writes buf.old self (uuid_call self uuid.now)) × (buf.new ≡ leaves buf.old self (uuid_call self uuid.now)) }
    {
        let why = self.refusal(buf.len(), self.bytes_over(uuid));
        if why != 0 {
            return self.refused(why);
        }
        let at = self.place.0;
        let wrote = puts::copy(buf, at, uuid);
        self.moved(wrote)
    }

    pub fn write_bytes(self, buf: &mut [u8], blob: &[u8]) -> Written
        ensures { (result ≡ writes buf.old self (bytes_call self blob.now)) × (buf.new ≡ leaves buf.old self (bytes_call self blob.now)) }
    {
        let wrong = wrong::length_refusal(blob, self.limits);
        let head = numbers::varint_len(blob.len() as u64);
        let why = self.refusal(buf.len(), self.over(wrong, head, blob.len()));
        if why != 0 {
            return self.refused(why);
        }
        let at = self.place.0;
        let wrote = puts::binary(buf, at, blob);
        self.moved(wrote)
    }

    pub fn write_string(self, buf: &mut [u8], text: &[u8]) -> Written
        ensures { (result ≡ writes buf.old self (string_call self text.now)) × (buf.new ≡ leaves buf.old self (string_call self text.now)) }
    {
        let wrong = wrong::text_refusal(text, self.limits);
        let head = numbers::varint_len(text.len() as u64);
        let why = self.refusal(buf.len(), self.over(wrong, head, text.len()));
        if why != 0 {
            return self.refused(why);
        }
        let at = self.place.0;
        let wrote = puts::binary(buf, at, text);
        self.moved(wrote)
    }

    pub fn write_list_begin(self, buf: &mut [u8], kind: TType, count: i32) -> Written
        ensures { (result ≡ writes buf.old self (items_call self kind count)) × (buf.new ≡ leaves buf.old self (items_call self kind count)) }
    {
        let why = self.refusal(buf.len(), self.items_over(kind, count));
        if why != 0 {
            return self.refused(why);
        }
        let at = self.place.0;
        let wrote = puts::items(buf, at, kind, wrong::size_of(count));
        self.moved(wrote)
    }

    pub fn write_set_begin(self, buf: &mut [u8], element: TType, count: i32) -> Written
        ensures { (result ≡ writes buf.old self (items_call self element count)) × (buf.new ≡ leaves buf.old self (items_call self element count)) }
    {
        let why = self.refusal(buf.len(), self.items_over(element, count));
        if why != 0 {
            return self.refused(why);
        }
        let at = self.place.0;
        let wrote = puts::items(buf, at, element, wrong::size_of(count));
        self.moved(wrote)
    }

    // An empty map has no types, so those given have no say.
    pub fn write_map_begin(self, buf: &mut [u8], key: TType, value: TType, count: i32) -> Written
        ensures { (result ≡ writes buf.old self (pairs_call self key value count)) × (buf.new ≡ leaves buf.old self (pairs_call self key value count)) }
    {
        let why = self.refusal(buf.len(), self.pairs_over(key, value, count));
        if why != 0 {
            return self.refused(why);
        }
        let at = self.place.0;
        let wrote = puts::pairs(buf, at, key, value, wrong::size_of(count));
        self.moved(wrote)
    }
}
