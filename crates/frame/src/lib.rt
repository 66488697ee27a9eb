// Frames whose bytes come in bursts: a skip of one struct that keeps its place between them.
#![tactic(auto)]

ghost use Rattle.std.specs.Prelude.{◌≡◌, ◌+◌, ◌<◌, ◌≤◌, length};
ghost use Rattle.frame.specs.Machine.{settled, entered, ran};
ghost use Rattle.frame.specs.State.{asked, held, rest_of, Stands, stops_at, waits_at, Allowed, goal_need, need, progress_of, ran_to, Standing, ready_by, waits_well, counts_well, is_refusal, sound_of, answer_of, shut_of, close_of, Begins, Went, Took};
ghost use Rattle.frame.specs.Moves.{weight_of, grown, short_id, long_id, head_move, start_move, open_move, start_pairs, open_pairs, list_move, types_move, number_move, length_move, pairs_move, goal_move, moved, Ready, applied};
ghost use Rattle.frame.specs.Turns.{width_of, in_room, begun, value_turn, up_turn, item_turn, pair_turn, second_turn, turned, near_pass, near_value, near_move};

use types::{FieldId, FieldType, TConfiguration, TType, TypeRead};
use zigzag::Zigzag;

mod whole;

// An open container and what of it is still to come: a struct's fields behind an id; so many elements; so many pairs; a value, then so
// many pairs.
#[derive(Clone, Copy)]
pub enum Nest {
    Fields(FieldId),
    Items(TType, u32),
    Keys(TType, TType, u32),
    Values(TType, TType, u32),
}

#[derive(Clone, Copy)]
pub struct Level(pub Nest);

// A number of which some groups of 7 bits have come.
#[derive(Clone, Copy)]
pub struct Part {
    pub groups: u8,
    pub low: u32,
}

// What a number is for that comes in groups of 7 bits: a bool field's id, another field's, a list's or set's count, a map's, a string's
// length, an i16.
#[derive(Clone, Copy)]
pub enum Goal {
    Flag,
    Id(TType),
    Count(TType),
    Pairs,
    Length,
    Short,
}

// What the next byte that is looked at says: a field's header, a bool, a list's or set's header, the types of a map with so many pairs,
// the next group of a number, or one of at most so many bytes of a number that nobody needs.
#[derive(Clone, Copy)]
pub enum Wait {
    Head,
    Truth,
    List,
    Types(u32),
    Varint(Goal, Part),
    Number(u8),
}

// What a byte that is looked at leads to: a refusal; another byte to look at; so many bytes to pass over, and on with what is open; the
// innermost struct ends; a container is opened; the innermost struct goes on behind an id, or a value of a type in it begins.
#[derive(Clone, Copy)]
pub enum Moved {
    Refused(u8),
    Waits(Wait),
    Passed(u32),
    Closed,
    Opened(Nest),
    Named(FieldId),
    Valued(FieldId, TType),
}

// How a value begins: with a byte to look at; a struct, whose first header is looked at; bytes that nobody looks at; a refusal.
#[derive(Clone, Copy)]
enum Begun {
    Asks(Wait),
    Enters,
    Passes,
    Refused(u8),
}

// One turn over the innermost that is open, with the bytes to pass over: it is done; it is now this, and a byte is looked at; it is now
// this, and a struct in it begins; a refusal.
#[derive(Clone, Copy)]
enum Turn {
    Up(usize),
    Asks(Nest, usize, Wait),
    Enters(Nest, usize),
    Refused(u8),
}

// A number one byte on.
#[derive(Clone, Copy)]
enum Grown {
    Whole(u32),
    More(Part),
    Long,
}

// An id of 16 bits, or none.
#[derive(Clone, Copy)]
enum ShortId {
    Got(FieldId),
    Over,
}

fn weight(groups: u8) -> u64
    requires { groups ≤ 4 }
    ensures { result ≡ weight_of groups }
{
    if groups == 0 {
        return 1;
    }
    if groups == 1 {
        return 128;
    }
    if groups == 2 {
        return 16_384;
    }
    if groups == 3 {
        return 2_097_152;
    }
    268_435_456
}

fn grow(part: Part, b: u8) -> Grown
    requires { part.groups ≤ 4 }
    ensures { result ≡ grown part b }
{
    let sum = (part.low as u64) + weight(part.groups) * ((b % 128) as u64);
    let low = (sum % 0x1_0000_0000) as u32;
    if b < 128 {
        return Grown::Whole(low);
    }
    if part.groups < 4 {
        return Grown::More(Part {
            groups: part.groups + 1,
            low,
        });
    }
    Grown::Long
}

fn short_id(last: FieldId, delta: u8) -> ShortId
    requires { delta < 16 }
    ensures { result ≡ short_id last.0 delta }
{
    let sum = (last.0 as i32) + (delta as i32);
    if 32767 < sum {
        return ShortId::Over;
    }
    ShortId::Got(FieldId(sum as i16))
}

fn long_id(n: u32) -> ShortId
    ensures { result ≡ long_id n }
{
    if n < 0x1_0000 {
        return ShortId::Got(FieldId(i16::from_zigzag(n as u16)));
    }
    ShortId::Over
}

fn head(last: FieldId, b: u8) -> Moved
    ensures { result ≡ head_move last.0 b }
{
    let delta = b / 16;
    match types::field_u8_to_type(b % 16) {
        FieldType::Stop => Moved::Closed,
        FieldType::Refused(why) => Moved::Refused(why),
        FieldType::Truth(_) => {
            if delta == 0 {
                return Moved::Waits(Wait::Varint(Goal::Flag, Part { groups: 0, low: 0 }));
            }
            match short_id(last, delta) {
                ShortId::Got(id) => Moved::Named(id),
                ShortId::Over => Moved::Refused(types::FIELD_ID),
            }
        }
        FieldType::Kind(kind) => {
            if delta == 0 {
                return Moved::Waits(Wait::Varint(Goal::Id(kind), Part { groups: 0, low: 0 }));
            }
            match short_id(last, delta) {
                ShortId::Got(id) => Moved::Valued(id, kind),
                ShortId::Over => Moved::Refused(types::FIELD_ID),
            }
        }
    }
}

fn start(kind: TType, n: u32) -> Moved
    ensures { result ≡ start_move kind n }
{
    if skip::can_begin(kind, n) {
        return Moved::Opened(Nest::Items(kind, n));
    }
    Moved::Refused(types::BAD_TYPE)
}

// A list or set is opened: `left` bytes of the frame stand behind its header.
fn open(limits: TConfiguration, left: usize, kind: TType, n: u32) -> Moved
    ensures { result ≡ open_move limits left kind n }
{
    let why = heads::count_refusal(n, limits);
    if why != 0 {
        return Moved::Refused(why);
    }
    if left < heads::least_bytes(n, kind) {
        return Moved::Refused(types::END);
    }
    start(kind, n)
}

fn list(limits: TConfiguration, left: usize, b: u8) -> Moved
    ensures { result ≡ list_move limits left b }
{
    match types::collection_u8_to_type(b % 16) {
        TypeRead::Refused(why) => Moved::Refused(why),
        TypeRead::Got(kind) => {
            let high = b / 16;
            if high < 15 {
                return open(limits, left, kind, high as u32);
            }
            Moved::Waits(Wait::Varint(Goal::Count(kind), Part { groups: 0, low: 0 }))
        }
    }
}

fn start_pairs(key: TType, value: TType, n: u32) -> Moved
    ensures { result ≡ start_pairs key value n }
{
    if skip::can_begin(key, n) {
        if skip::can_begin(value, n) {
            return Moved::Opened(Nest::Keys(key, value, n));
        }
        return Moved::Refused(types::BAD_TYPE);
    }
    Moved::Refused(types::BAD_TYPE)
}

fn open_pairs(limits: TConfiguration, left: usize, key: TType, value: TType, n: u32) -> Moved
    ensures { result ≡ open_pairs limits left key value n }
{
    let why = heads::count_refusal(n, limits);
    if why != 0 {
        return Moved::Refused(why);
    }
    if left < heads::least_bytes(n, key) + heads::least_bytes(n, value) {
        return Moved::Refused(types::END);
    }
    start_pairs(key, value, n)
}

fn open_map(limits: TConfiguration, left: usize, n: u32, b: u8) -> Moved
    ensures { result ≡ types_move limits left n b }
{
    match types::collection_u8_to_type(b / 16) {
        TypeRead::Refused(why) => Moved::Refused(why),
        TypeRead::Got(key) => match types::collection_u8_to_type(b % 16) {
            TypeRead::Refused(why) => Moved::Refused(why),
            TypeRead::Got(value) => open_pairs(limits, left, key, value, n),
        },
    }
}

fn number(k: u8, b: u8) -> Moved
    requires { 1 ≤ k }
    ensures { result ≡ number_move k b }
{
    if b < 128 {
        return Moved::Passed(0);
    }
    if 1 < k {
        return Moved::Waits(Wait::Number(k - 1));
    }
    Moved::Refused(types::LONG_VARINT)
}

fn length_of(limits: TConfiguration, n: u32) -> Moved
    ensures { result ≡ length_move limits n }
{
    if n <= limits.string {
        return Moved::Passed(n);
    }
    Moved::Refused(types::SIZE_LIMIT)
}

fn pairs(n: u32) -> Moved
    ensures { result ≡ pairs_move n }
{
    if n == 0 {
        return Moved::Passed(0);
    }
    Moved::Waits(Wait::Types(n))
}

// A number has come whole.
fn reach(limits: TConfiguration, left: usize, goal: Goal, n: u32) -> Moved
    ensures { result ≡ goal_move limits left goal n }
{
    match goal {
        Goal::Flag => match long_id(n) {
            ShortId::Got(id) => Moved::Named(id),
            ShortId::Over => Moved::Refused(types::RANGE),
        },
        Goal::Id(kind) => match long_id(n) {
            ShortId::Got(id) => Moved::Valued(id, kind),
            ShortId::Over => Moved::Refused(types::RANGE),
        },
        Goal::Count(kind) => open(limits, left, kind, n),
        Goal::Pairs => pairs(n),
        Goal::Length => length_of(limits, n),
        Goal::Short => match long_id(n) {
            ShortId::Got(_) => Moved::Passed(0),
            ShortId::Over => Moved::Refused(types::RANGE),
        },
    }
}

// What a byte leads to where `wait` is waited for: `left` bytes of the frame stand behind it.
fn step(limits: TConfiguration, left: usize, top: Nest, wait: Wait, b: u8) -> Moved
    requires { Ready wait }
    ensures { result ≡ moved limits left top wait b }
{
    match wait {
        Wait::Head => match top {
            Nest::Fields(last) => head(last, b),
            Nest::Items(_, _) => Moved::Refused(types::END),
            Nest::Keys(_, _, _) => Moved::Refused(types::END),
            Nest::Values(_, _, _) => Moved::Refused(types::END),
        },
        Wait::Truth => {
            if b < 3 {
                return Moved::Passed(0);
            }
            Moved::Refused(types::BAD_BOOL)
        }
        Wait::List => list(limits, left, b),
        Wait::Types(n) => open_map(limits, left, n, b),
        Wait::Varint(goal, part) => match grow(part, b) {
            Grown::Whole(n) => reach(limits, left, goal, n),
            Grown::More(more) => Moved::Waits(Wait::Varint(goal, more)),
            Grown::Long => Moved::Refused(types::LONG_VARINT),
        },
        Wait::Number(k) => number(k, b),
    }
}

fn width(kind: TType) -> usize
    ensures is { result ≡ width_of kind }
    ensures small { result ≤ 16 }
{
    match kind {
        TType::Stop => 0,
        TType::Bool => 0,
        TType::I08 => 1,
        TType::I16 => 0,
        TType::I32 => 0,
        TType::I64 => 0,
        TType::Double => 8,
        TType::String => 0,
        TType::List => 0,
        TType::Set => 0,
        TType::Map => 0,
        TType::Struct => 0,
        TType::Uuid => 16,
    }
}

fn in_room(limits: TConfiguration, held: usize, begun: Begun) -> Begun
    ensures { result ≡ in_room limits held begun }
{
    if held < limits.depth {
        return begun;
    }
    Begun::Refused(types::DEPTH)
}

fn begin_value(limits: TConfiguration, held: usize, kind: TType) -> Begun
    ensures { result ≡ begun limits held kind }
{
    match kind {
        TType::Stop => Begun::Refused(types::BAD_TYPE),
        TType::Bool => Begun::Asks(Wait::Truth),
        TType::I08 => Begun::Passes,
        TType::I16 => Begun::Asks(Wait::Varint(Goal::Short, Part { groups: 0, low: 0 })),
        TType::I32 => Begun::Asks(Wait::Number(5)),
        TType::I64 => Begun::Asks(Wait::Number(10)),
        TType::Double => Begun::Passes,
        TType::String => Begun::Asks(Wait::Varint(Goal::Length, Part { groups: 0, low: 0 })),
        TType::List => in_room(limits, held, Begun::Asks(Wait::List)),
        TType::Set => in_room(limits, held, Begun::Asks(Wait::List)),
        TType::Map => in_room(
            limits,
            held,
            Begun::Asks(Wait::Varint(Goal::Pairs, Part { groups: 0, low: 0 })),
        ),
        TType::Struct => in_room(limits, held, Begun::Enters),
        TType::Uuid => Begun::Passes,
    }
}

fn value_turn(limits: TConfiguration, held: usize, nest: Nest, body: usize, kind: TType) -> Turn
    ensures { result ≡ value_turn limits held nest body kind }
{
    match begin_value(limits, held, kind) {
        Begun::Asks(wait) => Turn::Asks(nest, body, wait),
        Begun::Enters => Turn::Enters(nest, body),
        Begun::Passes => Turn::Refused(types::END),
        Begun::Refused(why) => Turn::Refused(why),
    }
}

fn up_turn(left: usize, body: usize, n: usize) -> Turn
    requires { body ≤ left }
    ensures { result ≡ up_turn left body n }
{
    if n <= left - body {
        return Turn::Up(body + n);
    }
    Turn::Refused(types::END)
}

fn item_turn(
    limits: TConfiguration,
    left: usize,
    held: usize,
    kind: TType,
    n: u32,
    body: usize,
) -> Turn
    requires { body ≤ left }
    ensures { result ≡ item_turn limits left held kind n body }
{
    if n == 0 {
        return Turn::Up(body);
    }
    let w = width(kind);
    if 0 < w {
        return up_turn(left, body, (n as usize) * w);
    }
    value_turn(limits, held, Nest::Items(kind, n - 1), body, kind)
}

fn pair_turn(
    limits: TConfiguration,
    left: usize,
    held: usize,
    key: TType,
    value: TType,
    n: u32,
    body: usize,
) -> Turn
    requires { body ≤ left }
    ensures { result ≡ pair_turn limits left held key value n body }
{
    if n == 0 {
        return Turn::Up(body);
    }
    let k = width(key);
    if 0 < k {
        let v = width(value);
        if 0 < v {
            return up_turn(left, body, (n as usize) * (k + v));
        }
        if k <= left - body {
            return value_turn(limits, held, Nest::Keys(key, value, n - 1), body + k, value);
        }
        return Turn::Refused(types::END);
    }
    value_turn(limits, held, Nest::Values(key, value, n - 1), body, key)
}

fn second_turn(
    limits: TConfiguration,
    left: usize,
    held: usize,
    key: TType,
    value: TType,
    n: u32,
    body: usize,
) -> Turn
    requires { body ≤ left }
    ensures { result ≡ second_turn limits left held key value n body }
{
    let v = width(value);
    if 0 < v {
        if v <= left - body {
            return pair_turn(limits, left, held, key, value, n, body + v);
        }
        return Turn::Refused(types::END);
    }
    value_turn(limits, held, Nest::Keys(key, value, n), body, value)
}

fn turn_over(limits: TConfiguration, left: usize, held: usize, nest: Nest, body: usize) -> Turn
    requires { body ≤ left }
    ensures { result ≡ turned limits left held nest body }
{
    match nest {
        Nest::Fields(id) => Turn::Asks(Nest::Fields(id), body, Wait::Head),
        Nest::Items(kind, n) => item_turn(limits, left, held, kind, n, body),
        Nest::Keys(key, value, n) => pair_turn(limits, left, held, key, value, n, body),
        Nest::Values(key, value, n) => second_turn(limits, left, held, key, value, n, body),
    }
}

// Where the machine rests: it waits for a byte; the struct has ended; a refusal.
#[derive(Clone, Copy)]
pub enum Now {
    Asks(Wait),
    Done(usize),
    Refused(u8),
}

#[derive(Clone, Copy)]
pub struct Resting(pub Now);

// What is open, the bytes to pass over, and what then.
#[derive(Clone, Copy)]
pub struct Stand {
    pub levels: [Level; 64],
    pub depth: usize,
    pub body: usize,
    pub rest: Resting,
}

fn ask(left: usize, body: usize, wait: Wait) -> Resting
    ensures { result ≡ asked left body wait }
{
    if body < left {
        return Resting(Now::Asks(wait));
    }
    Resting(Now::Refused(types::END))
}

// What a move makes of the innermost alone: it is now this, with bytes to pass over and what then; or others are touched too.
#[derive(Clone, Copy)]
enum Near {
    Rests(Nest, usize, Resting),
    Far,
}

fn near_pass(limits: TConfiguration, left: usize, held: usize, top: Nest, n: usize) -> Near
    ensures { result ≡ near_pass limits left held top n }
{
    if n <= left {
        return match turn_over(limits, left, held, top, n) {
            Turn::Up(_) => Near::Far,
            Turn::Asks(nest, body, wait) => Near::Rests(nest, body, ask(left, body, wait)),
            Turn::Enters(_, _) => Near::Far,
            Turn::Refused(why) => Near::Rests(top, 0, Resting(Now::Refused(why))),
        };
    }
    Near::Rests(top, 0, Resting(Now::Refused(types::END)))
}

fn near_value(limits: TConfiguration, left: usize, held: usize, id: FieldId, kind: TType) -> Near
    ensures { result ≡ near_value limits left held id kind }
{
    let top = Nest::Fields(id);
    let w = width(kind);
    if 0 < w {
        if w <= left {
            return Near::Rests(top, w, ask(left, w, Wait::Head));
        }
        return Near::Rests(top, 0, Resting(Now::Refused(types::END)));
    }
    match begin_value(limits, held, kind) {
        Begun::Asks(wait) => Near::Rests(top, 0, ask(left, 0, wait)),
        Begun::Enters => Near::Far,
        Begun::Passes => Near::Far,
        Begun::Refused(why) => Near::Rests(top, 0, Resting(Now::Refused(why))),
    }
}

// The short way: most bytes change the innermost alone, and then no row is read or written but its own.
fn near_move(limits: TConfiguration, left: usize, held: usize, top: Nest, moved: Moved) -> Near
    ensures { result ≡ near_move limits left held top moved }
{
    match moved {
        Moved::Refused(why) => Near::Rests(top, 0, Resting(Now::Refused(why))),
        Moved::Waits(wait) => Near::Rests(top, 0, ask(left, 0, wait)),
        Moved::Passed(n) => near_pass(limits, left, held, top, n as usize),
        Moved::Closed => Near::Far,
        Moved::Opened(_) => Near::Far,
        Moved::Named(id) => Near::Rests(Nest::Fields(id), 0, ask(left, 0, Wait::Head)),
        Moved::Valued(id, kind) => near_value(limits, left, held, id, kind),
    }
}

fn stops(levels: [Level; 64], depth: usize, body: usize, why: u8) -> Stand
    ensures { result ≡ stops_at levels depth body why }
{
    let rest = Resting(Now::Refused(why));
    Stand {
        levels,
        depth,
        body,
        rest,
    }
}

fn waits(left: usize, levels: [Level; 64], depth: usize, body: usize, wait: Wait) -> Stand
    ensures { result ≡ waits_at left levels depth body wait }
{
    let rest = ask(left, body, wait);
    Stand {
        levels,
        depth,
        body,
        rest,
    }
}

// On with what is open, up to the next byte that is looked at.
fn settle(
    limits: TConfiguration,
    left: usize,
    levels: [Level; 64],
    depth: usize,
    body: usize,
) -> Stand
    requires { (limits.depth ≤ 64) × (depth ≤ limits.depth) × (body ≤ left) }
    ensures { Stands limits (settled limits left (held levels depth) body) result }
{
    let mut rows = levels;
    let mut open = depth;
    let mut pass = body;
    while 0 < open {
        let level = rows[open - 1];
        let last = level.0;
        match turn_over(limits, left, open, last, pass) {
            Turn::Up(more) => {
                pass = more;
            }
            Turn::Asks(nest, more, wait) => {
                rows[open - 1] = Level(nest);
                return waits(left, rows, open, more, wait);
            }
            Turn::Enters(nest, more) => {
                rows[open - 1] = Level(nest);
                rows[open] = Level(Nest::Fields(FieldId(0)));
                return waits(left, rows, open + 1, more, Wait::Head);
            }
            Turn::Refused(why) => {
                return stops(rows, open, pass, why);
            }
        }
        open -= 1;
    }
    Stand {
        levels: rows,
        depth: 0,
        body: pass,
        rest: Resting(Now::Done(pass)),
    }
}

// A value of a type begins where so much is open.
fn enter(
    limits: TConfiguration,
    left: usize,
    levels: [Level; 64],
    depth: usize,
    kind: TType,
) -> Stand
    requires { (limits.depth ≤ 64) × (depth ≤ limits.depth) × (length levels ≡ 64) }
    ensures { Stands limits (entered limits left (held levels depth) kind) result }
{
    let w = width(kind);
    if 0 < w {
        if w <= left {
            return settle(limits, left, levels, depth, w);
        }
        return stops(levels, depth, 0, types::END);
    }
    match begin_value(limits, depth, kind) {
        Begun::Asks(wait) => waits(left, levels, depth, 0, wait),
        Begun::Enters => {
            let mut rows = levels;
            rows[depth] = Level(Nest::Fields(FieldId(0)));
            waits(left, rows, depth + 1, 0, Wait::Head)
        }
        Begun::Passes => stops(levels, depth, 0, types::END),
        Begun::Refused(why) => stops(levels, depth, 0, why),
    }
}

// A move is made.
fn apply(
    limits: TConfiguration,
    left: usize,
    levels: [Level; 64],
    depth: usize,
    moved: Moved,
) -> Stand
    requires { (limits.depth ≤ 64) × (0 < depth) × (depth ≤ limits.depth) × (length levels ≡ 64) × Allowed limits depth moved }
    ensures { Stands limits (applied limits left (held levels depth) moved) result }
{
    match moved {
        Moved::Refused(why) => stops(levels, depth, 0, why),
        Moved::Waits(wait) => waits(left, levels, depth, 0, wait),
        Moved::Passed(n) => {
            let body = n as usize;
            if body <= left {
                return settle(limits, left, levels, depth, body);
            }
            stops(levels, depth, 0, types::END)
        }
        Moved::Closed => settle(limits, left, levels, depth - 1, 0),
        Moved::Opened(nest) => {
            let mut rows = levels;
            rows[depth] = Level(nest);
            settle(limits, left, rows, depth + 1, 0)
        }
        Moved::Named(id) => {
            let mut rows = levels;
            rows[depth - 1] = Level(Nest::Fields(id));
            settle(limits, left, rows, depth, 0)
        }
        Moved::Valued(id, kind) => {
            let mut rows = levels;
            rows[depth - 1] = Level(Nest::Fields(id));
            enter(limits, left, rows, depth, kind)
        }
    }
}

// What is told of a frame: more bytes are waited for; it has ended, so many bytes used; a refusal.
#[derive(Clone, Copy)]
pub enum FrameAnswer {
    More,
    Done(usize),
    Refused(u8),
}

// How far a run has come: how many bytes of the frame are left up to its cut, how many were taken, and where its skip stands.
#[derive(Clone, Copy)]
struct Progress {
    pub left: usize,
    pub taken: usize,
    pub stand: Stand,
}

fn come_to(left: usize, taken: usize, stand: Stand) -> Progress
    ensures { result ≡ progress_of left taken stand }
{
    Progress { left, taken, stand }
}

// Bytes come.
fn run(limits: TConfiguration, from: Stand, left: usize, taken: usize, burst: &[u8]) -> Progress
    requires { Standing limits (taken + left) left taken from }
    ensures { (ran_to result ≡ ran limits left taken (rest_of from) burst.now) × Standing limits (taken + left) result.left result.taken result.stand }
{
    let mut stand = from;
    let mut rest = left;
    let mut used = taken;
    let mut at = 0;
    loop {
        let resting = stand.rest;
        let now = resting.0;
        let Now::Asks(wait) = now else {
            return come_to(rest, used, stand);
        };
        let body = stand.body;
        let here = burst.len() - at;
        if here <= body {
            stand.body = body - here;
            return come_to(rest - here, used + here, stand);
        }
        at += body;
        let b = burst[at];
        at += 1;
        rest -= body + 1;
        used += body + 1;
        let depth = stand.depth;
        let level = stand.levels[depth - 1];
        let top = level.0;
        let moved = step(limits, rest, top, wait, b);
        match near_move(limits, rest, depth, top, moved) {
            Near::Rests(nest, more, next) => {
                let inner = Level(nest);
                stand.levels[depth - 1] = inner;
                stand.body = more;
                stand.rest = next;
            }
            Near::Far => {
                let levels = stand.levels;
                stand = apply(limits, rest, levels, depth, moved);
            }
        }
    }
}

// What a call leads to.
#[derive(Clone, Copy)]
pub struct Taken {
    pub answer: FrameAnswer,
    pub state: FrameSkip,
}

// A skip of one struct whose bytes come in bursts: its limits, how many bytes are left up to the cut, how many were taken, how many
// announced bytes lie behind the cut, and where it stands.
#[derive(Clone, Copy)]
pub struct FrameSkip {
    pub limits: TConfiguration,
    pub left: usize,
    pub taken: usize,
    pub behind: usize,
    pub stand: Stand,
}

fn goal_needs(goal: Goal) -> usize
    ensures { result ≡ goal_need goal }
{
    match goal {
        Goal::Flag => 0,
        Goal::Id(t) => 0,
        Goal::Count(t) => 1,
        Goal::Pairs => 1,
        Goal::Length => 0,
        Goal::Short => 0,
    }
}

fn needs(wait: Wait) -> usize
    ensures { result ≡ need wait }
{
    match wait {
        Wait::Head => 0,
        Wait::Truth => 0,
        Wait::List => 1,
        Wait::Types(n) => 1,
        Wait::Varint(goal, p) => goal_needs(goal),
        Wait::Number(k) => 0,
    }
}

fn ready(top: Nest, wait: Wait) -> bool
    ensures { result ≡ ready_by top wait }
{
    match wait {
        Wait::Head => match top {
            Nest::Fields(id) => true,
            Nest::Items(t, n) => false,
            Nest::Keys(k, v, n) => false,
            Nest::Values(k, v, n) => false,
        },
        Wait::Truth => true,
        Wait::List => true,
        Wait::Types(n) => true,
        Wait::Varint(goal, p) => p.groups <= 4,
        Wait::Number(k) => 1 <= k,
    }
}

fn waits_well(
    limits: TConfiguration,
    left: usize,
    levels: [Level; 64],
    depth: usize,
    body: usize,
    wait: Wait,
) -> bool
    ensures { result ≡ waits_well limits left levels depth body wait }
{
    if depth == 0 {
        return false;
    }
    if 64 < limits.depth {
        return false;
    }
    if limits.depth < depth {
        return false;
    }
    if limits.depth - depth < needs(wait) {
        return false;
    }
    if left <= body {
        return false;
    }
    let level = levels[depth - 1];
    let top = level.0;
    ready(top, wait)
}

fn counts_well(most: usize, left: usize, taken: usize, behind: usize) -> bool
    ensures { result ≡ counts_well most left taken behind }
{
    if left <= most {
        if taken <= most - left {
            if behind == 0 {
                return true;
            }
            return taken == most - left;
        }
        return false;
    }
    false
}

fn is_refusal(why: u8) -> bool
    ensures { result ≡ is_refusal why }
{
    if why == types::END {
        return true;
    }
    if why == types::RANGE {
        return true;
    }
    if types::BAD_TYPE <= why {
        return why <= types::DEPTH;
    }
    false
}

// The rows are 64: what the prover is told of an array by value where it is passed on.
fn all_rows(levels: [Level; 64]) -> bool
    ensures { length levels ≡ 64 }
{
    true
}

impl FrameSkip {
    fn is_sound(self) -> bool
        ensures { result ≡ sound_of self }
    {
        let limits = self.limits;
        if limits.in_range() {
            if counts_well(limits.message as usize, self.left, self.taken, self.behind) {
                let stand = self.stand;
                let rest = stand.rest;
                let now = rest.0;
                return match now {
                    Now::Asks(wait) => {
                        let levels = stand.levels;
                        waits_well(limits, self.left, levels, stand.depth, stand.body, wait)
                    }
                    Now::Done(n) => n <= self.left,
                    Now::Refused(why) => is_refusal(why),
                };
            }
            return false;
        }
        false
    }

    fn answer(self) -> FrameAnswer
        requires { Standing self.limits (self.taken + self.left) self.left self.taken self.stand }
        ensures { result ≡ answer_of self }
    {
        let stand = self.stand;
        let rest = stand.rest;
        let now = rest.0;
        match now {
            Now::Asks(wait) => FrameAnswer::More,
            Now::Done(n) => FrameAnswer::Done(self.taken + n),
            Now::Refused(why) => FrameAnswer::Refused(input::missing(why, 0, self.behind)),
        }
    }

    // A frame of an announced length, of which nothing has come. Limits out of range make a state that every call refuses.
    pub fn announce(length: usize, limits: TConfiguration) -> FrameSkip
        ensures { Begins limits length result }
    {
        let row = Level(Nest::Fields(FieldId(0)));
        let levels = [row; 64];
        if limits.in_range() {
            let cut = input::cut_at(0, limits.message as usize, length);
            let stand = enter(limits, cut, levels, 0, TType::Struct);
            return FrameSkip {
                limits,
                left: cut,
                taken: 0,
                behind: length - cut,
                stand,
            };
        }
        let stand = Stand {
            levels,
            depth: 0,
            body: 0,
            rest: Resting(Now::Refused(types::BAD_STATE)),
        };
        FrameSkip {
            limits,
            left: 0,
            taken: 0,
            behind: length,
            stand,
        }
    }

    fn run_on(self, burst: &[u8]) -> Taken
        requires { Standing self.limits (self.taken + self.left) self.left self.taken self.stand }
        ensures { Went self burst.now result }
    {
        let limits = self.limits;
        let from = self.stand;
        let done = whole::run_from(limits, from, self.left, self.taken, burst);
        let stand = done.stand;
        let state = FrameSkip {
            limits,
            left: done.left,
            taken: done.taken,
            behind: self.behind,
            stand,
        };
        let answer = state.answer();
        Taken { answer, state }
    }

    // A burst: its bytes are taken, up to the frame's end.
    pub fn take(self, burst: &[u8]) -> Taken
        ensures { Took self burst.now result }
    {
        if self.is_sound() {
            let stand = self.stand;
            let levels = stand.levels;
            let full = all_rows(levels);
            return match self.answer() {
                FrameAnswer::More => self.run_on(burst),
                FrameAnswer::Done(n) => Taken {
                    answer: FrameAnswer::Done(n),
                    state: self,
                },
                FrameAnswer::Refused(why) => Taken {
                    answer: FrameAnswer::Refused(why),
                    state: self,
                },
            };
        }
        Taken {
            answer: FrameAnswer::Refused(types::BAD_STATE),
            state: self,
        }
    }

    // The same, waiting for no byte any more, at the cut or behind it.
    fn shut(self) -> FrameSkip
        ensures { result ≡ shut_of self }
    {
        let limits = self.limits;
        let from = self.stand;
        let levels = from.levels;
        let stand = stops(levels, from.depth, from.body, types::END);
        FrameSkip {
            limits,
            left: self.left,
            taken: self.taken,
            behind: 0,
            stand,
        }
    }

    // No more bytes come: END, unless the frame has its answer.
    pub fn close(self) -> Taken
        ensures { result ≡ close_of self }
    {
        if self.is_sound() {
            let stand = self.stand;
            let levels = stand.levels;
            let full = all_rows(levels);
            return match self.answer() {
                FrameAnswer::More => {
                    let state = self.shut();
                    Taken {
                        answer: FrameAnswer::Refused(types::END),
                        state,
                    }
                }
                FrameAnswer::Done(n) => Taken {
                    answer: FrameAnswer::Done(n),
                    state: self,
                },
                FrameAnswer::Refused(why) => Taken {
                    answer: FrameAnswer::Refused(why),
                    state: self,
                },
            };
        }
        Taken {
            answer: FrameAnswer::Refused(types::BAD_STATE),
            state: self,
        }
    }
}
