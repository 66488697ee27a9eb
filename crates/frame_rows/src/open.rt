// Open containers, four numbers each.
ghost use Rattle.std.specs.Prelude.{◌≡◌, ◌<◌, ◌≤◌};
ghost use Rattle.types.specs.declared.TypeRead.TheVariants as R;
ghost use Rattle.frame_rows.specs.Row.{type_of, pair_of, item_of, nest_of, nest_or, nest_in, put_typed, put_nest, all_nests, levels_of, put_nests};

use crate::NestRead;
use frame::{Level, Nest};
use rows::row;
use types::{FieldId, TType, TypeRead};

pub(crate) fn type_of(n: u64) -> TypeRead
    ensures { result ≡ type_of n }
{
    if n < 14 {
        return types::u8_to_type(n as u8);
    }
    TypeRead::Refused(types::BAD_STATE)
}

#[tactic(auto, using(crate::proofs::Cases::pairs))]
fn pair_of(form: u64, key: TType, v: u64, count: u32) -> NestRead
    ensures { result ≡ pair_of form key count (type_of v) }
{
    match type_of(v) {
        TypeRead::Refused(_) => NestRead::Refused,
        TypeRead::Got(value) => {
            if form == 2 {
                return NestRead::Got(Nest::Keys(key, value, count));
            }
            if form == 3 {
                return NestRead::Got(Nest::Values(key, value, count));
            }
            NestRead::Refused
        }
    }
}

#[tactic(auto, using(crate::proofs::Cases::items))]
fn item_of(form: u64, k: u64, v: u64, count: u32) -> NestRead
    ensures { result ≡ item_of form v count (type_of k) }
{
    match type_of(k) {
        TypeRead::Refused(_) => NestRead::Refused,
        TypeRead::Got(kind) => {
            if form == 1 {
                return NestRead::Got(Nest::Items(kind, count));
            }
            pair_of(form, kind, v, count)
        }
    }
}

#[tactic(auto, using(crate::proofs::Cases::nests))]
fn nest_of(form: u64, k: u64, v: u64, n: u64) -> NestRead
    ensures { result ≡ nest_of form k v n }
{
    if form == 0 {
        if n < 65536 {
            return NestRead::Got(Nest::Fields(FieldId(row::id_of(n))));
        }
        return NestRead::Refused;
    }
    if n < 4294967296 {
        return item_of(form, k, v, n as u32);
    }
    NestRead::Refused
}

// The container in place i.
pub(crate) fn nest_at(row: &[u64], i: usize) -> NestRead
    requires { i < 64 }
    ensures { result ≡ nest_in row.now i }
{
    let at = 4 * i;
    let form = row::number(row, 12 + at);
    let k = row::number(row, 13 + at);
    let v = row::number(row, 14 + at);
    let n = row::number(row, 15 + at);
    nest_of(form, k, v, n)
}

#[tactic(auto, using(crate::proofs::Puts::typed_puts))]
fn put_typed(row: &mut [u64], i: usize, form: u64, key: TType, n: u32)
    requires { i < 64 }
    ensures { row.new ≡ put_typed row.old i form key n }
{
    let at = 4 * i;
    row::put(row, 12 + at, form);
    row::put(row, 13 + at, types::type_to_u8(key) as u64);
    row::put(row, 15 + at, n as u64);
}

pub(crate) fn put_nest(row: &mut [u64], i: usize, nest: Nest)
    requires { i < 64 }
    ensures { row.new ≡ put_nest row.old i nest }
{
    match nest {
        Nest::Fields(id) => {
            row::put(row, 12 + 4 * i, 0);
            row::put(row, 15 + 4 * i, row::id_no(id.0));
        }
        Nest::Items(kind, n) => put_typed(row, i, 1, kind, n),
        Nest::Keys(key, value, n) => {
            row::put(row, 14 + 4 * i, types::type_to_u8(value) as u64);
            put_typed(row, i, 2, key, n);
        }
        Nest::Values(key, value, n) => {
            row::put(row, 14 + 4 * i, types::type_to_u8(value) as u64);
            put_typed(row, i, 3, key, n);
        }
    }
}

// Whether the first so many places hold containers.
pub(crate) fn all_nests(row: &[u64], depth: usize) -> bool
    requires { depth ≤ 64 }
    ensures { result ≡ all_nests row.now depth }
{
    let mut d = depth;
    while 0 < d {
        match nest_at(row, d - 1) {
            NestRead::Got(_) => {}
            NestRead::Refused => {
                return false;
            }
        }
        d -= 1;
    }
    true
}

#[tactic(auto, using(crate::proofs::Cases::or_nests))]
fn nest_or(row: &[u64], i: usize) -> Nest
    requires { i < 64 }
    ensures { result ≡ nest_or (nest_in row.now i) }
{
    match nest_at(row, i) {
        NestRead::Got(nest) => nest,
        NestRead::Refused => Nest::Fields(FieldId(0)),
    }
}

// The containers in the first so many places, and behind them what has no say.
pub(crate) fn levels_of(row: &[u64], depth: usize) -> [Level; 64]
    requires { depth ≤ 64 }
    ensures { result ≡ levels_of row.now depth }
{
    let base = Level(Nest::Fields(FieldId(0)));
    let mut levels = [base; 64];
    let mut i = 0;
    while i < depth {
        levels[i] = Level(nest_or(row, i));
        i += 1;
    }
    levels
}

pub(crate) fn put_nests(row: &mut [u64], levels: [Level; 64], depth: usize)
    requires { depth ≤ 64 }
    ensures { row.new ≡ put_nests row.old levels depth }
{
    let mut i = 0;
    while i < depth {
        let level = levels[i];
        let nest = level.0;
        put_nest(row, i, nest);
        i += 1;
    }
}
