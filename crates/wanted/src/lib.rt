// The list of wanted field ids with their types, by number, and the test that refuses it: BAD LIST.
#![tactic(auto)]

ghost use Rattle.std.specs.Prelude.{◌≡◌, ◌≤◌, length, drop};
ghost use Rattle.wanted.specs.Wanted.{same_id, among, distinct, wantable, wantables, listed};

use types::{FieldId, TypeRead};

// The most ids that may be wanted at once.
pub const MOST: usize = 64;

pub fn same_id(a: FieldId, b: FieldId) -> bool
    ensures { result ≡ same_id a.0 b.0 }
{
    a.0 == b.0
}

// Whether an id stands in the list from a number on.
fn among_ids(ids: &[i16], from: usize, id: FieldId) -> bool
    requires { from ≤ length ids.now }
    ensures { result ≡ among id.0 (drop from ids.now) }
{
    let mut j = from;
    while j < ids.len() {
        if same_id(id, FieldId(ids[j])) {
            return true;
        }
        j = j + 1;
    }
    false
}

fn are_distinct(ids: &[i16]) -> bool
    ensures { result ≡ distinct ids.now }
{
    let mut j: usize = 0;
    while j < ids.len() {
        if among_ids(ids, j + 1, FieldId(ids[j])) {
            return false;
        }
        j = j + 1;
    }
    true
}

// A number that a field's type can have: every type but Stop.
fn is_wantable(number: u8) -> bool
    ensures { result ≡ wantable number }
{
    match types::u8_to_type(number) {
        TypeRead::Refused(_) => false,
        TypeRead::Got(kind) => 0 < types::type_to_u8(kind),
    }
}

fn are_wantable(kinds: &[u8]) -> bool
    ensures { result ≡ wantables kinds.now }
{
    let mut j: usize = 0;
    while j < kinds.len() {
        if is_wantable(kinds[j]) {
            j = j + 1;
        } else {
            return false;
        }
    }
    true
}

// The list of wanted ids: not BAD LIST.
pub fn is_listed(ids: &[i16], kinds: &[u8]) -> bool
    ensures { result ≡ listed ids.now kinds.now }
{
    if ids.len() == kinds.len() {
        if ids.len() <= MOST {
            if are_distinct(ids) {
                return are_wantable(kinds);
            }
            return false;
        }
        return false;
    }
    false
}
