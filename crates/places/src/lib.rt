// One place of a table, read and stored, where any number may be given; and the places of the data queues, 16 for each.
// Each function is std's `get_or` or `set`, or a definition of model/specs/DataQueue; it rests on model and on the laws of laws.
#![tactic(auto)]

ghost use Rattle.std.specs.Prelude.{◌≡◌, get_or, set};

pub mod elements;

// What stands at a place; past the end it is what the caller names.
pub fn read<T: Copy>(xs: &[T], i: usize, none: T) -> T
    ensures { result ≡ get_or xs.now i none }
{
    xs.get(i).copied().unwrap_or(none)
}

// A place gets another value; past the end nothing changes.
pub fn put<T: Copy>(xs: &mut [T], i: usize, v: T)
    ensures { xs.new ≡ set xs.old i v }
{
    // an index test: tried by `get_mut`, whose goals name values of Rattle's own
    if xs.len() <= i {
        return;
    }
    xs[i] = v;
}
