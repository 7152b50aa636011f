// The tests of one data queue: of its numbers and its first waiter, and of a wait that what is stored there may not serve already.
// Each function is a definition of model/specs/Test or Task, or a line of one, for every value; it rests on model, and on records for the
// numbers of waits.
ghost use Rattle.std.specs.Prelude.{◌≡◌, cond, ◌&&◌, ◌+◌, eqb, leb, ltb};
ghost use Rattle.model.specs.Task.{is_queue_wait};
ghost use Rattle.model.specs.Test.{is_unserved};

use model::Wait;
use records::{RECEIVE, SEND};

// Of a queue's numbers and its first waiter; whether the places past its last element are free is told.
pub fn stock_sound(capacity: u32, taken: u32, free: bool, first: u8) -> bool
    ensures { result ≡ (cond (eqb capacity 0) (eqb taken 0 && eqb first 0) (leb capacity 17 && ltb taken capacity) && free) }
{
    if capacity == 0 {
        return ((taken == 0) & (first == 0)) & free;
    }
    ((capacity <= 17) & (taken < capacity)) & free
}

pub fn is_queue_wait(w: Wait) -> bool
    ensures { result ≡ is_queue_wait w }
{
    matches!(w.kind, SEND | RECEIVE)
}

// No place is free. The number that a queue keeps is its capacity plus 1, and nothing is added to the elements, whose number may be any here.
fn is_full(capacity: u32, taken: u32) -> bool
    ensures { result ≡ eqb (taken + 1) capacity }
{
    if capacity == 0 {
        return false;
    }
    taken == capacity - 1
}

// A wait where the first waiter waits for this.
#[tactic(auto, unfolding(model::specs::Test::is_unserved))]
pub fn is_unserved(w: Wait, capacity: u32, taken: u32, first: u8) -> bool
    ensures { result ≡ is_unserved w capacity taken first }
{
    let kind = w.kind;
    if kind == SEND {
        let full = is_full(capacity, taken);
        return (kind == first) & full;
    }
    if kind == RECEIVE {
        return (kind == first) & (taken == 0);
    }
    true
}
