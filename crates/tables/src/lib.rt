// What a call looks at of a state: the semaphore, the event flag or the data queue that it names.
// Each function is a definition of model/specs/State, for every state; it rests on places, rows and stored.
#![tactic(auto)]

ghost use Rattle.std.specs.Prelude.{◌≡◌};
ghost use Rattle.model.specs.DataQueue.{queue_row};
ghost use Rattle.model.specs.Flag.{flag_row};
ghost use Rattle.model.specs.State.{semaphore, flag, data_queue};

use model::{DataQueue, Flag, Semaphore, State};
use places::elements::element_at;
use places::read;
use rows::first_of;
use stored::record_at;

pub fn semaphore_at(s: &State, m: usize) -> Semaphore
    ensures { result ≡ semaphore s.now m }
{
    Semaphore {
        count: read(&s.numbers.counts, m, 0),
        maximum: read(&s.numbers.maxima, m, 0),
        first: first_of(&s.waits, m),
    }
}

// The row of a flag's waiters; a number that names no flag has none.
#[tactic(auto, unfolding(model::specs::Flag::flag_row))]
fn flag_row(f: usize) -> usize
    ensures { result ≡ flag_row f }
{
    u8::try_from(f).map_or(0, records::flag_row) as usize
}

pub fn flag_at(s: &State, f: usize) -> Flag
    ensures { result ≡ flag s.now f }
{
    Flag {
        attributes: read(&s.numbers.attributes, f, 0),
        bits: read(&s.numbers.bits, f, 0),
        first: first_of(&s.waits, flag_row(f)),
    }
}

// The row of a data queue's waiters; a number that names no queue has none.
#[tactic(auto, unfolding(model::specs::DataQueue::queue_row))]
fn queue_row(q: usize) -> usize
    ensures { result ≡ queue_row q }
{
    u8::try_from(q).map_or(0, records::queue_row) as usize
}

// The data queue that a call names, and the record of who waits there first.
pub fn queue_at(s: &State, q: usize) -> DataQueue
    ensures { result ≡ data_queue s.now q }
{
    let first = first_of(&s.waits, queue_row(q));
    DataQueue {
        capacity: read(&s.numbers.capacities, q, 0),
        taken: read(&s.numbers.taken, q, 0),
        oldest: element_at(&s.numbers.elements, q, 0),
        first,
        waiter: record_at(&s.tasks, first as usize),
    }
}
