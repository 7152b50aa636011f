// What an effect on a data queue does to a state, changed where it lies: an element is stored or taken, the first sender's goes in, all are gone.
// Each function is a definition of model/specs/Effect, for every state. A step of these services has a way of its own (step::queue_in), so that no other
// service pays for their effects.
ghost use Rattle.std.specs.Prelude.{◌≡◌};
ghost use Rattle.model.specs.Effect.{carried_from, stored, taken, refilled, removed};
ghost use Rattle.carry.specs.Queue.{of_queue};

use effects::{move_from, move_task, tell_all};
use model::{Effect, News, State};
use places::elements::{clear_elements, pull_elements, put_element, refill_elements};
use places::{put, read};
use records::SERVED;
use rows::{first_of, row_at};
use stored::record_at;

// ---- the elements alone
// An element goes in last, and the queue then has so many.
#[tactic(auto, unfolding(model::specs::Effect::stored, model::specs::State::stocked))]
fn store(s: &mut State, queue: u8, taken: u32, element: u32)
    ensures { s.new ≡ stored queue taken element s.old }
{
    let n = read(&s.numbers.taken, queue as usize, 0);
    put_element(&mut s.numbers.elements, queue as usize, n as usize, element);
    put(&mut s.numbers.taken, queue as usize, taken);
}

// The oldest leaves.
#[tactic(auto, unfolding(model::specs::Effect::taken, model::specs::State::stocked))]
fn take(s: &mut State, queue: u8)
    ensures { s.new ≡ taken queue s.old }
{
    let n = read(&s.numbers.taken, queue as usize, 0);
    pull_elements(&mut s.numbers.elements, queue as usize);
    put(&mut s.numbers.taken, queue as usize, n.saturating_sub(1));
}

// ---- elements and waiters
// The oldest leaves, and that of the first sender goes in last; its wait ends with 0.
#[tactic(auto, unfolding(model::specs::Effect::refilled, model::specs::State::stocked, model::specs::State::moved))]
fn refill(s: &mut State, queue: u8)
    ensures { s.new ≡ refilled queue s.old }
{
    let t = first_of(&s.waits, records::queue_row(queue) as usize);
    let k = record_at(&s.tasks, t as usize);
    let last = read(&s.numbers.taken, queue as usize, 0).saturating_sub(1);
    refill_elements(
        &mut s.numbers.elements,
        queue as usize,
        last as usize,
        k.wait.pattern,
    );
    let x = records::ended(k, SERVED, 0);
    move_from(s, t, k, x);
}

// Those who wait are told, and the elements are gone.
#[tactic(auto, unfolding(model::specs::Effect::removed, model::specs::State::sized, model::specs::State::stocked))]
fn remove(s: &mut State, queue: u8)
    ensures { s.new ≡ removed queue s.old }
{
    let q = row_at(&s.waits, records::queue_row(queue) as usize);
    tell_all(s, q, News::Deleted);
    clear_elements(&mut s.numbers.elements, queue as usize);
    put(&mut s.numbers.taken, queue as usize, 0);
    put(&mut s.numbers.capacities, queue as usize, 0);
}

// ---- any of their effects, whoever runs; another is none
#[tactic(auto, unfolding(model::specs::State::sized))]
pub fn carry_queue(s: &mut State, e: Effect)
    ensures { s.new ≡ carried_from 0 s.old (of_queue e) }
{
    match e {
        Effect::Moves { task, record } => move_task(s, task, record),
        Effect::Queues { queue, capacity } => {
            put(&mut s.numbers.capacities, queue as usize, capacity)
        }
        Effect::Removes { queue } => remove(s, queue),
        Effect::Stores {
            queue,
            taken,
            element,
        } => store(s, queue, taken, element),
        Effect::Takes { queue } => take(s, queue),
        Effect::Refills { queue } => refill(s, queue),
        _ => {}
    }
}
