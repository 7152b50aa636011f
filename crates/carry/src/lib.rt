// An effect carried out on a state, changed where it lies.
// Every arm is a definition of model/specs/Effect, for every state; who runs is told, so that nobody looks twice.
#![tactic(auto)]

ghost use Rattle.std.specs.Prelude.{◌≡◌};
ghost use Rattle.model.specs.Effect.{stopped, ticked_from, carried_from};

use crate::queue::carry_queue;
use effects::{move_from, move_task, tell_all};
use model::{Effect, News, State};
use places::put;
use rows::{first_of, row_at};
use stored::{put_charge, record_at};

pub mod queue;

// ---- one task becomes dormant, and runnable again at once where an activation is counted
#[tactic(auto, unfolding(model::specs::Effect::stopped, model::specs::State::moved))]
fn stop_task(s: &mut State, t: u8)
    ensures { s.new ≡ stopped t s.old }
{
    let k = record_at(&s.tasks, t as usize);
    let x = records::dormant(k.base);
    move_from(s, t, k, x);
    if k.activations == 0 {
        return;
    }
    move_task(s, t, records::activated(x));
}

// ---- a tick, where `run` runs: time goes up by one, who runs is charged, the timeouts fall
pub fn tick(s: &mut State, run: u8)
    ensures { s.new ≡ ticked_from run s.old }
{
    s.numbers.time = s.numbers.time.wrapping_add(1);
    effects::charge(s, run);
    effects::lapse(s);
}

// ---- any effect, where `run` runs
#[tactic(auto, unfolding(model::specs::State::counted, model::specs::State::sliced, model::specs::State::marked, model::specs::State::flagged, model::specs::Effect::deleted, model::specs::Effect::told_flag))]
pub fn carry(s: &mut State, run: u8, e: Effect)
    ensures { s.new ≡ carried_from run s.old e }
{
    match e {
        Effect::Nothing => {}
        Effect::Moves { task, record } => move_task(s, task, record),
        Effect::Stops { task } => stop_task(s, task),
        Effect::Counts {
            semaphore,
            count,
            maximum,
        } => {
            put(&mut s.numbers.counts, semaphore as usize, count);
            put(&mut s.numbers.maxima, semaphore as usize, maximum);
        }
        Effect::Deletes { semaphore } => {
            let q = row_at(&s.waits, semaphore as usize);
            tell_all(s, q, News::Deleted);
            put(&mut s.numbers.counts, semaphore as usize, 0);
            put(&mut s.numbers.maxima, semaphore as usize, 0);
        }
        Effect::Slices { level, slice } => {
            let first = first_of(&s.levels, level as usize);
            put_charge(&mut s.tasks, first as usize, 0);
            put(&mut s.numbers.slices, level as usize, slice);
        }
        Effect::Ticks => tick(s, run),
        Effect::Flags {
            flag,
            attributes,
            bits,
        } => {
            put(&mut s.numbers.attributes, flag as usize, attributes);
            put(&mut s.numbers.bits, flag as usize, bits);
        }
        Effect::Tells {
            flag,
            news,
            attributes,
            bits,
        } => {
            let q = row_at(&s.waits, records::flag_row(flag) as usize);
            tell_all(s, q, news);
            put(&mut s.numbers.attributes, flag as usize, attributes);
            put(&mut s.numbers.bits, flag as usize, bits);
        }
        Effect::Queues { .. }
        | Effect::Removes { .. }
        | Effect::Stores { .. }
        | Effect::Takes { .. }
        | Effect::Refills { .. } => carry_queue(s, e),
    }
}
