// What an effect does to a state, changed where it lies: a move, a charged tick, the timeouts of a tick, the news to those in a queue.
// Each function is a definition of model/specs/State or Effect, for every state; it rests on places, rows and stored.
#![tactic(auto)]

ghost use Rattle.std.specs.Prelude.{◌≡◌, cond, eqb};
ghost use Rattle.model.specs.Row.{second_of};
ghost use Rattle.model.specs.Task.{ran_out};
ghost use Rattle.model.specs.State.{moved, moved_from};
ghost use Rattle.model.specs.Effect.{charged, lapsed, told_all};
ghost use Rattle.effects.specs.Falling.{stays, all_stay, fallen, is_due, fall_all};

use model::{News, Queue, State, Task};
use places::{put, read};
use records::{ENDLESS, SERVED, SLEEP, TIMEOUT};
use rows::{relist, second_of, turn_row};
use stored::{put_charge, put_marks, put_remaining, record_at};

// ---- one task moves: its record k becomes x, and the queues follow the two. The one mover; whoever has read k hands it on.
pub fn move_from(s: &mut State, t: u8, k: Task, x: Task)
    ensures { s.new ≡ moved_from t k x s.old }
{
    let from = records::level_of(k);
    let to = records::level_of(x);
    let left = records::row_of(k);
    let joined = records::row_of(x);
    let settled = records::settled(k, x, from, to, s.numbers.time);
    put(&mut s.tasks, t as usize, settled);
    relist(&mut s.levels, from as usize, to as usize, t);
    relist(&mut s.waits, left as usize, joined as usize, t);
}

#[tactic(auto, unfolding(model::specs::State::moved))]
pub fn move_task(s: &mut State, t: u8, x: Task)
    ensures { s.new ≡ moved t x s.old }
{
    let k = record_at(&s.tasks, t as usize);
    move_from(s, t, k, x);
}

// ---- who runs is charged one tick, in its level; 0 has none
// When the first of a level, which entered it at `entered`, has entered it once the level turns at `time`: a task alone there does not move.
fn turned_at(levels: &[Queue], level: usize, entered: u32, time: u32) -> u32
    ensures { result ≡ cond (eqb (second_of levels.now level) 0) entered time }
{
    let second = second_of(levels, level);
    if second == 0 {
        return entered;
    }
    time
}

pub fn charge(s: &mut State, run: u8)
    ensures { s.new ≡ charged run s.old }
{
    if run == 0 {
        return;
    }
    let k = record_at(&s.tasks, run as usize);
    let level = k.priority as usize;
    let slice = read(&s.numbers.slices, level, 0);
    if slice == 0 {
        return;
    }
    if k.charge < slice - 1 {
        put_charge(&mut s.tasks, run as usize, k.charge + 1);
        return;
    }
    let entered = turned_at(&s.levels, level, k.entered, s.numbers.time);
    put_marks(&mut s.tasks, run as usize, 0, entered);
    turn_row(&mut s.levels, level);
}

// ---- the timeouts of a tick
// How a wait that runs out ends: a sleep with 0, any other with TIMEOUT.
fn ran_out(x: Task) -> u8
    ensures { result ≡ ran_out x }
{
    if x.wait.kind == SLEEP {
        return SERVED;
    }
    TIMEOUT
}

// What a tick leaves of a timeout that does not end with it.
#[tactic(auto, unfolding(crate::specs::Falling::fallen))]
fn fallen(n: u32) -> u32
    ensures { result ≡ fallen n }
{
    if n == 0 {
        return 0;
    }
    if n == ENDLESS {
        return n;
    }
    n - 1
}

// A tick leaves a timeout that is none, or that never ends.
#[tactic(auto, unfolding(crate::specs::Falling::stays))]
fn stays(n: u32) -> bool
    ensures { result ≡ stays n }
{
    n == 0 || n == ENDLESS
}

// Whether it leaves all of them.
fn all_stay(tasks: &[Task; 25]) -> bool
    ensures { result ≡ all_stay 24 1 tasks.now }
{
    for t in 1..25 {
        if !stays(tasks[t].wait.remaining) {
            return false;
        }
    }
    true
}

// One ends with the next tick,
fn ends(n: u32) -> bool
    ensures { result ≡ eqb n 1 }
{
    n == 1
}

// and whether any does.
fn is_due(tasks: &[Task; 25]) -> bool
    ensures { result ≡ is_due 24 1 tasks.now }
{
    for t in 1..25 {
        if ends(tasks[t].wait.remaining) {
            return true;
        }
    }
    false
}

// All timeouts of a tick that ends none: no test and no call between two stores.
fn fall(tasks: &mut [Task; 25])
    ensures { tasks.new ≡ fall_all 24 1 tasks.old }
{
    for t in 1..25 {
        tasks[t].wait.remaining = fallen(tasks[t].wait.remaining);
    }
}

// Tasks 1 to 24 in ascending number: each finite timeout falls by 1, and those reaching 0 end.
pub fn lapse(s: &mut State)
    ensures { s.new ≡ lapsed 24 1 s.old }
{
    if all_stay(&s.tasks) {
        return;
    }
    if !is_due(&s.tasks) {
        fall(&mut s.tasks);
        return;
    }
    for t in 1..25 {
        let n = s.tasks[t].wait.remaining;
        if n != 1 {
            put_remaining(&mut s.tasks, t, fallen(n));
            continue;
        }
        let k = record_at(&s.tasks, t);
        let x = records::ended(k, ran_out(k), 0);
        move_from(s, t as u8, k, x);
    }
}

// ---- those in a queue are told the news, in queue order
pub fn tell_all(s: &mut State, q: [u8; 24], news: News)
    ensures { s.new ≡ told_all news q s.old }
{
    for t in q {
        if t == 0 {
            return;
        }
        let k = record_at(&s.tasks, t as usize);
        let x = records::told(news, k);
        move_from(s, t, k, x);
    }
}
