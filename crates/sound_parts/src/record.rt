// The tests of one task's record and its charge, of a semaphore's count, and of what stands at place 0.
// Each function is a definition of model/specs/Test, for every value; it rests on model, and on records for the numbers of waits and codes.
ghost use Rattle.std.specs.Prelude.{◌≡◌, ◌&&◌, eqb};
ghost use Rattle.model.specs.Plan.{within};
ghost use Rattle.model.specs.Test.{is_no_wait, is_blank, is_wait_code, is_resting, is_wait_sound, is_ask_sound, is_spare_sound, is_task_sound, is_charge_sound, is_count_sound};

use crate::queue::is_queue_wait;
use model::{Task, Wait};
use records::{DLT, FLAG, NOTHING, RELEASED, SEMAPHORE, SEND, SERVED, SLEEP, TIMEOUT};

// As within of checks, of bytes: one test of both would widen each of these.
#[tactic(auto, unfolding(model::specs::Plan::within))]
fn is_within(low: u8, n: u8, top: u8) -> bool
    ensures { result ≡ within low n top }
{
    (low <= n) & (n <= top)
}

// By hand: all fields are looked at without a jump; the same of a record below.
fn is_no_wait(w: Wait) -> bool
    ensures { result ≡ is_no_wait w }
{
    (w.kind == NOTHING)
        & ((w.object == 0)
            & ((w.mode == 0) & ((w.spare == 0) & ((w.remaining == 0) & (w.pattern == 0)))))
}

fn is_blank(x: Task) -> bool
    ensures { result ≡ is_blank x }
{
    let wait = x.wait;
    let no_wait = is_no_wait(wait);
    (x.base == 0)
        & (x.priority == 0)
        & (x.active == 0)
        & (x.suspended == 0)
        & (x.wakeups == 0)
        & (x.activations == 0)
        & (x.code == 0)
        & (x.spare == 0)
        & no_wait
        & (x.handed == 0)
        & (x.charge == 0)
        & (x.entered == 0)
}

fn is_wait_code(v: u8) -> bool
    ensures { result ≡ is_wait_code v }
{
    matches!(v, SERVED | TIMEOUT | DLT | RELEASED)
}

fn is_resting(x: Task) -> bool
    ensures { result ≡ is_resting x }
{
    (x.wait.kind == NOTHING)
        & (x.suspended == 0)
        & (x.wakeups == 0)
        & (x.activations == 0)
        & (x.code == 0)
        & (x.handed == 0)
        & (x.entered == 0)
        & (x.priority == x.base)
}

fn is_wait_sound(x: Task) -> bool
    ensures { result ≡ is_wait_sound x }
{
    let kind = x.wait.kind;
    let object = x.wait.object;
    let remaining = x.wait.remaining;
    let wakeups = x.wakeups;
    let code = x.code;
    let handed = x.handed;
    if kind == NOTHING {
        return (object == 0) & (remaining == 0);
    }
    let goes_on = (1 <= remaining) & (code == 0) & (handed == 0);
    if kind == SLEEP {
        return goes_on & (object == 0) & (wakeups == 0);
    }
    if kind == SEMAPHORE {
        let semaphore_fits = is_within(1, object, 12);
        return goes_on & semaphore_fits;
    }
    // there are as many data queues as flags
    let fits = is_within(1, object, 8);
    if kind == FLAG {
        return goes_on & fits;
    }
    let on_queue = is_queue_wait(x.wait);
    goes_on & on_queue & fits
}

fn is_ask_sound(w: Wait) -> bool
    ensures { result ≡ is_ask_sound w }
{
    let kind = w.kind;
    let pattern = w.pattern;
    let mode = w.mode;
    if kind == FLAG {
        return (pattern != 0) & (mode <= 1);
    }
    ((kind == SEND) | (pattern == 0)) & (mode == 0)
}

fn is_spare_sound(x: Task) -> bool
    ensures { result ≡ is_spare_sound x }
{
    (x.spare == 0) & (x.wait.spare == 0)
}

#[tactic(auto, unfolding(model::specs::Test::is_task_sound))]
pub fn task_sound(x: Task) -> bool
    ensures { result ≡ is_task_sound x }
{
    let base = x.base;
    let priority = x.priority;
    let active = x.active;
    let suspended = x.suspended;
    let wakeups = x.wakeups;
    let activations = x.activations;
    let code = x.code;
    if base == 0 {
        return is_blank(x);
    }
    let base_fits = is_within(1, base, 30);
    let priority_fits = is_within(1, priority, 30);
    let code_fits = is_wait_code(code);
    let resting = is_resting(x);
    let wait_sound = is_wait_sound(x);
    let wait = x.wait;
    let ask_sound = is_ask_sound(wait);
    let spare_sound = is_spare_sound(x);
    base_fits
        & priority_fits
        & (active <= 1)
        & (suspended <= 1)
        & (wakeups <= 1)
        & (activations <= 1)
        & code_fits
        & ((active != 0) | resting)
        & wait_sound
        & ask_sound
        & spare_sound
}

// The charge of task t, in whose level `first` stands first.
#[tactic(auto, unfolding(model::specs::Test::is_charge_sound))]
pub fn charge_sound(charge: u32, t: u8, first: u8, slice: u32) -> bool
    ensures { result ≡ is_charge_sound charge t first slice }
{
    (charge == 0) | ((first == t) & (charge < slice))
}

#[tactic(auto, unfolding(model::specs::Test::is_count_sound))]
pub fn count_sound(count: u32, maximum: u32, first: u8) -> bool
    ensures { result ≡ is_count_sound count maximum first }
{
    (count <= maximum) & ((maximum <= 65535) & ((first == 0) | ((count == 0) & (maximum != 0))))
}

// Place 0 of every table is unused.
pub fn is_origin(
    x: Task,
    slice: u32,
    count: u32,
    maximum: u32,
    attributes: u32,
    bits: u32,
    capacity: u32,
) -> bool
    ensures { result ≡ (is_blank x && (eqb slice 0 && (eqb count 0 && (eqb maximum 0 && (eqb attributes 0 && (eqb bits 0 && eqb capacity 0)))))) }
{
    let blank = is_blank(x);
    blank
        & (slice == 0)
        & (count == 0)
        & (maximum == 0)
        & (attributes == 0)
        & (bits == 0)
        & (capacity == 0)
}
