// One task's record: which queues list it, the records that calls make of it, and how its last wait ended.
// Each function is a definition of model/specs/Task, for every value; it rests on model alone.
#![tactic(auto)]

ghost use Rattle.std.specs.Prelude.{◌≡◌, cond, not, ◌&&◌, eqb, leb, ◌+◌, ◌≤◌};
ghost use Rattle.model.specs.Code.{wait_number};
ghost use Rattle.model.specs.Flag.{is_met, flag_row};
ghost use Rattle.model.specs.DataQueue.{queue_row};
ghost use Rattle.model.specs.Task.{no_task, level_of, row_of, dormant, activated, created, with_priority, with_suspended, with_wakeups, with_activations, with_marks, waiting, ended, told};

use crate::waits::no_wait;
use model::{News, Task, Wait};

pub mod waits;

// ---- numbers, and no enums: a record's fields are those of the C struct, of which any bytes are a value
// the timeout that never ends
pub const ENDLESS: u32 = 4294967295;

// what a task waits for
pub const NOTHING: u8 = 0;

pub const SLEEP: u8 = 1;

pub const SEMAPHORE: u8 = 2;

pub const FLAG: u8 = 3;

pub const SEND: u8 = 4;

pub const RECEIVE: u8 = 5;

// how a wait ended, as a record keeps it: a code without its sign
pub const SERVED: u8 = 0;

pub const TIMEOUT: u8 = 4;

pub const DLT: u8 = 10;

pub const RELEASED: u8 = 11;

// ---- the queues that list it; 0 for none
#[tactic(auto, unfolding(model::specs::Task::level_of))]
pub fn level_of(x: Task) -> u8
    ensures { result ≡ level_of x }
{
    if x.active == 0 || x.suspended != 0 || x.wait.kind != NOTHING {
        return 0;
    }
    x.priority
}

// The row that lists the waiters on the n-th of 8 objects, after so many other rows; a number that names no object has none.
fn row_after(rows: u8, n: u8) -> u8
    requires { rows ≤ 20 }
    ensures { result ≡ cond (leb 1 n && leb n 8) (n + rows) 0 }
{
    if n < 1 || 8 < n {
        return 0;
    }
    n + rows
}

// The row of a flag's waiters stands after those of the 12 semaphores.
#[tactic(auto, unfolding(model::specs::Flag::flag_row))]
pub fn flag_row(f: u8) -> u8
    ensures { result ≡ flag_row f }
{
    row_after(12, f)
}

// That of a data queue's waiters, senders or receivers, after those of the 8 flags.
#[tactic(auto, unfolding(model::specs::DataQueue::queue_row))]
pub fn queue_row(q: u8) -> u8
    ensures { result ≡ queue_row q }
{
    row_after(20, q)
}

#[tactic(auto, unfolding(model::specs::Task::row_of))]
pub fn row_of(x: Task) -> u8
    ensures { result ≡ row_of x }
{
    match x.wait.kind {
        SEMAPHORE => x.wait.object,
        FLAG => flag_row(x.wait.object),
        SEND | RECEIVE => queue_row(x.wait.object),
        _ => 0,
    }
}

// ---- records
pub fn no_task() -> Task
    ensures { result ≡ no_task }
{
    let wait = no_wait();
    Task {
        base: 0,
        priority: 0,
        active: 0,
        suspended: 0,
        wakeups: 0,
        activations: 0,
        code: 0,
        spare: 0,
        wait,
        handed: 0,
        charge: 0,
        entered: 0,
    }
}

pub fn dormant(p: u8) -> Task
    ensures { result ≡ dormant p }
{
    Task {
        base: p,
        priority: p,
        ..no_task()
    }
}

pub fn activated(x: Task) -> Task
    ensures { result ≡ activated x }
{
    Task { active: 1, ..x }
}

pub fn created(p: u8, option: u8) -> Task
    ensures { result ≡ created p option }
{
    if option == 0 {
        return dormant(p);
    }
    activated(dormant(p))
}

pub fn with_priority(x: Task, p: u8) -> Task
    ensures { result ≡ with_priority x p }
{
    Task { priority: p, ..x }
}

pub fn with_suspended(x: Task, n: u8) -> Task
    ensures { result ≡ with_suspended x n }
{
    Task { suspended: n, ..x }
}

pub fn with_wakeups(x: Task, n: u8) -> Task
    ensures { result ≡ with_wakeups x n }
{
    Task { wakeups: n, ..x }
}

pub fn with_activations(x: Task, n: u8) -> Task
    ensures { result ≡ with_activations x n }
{
    Task {
        activations: n,
        ..x
    }
}

// Record x in place of record k, where level `from` lists k and level `to` lists x: this is `settled time k x`, for a caller that knows both levels.
pub fn settled(k: Task, x: Task, from: u8, to: u8, time: u32) -> Task
    ensures { result ≡ with_marks x (cond (eqb from to) k.charge 0) (cond (not (eqb to 0) && not (eqb from to)) time x.entered) }
{
    let enters = to != 0 && from != to;
    Task {
        charge: if from == to { k.charge } else { 0 },
        entered: if enters { time } else { x.entered },
        ..x
    }
}

pub fn waiting(x: Task, wait: Wait) -> Task
    ensures { result ≡ waiting x wait }
{
    Task {
        wait,
        code: SERVED,
        handed: 0,
        ..x
    }
}

pub fn ended(x: Task, code: u8, bits: u32) -> Task
    ensures { result ≡ ended x code bits }
{
    Task {
        wait: no_wait(),
        code,
        handed: bits,
        ..x
    }
}

// ---- news of the object that is waited on
// Bits meet a pattern: in mode 0 any of its bits, in any other all of them.
#[tactic(auto, unfolding(model::specs::Flag::is_met))]
pub fn is_met(pattern: u32, mode: u32, bits: u32) -> bool
    ensures { result ≡ is_met pattern mode bits }
{
    let common = bits & pattern;
    if mode == 0 {
        return common != 0;
    }
    common == pattern
}

#[tactic(auto, unfolding(model::specs::Task::told))]
pub fn told(news: News, x: Task) -> Task
    ensures { result ≡ told news x }
{
    match news {
        News::Deleted => ended(x, DLT, 0),
        News::Bits { bits } => {
            if is_met(x.wait.pattern, u32::from(x.wait.mode), bits) {
                return ended(x, SERVED, bits);
            }
            x
        }
    }
}

// ---- how the last wait ended: the paper's number of what a record keeps without its sign
pub fn wait_number(code: u8) -> i32
    ensures { result ≡ wait_number code }
{
    -i32::from(code)
}
