// The records of all tasks where they lie: a record is read, and what is left of its timeout, its charge or both its marks are replaced.
// Each contract is std's `set` of a record of model/specs/Task; it rests on places and the records.
#![tactic(auto)]

ghost use Rattle.std.specs.Prelude.{◌≡◌, get_or, set};
ghost use Rattle.model.specs.Task.{no_task, with_remaining, with_marks};

use model::Task;
use places::read;

// The record of a task; a number that names none has zeros.
pub fn record_at(tasks: &[Task], t: usize) -> Task
    ensures { result ≡ get_or tasks.now t no_task }
{
    read(tasks, t, records::no_task())
}

// ---- one word of a record is replaced, or its two marks, and nothing else of it; by an index test, as places::put
// What is left of a task's timeout,
pub fn put_remaining(tasks: &mut [Task], t: usize, left: u32)
    ensures { tasks.new ≡ set tasks.old t (with_remaining (get_or tasks.old t no_task) left) }
{
    if tasks.len() <= t {
        return;
    }
    tasks[t].wait.remaining = left;
}

// its charge,
pub fn put_charge(tasks: &mut [Task], t: usize, n: u32)
    ensures { tasks.new ≡ set tasks.old t (with_marks (get_or tasks.old t no_task) n (get_or tasks.old t no_task).entered) }
{
    if tasks.len() <= t {
        return;
    }
    tasks[t].charge = n;
}

// and its charge and the time at which it entered its level.
pub fn put_marks(tasks: &mut [Task], t: usize, n: u32, e: u32)
    ensures { tasks.new ≡ set tasks.old t (with_marks (get_or tasks.old t no_task) n e) }
{
    if tasks.len() <= t {
        return;
    }
    tasks[t] = Task {
        charge: n,
        entered: e,
        ..tasks[t]
    };
}
