// What a task waits for: on which object, for how many ticks at most, and what it asks there.
// Each function is a definition of model/specs/Task, for every value; it rests on model alone.
ghost use Rattle.std.specs.Prelude.{◌≡◌};
ghost use Rattle.model.specs.Task.{no_wait, asleep, on_semaphore, on_flag, to_send, to_receive};

use crate::{FLAG, NOTHING, RECEIVE, SEMAPHORE, SEND, SLEEP};
use model::Wait;

pub(crate) fn no_wait() -> Wait
    ensures { result ≡ no_wait }
{
    Wait {
        kind: NOTHING,
        object: 0,
        mode: 0,
        spare: 0,
        remaining: 0,
        pattern: 0,
    }
}

pub fn asleep(timeout: u32) -> Wait
    ensures { result ≡ asleep timeout }
{
    Wait {
        kind: SLEEP,
        remaining: timeout,
        ..no_wait()
    }
}

pub fn on_semaphore(semaphore: u8, timeout: u32) -> Wait
    ensures { result ≡ on_semaphore semaphore timeout }
{
    Wait {
        kind: SEMAPHORE,
        object: semaphore,
        remaining: timeout,
        ..no_wait()
    }
}

pub fn on_flag(flag: u8, pattern: u32, mode: u8, timeout: u32) -> Wait
    ensures { result ≡ on_flag flag pattern mode timeout }
{
    Wait {
        kind: FLAG,
        object: flag,
        mode,
        remaining: timeout,
        pattern,
        ..no_wait()
    }
}

// An element that waits to be sent stands where a flag wait keeps its pattern.
pub fn to_send(queue: u8, element: u32, timeout: u32) -> Wait
    ensures { result ≡ to_send queue element timeout }
{
    Wait {
        kind: SEND,
        object: queue,
        remaining: timeout,
        pattern: element,
        ..no_wait()
    }
}

pub fn to_receive(queue: u8, timeout: u32) -> Wait
    ensures { result ≡ to_receive queue timeout }
{
    Wait {
        kind: RECEIVE,
        object: queue,
        remaining: timeout,
        ..no_wait()
    }
}
