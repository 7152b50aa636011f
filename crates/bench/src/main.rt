// The bench cases that are run: case 4, whose wait ends at tick 65,535 and is not computed, and case 13, where a first that sleeps leaves
// the next its whole slice. Each goes through the public call; what it prints is compared with the file beside src/. Rests on the kernel.
#![tactic(auto)]

use model::{Call, Context, State};
use std::io;

fn say(rt: &impl Print, text: &str, n: u32) -> io::Result<()> {
    println!(rt; "{text}{n}")
}

// A wait code in the paper's number: one of the four that a wait ends with.
fn say_code(rt: &impl Print, text: &str, code: i32) -> io::Result<()> {
    match code {
        0 | -4 | -10 | -11 => println!(rt; "{text}{code}"),
        _ => println!(rt; "{text}no wait code"),
    }
}

// The state after a call from a task.
fn asked(s: State, a: Call) -> State {
    kernel::call(s, Context::T, a).state
}

// The state after so many ticks.
fn ticked(mut s: State, n: u32) -> State {
    for _ in 0..n {
        s = kernel::call(s, Context::I, Call::TickIntProcessing).state;
    }
    s
}

fn running(s: State) -> u32 {
    u32::from(kernel::running(s))
}

fn remaining(s: State, t: usize) -> u32 {
    let tasks = s.tasks;
    if t < 25 {
        let x = tasks[t];
        let w = x.wait;
        return w.remaining;
    }
    0
}

fn wait_code(s: State, t: usize) -> i32 {
    let tasks = s.tasks;
    if t < 25 {
        let x = tasks[t];
        return records::wait_number(x.code);
    }
    0
}

// Task 1 waits for 65,535 ticks, task 2 without end.
fn case_4(rt: &impl Print) -> io::Result<()> {
    let made = asked(
        kernel::fresh(),
        Call::SemCreate {
            semaphore: 1,
            start: 0,
            maximum: 1,
        },
    );
    let first = asked(
        made,
        Call::TaskCreate {
            task: 1,
            priority: 5,
            option: 1,
        },
    );
    let held = asked(
        first,
        Call::SemAcquire {
            semaphore: 1,
            timeout: 65535,
        },
    );
    let second = asked(
        held,
        Call::TaskCreate {
            task: 2,
            priority: 5,
            option: 1,
        },
    );
    let waiting = asked(
        second,
        Call::SemAcquire {
            semaphore: 1,
            timeout: 4294967295,
        },
    );
    let before = ticked(waiting, 65534);
    say(rt, "case 4: after tick 65534 runs ", running(before))?;
    say(rt, "case 4: task 1 has ticks left ", remaining(before, 1))?;
    let after = ticked(before, 1);
    say(rt, "case 4: after tick 65535 runs ", running(after))?;
    say_code(rt, "case 4: task 1's wait code is ", wait_code(after, 1))?;
    say(rt, "case 4: task 2 has ticks left ", remaining(after, 2))
}

// Level 6 with slice 3: two ticks, task 1 sleeps, and task 2 has three ticks of its own.
fn case_13(rt: &impl Print) -> io::Result<()> {
    let sliced = asked(kernel::fresh(), Call::SysTsliceTicks { level: 6, slice: 3 });
    let one = asked(
        sliced,
        Call::TaskCreate {
            task: 1,
            priority: 6,
            option: 1,
        },
    );
    let two = asked(
        one,
        Call::TaskCreate {
            task: 2,
            priority: 6,
            option: 1,
        },
    );
    let three = asked(
        two,
        Call::TaskCreate {
            task: 3,
            priority: 6,
            option: 1,
        },
    );
    let charged = ticked(three, 2);
    say(rt, "case 13: after tick 2 runs ", running(charged))?;
    let slept = asked(charged, Call::TaskSleep { timeout: 100 });
    say(rt, "case 13: after the sleep runs ", running(slept))?;
    let third = ticked(slept, 1);
    say(rt, "case 13: after tick 3 runs ", running(third))?;
    let fourth = ticked(third, 1);
    say(rt, "case 13: after tick 4 runs ", running(fourth))?;
    let fifth = ticked(fourth, 1);
    say(rt, "case 13: after tick 5 runs ", running(fifth))
}

fn main(rt: HostRuntime) -> io::Result<()> {
    case_4(&rt)?;
    case_13(&rt)
}
