// What every service's plan begins with: the ranges of a call's numbers, the order of checks, and the plans that accept.
// Each function is a definition of model/specs/Plan or of specs/Gate, for every value; it rests on model, and on records for the timeout that never ends.
#![tactic(auto)]

ghost use Rattle.std.specs.Prelude.{◌≡◌};
ghost use Rattle.model.specs.declared.Code.TheVariants.{Pending};
ghost use Rattle.model.specs.declared.Effect.TheVariants.{Moves, Counts, Flags};
ghost use Rattle.model.specs.Flag.{is_attributes};
ghost use Rattle.model.specs.Plan.{within, is_task, is_priority, is_semaphore, is_maximum, is_timeout, is_slice, is_flag, is_queue, does, answers, gives};
ghost use Rattle.checks.specs.Gate.{gate};

use model::{Code, Effect, Plan, Task};
use records::ENDLESS;

// ---- ranges
// Each is one test with its own limits, most by one call of `within`: a constant stands where a reader compares it with the paper. What they have put in
// range the plans narrow by `as`, which the proof shows to lose nothing; `try_from` would have an arm that nothing reaches.
#[tactic(auto, unfolding(model::specs::Plan::within))]
fn within(low: u32, n: u32, top: u32) -> bool
    ensures { result ≡ within low n top }
{
    low <= n && n <= top
}

pub fn is_task(t: u32) -> bool
    ensures { result ≡ is_task t }
{
    within(1, t, 24)
}

pub fn is_priority(p: u32) -> bool
    ensures { result ≡ is_priority p }
{
    within(1, p, 30)
}

pub fn is_semaphore(m: u32) -> bool
    ensures { result ≡ is_semaphore m }
{
    within(1, m, 12)
}

pub fn is_maximum(v: u32) -> bool
    ensures { result ≡ is_maximum v }
{
    within(1, v, 65535)
}

pub fn is_timeout(d: u32) -> bool
    ensures { result ≡ is_timeout d }
{
    within(1, d, ENDLESS)
}

pub fn is_slice(v: u32) -> bool
    ensures { result ≡ is_slice v }
{
    v <= 1000
}

pub fn is_flag(f: u32) -> bool
    ensures { result ≡ is_flag f }
{
    within(1, f, 8)
}

pub fn is_queue(q: u32) -> bool
    ensures { result ≡ is_queue q }
{
    within(1, q, 8)
}

pub fn is_attributes(n: u32) -> bool
    ensures { result ≡ is_attributes n }
{
    matches!(n, 0 | 1 | 3)
}

// ---- the order of checks
// Numbers out of range or an existing object, a missing object, the context; then the call's own tests.
#[tactic(auto, unfolding(crate::specs::Gate::gate))]
pub fn checked(right: bool, there: bool, mine: bool) -> Result<(), Code>
    ensures { result ≡ gate right there mine }
{
    if !right {
        return Err(Code::WrongParam);
    }
    if !there {
        return Err(Code::NoExs);
    }
    if !mine {
        return Err(Code::WContext);
    }
    Ok(())
}

// ---- plans
pub fn does(effect: Effect) -> Plan
    ensures { result ≡ does effect }
{
    Plan {
        code: Code::NoErr,
        value: 0,
        effect,
    }
}

fn answers(code: Code, effect: Effect) -> Plan
    ensures { result ≡ answers code effect }
{
    Plan {
        code,
        value: 0,
        effect,
    }
}

pub fn gives(value: u32, effect: Effect) -> Plan
    ensures { result ≡ gives value effect }
{
    Plan {
        code: Code::NoErr,
        value,
        effect,
    }
}

// ---- the effects of most services
pub fn moves(task: u8, k: Task) -> Plan
    ensures { result ≡ does (Moves task k) }
{
    does(Effect::Moves { task, record: k })
}

pub fn counts(semaphore: u8, count: u32, maximum: u32) -> Plan
    ensures { result ≡ does (Counts semaphore count maximum) }
{
    does(Effect::Counts {
        semaphore,
        count,
        maximum,
    })
}

pub fn flags(flag: u8, attributes: u32, bits: u32) -> Plan
    ensures { result ≡ does (Flags flag attributes bits) }
{
    does(Effect::Flags {
        flag,
        attributes,
        bits,
    })
}

// a wait begins
pub fn pending(task: u8, k: Task) -> Plan
    ensures { result ≡ answers Pending (Moves task k) }
{
    answers(Code::Pending, Effect::Moves { task, record: k })
}
