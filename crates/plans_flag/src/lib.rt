// The plans of the services on event flags, and the dispatch over them; the poll has a file of its own, where an edit can name its lines.
// Each function is a definition of model/specs/Service or Call, for every value, and takes what that takes, one by one: a struct would be made
// for each; it rests on checks and records.
#![tactic(auto)]

ghost use Rattle.std.specs.Prelude.{◌≡◌};
ghost use Rattle.checks.specs.Gate.{plan_of, IsDecision};
ghost use Rattle.model.specs.Flag.{bits_left};
ghost use Rattle.model.specs.Service.{flag_create, flag_delete, meets_first, flag_set, flag_clear, is_occupied, taken, flag_wait};
ghost use Rattle.model.specs.Call.{flag_subject, flag_plan};

use crate::poll::flag_poll;
use checks::{checked, does, flags, gives, is_attributes, is_flag, is_timeout, pending};
use model::{Code, Effect, Flag, FlagService, News, Plan, Task};
use records::waits::on_flag;
use records::{is_met, waiting};

mod poll;

// ---- a flag's bits
// CLR zeroes the bits when a wait or poll is met.
#[tactic(auto, unfolding(model::specs::Flag::bits_left))]
fn bits_left(attributes: u32, met: bool, bits: u32) -> u32
    ensures { result ≡ bits_left attributes met bits }
{
    if attributes == 4 && met {
        return 0;
    }
    bits
}

// A SINGLE flag has its one waiter.
#[tactic(auto, unfolding(model::specs::Service::is_occupied))]
fn is_occupied(y: Flag) -> bool
    ensures { result ≡ is_occupied y }
{
    matches!(y.attributes, 2 | 4) && y.first != 0
}

// The bits meet what the first waiter, whose record is k, asks for.
#[tactic(auto, unfolding(model::specs::Service::meets_first))]
fn meets_first(bits: u32, k: Task, y: Flag) -> bool
    ensures { result ≡ meets_first bits k y }
{
    y.first != 0 && is_met(k.wait.pattern, u32::from(k.wait.mode), bits)
}

// A wait or poll is met at once: the bits are in its answer.
#[tactic(auto, unfolding(model::specs::Service::taken))]
fn taken(flag: u8, y: Flag) -> Plan
    ensures { result ≡ taken flag y }
{
    gives(
        y.bits,
        Effect::Flags {
            flag,
            attributes: y.attributes,
            bits: bits_left(y.attributes, true, y.bits),
        },
    )
}

// ---- the services
#[tactic(auto, unfolding(checks::specs::Gate::gate, model::specs::Plan::within, model::specs::Service::flag_create))]
fn flag_create(mine: bool, flag: u32, attributes: u32, bits: u32, y: Flag) -> Result<Plan, Code>
    ensures plan { plan_of result ≡ flag_create mine flag attributes bits y }
    ensures decision { IsDecision result }
{
    checked(
        is_flag(flag) && is_attributes(attributes) && y.attributes == 0,
        true,
        mine,
    )?;
    Ok(flags(flag as u8, attributes + 1, bits))
}

#[tactic(auto, unfolding(checks::specs::Gate::gate, model::specs::Plan::within, model::specs::Service::flag_delete))]
fn flag_delete(mine: bool, flag: u32, y: Flag) -> Result<Plan, Code>
    ensures plan { plan_of result ≡ flag_delete mine flag y }
    ensures decision { IsDecision result }
{
    checked(is_flag(flag), y.attributes != 0, mine)?;
    Ok(does(Effect::Tells {
        flag: flag as u8,
        news: News::Deleted,
        attributes: 0,
        bits: 0,
    }))
}

// k is the record of the first waiter.
#[tactic(auto, unfolding(checks::specs::Gate::gate, model::specs::Plan::within, model::specs::Service::flag_set, model::specs::Flag::with_bits))]
fn flag_set(mine: bool, flag: u32, bits: u32, k: Task, y: Flag) -> Result<Plan, Code>
    ensures plan { plan_of result ≡ flag_set mine flag bits k y }
    ensures decision { IsDecision result }
{
    checked(is_flag(flag) && bits != 0, y.attributes != 0, mine)?;
    let all = y.bits | bits;
    let left = bits_left(y.attributes, meets_first(all, k, y), all);
    Ok(does(Effect::Tells {
        flag: flag as u8,
        news: News::Bits { bits: all },
        attributes: y.attributes,
        bits: left,
    }))
}

#[tactic(auto, unfolding(checks::specs::Gate::gate, model::specs::Plan::within, model::specs::Service::flag_clear, model::specs::Flag::without_bits))]
fn flag_clear(mine: bool, flag: u32, bits: u32, y: Flag) -> Result<Plan, Code>
    ensures plan { plan_of result ≡ flag_clear mine flag bits y }
    ensures decision { IsDecision result }
{
    checked(is_flag(flag) && bits != 0, y.attributes != 0, mine)?;
    let left = y.bits & !bits;
    Ok(flags(flag as u8, y.attributes, left))
}

#[tactic(auto, unfolding(checks::specs::Gate::gate, model::specs::Plan::within, model::specs::Service::flag_wait, model::specs::Service::taken))]
fn flag_wait(
    mine: bool,
    flag: u32,
    pattern: u32,
    mode: u32,
    timeout: u32,
    run: u8,
    k: Task,
    y: Flag,
) -> Result<Plan, Code>
    ensures plan { plan_of result ≡ flag_wait mine flag pattern mode timeout run k y }
    ensures decision { IsDecision result }
{
    checked(
        is_flag(flag) && pattern != 0 && mode <= 1 && is_timeout(timeout),
        y.attributes != 0,
        mine,
    )?;
    if run == 0 {
        return Err(Code::WContext);
    }
    if is_occupied(y) {
        return Err(Code::IlUse);
    }
    let f = flag as u8;
    if is_met(pattern, mode, y.bits) {
        return Ok(taken(f, y));
    }
    let wait = on_flag(f, pattern, mode as u8, timeout);
    Ok(pending(run, waiting(k, wait)))
}

// ---- the dispatch
// The task whose record a service looks at: the running one, or the flag's first waiter; or 0.
pub fn flag_subject(service: FlagService, run: u8, first: u8) -> u8
    ensures { result ≡ flag_subject service run first }
{
    match service {
        FlagService::Set { .. } | FlagService::Iset { .. } => first,
        FlagService::Wait { .. } => run,
        _ => 0,
    }
}

// The plan of a service, from whether the context is its own.
#[tactic(auto, unfolding(model::specs::Call::flag_plan))]
pub fn flag_plan(
    mine: bool,
    flag: u32,
    service: FlagService,
    run: u8,
    k: Task,
    y: Flag,
) -> Result<Plan, Code>
    ensures plan { plan_of result ≡ flag_plan mine flag service run k y }
    ensures decision { IsDecision result }
{
    match service {
        FlagService::Create { attributes, bits } => flag_create(mine, flag, attributes, bits, y),
        FlagService::Delete => flag_delete(mine, flag, y),
        FlagService::Set { bits } | FlagService::Iset { bits } => flag_set(mine, flag, bits, k, y),
        FlagService::Clear { bits } | FlagService::Iclear { bits } => flag_clear(
            mine, flag, bits, y,
        ),
        FlagService::Wait {
            pattern,
            mode,
            timeout,
        } => flag_wait(mine, flag, pattern, mode, timeout, run, k, y),
        FlagService::WaitPolling { pattern, mode } | FlagService::Iwait { pattern, mode } =>
            flag_poll(mine, flag, pattern, mode, y),
    }
}
