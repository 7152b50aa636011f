// The plans of the services that suspend and resume a task, and begin and end its sleep.
// Each function is a definition of model/specs/Service, for every value; it rests on checks and records.
ghost use Rattle.std.specs.Prelude.{◌≡◌};
ghost use Rattle.checks.specs.Gate.{plan_of, IsDecision};
ghost use Rattle.model.specs.Service.{suspend, resume, sleep, wakeup, release_wait};

use checks::{checked, is_task, is_timeout, moves, pending};
use model::{Code, Plan, Task};
use records::waits::asleep;
use records::{NOTHING, RELEASED, SERVED, SLEEP, ended, waiting, with_suspended, with_wakeups};

#[tactic(auto, unfolding(checks::specs::Gate::gate, model::specs::Plan::within, model::specs::Service::suspend))]
pub fn suspend(mine: bool, task: u32, k: Task) -> Result<Plan, Code>
    ensures plan { plan_of result ≡ suspend mine task k }
    ensures decision { IsDecision result }
{
    checked(is_task(task), k.base != 0, mine)?;
    if k.active == 0 {
        return Err(Code::WState);
    }
    if k.suspended != 0 {
        return Err(Code::Overflow);
    }
    Ok(moves(task as u8, with_suspended(k, 1)))
}

#[tactic(auto, unfolding(checks::specs::Gate::gate, model::specs::Plan::within, model::specs::Service::resume))]
pub fn resume(mine: bool, task: u32, k: Task) -> Result<Plan, Code>
    ensures plan { plan_of result ≡ resume mine task k }
    ensures decision { IsDecision result }
{
    checked(is_task(task), k.base != 0, mine)?;
    if k.suspended == 0 {
        return Err(Code::WState);
    }
    Ok(moves(task as u8, with_suspended(k, 0)))
}

#[tactic(auto, unfolding(checks::specs::Gate::gate, model::specs::Service::sleep))]
pub fn sleep(mine: bool, timeout: u32, run: u8, k: Task) -> Result<Plan, Code>
    ensures plan { plan_of result ≡ sleep mine timeout run k }
    ensures decision { IsDecision result }
{
    checked(is_timeout(timeout), true, mine)?;
    if run == 0 {
        return Err(Code::WContext);
    }
    if k.wakeups == 0 {
        return Ok(pending(run, waiting(k, asleep(timeout))));
    }
    Ok(moves(run, with_wakeups(k, 0)))
}

#[tactic(auto, unfolding(checks::specs::Gate::gate, model::specs::Plan::within, model::specs::Service::wakeup))]
pub fn wakeup(mine: bool, task: u32, k: Task) -> Result<Plan, Code>
    ensures plan { plan_of result ≡ wakeup mine task k }
    ensures decision { IsDecision result }
{
    checked(is_task(task), k.base != 0, mine)?;
    if k.active == 0 {
        return Err(Code::WContext);
    }
    let t = task as u8;
    if k.wait.kind == SLEEP {
        return Ok(moves(t, ended(k, SERVED, 0)));
    }
    if k.wakeups != 0 {
        return Err(Code::Overflow);
    }
    Ok(moves(t, with_wakeups(k, 1)))
}

#[tactic(auto, unfolding(checks::specs::Gate::gate, model::specs::Plan::within, model::specs::Service::release_wait))]
pub fn release_wait(mine: bool, task: u32, k: Task) -> Result<Plan, Code>
    ensures plan { plan_of result ≡ release_wait mine task k }
    ensures decision { IsDecision result }
{
    checked(is_task(task), k.base != 0, mine)?;
    if k.wait.kind == NOTHING {
        return Err(Code::WContext);
    }
    Ok(moves(task as u8, ended(k, RELEASED, 0)))
}
