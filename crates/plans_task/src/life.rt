// The plans of the services that create, delete, start and stop a task.
// Each function is a definition of model/specs/Service, for every value; it rests on checks and records.
ghost use Rattle.std.specs.Prelude.{◌≡◌};
ghost use Rattle.checks.specs.Gate.{plan_of, IsDecision};
ghost use Rattle.model.specs.Service.{create, delete, activate, exit, terminate};

use checks::{checked, does, is_priority, is_task, moves};
use model::{Code, Effect, Plan, Task};
use records::{activated, created, no_task, with_activations};

#[tactic(auto, unfolding(checks::specs::Gate::gate, model::specs::Plan::within, model::specs::Service::create))]
pub fn create(mine: bool, task: u32, priority: u32, option: u32, k: Task) -> Result<Plan, Code>
    ensures plan { plan_of result ≡ create mine task priority option k }
    ensures decision { IsDecision result }
{
    checked(
        is_task(task) && is_priority(priority) && option <= 1 && k.base == 0,
        true,
        mine,
    )?;
    Ok(moves(task as u8, created(priority as u8, option as u8)))
}

#[tactic(auto, unfolding(checks::specs::Gate::gate, model::specs::Plan::within, model::specs::Service::delete))]
pub fn delete(mine: bool, task: u32, k: Task) -> Result<Plan, Code>
    ensures plan { plan_of result ≡ delete mine task k }
    ensures decision { IsDecision result }
{
    checked(is_task(task), k.base != 0, mine)?;
    if k.active != 0 {
        return Err(Code::WContext);
    }
    Ok(moves(task as u8, no_task()))
}

#[tactic(auto, unfolding(checks::specs::Gate::gate, model::specs::Plan::within, model::specs::Service::activate))]
pub fn activate(mine: bool, task: u32, k: Task) -> Result<Plan, Code>
    ensures plan { plan_of result ≡ activate mine task k }
    ensures decision { IsDecision result }
{
    checked(is_task(task), k.base != 0, mine)?;
    let t = task as u8;
    if k.active == 0 {
        return Ok(moves(t, activated(k)));
    }
    if k.activations != 0 {
        return Err(Code::Overflow);
    }
    Ok(moves(t, with_activations(k, 1)))
}

#[tactic(auto, unfolding(checks::specs::Gate::gate, model::specs::Service::exit))]
pub fn exit(mine: bool, run: u8) -> Result<Plan, Code>
    ensures plan { plan_of result ≡ exit mine run }
    ensures decision { IsDecision result }
{
    checked(true, true, mine)?;
    if run == 0 {
        return Err(Code::WContext);
    }
    Ok(does(Effect::Stops { task: run }))
}

#[tactic(auto, unfolding(checks::specs::Gate::gate, model::specs::Plan::within, model::specs::Service::terminate))]
pub fn terminate(mine: bool, task: u32, run: u8, k: Task) -> Result<Plan, Code>
    ensures plan { plan_of result ≡ terminate mine task run k }
    ensures decision { IsDecision result }
{
    checked(is_task(task), k.base != 0, mine)?;
    let t = task as u8;
    if t == run {
        return Err(Code::WContext);
    }
    if k.active == 0 {
        return Err(Code::WContext);
    }
    Ok(does(Effect::Stops { task: t }))
}
