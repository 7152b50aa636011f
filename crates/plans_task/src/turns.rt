// The plans of the services that change a priority and a level's slice, and of the tick.
// Each function is a definition of model/specs/Service, for every value; it rests on checks and records.
ghost use Rattle.std.specs.Prelude.{◌≡◌};
ghost use Rattle.checks.specs.Gate.{plan_of, IsDecision};
ghost use Rattle.model.specs.Service.{wanted, change_priority, tslice_ticks, tick};

use checks::{checked, does, is_priority, is_slice, is_task, moves};
use model::{Code, Effect, Plan, Task};
use records::with_priority;

// 0 means the priority at creation.
#[tactic(auto, unfolding(model::specs::Service::wanted))]
fn wanted(priority: u8, k: Task) -> u8
    ensures { result ≡ wanted priority k }
{
    if priority == 0 {
        return k.base;
    }
    priority
}

#[tactic(auto, unfolding(checks::specs::Gate::gate, model::specs::Plan::within, model::specs::Service::change_priority))]
pub fn change_priority(mine: bool, task: u32, priority: u32, k: Task) -> Result<Plan, Code>
    ensures plan { plan_of result ≡ change_priority mine task priority k }
    ensures decision { IsDecision result }
{
    checked(is_task(task) && priority <= 30, k.base != 0, mine)?;
    if k.active == 0 {
        return Err(Code::WContext);
    }
    let next = wanted(priority as u8, k);
    if next == k.priority {
        return Ok(does(Effect::Nothing));
    }
    Ok(moves(task as u8, with_priority(k, next)))
}

#[tactic(auto, unfolding(checks::specs::Gate::gate, model::specs::Plan::within, model::specs::Service::tslice_ticks))]
pub fn tslice_ticks(mine: bool, level: u32, slice: u32) -> Result<Plan, Code>
    ensures plan { plan_of result ≡ tslice_ticks mine level slice }
    ensures decision { IsDecision result }
{
    checked(is_priority(level) && is_slice(slice), true, mine)?;
    Ok(does(Effect::Slices {
        level: level as u8,
        slice,
    }))
}

#[tactic(auto, unfolding(checks::specs::Gate::gate, model::specs::Service::tick))]
pub fn tick(mine: bool) -> Result<Plan, Code>
    ensures plan { plan_of result ≡ tick mine }
    ensures decision { IsDecision result }
{
    checked(true, true, mine)?;
    Ok(does(Effect::Ticks))
}
