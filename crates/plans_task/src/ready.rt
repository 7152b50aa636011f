// The plan of the service that asks how many ticks ago a task entered its level.
// Each function is a definition of model/specs/Service or Task, for every value; it rests on checks.
ghost use Rattle.std.specs.Prelude.{◌≡◌};
ghost use Rattle.checks.specs.Gate.{plan_of, IsDecision};
ghost use Rattle.model.specs.Service.{ready_ticks};
ghost use Rattle.model.specs.Task.{since};

use checks::{checked, gives, is_task};
use model::{Code, Effect, Plan, Task};

// The time may have wrapped since.
#[tactic(auto, unfolding(model::specs::Task::since))]
fn since(entered: u32, time: u32) -> u32
    ensures { result ≡ since entered time }
{
    time.wrapping_sub(entered)
}

#[tactic(auto, unfolding(checks::specs::Gate::gate, model::specs::Service::ready_ticks))]
pub fn ready_ticks(mine: bool, task: u32, time: u32, k: Task) -> Result<Plan, Code>
    ensures plan { plan_of result ≡ ready_ticks mine task time k }
    ensures decision { IsDecision result }
{
    checked(is_task(task), k.base != 0, mine)?;
    if k.active == 0 {
        return Err(Code::WContext);
    }
    Ok(gives(since(k.entered, time), Effect::Nothing))
}
