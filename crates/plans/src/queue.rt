// The plan of a service of data queues on a state: who runs and the queue are looked at, and nothing else.
// It is `planned_from` of model/specs/Call for these calls, for every value; it rests on plans_queue.
ghost use Rattle.std.specs.Prelude.{◌≡◌};
ghost use Rattle.model.specs.declared.Context.TheVariants.{I};
ghost use Rattle.model.specs.declared.Call.TheVariants.{OnQueue};
ghost use Rattle.checks.specs.Gate.{plan_of, IsDecision};
ghost use Rattle.model.specs.Services.{is_mine};
ghost use Rattle.model.specs.Call.{planned_from};

use crate::is_mine;
use model::{Code, Context, Plan, QueueService, State};
use plans_queue::queue_plan;
use stored::record_at;
use tables::queue_at;

// A service of data queues belongs to interrupts.
#[tactic(auto, unfolding(model::specs::Services::is_mine, model::proofs::Words::table))]
fn is_queue_inside(service: QueueService) -> bool
    ensures { result ≡ is_mine I (OnQueue 0 service) }
{
    matches!(
        service,
        QueueService::IsendPolling { .. } | QueueService::Ireceive
    )
}

#[tactic(auto, unfolding(model::specs::Call::plan, model::specs::Services::is_mine))]
pub fn queue_plan_in(
    s: &State,
    run: u8,
    c: Context,
    queue: u32,
    service: QueueService,
) -> Result<Plan, Code>
    ensures plan { plan_of result ≡ planned_from run s.now c (OnQueue queue service) }
    ensures decision { IsDecision result }
{
    let z = queue_at(s, queue as usize);
    let k = record_at(&s.tasks, run as usize);
    queue_plan(
        is_mine(c, is_queue_inside(service)),
        queue,
        service,
        run,
        k,
        z,
    )
}
