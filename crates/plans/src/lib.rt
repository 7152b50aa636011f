// Every call's plan on a state: each arm looks at what its service asks for, and at nothing else.
// It is `planned_from` of model/specs/Call, for every value; it rests on plans_task, plans_semaphore, plans_flag and plans_queue.
#![tactic(auto)]

ghost use Rattle.std.specs.Prelude.{◌≡◌, cond, not};
ghost use Rattle.model.specs.declared.Context.TheVariants.{I};
ghost use Rattle.model.specs.declared.Call.TheVariants.{OnFlag};
ghost use Rattle.checks.specs.Gate.{plan_of, IsDecision};
ghost use Rattle.model.specs.Row.{first_of};
ghost use Rattle.model.specs.State.{task, semaphore};
ghost use Rattle.model.specs.Service.{signal};
ghost use Rattle.model.specs.Services.{same, is_mine};
ghost use Rattle.model.specs.Call.{planned_from};

use crate::queue::queue_plan_in;
use model::{Call, Code, Context, FlagService, Plan, State};
use plans_flag::{flag_plan, flag_subject};
use plans_semaphore::{acquire, polling, sem_create, sem_delete, signal};
use plans_task::life::{activate, create, delete, exit, terminate};
use plans_task::ready::ready_ticks;
use plans_task::turns::{change_priority, tick, tslice_ticks};
use plans_task::waits::{release_wait, resume, sleep, suspend, wakeup};
use stored::record_at;
use tables::{flag_at, semaphore_at};

pub mod queue;

// ---- contexts
// A service of flags belongs to interrupts.
#[tactic(auto, unfolding(model::specs::Services::is_mine, model::proofs::Words::table))]
fn is_flag_inside(service: FlagService) -> bool
    ensures { result ≡ is_mine I (OnFlag 0 service) }
{
    matches!(
        service,
        FlagService::Iset { .. } | FlagService::Iclear { .. } | FlagService::Iwait { .. }
    )
}

// A service comes from the context that it belongs to, interrupts or not.
pub(crate) fn is_mine(c: Context, inside: bool) -> bool
    ensures { result ≡ cond (same c I) inside (not inside) }
{
    inside == (c == Context::I)
}

// ---- plans
// A signal looks at the record of the first waiter.
fn signal_in(s: &State, mine: bool, m: u32) -> Result<Plan, Code>
    ensures plan { plan_of result ≡ signal mine m (task s.now (first_of s.now.waits m)) (semaphore s.now m) }
    ensures decision { IsDecision result }
{
    let x = semaphore_at(s, m as usize);
    signal(mine, m, record_at(&s.tasks, x.first as usize), x)
}

#[tactic(auto, unfolding(model::specs::Call::plan, model::specs::Services::is_mine))]
fn flag_plan_in(
    s: &State,
    run: u8,
    c: Context,
    flag: u32,
    service: FlagService,
) -> Result<Plan, Code>
    ensures plan { plan_of result ≡ planned_from run s.now c (OnFlag flag service) }
    ensures decision { IsDecision result }
{
    let y = flag_at(s, flag as usize);
    let k = record_at(&s.tasks, flag_subject(service, run, y.first) as usize);
    flag_plan(
        is_mine(c, is_flag_inside(service)),
        flag,
        service,
        run,
        k,
        y,
    )
}

// The context that each arm asks for is the one that its service belongs to in the table of services.
#[tactic(auto, unfolding(model::specs::Call::plan, model::specs::Services::is_mine, model::proofs::Words::table))]
pub fn plan_in(s: &State, run: u8, c: Context, a: Call) -> Result<Plan, Code>
    ensures plan { plan_of result ≡ planned_from run s.now c a }
    ensures decision { IsDecision result }
{
    let mine_t = c == Context::T;
    let mine_i = c == Context::I;
    match a {
        Call::TaskCreate {
            task,
            priority,
            option,
        } => create(
            mine_t,
            task,
            priority,
            option,
            record_at(&s.tasks, task as usize),
        ),
        Call::TaskDelete { task } => delete(mine_t, task, record_at(&s.tasks, task as usize)),
        Call::TaskActivate { task } => activate(mine_t, task, record_at(&s.tasks, task as usize)),
        Call::TaskIactivate { task } => activate(mine_i, task, record_at(&s.tasks, task as usize)),
        Call::TaskExit => exit(mine_t, run),
        Call::TaskTerminate { task } => terminate(
            mine_t,
            task,
            run,
            record_at(&s.tasks, task as usize),
        ),
        Call::TaskSuspend { task } => suspend(mine_t, task, record_at(&s.tasks, task as usize)),
        Call::TaskResume { task } => resume(mine_t, task, record_at(&s.tasks, task as usize)),
        Call::TaskSleep { timeout } => sleep(
            mine_t,
            timeout,
            run,
            record_at(&s.tasks, run as usize),
        ),
        Call::TaskWakeup { task } => wakeup(mine_t, task, record_at(&s.tasks, task as usize)),
        Call::TaskIwakeup { task } => wakeup(mine_i, task, record_at(&s.tasks, task as usize)),
        Call::TaskReleaseWait { task } => release_wait(
            mine_t,
            task,
            record_at(&s.tasks, task as usize),
        ),
        Call::TaskIreleaseWait { task } => release_wait(
            mine_i,
            task,
            record_at(&s.tasks, task as usize),
        ),
        Call::TaskChangePriority { task, priority } => change_priority(
            mine_t,
            task,
            priority,
            record_at(&s.tasks, task as usize),
        ),
        Call::SysTsliceTicks { level, slice } => tslice_ticks(mine_t, level, slice),
        Call::TickIntProcessing => tick(mine_i),
        Call::SemCreate {
            semaphore,
            start,
            maximum,
        } => sem_create(
            mine_t,
            semaphore,
            start,
            maximum,
            semaphore_at(s, semaphore as usize),
        ),
        Call::SemDelete { semaphore } => sem_delete(
            mine_t,
            semaphore,
            semaphore_at(s, semaphore as usize),
        ),
        Call::SemSignal { semaphore } => signal_in(s, mine_t, semaphore),
        Call::SemIsignal { semaphore } => signal_in(s, mine_i, semaphore),
        Call::SemAcquire { semaphore, timeout } => acquire(
            mine_t,
            semaphore,
            timeout,
            run,
            record_at(&s.tasks, run as usize),
            semaphore_at(s, semaphore as usize),
        ),
        Call::SemPolling { semaphore } => polling(
            mine_t,
            semaphore,
            semaphore_at(s, semaphore as usize),
        ),
        Call::SemIpolling { semaphore } => polling(
            mine_i,
            semaphore,
            semaphore_at(s, semaphore as usize),
        ),
        Call::OnFlag { flag, service } => flag_plan_in(s, run, c, flag, service),
        Call::ReadyTicks { task } => ready_ticks(
            mine_t,
            task,
            s.numbers.time,
            record_at(&s.tasks, task as usize),
        ),
        Call::OnQueue { queue, service } => queue_plan_in(s, run, c, queue, service),
    }
}
