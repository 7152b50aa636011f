// The plans of the services on semaphores.
// Each function is a definition of model/specs/Service, for every value, and takes what that takes, one by one: a struct would be made
// for each; it rests on checks and records.
#![tactic(auto)]

ghost use Rattle.std.specs.Prelude.{◌≡◌};
ghost use Rattle.checks.specs.Gate.{plan_of, IsDecision};
ghost use Rattle.model.specs.Service.{sem_create, sem_delete, signal, acquire, polling};

use checks::{checked, counts, does, is_maximum, is_semaphore, is_timeout, moves, pending};
use model::{Code, Effect, Plan, Semaphore, Task};
use records::waits::on_semaphore;
use records::{SERVED, ended, waiting};

#[tactic(auto, unfolding(checks::specs::Gate::gate, model::specs::Plan::within, model::specs::Service::sem_create))]
pub fn sem_create(
    mine: bool,
    semaphore: u32,
    start: u32,
    maximum: u32,
    x: Semaphore,
) -> Result<Plan, Code>
    ensures plan { plan_of result ≡ sem_create mine semaphore start maximum x }
    ensures decision { IsDecision result }
{
    checked(
        is_semaphore(semaphore) && is_maximum(maximum) && start <= maximum && x.maximum == 0,
        true,
        mine,
    )?;
    Ok(counts(semaphore as u8, start, maximum))
}

#[tactic(auto, unfolding(checks::specs::Gate::gate, model::specs::Plan::within, model::specs::Service::sem_delete))]
pub fn sem_delete(mine: bool, semaphore: u32, x: Semaphore) -> Result<Plan, Code>
    ensures plan { plan_of result ≡ sem_delete mine semaphore x }
    ensures decision { IsDecision result }
{
    checked(is_semaphore(semaphore), x.maximum != 0, mine)?;
    Ok(does(Effect::Deletes {
        semaphore: semaphore as u8,
    }))
}

// k is the record of the first waiter.
#[tactic(auto, unfolding(checks::specs::Gate::gate, model::specs::Plan::within, model::specs::Service::signal))]
pub fn signal(mine: bool, semaphore: u32, k: Task, x: Semaphore) -> Result<Plan, Code>
    ensures plan { plan_of result ≡ signal mine semaphore k x }
    ensures decision { IsDecision result }
{
    checked(is_semaphore(semaphore), x.maximum != 0, mine)?;
    let Semaphore {
        count,
        maximum,
        first,
    } = x;
    if first != 0 {
        return Ok(moves(first, ended(k, SERVED, 0)));
    }
    if count >= maximum {
        return Err(Code::Overflow);
    }
    Ok(counts(semaphore as u8, count + 1, maximum))
}

#[tactic(auto, unfolding(checks::specs::Gate::gate, model::specs::Plan::within, model::specs::Service::acquire))]
pub fn acquire(
    mine: bool,
    semaphore: u32,
    timeout: u32,
    run: u8,
    k: Task,
    x: Semaphore,
) -> Result<Plan, Code>
    ensures plan { plan_of result ≡ acquire mine semaphore timeout run k x }
    ensures decision { IsDecision result }
{
    checked(
        is_semaphore(semaphore) && is_timeout(timeout),
        x.maximum != 0,
        mine,
    )?;
    if run == 0 {
        return Err(Code::WContext);
    }
    let m = semaphore as u8;
    if x.count == 0 {
        return Ok(pending(run, waiting(k, on_semaphore(m, timeout))));
    }
    Ok(counts(m, x.count - 1, x.maximum))
}

#[tactic(auto, unfolding(checks::specs::Gate::gate, model::specs::Plan::within, model::specs::Service::polling))]
pub fn polling(mine: bool, semaphore: u32, x: Semaphore) -> Result<Plan, Code>
    ensures plan { plan_of result ≡ polling mine semaphore x }
    ensures decision { IsDecision result }
{
    checked(is_semaphore(semaphore), x.maximum != 0, mine)?;
    if x.count == 0 {
        return Err(Code::Timeout);
    }
    Ok(counts(semaphore as u8, x.count - 1, x.maximum))
}
