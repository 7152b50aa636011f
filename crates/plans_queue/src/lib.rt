// The plans of the services on data queues, and the dispatch over them.
// Each function is a definition of model/specs/Service or Call, for every value, and takes what that takes, one by one: a struct would be made
// for each; it rests on checks and records.
#![tactic(auto)]

ghost use Rattle.std.specs.Prelude.{◌≡◌, false, IfSome};
ghost use Rattle.std.specs.Option.{unwrap_or};
ghost use Rattle.model.specs.Code.{is_refusal};
ghost use Rattle.checks.specs.Gate.{plan_of, IsDecision};
ghost use Rattle.model.specs.Service.{queue_create, queue_delete, is_side, has_room, sent, queue_send, queue_send_poll, received, queue_receive, queue_receive_poll};
ghost use Rattle.model.specs.Call.{queue_plan};

use checks::{checked, does, gives, is_queue, is_timeout, moves, pending};
use model::{Code, DataQueue, Effect, Plan, QueueService, Task};
use records::waits::{to_receive, to_send};
use records::{RECEIVE, SEND, SERVED, ended, waiting};

// ---- a queue
// The first waiter waits for this: to send or to receive.
#[tactic(auto, unfolding(model::specs::Service::is_side))]
fn is_side(kind: u8, z: DataQueue) -> bool
    ensures { result ≡ is_side kind z }
{
    z.first != 0 && z.waiter.wait.kind == kind
}

// A place is free. The number that a queue keeps is its capacity plus 1, and nothing is added to the elements, whose number may be any here.
fn has_room(z: DataQueue) -> bool
    ensures { result ≡ has_room z }
{
    z.capacity != 0 && z.taken < z.capacity - 1
}

// The first waiting receiver gets the element, or it is stored last; None where the queue is full.
#[tactic(auto, unfolding(model::specs::Service::sent))]
fn sent(queue: u8, element: u32, z: DataQueue) -> Option<Plan>
    ensures plan { (full : Plan) → unwrap_or result full ≡ sent queue element z full }
    ensures code { IfSome result (λ p. is_refusal p.code ≡ false) }
{
    if is_side(RECEIVE, z) {
        return Some(moves(z.first, ended(z.waiter, SERVED, element)));
    }
    if has_room(z) {
        return Some(does(Effect::Stores {
            queue,
            taken: z.taken + 1,
            element,
        }));
    }
    None
}

// The oldest element is taken, and the first waiting sender's goes in last; where none is stored, the first waiting sender hands its own over;
// None where the queue is empty and nobody sends.
#[tactic(auto, unfolding(model::specs::Service::received))]
fn received(queue: u8, z: DataQueue) -> Option<Plan>
    ensures plan { (empty : Plan) → unwrap_or result empty ≡ received queue z empty }
    ensures code { IfSome result (λ p. is_refusal p.code ≡ false) }
{
    let sends = is_side(SEND, z);
    if z.taken != 0 {
        if sends {
            return Some(gives(z.oldest, Effect::Refills { queue }));
        }
        return Some(gives(z.oldest, Effect::Takes { queue }));
    }
    if !sends {
        return None;
    }
    Some(gives(
        z.waiter.wait.pattern,
        Effect::Moves {
            task: z.first,
            record: ended(z.waiter, SERVED, 0),
        },
    ))
}

// ---- the services
#[tactic(auto, unfolding(checks::specs::Gate::gate, model::specs::Plan::within, model::specs::Service::queue_create))]
fn queue_create(mine: bool, queue: u32, capacity: u32, z: DataQueue) -> Result<Plan, Code>
    ensures plan { plan_of result ≡ queue_create mine queue capacity z }
    ensures decision { IsDecision result }
{
    checked(
        is_queue(queue) && capacity <= 16 && z.capacity == 0,
        true,
        mine,
    )?;
    Ok(does(Effect::Queues {
        queue: queue as u8,
        capacity: capacity + 1,
    }))
}

#[tactic(auto, unfolding(checks::specs::Gate::gate, model::specs::Plan::within, model::specs::Service::queue_delete))]
fn queue_delete(mine: bool, queue: u32, z: DataQueue) -> Result<Plan, Code>
    ensures plan { plan_of result ≡ queue_delete mine queue z }
    ensures decision { IsDecision result }
{
    checked(is_queue(queue), z.capacity != 0, mine)?;
    Ok(does(Effect::Removes { queue: queue as u8 }))
}

#[tactic(auto, unfolding(checks::specs::Gate::gate, model::specs::Plan::within, model::specs::Service::queue_send))]
fn queue_send(
    mine: bool,
    queue: u32,
    element: u32,
    timeout: u32,
    run: u8,
    k: Task,
    z: DataQueue,
) -> Result<Plan, Code>
    ensures plan { plan_of result ≡ queue_send mine queue element timeout run k z }
    ensures decision { IsDecision result }
{
    checked(
        is_queue(queue) && is_timeout(timeout),
        z.capacity != 0,
        mine,
    )?;
    if run == 0 {
        return Err(Code::WContext);
    }
    let q = queue as u8;
    let otherwise = pending(run, waiting(k, to_send(q, element, timeout)));
    Ok(sent(q, element, z).unwrap_or(otherwise))
}

#[tactic(auto, unfolding(checks::specs::Gate::gate, model::specs::Plan::within, model::specs::Service::queue_send_poll))]
fn queue_send_poll(mine: bool, queue: u32, element: u32, z: DataQueue) -> Result<Plan, Code>
    ensures plan { plan_of result ≡ queue_send_poll mine queue element z }
    ensures decision { IsDecision result }
{
    checked(is_queue(queue), z.capacity != 0, mine)?;
    sent(queue as u8, element, z).ok_or(Code::Timeout)
}

#[tactic(auto, unfolding(checks::specs::Gate::gate, model::specs::Plan::within, model::specs::Service::queue_receive))]
fn queue_receive(
    mine: bool,
    queue: u32,
    timeout: u32,
    run: u8,
    k: Task,
    z: DataQueue,
) -> Result<Plan, Code>
    ensures plan { plan_of result ≡ queue_receive mine queue timeout run k z }
    ensures decision { IsDecision result }
{
    checked(
        is_queue(queue) && is_timeout(timeout),
        z.capacity != 0,
        mine,
    )?;
    if run == 0 {
        return Err(Code::WContext);
    }
    let q = queue as u8;
    let otherwise = pending(run, waiting(k, to_receive(q, timeout)));
    Ok(received(q, z).unwrap_or(otherwise))
}

#[tactic(auto, unfolding(checks::specs::Gate::gate, model::specs::Plan::within, model::specs::Service::queue_receive_poll))]
fn queue_receive_poll(mine: bool, queue: u32, z: DataQueue) -> Result<Plan, Code>
    ensures plan { plan_of result ≡ queue_receive_poll mine queue z }
    ensures decision { IsDecision result }
{
    checked(is_queue(queue), z.capacity != 0, mine)?;
    received(queue as u8, z).ok_or(Code::Timeout)
}

// ---- the dispatch
// The plan of a service, from whether the context is its own; k is the record of the task that runs.
#[tactic(auto, unfolding(model::specs::Call::queue_plan))]
pub fn queue_plan(
    mine: bool,
    queue: u32,
    service: QueueService,
    run: u8,
    k: Task,
    z: DataQueue,
) -> Result<Plan, Code>
    ensures plan { plan_of result ≡ queue_plan mine queue service run k z }
    ensures decision { IsDecision result }
{
    match service {
        QueueService::Create { capacity } => queue_create(mine, queue, capacity, z),
        QueueService::Delete => queue_delete(mine, queue, z),
        QueueService::Send { element, timeout } => queue_send(
            mine, queue, element, timeout, run, k, z,
        ),
        QueueService::SendPolling { element } | QueueService::IsendPolling { element } =>
            queue_send_poll(mine, queue, element, z),
        QueueService::Receive { timeout } => queue_receive(mine, queue, timeout, run, k, z),
        QueueService::ReceivePolling | QueueService::Ireceive => queue_receive_poll(mine, queue, z),
    }
}
