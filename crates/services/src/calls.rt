// A service by its number, from 1 to 41: the call that it makes. Numbers, since C names a service by them (include/gritgarland.h).
// The function is a definition of specs/Calls, for every value; it rests on model alone.
ghost use Rattle.std.specs.Prelude.{◌≡◌};
ghost use Rattle.services.specs.Calls.{asked};

use model::{Call, FlagService, QueueService};

// The call that a, b, c and d make of a service, if the number names one; those numbers that it does not take are not looked at.
#[tactic(auto, unfolding(crate::specs::Calls::asked, model::specs::Plan::within, model::proofs::Words::table))]
pub fn call_of(number: u32, a: u32, b: u32, c: u32, d: u32) -> Option<Call>
    ensures { result ≡ asked number a b c d }
{
    Some(match number {
        1 => Call::TaskCreate {
            task: a,
            priority: b,
            option: c,
        },
        2 => Call::TaskDelete { task: a },
        3 => Call::TaskActivate { task: a },
        4 => Call::TaskIactivate { task: a },
        5 => Call::TaskExit,
        6 => Call::TaskTerminate { task: a },
        7 => Call::TaskSuspend { task: a },
        8 => Call::TaskResume { task: a },
        9 => Call::TaskSleep { timeout: a },
        10 => Call::TaskWakeup { task: a },
        11 => Call::TaskIwakeup { task: a },
        12 => Call::TaskReleaseWait { task: a },
        13 => Call::TaskIreleaseWait { task: a },
        14 => Call::TaskChangePriority {
            task: a,
            priority: b,
        },
        15 => Call::SysTsliceTicks { level: a, slice: b },
        16 => Call::TickIntProcessing,
        17 => Call::SemCreate {
            semaphore: a,
            start: b,
            maximum: c,
        },
        18 => Call::SemDelete { semaphore: a },
        19 => Call::SemSignal { semaphore: a },
        20 => Call::SemIsignal { semaphore: a },
        21 => Call::SemAcquire {
            semaphore: a,
            timeout: b,
        },
        22 => Call::SemPolling { semaphore: a },
        23 => Call::SemIpolling { semaphore: a },
        24 => Call::OnFlag {
            flag: a,
            service: FlagService::Create {
                attributes: b,
                bits: c,
            },
        },
        25 => Call::OnFlag {
            flag: a,
            service: FlagService::Delete,
        },
        26 => Call::OnFlag {
            flag: a,
            service: FlagService::Set { bits: b },
        },
        27 => Call::OnFlag {
            flag: a,
            service: FlagService::Iset { bits: b },
        },
        28 => Call::OnFlag {
            flag: a,
            service: FlagService::Clear { bits: b },
        },
        29 => Call::OnFlag {
            flag: a,
            service: FlagService::Iclear { bits: b },
        },
        30 => Call::OnFlag {
            flag: a,
            service: FlagService::Wait {
                pattern: b,
                mode: c,
                timeout: d,
            },
        },
        31 => Call::OnFlag {
            flag: a,
            service: FlagService::WaitPolling {
                pattern: b,
                mode: c,
            },
        },
        32 => Call::OnFlag {
            flag: a,
            service: FlagService::Iwait {
                pattern: b,
                mode: c,
            },
        },
        33 => Call::ReadyTicks { task: a },
        34 => Call::OnQueue {
            queue: a,
            service: QueueService::Create { capacity: b },
        },
        35 => Call::OnQueue {
            queue: a,
            service: QueueService::Delete,
        },
        36 => Call::OnQueue {
            queue: a,
            service: QueueService::Send {
                element: b,
                timeout: c,
            },
        },
        37 => Call::OnQueue {
            queue: a,
            service: QueueService::SendPolling { element: b },
        },
        38 => Call::OnQueue {
            queue: a,
            service: QueueService::IsendPolling { element: b },
        },
        39 => Call::OnQueue {
            queue: a,
            service: QueueService::Receive { timeout: b },
        },
        40 => Call::OnQueue {
            queue: a,
            service: QueueService::ReceivePolling,
        },
        41 => Call::OnQueue {
            queue: a,
            service: QueueService::Ireceive,
        },
        _ => return None,
    })
}
