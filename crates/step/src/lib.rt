// The step of every call: the plan from the records it looks at, then its effect on the state. It stands once, over a lent state,
// for a caller that knows it to be sound.
#![tactic(auto)]

ghost use Rattle.std.specs.Prelude.{◌≡◌};
ghost use Rattle.model.specs.declared.Call.TheVariants.{TickIntProcessing, OnQueue};
ghost use Rattle.model.specs.Call.{step_from};
ghost use Rattle.model.specs.State.{running};
ghost use Rattle.step.specs.Answer.{answer_of};

use carry::queue::carry_queue;
use model::{Call, Code, Context, QueueService, State};
use plans::plan_in;
use plans::queue::queue_plan_in;
use rows::best;

// What a step answers, beside the state that it was lent.
#[derive(Clone, Copy)]
pub struct Stepped {
    pub code: Code,
    pub running: u8,
    pub value: u32,
}

// A code and a value, with the task that runs in the state that the call leaves.
#[tactic(auto, unfolding(model::specs::State::running))]
fn answered(s: &State, code: Code, value: u32) -> Stepped
    ensures { answer_of result s.now ≡ record { code = code; running = running s.now; value = value; state = s.now } }
{
    Stepped {
        code,
        running: best(&s.levels),
        value,
    }
}

// A tick looks at no record, so it goes a way of its own.
#[tactic(auto, unfolding(model::specs::Call::plan, model::specs::Service::tick, model::specs::Services::is_mine, model::proofs::Words::table))]
fn tick_in(s: &mut State, run: u8, c: Context) -> Stepped
    ensures { answer_of result s.new ≡ step_from run s.old c TickIntProcessing }
{
    if c == Context::T {
        return answered(s, Code::WContext, 0);
    }
    carry::tick(s, run);
    answered(s, Code::NoErr, 0)
}

// Nor does a service of data queues share its way with the others: its plans and effects stay out of theirs, which are the faster for it.
fn queue_in(s: &mut State, run: u8, c: Context, queue: u32, service: QueueService) -> Stepped
    ensures { answer_of result s.new ≡ step_from run s.old c (OnQueue queue service) }
{
    match queue_plan_in(s, run, c, queue, service) {
        Ok(q) => {
            carry_queue(s, q.effect);
            answered(s, q.code, q.value)
        }
        Err(code) => answered(s, code, 0),
    }
}

// The step where `run` runs: whoever takes step after step knows that from the last one, so it goes beside the state and no struct holds the two.
pub fn step_in(s: &mut State, run: u8, c: Context, a: Call) -> Stepped
    ensures { answer_of result s.new ≡ step_from run s.old c a }
{
    if let Call::TickIntProcessing = a {
        return tick_in(s, run, c);
    }
    if let Call::OnQueue { queue, service } = a {
        return queue_in(s, run, c, queue, service);
    }
    match plan_in(s, run, c, a) {
        Ok(p) => {
            carry::carry(s, run, p.effect);
            answered(s, p.code, p.value)
        }
        Err(code) => answered(s, code, 0),
    }
}
