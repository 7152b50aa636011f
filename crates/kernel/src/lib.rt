// The checked call: it takes and gives a state by value, and tests it before it steps. Beside it the fresh state, and who runs.
// Rests on the step and on the test of soundness.
#![tactic(auto)]

ghost use Rattle.std.specs.Prelude.{◌≡◌};
ghost use Rattle.model.specs.State.{fresh, running};
ghost use Rattle.model.specs.Call.{call};
ghost use Rattle.step.specs.Answer.{answer_of};

use model::{Answer, Call, Code, Context, Numbers, Queue, State};
use rows::best;
use step::{Stepped, step_in};

// Nothing created, time 0 and no slices.
pub fn fresh() -> State
    ensures { result ≡ fresh }
{
    let nobody = records::no_task();
    let empty = Queue { places: [0u8; 24] };
    let numbers = Numbers {
        slices: [0u32; 31],
        counts: [0u32; 13],
        maxima: [0u32; 13],
        attributes: [0u32; 9],
        bits: [0u32; 9],
        time: 0,
        capacities: [0u32; 9],
        taken: [0u32; 9],
        elements: [0u32; 144],
    };
    State {
        tasks: [nobody; 25],
        levels: [empty; 31],
        waits: [empty; 29],
        numbers,
    }
}

// Who runs in a state: the first task of the best level that is not empty, or 0.
#[tactic(auto, unfolding(model::specs::State::running))]
pub fn running(s: State) -> u8
    ensures { result ≡ running s }
{
    best(&s.levels)
}

// The checked call on a lent state: one that is not sound gets UNSOUND and task 0, and stays as it was.
#[tactic(auto, unfolding(model::specs::Call::call), using(step::proofs::Stepping::step_from_lem))]
fn call_in(s: &mut State, c: Context, a: Call) -> Stepped
    ensures { answer_of result s.new ≡ call s.old c a }
{
    let sound = sound::sound_in(s);
    if !sound {
        return Stepped {
            code: Code::Unsound,
            running: 0,
            value: 0,
        };
    }
    let run = best(&s.levels);
    step_in(s, run, c, a)
}

// Any state, by value.
pub fn call(mut s: State, c: Context, a: Call) -> Answer
    ensures { result ≡ call s c a }
{
    let r = call_in(&mut s, c, a);
    Answer {
        code: r.code,
        running: r.running,
        value: r.value,
        state: s,
    }
}
