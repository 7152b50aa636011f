// The border to other languages: which context and code a plain number stands for, and a call by numbers alone.
// A number that names nothing is WRONG_PARAM; a number that the service does not take is not looked at. Rests on services and the kernel.
#![tactic(auto)]

ghost use Rattle.std.specs.Prelude.{◌≡◌};
ghost use Rattle.model.specs.Code.{number};
ghost use Rattle.border.specs.Border.{context_of, reply};

use model::{Call, Code, Context, State};
use services::calls::call_of;

// A call's answer in plain numbers: the paper's code, the task that then runs, the bits or the element that a wait or poll got at once or the
// ticks that were asked for, the next state.
#[repr(C)]
#[derive(Clone, Copy)]
pub struct Reply {
    pub code: i32,
    pub running: u32,
    pub value: u32,
    pub state: State,
}

// The context of a number; C has no other way to name one.
#[tactic(auto, unfolding(crate::specs::Border::context_of))]
fn context_of(n: u32) -> Option<Context>
    ensures { result ≡ context_of n }
{
    match n {
        0 => Some(Context::T),
        1 => Some(Context::I),
        _ => None,
    }
}

// The number of a code, which C is given; a function and no `From`, which would have to stand in model, where no function does.
fn code_number(code: Code) -> i32
    ensures { result ≡ number code }
{
    match code {
        Code::NoErr => 0,
        Code::Pending => 1,
        Code::Overflow => -1,
        Code::WContext => -2,
        Code::WState => -3,
        Code::Timeout => -4,
        Code::WrongParam => -5,
        Code::IlUse => -8,
        Code::NoExs => -9,
        Code::Dlt => -10,
        Code::Released => -11,
        Code::Unsound => -12,
    }
}

pub fn call_by_number(s: State, context: u32, service: u32, a: u32, b: u32, c: u32, d: u32) -> Reply
    ensures { result ≡ reply s context service a b c d }
{
    let asked = context_of(context).zip(call_of(service, a, b, c, d));
    // where they name nothing, it is a call that every sound state refuses for its numbers
    let (context, call) = asked.unwrap_or((Context::T, Call::TaskDelete { task: 0 }));
    let r = kernel::call(s, context, call);
    Reply {
        code: code_number(r.code),
        running: u32::from(r.running),
        value: r.value,
        state: r.state,
    }
}
