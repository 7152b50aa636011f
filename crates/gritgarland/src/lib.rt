// Every entry that callers in other languages have, each a thin relay with the promise of what it relays. gritgarland_c exports them under
// these names. Rests on the border, the test of soundness, the runner and, for what a refusal leaves, soundness.
#![tactic(auto)]

ghost use Rattle.std.specs.Prelude.{◌≡◌, true, length};
ghost use Rattle.model.specs.Code.{is_negative, wait_number};
ghost use Rattle.model.specs.Test.{is_sound};
ghost use Rattle.border.specs.Border.{reply};
ghost use Rattle.gritgarland.specs.Report.{report_of};
ghost use Rattle.runner.specs.Outcome.{ran_of, signed_of, buffer_of};

use border::Reply;
use model::State;

// A reply without its state, which stays where it was lent.
#[repr(C)]
#[derive(Clone, Copy)]
pub struct Report {
    pub code: i32,
    pub running: u32,
    pub value: u32,
}

// One call on any state, by numbers.
pub fn gritgarland_call(
    s: State,
    context: u32,
    service: u32,
    a: u32,
    b: u32,
    c: u32,
    d: u32,
) -> Reply
    ensures { result ≡ reply s context service a b c d }
{
    border::call_by_number(s, context, service, a, b, c, d)
}

// The same on the one state that the caller lends: it becomes the next state, and a refusal leaves it.
pub fn gritgarland_call_in_place(
    s: &mut State,
    context: u32,
    service: u32,
    a: u32,
    b: u32,
    c: u32,
    d: u32,
) -> Report
    ensures { (result ≡ report_of (reply s.old context service a b c d))
        × ((s.new ≡ (reply s.old context service a b c d).state)
        × (is_negative result.code ≡ true → s.new ≡ s.old)) }
{
    let r = border::call_by_number(*s, context, service, a, b, c, d);
    if 0 <= r.code {
        *s = r.state;
    }
    Report {
        code: r.code,
        running: r.running,
        value: r.value,
    }
}

// Does a state keep every rule of a sound state?
pub fn gritgarland_is_sound(s: State) -> bool
    ensures { result ≡ is_sound s }
{
    sound::is_sound(s)
}

// The code with which a wait ended, from what a task's record keeps of it.
pub fn gritgarland_wait_code(kept: u8) -> i32
    ensures { result ≡ wait_number kept }
{
    records::wait_number(kept)
}

// A whole list of calls: the file's bytes and an answer buffer in, one signed number out.
pub fn gritgarland_run_list(file: &[u8], answer: &mut [u8]) -> i64
    ensures { (result ≡ signed_of (ran_of file.now (length answer.old))) × (answer.new ≡ buffer_of (ran_of file.now (length answer.old)) file.now answer.old) }
{
    runner::run_list(file, answer)
}

// The same by its first name, for callers that were written before it had the longer one.
pub fn run_list(file: &[u8], answer: &mut [u8]) -> i64
    ensures { (result ≡ signed_of (ran_of file.now (length answer.old))) × (answer.new ≡ buffer_of (ran_of file.now (length answer.old)) file.now answer.old) }
{
    gritgarland_run_list(file, answer)
}
