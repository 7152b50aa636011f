// The static library: every entry of gritgarland, exported to C by its name, with its parameters and its promise word for word.
// include/gritgarland.h declares them. Rests on gritgarland alone.
#![tactic(auto)]

ghost use Rattle.std.specs.Prelude.{◌≡◌, true, length};
ghost use Rattle.model.specs.Code.{is_negative, wait_number};
ghost use Rattle.model.specs.Test.{is_sound};
ghost use Rattle.border.specs.Border.{reply};
ghost use Rattle.gritgarland.specs.Report.{report_of};
ghost use Rattle.runner.specs.Outcome.{ran_of, signed_of, buffer_of};

use border::Reply;
use gritgarland::Report;
use model::State;

// One call on any state, by numbers.
#[unsafe(no_mangle)]
pub extern "C" fn gritgarland_call(
    s: State,
    context: u32,
    service: u32,
    a: u32,
    b: u32,
    c: u32,
    d: u32,
) -> Reply
    ensures { result ≡ reply s context service a b c d }
{
    gritgarland::gritgarland_call(s, context, service, a, b, c, d)
}

// The same on the one state that the caller lends: it becomes the next state, and a refusal leaves it.
#[unsafe(no_mangle)]
pub extern "C" fn gritgarland_call_in_place(
    s: &mut State,
    context: u32,
    service: u32,
    a: u32,
    b: u32,
    c: u32,
    d: u32,
) -> Report
    ensures { (result ≡ report_of (reply s.old context service a b c d))
        × ((s.new ≡ (reply s.old context service a b c d).state)
        × (is_negative result.code ≡ true → s.new ≡ s.old)) }
{
    gritgarland::gritgarland_call_in_place(s, context, service, a, b, c, d)
}

// Does a state keep every rule of a sound state?
#[unsafe(no_mangle)]
pub extern "C" fn gritgarland_is_sound(s: State) -> bool
    ensures { result ≡ is_sound s }
{
    gritgarland::gritgarland_is_sound(s)
}

// The code with which a wait ended, from what a task's record keeps of it.
#[unsafe(no_mangle)]
pub extern "C" fn gritgarland_wait_code(kept: u8) -> i32
    ensures { result ≡ wait_number kept }
{
    gritgarland::gritgarland_wait_code(kept)
}

// A whole list of calls: the file's bytes and an answer buffer in, one signed number out.
#[unsafe(no_mangle)]
pub extern "C" fn gritgarland_run_list(file: &[u8], answer: &mut [u8]) -> i64
    ensures { (result ≡ signed_of (ran_of file.now (length answer.old))) × (answer.new ≡ buffer_of (ran_of file.now (length answer.old)) file.now answer.old) }
{
    gritgarland::gritgarland_run_list(file, answer)
}

// The same by its first name, for callers that were written before it had the longer one.
#[unsafe(no_mangle)]
pub extern "C" fn run_list(file: &[u8], answer: &mut [u8]) -> i64
    ensures { (result ≡ signed_of (ran_of file.now (length answer.old))) × (answer.new ≡ buffer_of (ran_of file.now (length answer.old)) file.now answer.old) }
{
    gritgarland::run_list(file, answer)
}
