// The runner: a file of calls and an answer buffer in, one number out. Every call is worked once, its code and running task are kept
// in one byte, and the answer is written only when all lines were read and all of it fits. Rests on the line reader and the step.
#![tactic(auto)]

ghost use Rattle.std.specs.Prelude.{◌≡◌, ◌+◌, ◌<◌, ◌≤◌, ◌++◌, length};
ghost use Rattle.std.proofs.lemmas.List.Edits.{sets};
ghost use Rattle.text.specs.Bytes.{bytes};
ghost use Rattle.walk.specs.Script.{script_in};
ghost use Rattle.runner.specs.Kept.{kept_rows, Plays};
ghost use Rattle.runner.specs.Outcome.{ran_of, signed_of, buffer_of, Small};

use answers::{keep, put_row, row_width, runs_kept, slot, slot_kept};
use lines::line::{Header, Line, read_header, read_line};
use step::{Stepped, step_in};
use text::words::put_text;

// Why a file was refused.
#[derive(Clone, Copy)]
pub enum Refusal {
    TooLong,
    Unreadable(usize), // the first line that can't be read
    Short,
}

// One byte for each call that a file can hold: an array and a count, since the runner has no heap.
pub type Kept = [u8; 3639];

// What playing a list leaves beside the kept rows: how many calls, and the answer's length.
#[derive(Clone, Copy)]
pub struct Played {
    pub count: usize,
    pub total: usize,
}

// ---- the calls, each worked once
// The lines after the header, which has h bytes and says whether they are wide (by themselves, since what is kept speaks of any h): their answers, or the first line that can't be read.
fn play(file: &[u8], wide: bool, h: usize, kept: &mut Kept) -> Result<Played, Refusal>
    requires { (h < length file.now → 18 ≤ h) × (h ≤ length file.now) × (length file.now ≤ 65536) × (length kept.old ≡ 3639) }
    ensures { Plays result kept.new (script_in wide h file.now 2) }
{
    let mut s = kernel::fresh();
    let mut run: u8 = 0;
    let mut n: usize = 0;
    let mut total: usize = 16;
    // by hand: each turn goes on by the length of the line that it reads; and not by walk::play_line, whose struct was slower here
    let mut at = h;
    while at < file.len() {
        let Some(
            Line {
                context,
                call,
                next,
            },
        ) = read_line(&file[at..], wide)
        else {
            return Err(Refusal::Unreadable(n + 2));
        };
        let Stepped { code, running, .. } = step_in(&mut s, run, context, call);
        run = running;
        kept[n] = keep(code, running);
        n = n + 1;
        total = total + row_width(n as u32, slot(code), running);
        at = at + next;
    }
    Ok(Played { count: n, total })
}

// ---- the answer
// The header and the kept rows, where there is room for them.
fn write(answer: &mut [u8], kept: &[u8])
    requires { (length kept.now ≤ 3639) × (16 + length (kept_rows 1 kept.now) ≤ length answer.old) }
    ensures { answer.new ≡ sets answer.old 0 (bytes "n,code,running\r\n" ++ kept_rows 1 kept.now) }
{
    let mut out = put_text(answer, 0, b"n,code,running\r\n");
    for (i, k) in kept.iter().enumerate() {
        out = put_row(answer, out, i as u32 + 1, slot_kept(*k), runs_kept(*k));
    }
}

// A file and an answer buffer: the buffer is written only if every line reads and the whole answer fits.
fn run(file: &[u8], answer: &mut [u8]) -> Result<usize, Refusal>
    ensures { (result ≡ ran_of file.now (length answer.old)) × (answer.new ≡ buffer_of (ran_of file.now (length answer.old)) file.now answer.old) }
{
    if 65536 < file.len() {
        return Err(Refusal::TooLong);
    }
    let Some(Header { wide, next }) = read_header(file) else {
        return Err(Refusal::Unreadable(1));
    };
    let mut kept = [0u8; 3639];
    let Played { count, total } = play(file, wide, next, &mut kept)?;
    if answer.len() < total {
        return Err(Refusal::Short);
    }
    write(answer, &kept[..count]);
    Ok(total)
}

// The editor's number of each case; a function, and no `From`, since it asks that the numbers are small.
fn number(r: Result<usize, Refusal>) -> i64
    requires { Small r }
    ensures { result ≡ signed_of r }
{
    match r {
        Ok(n) => n as i64,
        Err(refusal) => match refusal {
            Refusal::TooLong => -1,
            Refusal::Unreadable(line) => 0 - ((line + 10) as i64),
            Refusal::Short => -2,
        },
    }
}

// The same as one signed number.
pub fn run_list(file: &[u8], answer: &mut [u8]) -> i64
    ensures { (result ≡ signed_of (ran_of file.now (length answer.old))) × (answer.new ≡ buffer_of (ran_of file.now (length answer.old)) file.now answer.old) }
{
    let r = run(file, answer);
    number(r)
}
