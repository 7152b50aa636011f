// One line of a list, played: read where it begins, stepped on the lent state. Whoever walks a list calls this in a loop and keeps
// what its tool is for; Walking in proofs/ says of such a loop what was done and what is left.
#![tactic(auto)]

ghost use Rattle.std.specs.Prelude.{◌≡◌, drop};
ghost use Rattle.lines.specs.Lines.{line_of};
ghost use Rattle.walk.specs.Turn.{turn_in, turn_of};

use lines::line::{Line, read_line};
use model::State;
use step::{Stepped, step_in};

// A line's answer, and where the next line begins.
#[derive(Clone, Copy)]
pub struct Turn {
    pub answer: Stepped,
    pub next: usize,
}

// The line that begins at `at`, where `run` runs; None where it can't be read, as there is none past the file's end.
pub fn play_line(s: &mut State, run: u8, file: &[u8], wide: bool, at: usize) -> Option<Turn>
    ensures { turn_in result s.new ≡ turn_of run at s.old (line_of wide (drop at file.now)) }
{
    if file.len() < at {
        return None;
    }
    let Line {
        context,
        call,
        next,
    } = read_line(&file[at..], wide)?;
    let answer = step_in(s, run, context, call);
    Some(Turn {
        answer,
        next: at + next,
    })
}
