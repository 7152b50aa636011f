// One line of a list of calls, in the part of the file that begins at its first byte, and the header.
// Each function is a definition of specs/Lines, for every value; it rests on the fields and on services.
ghost use Rattle.std.specs.Prelude.{◌≡◌};
ghost use Rattle.lines.specs.Lines.{letter_of, line_of, headed, header_of};

use crate::fields::{Fields, line_end, read_fields};
use model::{Call, Context};
use services::calls::call_of;
use services::names::{Name, read_name};
use text::words::begins;

// A call in its context, with the length of its line, line end included.
#[derive(Clone, Copy)]
pub struct Line {
    pub context: Context,
    pub call: Call,
    pub next: usize,
}

// Whether the lines are wide, of six fields and not five, and the length of the header line, line end included.
#[derive(Clone, Copy)]
pub struct Header {
    pub wide: bool,
    pub next: usize,
}

// The context that a line's first letter names: T or I, and a comma.
#[tactic(auto, unfolding(crate::specs::Lines::letter_of))]
fn read_letter(s: &[u8]) -> Option<Context>
    ensures { result ≡ letter_of s.now }
{
    if begins(s, b"T,") {
        return Some(Context::T);
    }
    if begins(s, b"I,") {
        return Some(Context::I);
    }
    None
}

// The line that begins s, if it can be read.
#[tactic(auto, unfolding(crate::specs::Lines::line_of))]
pub fn read_line(s: &[u8], wide: bool) -> Option<Line>
    ensures { result ≡ line_of wide s.now }
{
    let context = read_letter(s)?;
    let Name { number, next } = read_name(&s[2..])?;
    let at = 2 + next;
    let Fields {
        a,
        b,
        c,
        d,
        next: rest,
    } = read_fields(&s[at..], wide, number)?;
    let call = call_of(number, a, b, c, d)?;
    Some(Line {
        context,
        call,
        next: at + rest,
    })
}

// The header t and its line end.
#[tactic(auto, unfolding(crate::specs::Lines::headed))]
fn headed(s: &[u8], t: &[u8], wide: bool) -> Option<Header>
    ensures { result ≡ headed t.now wide s.now }
{
    if !begins(s, t) {
        return None;
    }
    let n = t.len();
    let next = line_end(&s[n..])?;
    Some(Header {
        wide,
        next: n + next,
    })
}

// The header that begins s, if there is one.
#[tactic(auto, unfolding(crate::specs::Lines::header_of))]
pub fn read_header(s: &[u8]) -> Option<Header>
    ensures { result ≡ header_of s.now }
{
    if begins(s, b"ctx,service,a,b,c,d") {
        return headed(s, b"ctx,service,a,b,c,d", true);
    }
    headed(s, b"ctx,service,a,b,c", false)
}
