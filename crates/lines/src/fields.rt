// The fields after a service's name, by what the service takes in each, and the line end.
// Each function is a definition of specs/Fields, for every value; it rests on text and services.
ghost use Rattle.std.specs.Prelude.{◌≡◌, cond};
ghost use Rattle.services.specs.Takes.{takes_at};
ghost use Rattle.lines.specs.Fields.{said_of, endless_in, meant, field_of, comma_field, end_of, last_field, middle_of, tail_of, fields_of};

use services::takes::{Takes, takes_at};
use text::number::{Number, read_number};
use text::words::{begins, byte_at};

// What a field says, with its length: a number, or the endless wait.
#[derive(Clone, Copy)]
pub enum Said {
    Says { value: u32, next: usize },
    Forever { next: usize },
}

// The last two numbers with their length, line end included.
#[derive(Clone, Copy)]
pub struct Tail {
    pub c: u32,
    pub d: u32,
    pub next: usize,
}

// The four numbers with their length, line end included.
#[derive(Clone, Copy)]
pub struct Fields {
    pub a: u32,
    pub b: u32,
    pub c: u32,
    pub d: u32,
    pub next: usize,
}

// What a field says, if anything.
#[tactic(auto, unfolding(crate::specs::Fields::said_of))]
fn read_field(s: &[u8]) -> Option<Said>
    ensures { result ≡ said_of s.now }
{
    if let Some(Number { value, next }) = read_number(s) {
        return Some(Said::Says { value, next });
    }
    if begins(s, b"forever") {
        return Some(Said::Forever { next: 7 });
    }
    None
}

// The endless wait as a number, of n bytes: none where no timeout is taken.
fn endless_in(takes: Takes, n: usize) -> Option<Number>
    ensures { result ≡ endless_in takes n }
{
    match takes {
        Takes::Blank | Takes::Plain => None,
        Takes::Timeout => Some(Number {
            value: 4294967295,
            next: n,
        }),
    }
}

// The number that is meant.
fn meant(said: Said, takes: Takes) -> Option<Number>
    ensures { result ≡ meant said takes }
{
    match said {
        Said::Says { value, next } => Some(Number { value, next }),
        Said::Forever { next } => endless_in(takes, next),
    }
}

// A field by what is taken there.
#[tactic(auto, unfolding(crate::specs::Fields::field_of))]
fn field(s: &[u8], takes: Takes) -> Option<Number>
    ensures { result ≡ field_of takes s.now }
{
    match takes {
        Takes::Blank => Some(Number { value: 0, next: 0 }),
        Takes::Plain | Takes::Timeout => meant(read_field(s)?, takes),
    }
}

// A field and the comma after it. Inlined, since its answer would else go through memory three times a line.
#[inline(always)]
#[tactic(auto, unfolding(crate::specs::Fields::comma_field))]
fn comma_field(s: &[u8], takes: Takes) -> Option<Number>
    ensures { result ≡ comma_field takes s.now }
{
    let Number { value, next } = field(s, takes)?;
    if byte_at(s, next) != b',' {
        return None;
    }
    Some(Number {
        value,
        next: next + 1,
    })
}

// LF, CR LF or the end of the file: its length.
#[tactic(auto, unfolding(crate::specs::Fields::end_of))]
pub(crate) fn line_end(s: &[u8]) -> Option<usize>
    ensures { result ≡ end_of s.now }
{
    if s.is_empty() {
        return Some(0);
    }
    if begins(s, b"\n") {
        return Some(1);
    }
    if begins(s, b"\r\n") {
        return Some(2);
    }
    None
}

// The last field and the line end.
#[tactic(auto, unfolding(crate::specs::Fields::last_field))]
fn last_field(s: &[u8], takes: Takes) -> Option<Number>
    ensures { result ≡ last_field takes s.now }
{
    let Number { value, next } = field(s, takes)?;
    let end = line_end(&s[next..])?;
    Some(Number {
        value,
        next: next + end,
    })
}

// ---- c and d: whether the line is wide and which service it names go together here alone; a struct of the two would be made for three calls
// What stands before the last field: c and its comma, or nothing.
#[tactic(auto, unfolding(crate::specs::Fields::middle_of))]
fn middle(s: &[u8], wide: bool, number: u32) -> Option<Number>
    ensures { result ≡ middle_of wide number s.now }
{
    if wide {
        return comma_field(s, takes_at(number, 2));
    }
    let Takes::Blank = takes_at(number, 3) else {
        return None;
    };
    Some(Number { value: 0, next: 0 })
}

// What is taken in the last field, d or c.
fn last_takes(wide: bool, number: u32) -> Takes
    ensures { result ≡ takes_at number (cond wide 3 2) }
{
    takes_at(number, if wide { 3 } else { 2 })
}

// The fields c and d, or c alone, and the line end: one reader of the last field serves both, and so stands where it is called.
#[tactic(auto, using(crate::proofs::Tails::tail_parts))]
fn read_tail(s: &[u8], wide: bool, number: u32) -> Option<Tail>
    ensures { result ≡ tail_of wide number s.now }
{
    let Number { value, next } = middle(s, wide, number)?;
    let takes = last_takes(wide, number);
    let last = last_field(&s[next..], takes)?;
    let next = next + last.next;
    if wide {
        return Some(Tail {
            c: value,
            d: last.value,
            next,
        });
    }
    Some(Tail {
        c: last.value,
        d: 0,
        next,
    })
}

// The fields a, b, c and d of a service; only wide lines have a d.
#[tactic(auto, unfolding(crate::specs::Fields::fields_of))]
pub(crate) fn read_fields(s: &[u8], wide: bool, number: u32) -> Option<Fields>
    ensures { result ≡ fields_of wide number s.now }
{
    let Number { value: a, next: i } = comma_field(s, takes_at(number, 0))?;
    let Number { value: b, next: j } = comma_field(&s[i..], takes_at(number, 1))?;
    let at = i + j;
    let Tail { c, d, next: k } = read_tail(&s[at..], wide, number)?;
    Some(Fields {
        a,
        b,
        c,
        d,
        next: at + k,
    })
}
