// The text of an answer's rows. A code is a number from 0 to 13, a row without its call's number is kept as one byte:
// by hand, since they are the runner's memory of its rows, and it has no heap; a code's number gives a row's width, too. A row's length is known before it is written,
// and a row without room is not. Rests on text.
#![tactic(auto)]

ghost use Rattle.std.specs.Prelude.{◌≡◌, ◌+◌, ◌≤◌, leb, length};
ghost use Rattle.std.proofs.lemmas.List.Edits.{sets};
ghost use Rattle.text.specs.Bytes.{put, place_after};
ghost use Rattle.answers.specs.Slots.{slot_of, slot_text, kept_text, base_of, kept_of, slot_in, runs_in};

use model::Code;
use text::decimals::{put_decimal, width};
use text::words::{has_room, put_byte};

// ---- a code as a number: the paper's plus 12
pub fn slot(code: Code) -> u8
    ensures { result ≡ slot_of code }
{
    match code {
        Code::NoErr => 12,
        Code::Pending => 13,
        Code::Overflow => 11,
        Code::WContext => 10,
        Code::WState => 9,
        Code::Timeout => 8,
        Code::WrongParam => 7,
        Code::IlUse => 4,
        Code::NoExs => 3,
        Code::Dlt => 2,
        Code::Released => 1,
        Code::Unsound => 0,
    }
}

#[tactic(auto, unfolding(crate::specs::Slots::slot_text))]
fn slot_width(v: u8) -> usize
    ensures { result ≡ length (slot_text v) }
{
    if v < 12 {
        return 1 + width(u32::from(12 - v));
    }
    width(u32::from(v - 12))
}

fn put_slot(buf: &mut [u8], at: usize, v: u8) -> usize
    requires { at + length (slot_text v) ≤ length buf.old }
    ensures { (result ≡ at + length (slot_text v)) × (buf.new ≡ sets buf.old at (slot_text v)) }
{
    if v < 12 {
        let next = put_byte(buf, at, b'-');
        return put_decimal(buf, next, u32::from(12 - v));
    }
    put_decimal(buf, at, u32::from(v - 12))
}

// ---- one row of the answer, of a call's number, its code's number and the task that runs; into a buffer from a place on, as everything that text puts
pub fn row_width(n: u32, v: u8, running: u8) -> usize
    ensures { (result ≡ length (kept_text n v running)) × (result ≤ 20) }
{
    width(n) + slot_width(v) + width(u32::from(running)) + 4
}

// Whether a row has room from the place `at` on, where there are `places`; mostly the longest row has, and none is measured.
#[tactic(auto, using(crate::proofs::Widths::row_most))]
fn row_fits(places: usize, at: usize, n: u32, v: u8, running: u8) -> bool
    ensures { result ≡ leb (at + length (kept_text n v running)) places }
{
    has_room(places, at, 20) || has_room(places, at, row_width(n, v, running))
}

// The row from the place `at` on, and the place after it; without room nothing is written and the place stays.
pub fn put_row(buf: &mut [u8], at: usize, n: u32, v: u8, running: u8) -> usize
    ensures { (result ≡ place_after buf.old at (kept_text n v running)) × (buf.new ≡ put buf.old at (kept_text n v running)) }
{
    if !row_fits(buf.len(), at, n, v, running) {
        return at;
    }
    let a = put_decimal(buf, at, n);
    let b = put_byte(buf, a, b',');
    let c = put_slot(buf, b, v);
    let d = put_byte(buf, c, b',');
    let e = put_decimal(buf, d, u32::from(running));
    let f = put_byte(buf, e, b'\r');
    put_byte(buf, f, b'\n')
}

// ---- what is kept of a row
// Where a code's 25 numbers begin.
fn base(code: Code) -> u8
    ensures { (result ≡ base_of code) × (result ≤ 225) }
{
    match code {
        Code::NoErr => 175,
        Code::Pending => 200,
        Code::Overflow => 150,
        Code::WContext => 125,
        Code::WState => 100,
        Code::Timeout => 75,
        Code::WrongParam => 50,
        Code::IlUse => 25,
        Code::NoExs => 0,
        Code::Dlt | Code::Released | Code::Unsound => 225,
    }
}

// One byte for a code and a task. A number above 24 is no task's, and is kept as 24.
pub fn keep(code: Code, running: u8) -> u8
    ensures { result ≡ kept_of code running }
{
    base(code) + running.min(24)
}

// The code that was kept.
#[tactic(auto, unfolding(crate::specs::Slots::slot_in))]
pub fn slot_kept(k: u8) -> u8
    ensures { result ≡ slot_in k }
{
    if k < 50 {
        return 3 + k / 25;
    }
    5 + k / 25
}

// The task that was kept.
pub fn runs_kept(k: u8) -> u8
    ensures { result ≡ runs_in k }
{
    k % 25
}
