// The elements of the data queues where they lie: 16 places a queue, of which one is read or stored, or all move up, or all are emptied.
// A queue's places are lent as a part of the table; a number that names no queue has none, and nothing changes there.
ghost use Rattle.std.specs.Prelude.{◌≡◌, ◌+◌, ◌*◌, ◌<◌, get_or, length};
ghost use Rattle.std.proofs.lemmas.List.Edits.{sets};
ghost use Rattle.model.specs.DataQueue.{places_of, no_elements, put, pulled};

use crate::read;

// The places of the 9 numbers, of which 0 names no queue.
pub type Elements = [u32; 144];

// the last queue, and how many places each has
const LAST: usize = 8;

const PLACES: usize = 16;

pub fn element_at(elements: &Elements, q: usize, i: usize) -> u32
    ensures { result ≡ get_or (places_of elements.now q) i 0 }
{
    let es: &[u32] = elements;
    if LAST < q {
        return 0;
    }
    if PLACES <= i {
        return 0;
    }
    read(es, q * PLACES + i, 0)
}

// All places move up: the first leaves, and the last is free. As rows::close, of words: a gap is defined of numbers (model/specs/Row), so one function of
// any type would need a second definition and a law that ties the two.
#[tactic(auto, using(crate::proofs::Moves::pulled_up))]
fn pull(ps: &mut [u32])
    requires { 0 < length ps.old }
    ensures { ps.new ≡ pulled ps.old }
{
    let last = ps.len() - 1;
    ps.copy_within(1.., 0);
    ps[last] = 0;
}

// The first leaves, and v is stored at place i.
#[tactic(auto, unfolding(model::specs::DataQueue::put))]
fn refill(ps: &mut [u32], i: usize, v: u32)
    requires { 0 < length ps.old }
    ensures { ps.new ≡ put (pulled ps.old) i v }
{
    pull(ps);
    crate::put(ps, i, v);
}

pub fn put_element(elements: &mut Elements, q: usize, i: usize, v: u32)
    ensures { elements.new ≡ sets elements.old (q * 16) (put (places_of elements.old q) i v) }
{
    let es: &mut [u32] = elements;
    if LAST < q {
        return;
    }
    let a = q * PLACES;
    crate::put(&mut es[a..a + PLACES], i, v);
}

pub fn pull_elements(elements: &mut Elements, q: usize)
    ensures { elements.new ≡ sets elements.old (q * 16) (pulled (places_of elements.old q)) }
{
    let es: &mut [u32] = elements;
    if LAST < q {
        return;
    }
    let a = q * PLACES;
    pull(&mut es[a..a + PLACES]);
}

pub fn refill_elements(elements: &mut Elements, q: usize, i: usize, v: u32)
    ensures { elements.new ≡ sets elements.old (q * 16) (put (pulled (places_of elements.old q)) i v) }
{
    let es: &mut [u32] = elements;
    if LAST < q {
        return;
    }
    let a = q * PLACES;
    refill(&mut es[a..a + PLACES], i, v);
}

pub fn clear_elements(elements: &mut Elements, q: usize)
    ensures { elements.new ≡ sets elements.old (q * 16) no_elements }
{
    let es: &mut [u32] = elements;
    if LAST < q {
        return;
    }
    let a = q * PLACES;
    es[a..a + PLACES].fill(0);
}
