// The test that the public entries make of any state: whether it is sound. A task's record is read once, and with it the first place of
// its level; docs/ARCHITECTURE.md counts how often each place is looked at.
// Each function is a definition of model/specs/Test, for every value; it rests on sound_parts for single places, on crossing for
// queues, and on the state that it is lent.
#![tactic(auto)]

ghost use Rattle.std.specs.Prelude.{◌≡◌, drop, eqb, length};
ghost use Rattle.model.specs.Test.{below, zeros, are_queues, is_unserved_in, is_sized, is_origin, is_sound};
ghost use Rattle.sound.specs.Parts.{slice_at, count_at, flag_at, stock_at, seen_in};

use crossing::cross_all;
use model::{Numbers, Queue, State, Task, Wait};
use places::read;
use rows::{first_of, second_of};

// ---- records
// Whether a wait on a data queue is one that the queue can't serve. What stands at the queue is read for such a wait, and for no other.
#[tactic(auto, unfolding(model::specs::Test::is_unserved))]
fn is_unserved_in(s: &State, w: Wait) -> bool
    ensures { result ≡ is_unserved_in s.now w }
{
    let on_queue = sound_parts::queue::is_queue_wait(w);
    if !on_queue {
        return true;
    }
    let z = tables::queue_at(s, w.object as usize);
    sound_parts::queue::is_unserved(w, z.capacity, z.taken, z.waiter.wait.kind)
}

// What a walk over the records sees: whether each is sound, whether its charge is, whether no wait on a flag is met already and none on a
// data queue could be served, and which level and which row list each task, each of the two whole, as crossing takes it.
#[derive(Clone, Copy)]
struct Seen {
    sound: bool,
    charges: bool,
    unmet: bool,
    unserved: bool,
    levels: [u8; 25],
    rows: [u8; 25],
}

#[tactic(auto, using(crate::proofs::Tables::below_on, crate::proofs::Tables::below_none, crate::proofs::Tables::fill_on, crate::proofs::Tables::fill_end))]
fn look(s: &State) -> Seen
    ensures { result ≡ seen_in s.now }
{
    // as a slice, which tells the prover how long it is
    let tasks: &[Task] = &s.tasks;
    let mut sound = true;
    let mut charges = true;
    let mut unmet = true;
    let mut unserved = true;
    let mut by_level = [0u8; 25];
    let mut by_row = [0u8; 25];
    for (t, x) in tasks.iter().enumerate() {
        let x = *x;
        let bits = read(&s.numbers.bits, x.wait.object as usize, 0);
        let level = records::level_of(x);
        let first = first_of(&s.levels, level as usize);
        let slice = read(&s.numbers.slices, level as usize, 0);
        let sound_here = sound_parts::record::task_sound(x);
        let charge_here = sound_parts::record::charge_sound(x.charge, t as u8, first, slice);
        let unmet_here = sound_parts::flag::is_unmet(x.wait, bits);
        let unserved_here = is_unserved_in(s, x.wait);
        sound = sound_here & sound;
        charges = charge_here & charges;
        unmet = unmet_here & unmet;
        unserved = unserved_here & unserved;
        by_level[t] = level;
        by_row[t] = records::row_of(x);
    }
    Seen {
        sound,
        charges,
        unmet,
        unserved,
        levels: by_level,
        rows: by_row,
    }
}

// ---- slices, counts, flags and data queues. Joined by `&` and not by `all`, so that no walk jumps at a test: most states are sound
#[tactic(auto, using(crate::proofs::Tables::below_on, crate::proofs::Tables::below_none))]
fn slices_sound(numbers: &Numbers) -> bool
    ensures { result ≡ below 31 (slice_at numbers.now) }
{
    let mut sound = true;
    for slice in &numbers.slices {
        let here = checks::is_slice(*slice);
        sound = here & sound;
    }
    sound
}

#[tactic(auto, using(crate::proofs::Tables::below_on, crate::proofs::Tables::below_none))]
fn counts_sound(numbers: &Numbers, waits: &[Queue]) -> bool
    ensures { result ≡ below 13 (count_at numbers.now waits.now) }
{
    let mut sound = true;
    for m in 0..13 {
        let count = numbers.counts[m];
        let maximum = numbers.maxima[m];
        let first = first_of(waits, m);
        let here = sound_parts::record::count_sound(count, maximum, first);
        sound = here & sound;
    }
    sound
}

#[tactic(auto, using(crate::proofs::Tables::below_on, crate::proofs::Tables::below_none))]
fn flags_sound(numbers: &Numbers, waits: &[Queue]) -> bool
    ensures { result ≡ below 9 (flag_at numbers.now waits.now) }
{
    let mut sound = true;
    for f in 0..9 {
        let row = records::flag_row(f as u8) as usize;
        let attributes = numbers.attributes[f];
        let bits = numbers.bits[f];
        let first = first_of(waits, row);
        let second = second_of(waits, row);
        let here = sound_parts::flag::flag_sound(attributes, bits, first, second);
        sound = here & sound;
    }
    sound
}

// Whether the places of a data queue hold nothing past its last element: crossing's test of zeros, of words. A test of both widths would turn each
// byte into a word first.
#[tactic(auto, using(crossing::proofs::Steps::zeros_on, crossing::proofs::Steps::zeros_end))]
fn is_rest_free(places: &[u32], taken: u32) -> bool
    ensures { result ≡ zeros (drop taken places.now) }
{
    let mut free = true;
    for i in taken as usize..places.len() {
        let element = places[i];
        free = free & (element == 0);
    }
    free
}

#[tactic(auto, unfolding(model::specs::DataQueue::places_of, model::specs::Test::is_stock_sound), using(crate::proofs::Tables::below_on, crate::proofs::Tables::below_none))]
fn stocks_sound(numbers: &Numbers, waits: &[Queue]) -> bool
    ensures { result ≡ below 9 (stock_at numbers.now waits.now) }
{
    let mut sound = true;
    for q in 0..9 {
        let row = records::queue_row(q as u8) as usize;
        let capacity = numbers.capacities[q];
        let taken = numbers.taken[q];
        let free = is_rest_free(&numbers.elements[q * 16..q * 16 + 16], taken);
        let first = first_of(waits, row);
        let here = sound_parts::queue::stock_sound(capacity, taken, free, first);
        sound = here & sound;
    }
    sound
}

// ---- the state
// Whether the tables have their places. So their types say, so that the compiler knows what each test here answers.
fn has_places<T>(xs: &[T], n: usize) -> bool
    ensures { result ≡ eqb (length xs.now) n }
{
    xs.len() == n
}

#[tactic(auto, using(crate::proofs::Whole::queues_sized))]
fn are_queues(ls: &[Queue], n: usize) -> bool
    ensures { result ≡ are_queues n ls.now }
{
    for q in ls {
        let has = has_places(&q.places, 24);
        if !has {
            return false;
        }
    }
    has_places(ls, n)
}

fn is_sized(s: &State) -> bool
    ensures { result ≡ is_sized s.now }
{
    let ns = &s.numbers;
    let tasks = has_places(&s.tasks, 25);
    let levels = are_queues(&s.levels, 31);
    let waits = are_queues(&s.waits, 29);
    let slices = has_places(&ns.slices, 31);
    let counts = has_places(&ns.counts, 13);
    let maxima = has_places(&ns.maxima, 13);
    let attributes = has_places(&ns.attributes, 9);
    let bits = has_places(&ns.bits, 9);
    let capacities = has_places(&ns.capacities, 9);
    let taken = has_places(&ns.taken, 9);
    let elements = has_places(&ns.elements, 144);
    tasks
        & (levels
            & (waits
                & (slices
                    & (counts
                        & (maxima & (attributes & (bits & (capacities & (taken & elements)))))))))
}

// Place 0 of each table.
fn is_origin_in(s: &State) -> bool
    ensures { result ≡ is_origin s.now }
{
    let ns = &s.numbers;
    sound_parts::record::is_origin(
        s.tasks[0],
        ns.slices[0],
        ns.counts[0],
        ns.maxima[0],
        ns.attributes[0],
        ns.bits[0],
        ns.capacities[0],
    )
}

#[tactic(auto, using(crate::proofs::Whole::sound_tested))]
pub fn sound_in(s: &State) -> bool
    ensures { result ≡ is_sound s.now }
{
    let sized = is_sized(s);
    let origin = is_origin_in(s);
    let seen = look(s);
    let slices = slices_sound(&s.numbers);
    let counts = counts_sound(&s.numbers, &s.waits);
    let flags = flags_sound(&s.numbers, &s.waits);
    let stocks = stocks_sound(&s.numbers, &s.waits);
    let runnable = cross_all(&s.levels, seen.levels);
    let waiting = cross_all(&s.waits, seen.rows);
    sized
        & (origin
            & (seen.sound
                & (slices
                    & (seen.charges
                        & (counts
                            & (flags
                                & (seen.unmet
                                    & (stocks & (seen.unserved & (runnable & waiting))))))))))
}

pub fn is_sound(s: State) -> bool
    ensures { result ≡ is_sound s }
{
    sound_in(&s)
}
