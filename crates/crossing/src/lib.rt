// The test of a table of queues by crossing off, which looks at each place once and at the first 0 of a row twice.
// Each function is a definition of specs/Crossing, for every value; it rests on model alone.
#![tactic(auto)]

ghost use Rattle.std.specs.Prelude.{◌≡◌, drop, ◌≤◌};
ghost use Rattle.model.specs.Test.{zeros, is_listed};
ghost use Rattle.crossing.specs.Crossing.{crosses, crossed, crosses_all};

use model::Queue;

fn is_listed(l: usize, want: u8) -> bool
    ensures { result ≡ is_listed l want }
{
    if l == 0 {
        return false;
    }
    want as usize == l
}

// Whether there are only zeros. By a loop with no way out, and not by `all`, so that it looks at several places at a time.
#[tactic(auto, using(crate::proofs::Steps::zeros_on, crate::proofs::Steps::zeros_end))]
fn are_zeros(q: &[u8]) -> bool
    ensures { result ≡ zeros q.now }
{
    let mut clear = true;
    for x in q {
        clear = clear & (*x == 0);
    }
    clear
}

// The same of a row from a place on. Most rows are empty: of a whole one the compiler knows how many places there are.
fn rest_is_free(q: &[u8; 24], from: usize) -> bool
    requires { from ≤ 24 }
    ensures { result ≡ zeros (drop from q.now) }
{
    if from == 0 {
        return are_zeros(q);
    }
    are_zeros(&q[from..])
}

// Crosses the tasks of row l off.
#[tactic(auto, using(crate::proofs::Steps::far_listed, crate::proofs::Steps::crosses_done, crate::proofs::Steps::crosses_ends, crate::proofs::Steps::crosses_fails))]
fn cross(q: &[u8; 24], l: usize, wants: &mut [u8]) -> bool
    ensures { (result ≡ crosses l q.now wants.old) × (wants.new ≡ crossed l q.now wants.old) }
{
    for (i, x) in q.iter().enumerate() {
        let t = *x as usize;
        if t == 0 {
            return rest_is_free(q, i);
        }
        if wants.len() <= t {
            return false;
        }
        let want = wants[t];
        let listed = is_listed(l, want);
        if !listed {
            return false;
        }
        wants[t] = 0;
    }
    true
}

// Whether the queues cross off all that is wanted.
#[tactic(auto, using(crate::proofs::Steps::rows_fail, crate::proofs::Steps::rows_crossed, crate::proofs::Steps::rows_done))]
pub fn cross_all(ls: &[Queue], mut wants: [u8; 25]) -> bool
    ensures { result ≡ crosses_all 0 ls.now wants }
{
    for (l, q) in ls.iter().enumerate() {
        let crossed = cross(&q.places, l, &mut wants);
        if !crossed {
            return false;
        }
    }
    are_zeros(&wants)
}
