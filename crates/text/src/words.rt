// Bytes and fixed words: looked for in a part of a file, and put into a buffer. A writer is given the buffer and a place, and no struct of
// the two: what is promised of each (specs/Statement) speaks of any buffer and any place.
// Each function is a definition of specs/Bytes, for every value.
ghost use Rattle.std.specs.Prelude.{◌≡◌, [], ◌∷◌, ◌+◌, get_or, leb};
ghost use Rattle.text.specs.Bytes.{begins, put, place_after};

// The byte at a place; 0 past the end.
pub fn byte_at(s: &[u8], i: usize) -> u8
    ensures { result ≡ get_or s.now i 0 }
{
    s.get(i).copied().unwrap_or(0)
}

// Whether s begins with t.
#[tactic(auto, using(crate::proofs::Begins::begins_short))]
pub fn begins(s: &[u8], t: &[u8]) -> bool
    ensures { result ≡ begins s.now t.now }
{
    if s.len() < t.len() {
        return false;
    }
    // all bytes are looked at, so that they are compared several at a time
    let mut same = true;
    for (x, y) in s.iter().zip(t) {
        same &= *x == *y;
    }
    same
}

// Whether n bytes have room from the place `at` on, where there are `places`.
pub fn has_room(places: usize, at: usize, n: usize) -> bool
    ensures { result ≡ leb (at + n) places }
{
    n <= places && at <= places - n
}

// The bytes of t from the place `at` on, and the place after them; without room nothing is written and the place stays.
#[tactic(auto, unfolding(crate::specs::Bytes::put, crate::specs::Bytes::place_after), using(crate::proofs::Stores::sets_copied))]
pub fn put_text(buf: &mut [u8], at: usize, t: &[u8]) -> usize
    ensures { (result ≡ place_after buf.old at t.now) × (buf.new ≡ put buf.old at t.now) }
{
    if !has_room(buf.len(), at, t.len()) {
        return at;
    }
    let end = at + t.len();
    buf[at..end].copy_from_slice(t);
    end
}

// The byte b at the place `at`, and the place after it; without room nothing is written and the place stays.
#[tactic(auto, unfolding(crate::specs::Bytes::put, crate::specs::Bytes::place_after))]
pub fn put_byte(buf: &mut [u8], at: usize, b: u8) -> usize
    ensures { (result ≡ place_after buf.old at (b ∷ [])) × (buf.new ≡ put buf.old at (b ∷ [])) }
{
    if buf.len() <= at {
        return at;
    }
    buf[at] = b;
    at + 1
}
