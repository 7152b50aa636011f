// A number in decimal, put straight into its place of a buffer.
// Each function is a definition of specs/Decimal and specs/Bytes, for every value.
ghost use Rattle.std.specs.Prelude.{◌≡◌, length};
ghost use Rattle.text.specs.Bytes.{put, place_after};
ghost use Rattle.text.specs.Decimal.{decimal};

use crate::words::has_room;

// How many digits n has.
pub fn width(n: u32) -> usize
    ensures { result ≡ length (decimal n) }
{
    match n {
        0..=9 => 1,
        10..=99 => 2,
        100..=999 => 3,
        1000..=9999 => 4,
        10000..=99999 => 5,
        100000..=999999 => 6,
        1000000..=9999999 => 7,
        10000000..=99999999 => 8,
        100000000..=999999999 => 9,
        _ => 10,
    }
}

// The digits of n from the place `at` on, and the place after them; without room nothing is written and the place stays.
#[tactic(auto, unfolding(crate::specs::Bytes::put, crate::specs::Bytes::place_after))]
pub fn put_decimal(buf: &mut [u8], at: usize, n: u32) -> usize
    ensures { (result ≡ place_after buf.old at (decimal n)) × (buf.new ≡ put buf.old at (decimal n)) }
{
    let digits = width(n);
    if !has_room(buf.len(), at, digits) {
        return at;
    }
    let end = at + digits;
    let mut rest = n;
    for k in (at + 1..end).rev() {
        buf[k] = b'0' + (rest % 10) as u8;
        rest /= 10;
    }
    // the first digit by itself: most numbers of an answer have no other
    buf[at] = b'0' + rest as u8;
    end
}
