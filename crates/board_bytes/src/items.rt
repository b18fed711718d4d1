// The item numbers of a file.
ghost use Rattle.std.specs.Prelude.{◌≡◌, ◌++◌, ◌+◌, ◌*◌, ◌≤◌, length, drop};
ghost use Rattle.board_bytes.specs.File.{numbers};

use crate::bytes::{signed, word};

// The first n item numbers, which follow the 20 bytes of the head; the places past them keep what they hold.
pub fn read_items(bytes: &[u8], items: &mut [i16], n: usize)
    requires n_in_bounds { 20 + 2 * n ≤ length bytes.now }
    requires n_in_bounds_2 { n ≤ length items.old }
    ensures { items.new ≡ numbers bytes.now 20 n ++ drop n items.old }
{
    for (i, item) in items[..n].iter_mut().enumerate() {
        *item = signed(word(bytes, 20 + 2 * i));
    }
}
