// The items of a request as they are lent: six numbers each. Whether each keeps its rules, and where an item goes in an axis.
#![tactic(auto)]

ghost use Rattle.std.specs.Prelude.{◌≡◌, true, ◌+◌, ◌*◌, ◌/◌, ◌≤◌, ◌<◌, ℕ, length};
ghost use Rattle.theory_walk.specs.Axis.{on};
ghost use Rattle.theory_walk.specs.Request.{half, halves, good_half, good_item, bad_from, placing_of, item_of};
ghost use Rattle.placing_request.specs.Items.{item_at, axis_of};

use grid_coordinates::Lines;
use theory_walk::Placement;

pub mod checks;
pub mod flow;

// The three numbers that an item has for one axis. Lines may lie outside the limited grid, which they are pressed into later; a
// span has one number, and the place of the second is unused and holds 0.
#[tactic(auto, unfolding(theory_walk::specs::Request::good_half))]
fn half_is_good(kind: i16, a: i16, b: i16) -> bool
    ensures { result ≡ good_half (half kind a b) }
{
    match kind {
        0 => -20000 <= a && a < b && b <= 20000,
        1 => 1 <= a && a <= 10000 && b == 0,
        _ => false,
    }
}

fn item_is_good(items: &[i16], i: usize) -> bool
    requires { 6 * i + 6 ≤ length items.now }
    ensures { result ≡ good_item (item_at items.now i) }
{
    let at = 6 * i;
    half_is_good(items[at], items[at + 1], items[at + 2])
        && half_is_good(items[at + 3], items[at + 4], items[at + 5])
}

// Numbers behind the last whole item belong to none and are not looked at.
pub fn first_bad(items: &[i16]) -> Option<usize>
    ensures { result ≡ bad_from 0 (halves items.now) }
{
    for i in 0..items.len() / 6 {
        if !item_is_good(items, i) {
            return Some(i);
        }
    }
    None
}

// A good half as a placement. Its kind is 0 or 1, so one test tells the two apart, and a span is not negative.
fn placing(kind: i16, a: i16, b: i16) -> Placement
    requires { good_half (half kind a b) ≡ true }
    ensures { result ≡ placing_of (half kind a b) }
{
    if kind == 0 {
        Placement::Fixed(Lines { start: a, end: b })
    } else {
        Placement::Spanned(a as u16)
    }
}

// Where item i goes among the columns, or among the rows.
pub fn placement_on(items: &[i16], i: usize, columns: bool) -> Placement
    requires i_in_bounds { 6 * i + 6 ≤ length items.now }
    requires i_value { good_item (item_at items.now i) ≡ true }
    ensures { result ≡ on (axis_of columns) (item_of (item_at items.now i)) }
{
    let at = if columns { 6 * i } else { 6 * i + 3 };
    placing(items[at], items[at + 1], items[at + 2])
}

// Items that keep their rules, each.
#[derive(Clone, Copy)]
pub struct Items<'a> {
    pub numbers: &'a [i16],
    pub ghost good: { (i : ℕ) → i < length numbers.now / 6 → good_item (item_at numbers.now i) ≡ true },
}

impl<'a> Items<'a> {
    pub fn len(self) -> usize
        ensures { result ≡ length self.entry.numbers.now / 6 }
    {
        self.numbers.len() / 6
    }

    // Where item i goes among the columns, or among the rows.
    pub fn placement(self, i: usize, columns: bool) -> Placement
        requires { i < length self.numbers.now / 6 }
        ensures { result ≡ on (axis_of columns) (item_of (item_at self.entry.numbers.now i)) }
    {
        placement_on(self.numbers, i, columns)
    }
}
