// Moving, storing and wiping numbers of a list in place.
#![tactic(auto)]

ghost use Rattle.std.specs.Prelude.{◌≡◌, ◌+◌, ◌-◌, ◌≤◌, ◌<◌, length, drop, replicate, pos};
ghost use Rattle.std.proofs.Math.Seq.{paste};

// The numbers at from..used go `by` places up. A place that nothing was moved to keeps its number.
#[tactic(auto, using(crate::proofs::Parts::paste_self))]
pub fn move_up(list: &mut [i16], from: usize, used: usize, by: usize)
    requires from_le_used { from ≤ used }
    requires by_in_bounds { used + by ≤ length list.old }
    ensures { list.new ≡ paste list.old (from + by) (drop from list.old) (used - from) }
{
    // A copy on the spot would still read and write each number.
    if by == 0 {
        return;
    }
    list.copy_within(from..used, from + by);
}

// The numbers at from..used go `by` places down. A place that nothing was moved to keeps its number.
#[tactic(auto, using(crate::proofs::Parts::paste_self))]
pub fn move_down(list: &mut [i16], from: usize, used: usize, by: usize)
    requires by_le_from { by ≤ from }
    requires from_le_used { from ≤ used }
    requires used_in_bounds { used ≤ length list.old }
    ensures { list.new ≡ paste list.old (from - by) (drop from list.old) (used - from) }
{
    if by == 0 {
        return;
    }
    list.copy_within(from..used, from - by);
}

// Zeros at from..to.
pub fn wipe(list: &mut [i16], from: usize, to: usize)
    requires from_le_to { from ≤ to }
    requires to_in_bounds { to ≤ length list.old }
    ensures { list.new ≡ paste list.old from (replicate (to - from) (pos 0)) (to - from) }
{
    list[from..to].fill(0);
}

// The numbers of `put`, from `at` on.
pub fn put_in(list: &mut [i16], at: usize, put: &[i16])
    requires { at + length put.now ≤ length list.old }
    ensures { list.new ≡ paste list.old at put.now (length put.now) }
{
    list[at..at + put.len()].copy_from_slice(put);
}
