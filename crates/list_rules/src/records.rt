// A list that keeps its rules.
ghost use Rattle.theory_intervals.specs.Lists.{Holds};

// The list, and how many records it has. The list is lent, and only read through this.
#[derive(Clone, Copy)]
pub struct Records<'a> {
    pub list: &'a [i16],
    pub used: usize,
    pub ghost holds: { Holds list.now used },
}
