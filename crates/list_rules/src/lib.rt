// Whether a row list or a column list keeps its rules, and with how many records. A list is lent and never changed here.
#![tactic(auto)]

ghost use Rattle.std.specs.Prelude.{◌≡◌, true, false, ◌+◌, ◌*◌, ◌%◌, ◌≤◌, ◌<◌, eqb, leb, ◌&&◌, length, get_or, pos};
ghost use Rattle.std.specs.Int.{w16};
ghost use Rattle.std.specs.List.{list_all};
ghost use Rattle.std.proofs.Common.{SFits};
ghost use Rattle.theory_intervals.specs.OverInt.{is_zero};
ghost use Rattle.list_rules.specs.Kept.{kept_of};
ghost use Rattle.list_rules.specs.Inner.{Says, GoodAt, follow_at, Goes, Front};

pub mod records;

pub use records::Records;

// One number of a list. Its contract says that it fits, so that what is tested of it is a fact with nothing to cite.
pub fn number(list: &[i16], at: usize) -> i16
    requires { at < length list.now }
    ensures sfits { SFits w16 result }
    ensures value { result ≡ get_or list.now at (pos 0) }
{
    list[at]
}

// The record at `at` by itself: its ranges, start before end, a state. Four zeros are none, so unused places end the records.
// A number is read when it is judged: a call on a list spends its time here, and with all of them read first it takes a third more instructions.
fn good(list: &[i16], at: usize) -> bool
    requires { at + 4 ≤ length list.now }
    ensures { Says result (GoodAt list.now at) }
{
    let track = number(list, at);
    if track < -10000 || track > 9999 {
        return false;
    }
    let start = number(list, at + 1);
    let end = number(list, at + 2);
    if start < -10000 || end <= start || end > 10000 {
        return false;
    }
    let state = number(list, at + 3);
    1 <= state && state <= 2
}

// Whether the record at `at + 4` may stand behind the one at `at`: in order, and not of the same state where they touch.
fn follows(list: &[i16], at: usize) -> bool
    requires { at + 8 ≤ length list.now }
    ensures { result ≡ follow_at list.now at (at + 4) }
{
    let behind = at + 4;
    let track = number(list, at);
    let track2 = number(list, behind);
    if track != track2 {
        return track < track2;
    }
    let end = number(list, at + 2);
    let start2 = number(list, behind + 1);
    if end != start2 {
        return end < start2;
    }
    // They touch, so the states must differ.
    let state = number(list, at + 3);
    let state2 = number(list, behind + 3);
    state != state2
}

// Whether record i keeps the rules, and may stand behind the record before it.
fn goes(list: &[i16], i: usize) -> bool
    requires { 4 * i + 4 ≤ length list.now }
    ensures { Says result (Goes list.now i) }
{
    let at = 4 * i;
    good(list, at) && (i == 0 || follows(list, at - 4))
}

// How many records at the front keep the rules.
fn front(list: &[i16]) -> usize
    ensures front { Front list.now result }
    ensures fact { 4 * result + 4 ≤ length list.now → Goes list.now result → ⊥ }
{
    let n = list.len() / 4;
    for i in 0..n {
        if !goes(list, i) {
            return i;
        }
    }
    n
}

// Whether there are only zeros.
fn zeros(rest: &[i16]) -> bool
    ensures { result ≡ list_all is_zero rest.now }
{
    rest.iter().all(|&number| number == 0)
}

// Whether a list may have so many numbers.
pub fn length_is_good(n: usize) -> bool
    ensures { result ≡ (eqb (n % 4) 0 && leb n 1048576) }
{
    n % 4 == 0 && n <= 1048576
}

// Whether the list keeps the list rules, and with how many records.
pub fn kept(list: &[i16]) -> Option<usize>
    ensures { result ≡ kept_of list.now }
{
    let n = front(list);
    zeros(&list[4 * n..]).then_some(n)
}
