// The comparison of two vector stamps: whether one event could have influenced the other.
#![tactic(auto)]

ghost use Rattle.std.specs.Prelude.{◌≡◌};
ghost use Rattle.lamport.specs.Vectors.{counts_in};
ghost use Rattle.stamps.specs.Compare.{none_larger, comparison, comparison_number};

// Room for the counts of so many benches: a stamp has one for each, those of absent benches zero.
pub const MOST: usize = 8;

pub type Stamp = [u32; MOST];

// What is said of the event of the first stamp: it happened before that of the second, after it, is the same, or is none of these.
#[derive(Clone, Copy, PartialEq, Eq)]
pub enum Comparison {
    Before,
    After,
    Same,
    Neither,
}

// No count of `a` is larger than that of `b`.
fn none_larger(a: &Stamp, b: &Stamp) -> bool
    ensures { result ≡ none_larger (counts_in a.now) (counts_in b.now) }
{
    (0..MOST).all(|i| a[i] <= b[i])
}

pub fn compare(a: &Stamp, b: &Stamp) -> Comparison
    ensures { result ≡ comparison (counts_in a.now) (counts_in b.now) }
{
    match (none_larger(a, b), none_larger(b, a)) {
        (true, true) => Comparison::Same,
        (true, false) => Comparison::Before,
        (false, true) => Comparison::After,
        (false, false) => Comparison::Neither,
    }
}

// An answer as a number, for hosts.
pub fn comparison_number(c: Comparison) -> u32
    ensures { result ≡ comparison_number c }
{
    match c {
        Comparison::Before => 0,
        Comparison::After => 1,
        Comparison::Same => 2,
        Comparison::Neither => 3,
    }
}
