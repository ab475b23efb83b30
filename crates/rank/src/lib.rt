// Which of two things goes ahead, and the first of a list: one text for everything that has a rank.
#![tactic(auto)]

ghost use Rattle.std.specs.Prelude.{◌≡◌, ℕ, Bool, List};
ghost use Rattle.rank.specs.Ranked.{Lawful, better, first_of, IsFirst};

// A rank of things of one type. It may hold what the comparison depends on, as a closing price.
pub trait Rank<X> {
    // whether a thing counts at all: a book's list mixes both sides, and a side's rank counts one
    ghost counts: { Self → X → Bool };

    // whether the first thing goes ahead of the second
    ghost ahead: { Self → X → X → Bool };

    // all that the rank compares
    ghost key: { Self → X → List ℕ };

    fn counted(&self, x: &X) -> bool
        ensures { result ≡ counts self.now x.now };

    // not `Ord` of the things: which goes ahead depends on the rank, as on a side or on a closing price
    fn is_ahead(&self, a: &X, b: &X) -> bool
        ensures { result ≡ ahead self.now a.now b.now };

    // what each implementation must prove
    ghost lawful: { (r : Self) → Lawful (ahead r) (key r) };
}

// The better of the best so far and one thing more.
fn improve<X: Copy, R: Rank<X>>(rank: &R, best: Option<X>, x: &X) -> Option<X>
    ensures { result ≡ better (R.Rank.counts rank.now) (R.Rank.ahead rank.now) best x.now }
{
    if !rank.counted(x) {
        return best;
    }
    // the best so far stays, unless x is ahead of it
    best.filter(|b| !rank.is_ahead(x, b)).or(Some(*x))
}

// The best of the slice, each thing measured against the best before it. Apart from `first`, for the proof: beside a second
// clause the check did not find what a chain gives.
fn best_of<X: Copy, R: Rank<X>>(rank: &R, items: &[X]) -> Option<X>
    ensures { result ≡ first_of (R.Rank.counts rank.now) (R.Rank.ahead rank.now) items.now }
{
    items.iter().fold(None, |best, x| improve(rank, best, x))
}

// The first by rank of those in the slice that count.
pub fn first<X: Copy, R: Rank<X>>(rank: &R, items: &[X]) -> Option<X>
    ensures value { result ≡ first_of (R.Rank.counts rank.now) (R.Rank.ahead rank.now) items.now }
    ensures leads { IsFirst (R.Rank.counts rank.now) (R.Rank.ahead rank.now) items.now result }
{
    best_of(rank, items)
}
