// Price ladders: which prices are legal, and the legal prices nearest to a number. Prices are whole thousandths of a dollar.
#![tactic(auto)]

ghost use Rattle.std.specs.List.{find};
ghost use Rattle.std.specs.Prelude.{◌≡◌, ℕ, ◌<◌, ◌≤◌, true, List, ◌∷◌, nat_le, reverse};
ghost use Rattle.ladder.specs.Bands.{band_holding};
ghost use Rattle.ladder.specs.Nearest.{NearestBelow, NearestAbove};
ghost use Rattle.ladder.specs.Prices.{Lawful, price_limit, legal, highest_at_or_below, lowest_at_or_above};
ghost use Rattle.ladder.specs.Sound.{sound};

mod banded;
mod even;

pub use banded::BandedLadder;
pub use even::EvenLadder;

// A rising list of legal prices.
pub trait Ladder {
    // The legal prices, lowest first.
    ghost prices: { Self → List ℕ };

    // The prices rise, there is at least one, and each is from 1 to 10,000,000.
    ghost lawful: { (l : Self) → Lawful (prices l) };

    // The highest legal price at or below `n`.
    fn round_down(&self, n: u32) -> Option<u32>
        ensures { result ≡ highest_at_or_below n (prices self.now) };

    // The lowest legal price at or above `n`.
    fn round_up(&self, n: u32) -> Option<u32>
        ensures { result ≡ lowest_at_or_above n (prices self.now) };

    // Whether `price` is legal.
    fn is_legal(&self, price: u32) -> bool
        ensures { result ≡ legal price (prices self.now) }
    {
        self.round_down(price) == Some(price)
    }
}

// Prices one step apart, from a start on.
#[derive(Clone, Copy)]
struct Band {
    start: u32,
    step: u32,
}

// The highest of the bands that starts at or below `n`.
fn highest_band(bands: &[Band], n: u32) -> Option<Band>
    ensures { result ≡ find (λ b. nat_le b.start n) (reverse bands.now) }
{
    bands.iter().rev().copied().find(|b| b.start <= n)
}

// The bands of a ladder, each up to the start of the next one, and the highest one up to the last price.
#[derive(Clone, Copy)]
struct Bands<'a> {
    first: Band,
    higher: &'a [Band],
    last: u32,
    ghost sound: { sound (first ∷ higher.now) last ≡ true },
    ghost within: { last ≤ price_limit },
}

impl Bands<'_> {
    ghost use Rattle.ladder.specs.TablePrices.{table_prices};

    // The highest band that starts at or below `n`, or the first band.
    fn band_at(&self, n: u32) -> Band
        ensures holds { result ≡ band_holding self.now.first self.now.higher.now n }
        ensures starts { self.now.first.start ≤ n → result.start ≤ n }
        ensures steps { (0 < result.step) × (result.step ≤ self.now.last) }
    {
        highest_band(self.higher, n).unwrap_or(self.first)
    }

    // The highest price at or below `n`.
    fn round_down(&self, n: u32) -> Option<u32>
        ensures { result ≡ highest_at_or_below n (table_prices self.now) }
    {
        if n < self.first.start {
            return None;
        }
        let n = n.min(self.last);
        let band = self.band_at(n);
        Some(n - (n - band.start) % band.step)
    }

    // The lowest price at or above `n`.
    fn round_up(&self, n: u32) -> Option<u32>
        ensures { result ≡ lowest_at_or_above n (table_prices self.now) }
    {
        if n > self.last {
            return None;
        }
        let n = n.max(self.first.start);
        let band = self.band_at(n);
        Some(band.start + (n - band.start).next_multiple_of(band.step))
    }
}

// The legal prices nearest to `n`: the highest at or below it, and the lowest at or above it.
pub fn nearest<L: Ladder>(ladder: &L, n: u32) -> (Option<u32>, Option<u32>)
    ensures lower { result.0 ≡ highest_at_or_below n (L.Ladder.prices ladder.now) }
    ensures upper { result.1 ≡ lowest_at_or_above n (L.Ladder.prices ladder.now) }
    ensures below { NearestBelow n (L.Ladder.prices ladder.now) result.0 }
    ensures above { NearestAbove n (L.Ladder.prices ladder.now) result.1 }
{
    (ladder.round_down(n), ladder.round_up(n))
}
