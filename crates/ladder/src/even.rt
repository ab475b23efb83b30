ghost use Rattle.std.specs.Prelude.{◌≡◌, ◌≤◌};
ghost use Rattle.ladder.specs.TablePrices.{table_prices};
ghost use Rattle.ladder.specs.Prices.{even_prices, clamped};
ghost use Rattle.ladder.specs.Sound.{even_lawful};

use crate::{Band, Bands, Ladder};

// The largest step and the largest count of an even ladder.
const MAX_STEP: u32 = 10_000;

const MAX_COUNT: u32 = 1_000;

// The multiples of a step, from the step itself on.
#[derive(Clone, Copy)]
pub struct EvenLadder {
    step: u32,
    count: u32,
    ghost step_range: { (1 ≤ step) × (step ≤ 10_000) },
    ghost count_range: { (1 ≤ count) × (count ≤ 1_000) },
}

impl EvenLadder {
    // A step or a count outside its range is moved to the nearest bound.
    pub fn new(step: u32, count: u32) -> EvenLadder
        ensures { even_prices result.step result.count ≡ even_prices (clamped 1 10_000 step) (clamped 1 1_000 count) }
    {
        EvenLadder {
            step: step.clamp(1, MAX_STEP),
            count: count.clamp(1, MAX_COUNT),
        }
    }

    // The ladder's one band, from the step itself to the last price.
    fn bands(&self) -> Bands<'static>
        ensures { table_prices result ≡ even_prices self.now.step self.now.count }
    {
        Bands {
            first: Band {
                start: self.step,
                step: self.step,
            },
            higher: &[],
            last: self.step * self.count,
        }
    }
}

impl Ladder for EvenLadder {
    ghost prices = { λ l. even_prices l.step l.count };

    ghost lawful = { λ l. even_lawful l.step l.count l.step_range l.count_range };

    fn round_down(&self, n: u32) -> Option<u32> {
        self.bands().round_down(n)
    }

    fn round_up(&self, n: u32) -> Option<u32> {
        self.bands().round_up(n)
    }
}
