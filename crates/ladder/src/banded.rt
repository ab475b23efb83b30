ghost use Rattle.ladder.specs.Bands.{banded_prices};
ghost use Rattle.ladder.specs.Sound.{banded_lawful};

use crate::{Band, Bands, Ladder};

const BANDS: Bands<'static> = Bands {
    first: Band { start: 10, step: 1 },
    higher: &[
        Band {
            start: 250,
            step: 5,
        },
        Band {
            start: 500,
            step: 10,
        },
        Band {
            start: 10_000,
            step: 20,
        },
        Band {
            start: 20_000,
            step: 50,
        },
        Band {
            start: 100_000,
            step: 100,
        },
        Band {
            start: 200_000,
            step: 200,
        },
        Band {
            start: 500_000,
            step: 500,
        },
        Band {
            start: 1_000_000,
            step: 1_000,
        },
        Band {
            start: 2_000_000,
            step: 2_000,
        },
        Band {
            start: 5_000_000,
            step: 5_000,
        },
    ],
    last: 9_995_000,
};

// Prices whose step grows from band to band.
#[derive(Clone, Copy)]
pub struct BandedLadder;

impl Ladder for BandedLadder {
    ghost prices = { λ _. banded_prices };

    ghost lawful = { λ _. banded_lawful };

    fn round_down(&self, n: u32) -> Option<u32> {
        BANDS.round_down(n)
    }

    fn round_up(&self, n: u32) -> Option<u32> {
        BANDS.round_up(n)
    }
}
