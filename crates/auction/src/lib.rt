// The auction price of a list of orders.
#![tactic(auto)]

ghost use Rattle.std.specs.Prelude.{Some};
ghost use Rattle.auction.specs.RuleText.{third_text};

use price_rows::PriceRow;
use std::fmt;

mod price;

pub use price::{PriceRank, auction_price, decide};

// The case of the third price rule.
#[derive(Clone, Copy, PartialEq, Eq, Debug)]
pub enum ThirdRule {
    // demand exceeds supply at each of the prices left: the highest wins
    DemandExceeds,
    // supply exceeds demand at each: the lowest wins
    SupplyExceeds,
    // neither: the closest to this closing price wins, the higher of two equally close
    ClosestTo(u32),
    // neither, and there is no closing price: the highest wins
    NoClosingPrice,
}

impl fmt::Display for ThirdRule {
    ghost output = { λ rule. Some (third_text rule) };

    fn fmt<W: fmt::Write>(&self, f: &mut fmt::Formatter<W>) -> fmt::Result {
        match self {
            ThirdRule::DemandExceeds => f.write_str(
                "demand exceeds supply at each, so the highest wins",
            ),
            ThirdRule::SupplyExceeds => f.write_str(
                "supply exceeds demand at each, so the lowest wins",
            ),
            ThirdRule::ClosestTo(price) => write!(
                f,
                "the closest to the closing price {price} wins, the higher of two as close"
            ),
            ThirdRule::NoClosingPrice => f.write_str("without a closing price the highest wins"),
        }
    }
}

// The struck row, and the case of the third rule by which it was compared.
#[derive(Clone, Copy)]
pub struct Decision {
    pub row: PriceRow,
    pub third: ThirdRule,
}

// A struck price and the shares that it matches.
#[derive(Clone, Copy, PartialEq, Eq, Debug)]
pub struct AuctionPrice {
    pub price: u32,
    pub matched: u64,
}
