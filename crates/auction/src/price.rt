// The price rank, and the auction price by it.
ghost use Rattle.std.specs.Prelude.{◌≡◌, true, List, IfOk};
ghost use Rattle.std.specs.List.{list_all};
ghost use Rattle.auction.specs.Rules.{exceeds, ties, at_ties, by_closing_price, third_at_ties, thousandths, priced, preferred, row_ahead, row_key};
ghost use Rattle.price_rows.specs.Rows.{entry_rows};
ghost use Rattle.auction.specs.Decided.{decision, decision_answer, price_answer};
ghost use Rattle.auction.specs.Laws.{BestPrice};
ghost use Rattle.auction.specs.PriceLaws.{price_lawful};

use super::{AuctionPrice, Decision, ThirdRule};
use arrayvec::ArrayVec;
use order::{Order, Side};
use price_rows::{AuctionError, PriceRow, write_entry_rows};
use rank::{Rank, first};

impl ThirdRule {
    // Whether p is taken before q: no `Ord` of prices, since the case turns the order.
    fn prefers(self, p: u32, q: u32) -> bool
        ensures { result ≡ preferred thousandths self p q }
    {
        match self {
            ThirdRule::DemandExceeds | ThirdRule::NoClosingPrice => q < p,
            ThirdRule::SupplyExceeds => p < q,
            ThirdRule::ClosestTo(close) => {
                let to_p = p.abs_diff(close);
                let to_q = q.abs_diff(close);
                to_p < to_q || (to_p == to_q && q < p)
            }
        }
    }

    // The case where neither side exceeds the other at each price.
    fn by_closing_price(close: Option<u32>) -> ThirdRule
        ensures { result ≡ by_closing_price close }
    {
        close.map_or(ThirdRule::NoClosingPrice, ThirdRule::ClosestTo)
    }
}

// The price rank: the three rules one after the other, the third's case settled beforehand.
#[derive(Clone, Copy)]
pub struct PriceRank {
    pub third: ThirdRule,
}

impl Rank<PriceRow> for PriceRank {
    ghost counts = { λ r row. true };

    ghost ahead = { λ r a b. row_ahead thousandths r.third a b };

    ghost key = { λ r row. row_key row };

    ghost lawful = { λ r. price_lawful thousandths r.third };

    fn counted(&self, _x: &PriceRow) -> bool {
        true
    }

    // no `Ord`: the case of the third rule decides
    fn is_ahead(&self, a: &PriceRow, b: &PriceRow) -> bool {
        if a.matched() != b.matched() {
            return b.matched() < a.matched();
        }
        if a.surplus() != b.surplus() {
            return a.surplus() < b.surplus();
        }
        self.third.prefers(a.price, b.price)
    }
}

// Whether this side has more shares than the other.
fn side_exceeds(row: &PriceRow, side: Side) -> bool
    ensures { result ≡ exceeds side row.now }
{
    match side {
        Side::Buy => row.supply < row.demand,
        Side::Sell => row.demand < row.supply,
    }
}

// Whether two rows match as many and leave as much.
fn rows_tie(a: &PriceRow, b: &PriceRow) -> bool
    ensures { result ≡ ties a.now b.now }
{
    (a.matched(), a.surplus()) == (b.matched(), b.surplus())
}

// Whether this side exceeds the other, if the row ties with the best.
fn exceeds_if_tied(row: &PriceRow, side: Side, best: &PriceRow) -> bool
    ensures { result ≡ at_ties (exceeds side) best.now row.now }
{
    !rows_tie(row, best) || side_exceeds(row, side)
}

// Whether this side exceeds the other at each row that ties with the best.
fn exceeds_at_each(side: Side, best: &PriceRow, rows: &[PriceRow]) -> bool
    ensures { result ≡ list_all (at_ties (exceeds side) best.now) rows.now }
{
    rows.iter().all(|row| exceeds_if_tied(row, side, best))
}

// The third rule's case, settled over the rows that match as many and leave as much as the best.
fn third_rule(best: &PriceRow, rows: &[PriceRow], close: Option<u32>) -> ThirdRule
    ensures { result ≡ third_at_ties close best.now rows.now }
{
    if exceeds_at_each(Side::Buy, best, rows) {
        ThirdRule::DemandExceeds
    } else if exceeds_at_each(Side::Sell, best, rows) {
        ThirdRule::SupplyExceeds
    } else {
        ThirdRule::by_closing_price(close)
    }
}

fn decide_rows(rows: &[PriceRow], close: Option<u32>) -> Option<Decision>
    ensures { (orders : List Order) → rows.now ≡ entry_rows orders → result ≡ decision close orders }
{
    // the first by the first two rules: the third only breaks its ties
    let any = PriceRank {
        third: ThirdRule::NoClosingPrice,
    };
    let best = first(&any, rows)?;
    let third = third_rule(&best, rows, close);
    let rank = PriceRank { third };
    let row = first(&rank, rows)?;
    Some(Decision { row, third })
}

// The struck row of the orders, with the case of the third rule that applied. The orders and the closing price go together from
// here on, but a struct of the two would only be made and taken apart at each call.
pub fn decide(orders: &[Order], close: Option<u32>) -> Result<Option<Decision>, AuctionError>
    ensures { result ≡ decision_answer close orders.now }
{
    let mut rows = ArrayVec::new();
    write_entry_rows(orders, &mut rows)?;
    Ok(decide_rows(rows.as_slice(), close))
}

// The price of a decision, with the shares that it matches.
impl From<Decision> for AuctionPrice {
    ghost from_gives = { λ decided price. price ≡ priced decided.row };

    fn from(decided: Decision) -> AuctionPrice {
        AuctionPrice {
            price: decided.row.price,
            matched: decided.row.matched(),
        }
    }
}

// The auction price of the orders, with the shares that it matches, by the closing price of the day before.
pub fn auction_price(
    orders: &[Order],
    close: Option<u32>,
) -> Result<Option<AuctionPrice>, AuctionError>
    ensures value { result ≡ price_answer close orders.now }
    ensures best { IfOk result (BestPrice orders.now) }
{
    let decided = decide(orders, close)?;
    Ok(decided.map(AuctionPrice::from))
}
