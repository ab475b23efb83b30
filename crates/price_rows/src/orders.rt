// The orders of an auction, and the rows of what would trade.
ghost use Rattle.std.specs.Prelude.{◌≡◌, ◌≤◌, length, IfOk};
ghost use Rattle.price_rows.specs.Amounts.{shares_of, shares_at, row_at, candidates};
ghost use Rattle.price_rows.specs.Rows.{rows_of, entry_rows};

use super::range::Range;
use super::{AuctionError, MOST_ORDERS, PriceRow};
use arrayvec::ArrayVec;
use order::{Order, Side};
use std::alloc::{AllocError, Global};
use std::collections::BTreeSet;

// The shares of an order that is of this side and trades at the price, else none.
fn shares_of(side: Side, price: u32, o: &Order) -> u32
    ensures { result ≡ shares_of side price o.now }
{
    if side.is(o.side) && o.accepts(price) {
        o.shares
    } else {
        0
    }
}

// The orders of one auction: no more than it takes.
#[derive(Clone, Copy)]
pub(crate) struct AuctionOrders<'a> {
    orders: &'a [Order],
    ghost few: { length orders.now ≤ 512 },
}

impl<'a> TryFrom<&'a [Order]> for AuctionOrders<'a> {
    type Error = AuctionError;

    ghost use Rattle.price_rows.specs.Taken.{TakesFew};

    ghost try_from_gives = { λ orders r. TakesFew orders.now r };

    fn try_from(orders: &'a [Order]) -> Result<AuctionOrders<'a>, AuctionError> {
        if orders.len() > MOST_ORDERS {
            return Err(AuctionError::TooManyOrders);
        }
        Ok(AuctionOrders { orders })
    }
}

impl<'a> AuctionOrders<'a> {
    // The shares of this side that would trade at the price.
    fn shares_at(&self, side: Side, price: u32) -> u64
        ensures { result ≡ shares_at side self.now.orders.now price }
    {
        self.orders
            .iter()
            .map(|o| u64::from(shares_of(side, price, o)))
            .sum()
    }

    fn row_at(&self, price: u32) -> PriceRow
        ensures { result ≡ row_at self.now.orders.now price }
    {
        PriceRow {
            price,
            demand: self.shares_at(Side::Buy, price),
            supply: self.shares_at(Side::Sell, price),
        }
    }

    // Makes them the rows of the prices that orders name in the range, in entry order. The caller lends them: handed back, they
    // would be copied whole.
    pub(crate) fn write_entry_rows(&self, rows: &mut ArrayVec<PriceRow, MOST_ORDERS>)
        ensures { rows.new.items ≡ entry_rows self.now.orders.now }
    {
        rows.clear();
        let range = Range::of(self.orders);
        for o in self.orders {
            if let Some(price) = range.candidate(o) {
                rows.push(self.row_at(price));
            }
        }
    }

    // The candidates, in rising price.
    fn candidates(&self, heap: Global) -> Result<BTreeSet<u32>, AllocError>
        ensures { IfOk result (λ s. s.keys ≡ candidates self.now.orders.now) }
    {
        let range = Range::of(self.orders);
        let mut prices = BTreeSet::new(heap);
        for o in self.orders {
            if let Some(price) = range.candidate(o) {
                prices.insert(price)?;
            }
        }
        Ok(prices)
    }

    // The rows of all candidates, in rising price.
    pub(crate) fn candidate_rows(&self, heap: Global) -> Result<Vec<PriceRow>, AllocError>
        ensures { IfOk result (λ v. v.items ≡ rows_of self.now.orders.now) }
    {
        let prices = self.candidates(heap)?;
        prices.iter().map(|price| self.row_at(*price)).collect(heap)
    }
}
