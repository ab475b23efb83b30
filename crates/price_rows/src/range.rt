// The range of prices at which orders can open.
ghost use Rattle.std.specs.Prelude.{◌≡◌, filter};
ghost use Rattle.std.specs.Option.{option_to_list};
ghost use Rattle.order.specs.declared.Side.TheVariants.{Buy, Sell};
ghost use Rattle.price_rows.specs.Amounts.{best_with, best_limit, reached_by, between, named_by};

use order::{Kind, Order, Side};

// The better of the best limit so far and an order's.
fn best_with(side: Side, best: Option<u32>, o: &Order) -> Option<u32>
    ensures { result ≡ best_with side best o.now }
{
    match o.kind {
        // the best so far stays, unless this limit is better
        Kind::Limit(p) if side.is(o.side) => best.filter(|b| !side.prefers(p, *b)).or(Some(p)),
        Kind::Limit(_) | Kind::AtAuction => best,
    }
}

// The best limit of a side: the highest limit buy, the lowest limit sell. Not the first by a rank, which is one of the things
// it looks at: the orders are no limits.
pub fn best_limit(side: Side, orders: &[Order]) -> Option<u32>
    ensures { result ≡ best_limit side orders.now }
{
    orders.iter().fold(None, |best, o| best_with(side, best, o))
}

// Whether the best limit of a side, if any, trades at the price.
fn reached_by(side: Side, best: Option<u32>, price: u32) -> bool
    ensures { result ≡ reached_by side best price }
{
    best.is_some_and(|best| side.within(best, price))
}

// The prices from the lowest limit sell to the highest limit buy.
#[derive(Clone, Copy)]
pub(crate) struct Range {
    lowest_sell: Option<u32>,
    highest_buy: Option<u32>,
}

impl Range {
    pub(crate) fn of(orders: &[Order]) -> Range
        ensures low { result.lowest_sell ≡ best_limit Sell orders.now }
        ensures high { result.highest_buy ≡ best_limit Buy orders.now }
    {
        Range {
            lowest_sell: best_limit(Side::Sell, orders),
            highest_buy: best_limit(Side::Buy, orders),
        }
    }

    fn holds(&self, price: u32) -> bool
        ensures { result ≡ between self.now.lowest_sell self.now.highest_buy price }
    {
        reached_by(Side::Sell, self.lowest_sell, price)
            && reached_by(Side::Buy, self.highest_buy, price)
    }

    // The price that an order names, where it lies in the range.
    pub(crate) fn candidate(&self, o: &Order) -> Option<u32>
        ensures { option_to_list result ≡ filter (between self.now.lowest_sell self.now.highest_buy) (named_by o.now.kind) }
    {
        match o.kind {
            Kind::AtAuction => None,
            Kind::Limit(price) => self.holds(price).then_some(price),
        }
    }
}
