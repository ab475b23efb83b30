// What would trade at each price, and the candidates for the auction price.
#![tactic(auto)]

ghost use Rattle.std.specs.Prelude.{◌≡◌, Some};
ghost use Rattle.price_rows.specs.Amounts.{matched_in, surplus_in};
ghost use Rattle.price_rows.specs.ErrorText.{auction_error_text};
ghost use Rattle.price_rows.specs.Rows.{RowsAnswered, RowsEntered, RowsWritten};
ghost use Rattle.price_rows.specs.declared.AuctionError.TheVariants.{NoMemory};

use arrayvec::ArrayVec;
use order::Order;
use std::alloc::{AllocError, Global};
use std::error::Error;
use std::fmt;

mod orders;
mod range;

pub use order::MOST_ORDERS;
use orders::AuctionOrders;
pub use range::best_limit;

// A price with its demand and supply.
#[derive(Clone, Copy, Default)]
pub struct PriceRow {
    pub price: u32,
    pub demand: u64,
    pub supply: u64,
}

// Why there is no answer.
#[derive(Clone, Copy, PartialEq, Eq, Debug)]
pub enum AuctionError {
    // more orders than any book holds
    TooManyOrders,
    // no memory for the explanation
    NoMemory,
}

impl fmt::Display for AuctionError {
    ghost output = { λ e. Some (auction_error_text e) };

    fn fmt<W: fmt::Write>(&self, f: &mut fmt::Formatter<W>) -> fmt::Result {
        f.write_str(match self {
            AuctionError::TooManyOrders => "there are more than 512 orders",
            AuctionError::NoMemory => "there is not enough memory",
        })
    }
}

impl Error for AuctionError {}

impl From<AllocError> for AuctionError {
    ghost from_gives = { λ _ e. e ≡ NoMemory };

    fn from(_e: AllocError) -> AuctionError {
        AuctionError::NoMemory
    }
}

impl PriceRow {
    pub fn matched(&self) -> u64
        ensures { result ≡ matched_in self.now }
    {
        self.demand.min(self.supply)
    }

    pub fn surplus(&self) -> u64
        ensures { result ≡ surplus_in self.now }
    {
        self.demand.abs_diff(self.supply)
    }
}

// The rows of the prices that orders name in the range, in entry order.
pub fn entry_rows(orders: &[Order]) -> Result<ArrayVec<PriceRow, MOST_ORDERS>, AuctionError>
    ensures { RowsEntered orders.now result }
{
    let mut rows = ArrayVec::new();
    write_entry_rows(orders, &mut rows)?;
    Ok(rows)
}

// Makes the lent rows those of `entry_rows`; a refusal leaves them as they were.
pub fn write_entry_rows(
    orders: &[Order],
    rows: &mut ArrayVec<PriceRow, MOST_ORDERS>,
) -> Result<(), AuctionError>
    ensures { RowsWritten orders.now rows.old rows.new result }
{
    AuctionOrders::try_from(orders)?.write_entry_rows(rows);
    Ok(())
}

// The rows of all candidates, in rising price.
pub fn candidate_rows(heap: Global, orders: &[Order]) -> Result<Vec<PriceRow>, AuctionError>
    ensures { RowsAnswered orders.now result }
{
    let orders = AuctionOrders::try_from(orders)?;
    Ok(orders.candidate_rows(heap)?)
}
