// The auction price over any book, and why.
#![tactic(auto)]

ghost use Rattle.std.specs.Prelude.{◌≡◌, true, IfOk};
ghost use Rattle.auction.specs.Laws.{BestPrice};
ghost use Rattle.reasons.specs.Truth.{ExplainsPrice};
ghost use Rattle.reasons.specs.Verdicts.{explained};
ghost use Rattle.book_price.specs.Opening.{opening_price, same_price};

use arrayvec::ArrayVec;
use auction::{AuctionPrice, auction_price};
use book::{Book, MOST_RESTING, orders};
use order::Order;
use price_rows::AuctionError;
use reasons::{Candidate, explain};
use std::alloc::{AllocError, Global};

// Makes the lent rows a book's orders, asked for one after the other. Handed back, the rows would be copied whole.
fn copy_orders<B: Book>(book: &B, rows: &mut ArrayVec<Order, MOST_RESTING>)
    ensures { rows.new.items ≡ B.Book.resting book.now }
{
    rows.clear();
    for order in orders(book) {
        rows.push(order);
    }
}

// The auction price of the resting orders, by the closing price of the day before.
pub fn book_price<B: Book>(book: &B, close: Option<u32>) -> Option<AuctionPrice>
    ensures value { result ≡ opening_price close (B.Book.resting book.now) }
    ensures best { BestPrice (B.Book.resting book.now) result }
{
    let mut rows = ArrayVec::new();
    copy_orders(book, &mut rows);
    // no book holds more orders than an auction takes
    auction_price(rows.as_slice(), close).unwrap()
}

// Every candidate of the resting orders in rising price, with why it won or lost.
pub fn book_explain<B: Book>(
    heap: Global,
    book: &B,
    close: Option<u32>,
) -> Result<Vec<Candidate>, AllocError>
    ensures value { IfOk result (λ told. told.items ≡ explained close (B.Book.resting book.now)) }
    ensures truth { IfOk result (λ told. ExplainsPrice close (B.Book.resting book.now) (opening_price close (B.Book.resting book.now)) told.items) }
{
    let mut rows = ArrayVec::new();
    copy_orders(book, &mut rows);
    // a `match`: under `map_err` the closure would have to require that the second error does not come
    match explain(heap, rows.as_slice(), close) {
        Ok(told) => Ok(told),
        Err(AuctionError::NoMemory) => Err(AllocError),
        // no book holds more orders than an auction takes
        Err(AuctionError::TooManyOrders) => unreachable(),
    }
}

// Whether two books, of whatever make, open alike. Books with the same resting orders do.
pub fn open_alike<A: Book, B: Book>(a: &A, b: &B, close: Option<u32>) -> bool
    ensures value { result ≡ same_price (opening_price close (A.Book.resting a.now)) (opening_price close (B.Book.resting b.now)) }
    ensures alike { A.Book.resting a.now ≡ B.Book.resting b.now → result ≡ true }
{
    book_price(a, close) == book_price(b, close)
}
