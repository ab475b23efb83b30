// The report on the auction of some orders: every candidate price with its verdict, and the price.
#![tactic(auto)]

ghost use Rattle.price_report.specs.Reporting.{report_of, Reports};

use ladder::Ladder;
use order_text::{ReadError, Request, read};
use price_rows::AuctionError;
use price_table::table;
use reasons::explain;
use std::alloc::Global;

// The report on the orders of a text, or its first bad line.
pub fn report<L: Ladder>(heap: Global, ladder: &L, text: &[u8]) -> Result<String, ReadError>
    ensures { Reports (report_of (L.Ladder.prices ladder.now) text.now) result }
{
    let request = read(heap, ladder, text)?;
    // a `match`: under `map_err` the closure would have to require that the second error does not come
    let told = match explain(heap, request.orders.as_slice(), request.close) {
        Ok(told) => told,
        Err(AuctionError::NoMemory) => return Err(ReadError::NoMemory),
        // a text that is read has at most 512 orders
        Err(AuctionError::TooManyOrders) => unreachable(),
    };
    Ok(table(heap, told.as_slice())?)
}
