// What a book of resting orders means, and the decisions that all books share.
#![tactic(auto)]

ghost use Rattle.std.specs.Prelude.{◌≡◌, ℕ, List, length, slice_get};
ghost use Rattle.order.specs.Orders.{first_ranked};
ghost use Rattle.order.specs.declared.Order.{Order};
ghost use Rattle.book.specs.Books.{PlaceRule, Kept, order_of, above_all, above_last, answer, put_refusal, put_list, repriced, replaced, replace_refusal, replace_list, left_of, cut_refusal, cut_list, free_rows};
ghost use Rattle.book.specs.Refusals.{put_checks, replace_checks, cut_checks, ChecksFound};
ghost use Rattle.book.specs.BookOrders.{orders_left};

use order::{Kind, MOST_ORDERS, Order, Side};
use std::error::Error;
use std::fmt;

// The most orders that a book holds.
pub const MOST_RESTING: usize = MOST_ORDERS;

// Why a book refuses.
#[derive(Clone, Copy, PartialEq, Eq, Debug)]
pub enum BookRefusal {
    // B1: the entry number is not above every resting one
    NumberNotAbove,
    // B2: no shares
    NoShares,
    // B3: the broker has no place
    NoPlace,
    // B4: no order of this number rests
    NotResting,
    // B5: the shares to cut are zero, or more than are left
    BadCut,
}

// 1 to 5, for B1 to B5.
impl From<BookRefusal> for u32 {
    ghost use Rattle.std.specs.Prelude.{◌≡◌};
    ghost use Rattle.book.specs.Refusals.{refusal_number};

    ghost from_gives = { λ refusal number. number ≡ refusal_number refusal };

    fn from(refusal: BookRefusal) -> u32 {
        match refusal {
            BookRefusal::NumberNotAbove => 1,
            BookRefusal::NoShares => 2,
            BookRefusal::NoPlace => 3,
            BookRefusal::NotResting => 4,
            BookRefusal::BadCut => 5,
        }
    }
}

// B1 to B5.
impl fmt::Display for BookRefusal {
    ghost use Rattle.std.specs.Prelude.{Some};
    ghost use Rattle.book.specs.Refusals.{refusal_text};

    ghost output = { λ refusal. Some (refusal_text refusal) };

    fn fmt<W: fmt::Write>(&self, f: &mut fmt::Formatter<W>) -> fmt::Result {
        write!(f, "B{}", u32::from(*self))
    }
}

impl Error for BookRefusal {}

// What an order is replaced by. Without a price the order keeps its own.
#[derive(Clone, Copy)]
pub struct Replacement {
    pub number: u32,
    pub price: Option<u32>,
    pub shares: u32,
}

// A list of resting orders in rising entry number, with a place rule that is fixed when the book is made.
pub trait Book {
    // the resting orders, the lowest entry number first
    ghost resting: { Self → List Order };

    // how many places each broker has, worked out from the list
    ghost rule: { Self → PlaceRule };

    // numbers rise, there are at most 512 orders, and no broker has more places than 512 less the count
    ghost kept: { (b : Self) → Kept (resting b) (rule b) };

    // Adds the order at the end. That the rule is fixed stands in all three: no invariant compares two values.
    fn put(&mut self, order: Order) -> Result<(), BookRefusal>
        ensures answer { result ≡ answer (put_refusal (rule self.old) order (resting self.old)) }
        ensures list { resting self.new ≡ put_list (rule self.old) order (resting self.old) }
        ensures fixed { rule self.new ≡ rule self.old };

    // Drops the order of a number and adds it at the end as its replacement; this needs no place.
    fn replace(&mut self, old: u32, new: Replacement) -> Result<(), BookRefusal>
        ensures answer { result ≡ answer (replace_refusal old new (resting self.old)) }
        ensures list { resting self.new ≡ replace_list old new (resting self.old) }
        ensures fixed { rule self.new ≡ rule self.old };

    // Takes shares off the order of a number, and drops it where none are left.
    fn cut(&mut self, number: u32, shares: u32) -> Result<(), BookRefusal>
        ensures answer { result ≡ answer (cut_refusal number shares (resting self.old)) }
        ensures list { resting self.new ≡ cut_list number shares (resting self.old) }
        ensures fixed { rule self.new ≡ rule self.old };

    // How many orders rest.
    fn count(&self) -> usize
        ensures { result ≡ length (resting self.now) };

    // The k-th order, from 0.
    fn get(&self, k: usize) -> Option<Order>
        ensures { result ≡ slice_get (resting self.now) k };

    // The order of a number.
    fn find(&self, number: u32) -> Option<Order>
        ensures { result ≡ order_of number (resting self.now) };

    // The order of this side that is served first.
    fn first_ranked(&self, side: Side) -> Option<Order>
        ensures { result ≡ first_ranked side (resting self.now) };

    // How many orders more this broker may put.
    fn places(&self, broker: u32) -> usize
        ensures { result ≡ rule self.now (resting self.now) broker };
}

// Whether an order may be put; `above` says that its number is above every resting one.
pub fn check_put(above: bool, shares: u32, places: usize) -> Result<(), BookRefusal>
    ensures { result ≡ answer (put_checks above shares places) }
{
    if !above {
        return Err(BookRefusal::NumberNotAbove);
    }
    if shares == 0 {
        return Err(BookRefusal::NoShares);
    }
    if places == 0 {
        return Err(BookRefusal::NoPlace);
    }
    Ok(())
}

// What was found under the old number, an order or its place, if it may be replaced. `above` says that the new number is
// above every resting one.
pub fn check_replace<T: Drop>(above: bool, shares: u32, old: Option<T>) -> Result<T, BookRefusal>
    ensures { ChecksFound (replace_checks above shares old) old result }
{
    if !above {
        return Err(BookRefusal::NumberNotAbove);
    }
    if shares == 0 {
        return Err(BookRefusal::NoShares);
    }
    old.ok_or(BookRefusal::NotResting)
}

// The order that was found, if so many shares may be cut off it.
pub fn check_cut(found: Option<Order>, shares: u32) -> Result<Order, BookRefusal>
    ensures { ChecksFound (cut_checks found shares) found result }
{
    let order = found.ok_or(BookRefusal::NotResting)?;
    if shares == 0 || order.shares < shares {
        return Err(BookRefusal::BadCut);
    }
    Ok(order)
}

// A kind under the price that is given, if any.
fn repriced(price: Option<u32>, kind: Kind) -> Kind
    ensures { result ≡ repriced price kind }
{
    match kind {
        Kind::AtAuction => Kind::AtAuction,
        Kind::Limit(own) => Kind::Limit(price.unwrap_or(own)),
    }
}

impl Replacement {
    // The order under its new number, price and shares.
    pub fn of(&self, order: &Order) -> Order
        ensures { result ≡ replaced self.now order.now }
    {
        Order {
            number: self.number,
            kind: repriced(self.price, order.kind),
            shares: self.shares,
            ..*order
        }
    }
}

// What a cut leaves of the order: none where no shares are left.
pub fn left_of(order: &Order, shares: u32) -> Option<Order>
    ensures { result ≡ left_of shares order.now }
{
    let left = order.shares.checked_sub(shares)?;
    (left > 0).then_some(Order {
        shares: left,
        ..*order
    })
}

// Whether the number is above that of the last resting order.
pub fn above_last(number: u32, last: Option<Order>) -> bool
    ensures { result ≡ above_last number last }
{
    last.is_none_or(|o| o.number < number)
}

// Each broker's places in a book over so many rows, of which `count` are taken.
pub fn row_places(rows: usize, count: usize) -> usize
    ensures { result ≡ free_rows rows count }
{
    rows.min(MOST_RESTING).saturating_sub(count)
}

// The order that came last: a number above its own is above all.
fn last<B: Book>(book: &B) -> Option<Order>
    ensures { (number : ℕ) → above_last number result ≡ above_all number (B.Book.resting book.now) }
{
    book.get(book.count().saturating_sub(1))
}

// Whether the number is above that of every resting order, of any book: the last alone is looked at.
pub fn is_above<B: Book>(book: &B, number: u32) -> bool
    ensures { result ≡ above_all number (B.Book.resting book.now) }
{
    above_last(number, last(book))
}

// The resting orders of any book, one after the other.
#[derive(Clone, Copy)]
pub struct BookOrders<'a, B> {
    book: &'a B,
    next: usize,
}

// All resting orders, the lowest entry number first.
pub fn orders<B: Book>(book: &B) -> BookOrders<'_, B>
    ensures { orders_left B.Book.resting result ≡ B.Book.resting book.now }
{
    BookOrders { book, next: 0 }
}

impl<'a, B: Book> Iterator for BookOrders<'a, B> {
    ghost use Rattle.std.specs.Iterator.{YieldsFirst, item_count};
    ghost use Rattle.book.specs.BookOrders.{orders_left};

    type Item = Order;

    ghost next_gives = { YieldsFirst (orders_left B.Book.resting) };

    ghost remaining = { item_count (orders_left B.Book.resting) };

    fn next(&mut self) -> Option<Order> {
        let order = self.book.get(self.next)?;
        // a place counted by hand: a range would hold the count beside it, which the book knows
        self.next += 1;
        Some(order)
    }
}
