// The capped book: any book, with one cap on each broker's resting orders.
#![tactic(auto)]

ghost use Rattle.std.specs.Prelude.{◌≡◌, ◌-◌};
ghost use Rattle.capped_book.specs.Caps.{held_by, capped_rule, CapsAsLesser, capped_kept};

use book::{Book, BookRefusal, Replacement, check_put, is_above, orders};
use order::{Order, Side};

// A book below, and the most orders that a broker may have resting.
#[derive(Drop)]
pub struct CappedBook<B> {
    below: B,
    limit: u8,
}

impl<B: Book> CappedBook<B> {
    // The cap over a book, which may hold orders already.
    pub fn new(below: B, limit: u8) -> CappedBook<B>
        ensures book { result.below ≡ below }
        ensures cap { result.limit ≡ limit }
    {
        CappedBook { below, limit }
    }

    // What the cap leaves a broker.
    fn under_cap(&self, broker: u32) -> usize
        ensures { result ≡ self.now.limit - held_by broker (B.Book.resting self.now.below) }
    {
        usize::from(self.limit).saturating_sub(held(&self.below, broker))
    }
}

// A pile of two caps over a book, which is a book again: to a broker it is the lesser of the two caps.
pub fn pile<B: Book>(below: B, lower: u8, upper: u8) -> CappedBook<CappedBook<B>>
    ensures book { result.below.below ≡ below }
    ensures caps { (result.limit ≡ upper) × (result.below.limit ≡ lower) }
    ensures lesser { CapsAsLesser lower upper (B.Book.rule below) (capped_rule result.limit (capped_rule result.below.limit (B.Book.rule result.below.below))) }
{
    CappedBook::new(CappedBook::new(below, lower), upper)
}

// How many orders of a broker rest in a book.
fn held<B: Book>(book: &B, broker: u32) -> usize
    ensures { result ≡ held_by broker (B.Book.resting book.now) }
{
    // a loop: `filter(..).count()` takes a branch for each order, and twice the time
    let mut n = 0;
    for order in orders(book) {
        n += usize::from(order.broker == broker);
    }
    n
}

impl<B: Book> Book for CappedBook<B> {
    ghost resting = { λ b. B.Book.resting b.below };

    ghost rule = { λ b. capped_rule b.limit (B.Book.rule b.below) };

    ghost kept = { λ b. capped_kept b.limit (B.Book.resting b.below) (B.Book.rule b.below) (B.Book.kept b.below) };

    fn put(&mut self, order: Order) -> Result<(), BookRefusal> {
        if self.under_cap(order.broker) == 0 {
            // no place here, whatever there is below
            return check_put(is_above(&self.below, order.number), order.shares, 0);
        }
        self.below.put(order)
    }

    fn replace(&mut self, old: u32, new: Replacement) -> Result<(), BookRefusal> {
        self.below.replace(old, new)
    }

    fn cut(&mut self, number: u32, shares: u32) -> Result<(), BookRefusal> {
        self.below.cut(number, shares)
    }

    fn count(&self) -> usize {
        self.below.count()
    }

    fn get(&self, k: usize) -> Option<Order> {
        self.below.get(k)
    }

    fn find(&self, number: u32) -> Option<Order> {
        self.below.find(number)
    }

    fn first_ranked(&self, side: Side) -> Option<Order> {
        self.below.first_ranked(side)
    }

    fn places(&self, broker: u32) -> usize {
        self.below.places(broker).min(self.under_cap(broker))
    }
}
