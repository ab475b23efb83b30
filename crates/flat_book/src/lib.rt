// The flat book: rows in entry order, in memory that the renter lends.
#![tactic(auto)]

ghost use Rattle.std.specs.Prelude.{◌≡◌, ◌+◌, ◌<◌, ◌≤◌, true, [], ◌∷◌, ◌++◌, length, take, slice_set, Some, None, IfSome, IfNone};
ghost use Rattle.std.specs.List.{remove, HoldsAt};
ghost use Rattle.book.specs.Books.{above_all, in_entry_order, order_of, row_places};

use book::{
    Book, BookRefusal, Replacement, above_last, check_cut, check_put, check_replace, left_of,
    row_places,
};
use order::{Order, Side, first_ranked};

// Rows of orders, the taken ones in front. A row that is not taken holds anything.
// A slice with a count beside it, and no vector: the renter lends the memory, and there is no heap.
#[derive(Drop)]
pub struct FlatBook<'a> {
    rows: &'a mut [Order],
    count: usize,
    ghost within: { count ≤ length rows.now },
    ghost ordered: { in_entry_order (take count rows.now) ≡ true },
    ghost few: { count ≤ 512 },
}

impl<'a> FlatBook<'a> {
    ghost use Rattle.flat_book.specs.Flat.{flat_resting, flat_rule, place_of, HasRoom};

    // An empty book over these rows, whatever they hold.
    pub fn new(rows: &'a mut [Order]) -> FlatBook<'a>
        ensures empty { flat_resting result ≡ [] }
        ensures places { flat_rule result ≡ row_places (length rows.old) }
    {
        FlatBook { rows, count: 0 }
    }

    // The resting orders.
    fn taken(&self) -> &[Order]
        ensures { result.now ≡ flat_resting self.now }
    {
        &self.rows[..self.count]
    }

    // The place of the order of a number, if it rests.
    fn place_of(&self, number: u32) -> Option<usize>
        ensures value { result ≡ place_of number (flat_resting self.now) }
        ensures none { IfNone result (order_of number (flat_resting self.now) ≡ None) }
        ensures some { IfSome result (HoldsAt (λ o. order_of number (flat_resting self.now) ≡ Some o) self.now.rows.now) }
    {
        self.taken()
            .binary_search_by_key(&number, |o| o.number)
            .ok()
    }

    // Whether the number is above that of every order.
    // Not `book::is_above`: that would call this type's own `Book` from within it, which the check does not cover yet.
    fn is_above(&self, number: u32) -> bool
        ensures { result ≡ above_all number (flat_resting self.now) }
    {
        above_last(number, self.taken().last().copied())
    }

    // One order more, at the end.
    fn push(&mut self, order: Order)
        requires room { HasRoom self.old }
        requires above { above_all order.number (flat_resting self.old) ≡ true }
        ensures list { flat_resting self.new ≡ flat_resting self.old ++ order ∷ [] }
        ensures rows { length self.new.rows.now ≡ length self.old.rows.now }
    {
        self.rows[self.count] = order;
        self.count += 1;
    }

    // Puts an order in a taken row, where the numbers still rise.
    fn set(&mut self, at: usize, order: Order)
        requires taken { at < length (flat_resting self.old) }
        requires ordered { in_entry_order (slice_set (flat_resting self.old) at order) ≡ true }
        ensures list { flat_resting self.new ≡ slice_set (flat_resting self.old) at order }
        ensures rows { length self.new.rows.now ≡ length self.old.rows.now }
    {
        self.rows[at] = order;
    }

    // Takes out the order at a place, and closes up its row.
    fn remove(&mut self, at: usize)
        requires { at < length (flat_resting self.old) }
        ensures list { flat_resting self.new ≡ remove (flat_resting self.old) at }
        ensures rows { length self.new.rows.now ≡ length self.old.rows.now }
        ensures room { HasRoom self.new }
    {
        self.rows.copy_within(at + 1..self.count, at);
        self.count -= 1;
    }
}

impl<'a> Book for FlatBook<'a> {
    ghost use Rattle.flat_book.specs.Flat.{flat_resting, flat_rule, flat_kept};

    ghost resting = { λ b. flat_resting b };

    ghost rule = { λ b. flat_rule b };

    ghost kept = { λ b. flat_kept b };

    fn put(&mut self, order: Order) -> Result<(), BookRefusal> {
        let above = self.is_above(order.number);
        check_put(above, order.shares, self.places(order.broker))?;
        self.push(order);
        Ok(())
    }

    fn replace(&mut self, old: u32, new: Replacement) -> Result<(), BookRefusal> {
        let above = self.is_above(new.number);
        let at = check_replace(above, new.shares, self.place_of(old))?;
        let order = self.rows[at];
        self.remove(at);
        self.push(new.of(&order));
        Ok(())
    }

    fn cut(&mut self, number: u32, shares: u32) -> Result<(), BookRefusal> {
        let at = self.place_of(number).ok_or(BookRefusal::NotResting)?;
        // the place is needed too, so the order that is checked is one that was found
        let order = check_cut(Some(self.rows[at]), shares)?;
        match left_of(&order, shares) {
            Some(left) => self.set(at, left),
            None => self.remove(at),
        }
        Ok(())
    }

    fn count(&self) -> usize {
        self.taken().len()
    }

    fn get(&self, k: usize) -> Option<Order> {
        self.taken().get(k).copied()
    }

    fn find(&self, number: u32) -> Option<Order> {
        let at = self.place_of(number)?;
        Some(self.rows[at])
    }

    fn first_ranked(&self, side: Side) -> Option<Order> {
        first_ranked(side, self.taken())
    }

    fn places(&self, broker: u32) -> usize {
        row_places(self.rows.len(), self.count)
    }
}
