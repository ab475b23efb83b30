// Calls that change a book, and the lines that ask for them.
#![tactic(auto)]

ghost use Rattle.std.specs.Prelude.{◌≡◌};
ghost use Rattle.book.specs.Books.{answer};
ghost use Rattle.book_calls.specs.Calls.{call_refusal, call_list};
ghost use Rattle.book_calls.specs.Touching.{TouchesOnlyNamed};

use book::{Book, BookRefusal, Replacement};
use order::Order;

mod faults;
mod reading;

pub use faults::CallFault;
pub use reading::read_call;

// A call that changes a book.
#[derive(Clone, Copy)]
pub enum BookCall {
    Put(Order),
    // the old number, and what replaces it
    Replace(u32, Replacement),
    // the number, and the shares to take off
    Cut(u32, u32),
}

// Makes the call on any book, and answers as the book does. An order that the call does not name is left as it was.
pub fn play<B: Book>(book: &mut B, call: BookCall) -> Result<(), BookRefusal>
    ensures answer { result ≡ answer (call_refusal (B.Book.rule book.old) call (B.Book.resting book.old)) }
    ensures list { B.Book.resting book.new ≡ call_list (B.Book.rule book.old) call (B.Book.resting book.old) }
    ensures fixed { B.Book.rule book.new ≡ B.Book.rule book.old }
    ensures others { TouchesOnlyNamed call (B.Book.resting book.old) (B.Book.resting book.new) }
{
    match call {
        BookCall::Put(order) => book.put(order),
        BookCall::Replace(old, new) => book.replace(old, new),
        BookCall::Cut(number, shares) => book.cut(number, shares),
    }
}
