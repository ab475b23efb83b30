// Calls on a book with the answers to expect, and what a book then holds, as texts. What is expected is worked out by hand
// from the rules.
use book::{Book, BookRefusal, orders};
use book_calls::{BookCall, play, read_call};
use order::{Kind, Order, Side};
use std::process::Abort;
use words::Lines;

mod edges;
mod piles;

fn buy(number: u32, broker: u32, shares: u32) -> Order {
    Order {
        number,
        broker,
        side: Side::Buy,
        kind: Kind::Limit(10_000),
        shares,
    }
}

fn call_in(line: &[u8]) -> Option<BookCall> {
    read_call(line).ok()?
}

// Each line of the text ends with a newline, and there are so many.
fn has_lines(text: &[u8], count: usize) -> bool {
    Lines::new(text).count() == count.saturating_add(1) && text.last().is_none_or(|b| *b == b'\n')
}

// Makes the calls of a text; the book answers so.
fn answers<B: Book>(
    rt: &impl Abort,
    book: &mut B,
    text: &[u8],
    expected: &[Result<(), BookRefusal>],
) {
    assert!(rt; has_lines(text, expected.len()));
    for (line, answer) in Lines::new(text).zip(expected) {
        match call_in(line) {
            Some(call) => assert_eq!(rt; play(book, call), *answer),
            None => assert!(rt; false),
        }
    }
}

// The book holds the orders of these puts and no others, however it is asked.
fn holds<B: Book>(rt: &impl Abort, book: &B, text: &[u8]) {
    assert!(rt; has_lines(text, book.count()));
    assert_eq!(rt; orders(book).count(), book.count());
    for ((k, order), line) in orders(book).enumerate().zip(Lines::new(text)) {
        match call_in(line) {
            Some(BookCall::Put(put)) => assert_eq!(rt; order, put),
            Some(_) | None => assert!(rt; false),
        }
        assert_eq!(rt; book.get(k), Some(order));
        assert_eq!(rt; book.find(order.number), Some(order));
    }
    assert_eq!(rt; book.get(book.count()), None);
}

// These brokers have so many places.
fn places<B: Book>(rt: &impl Abort, book: &B, expected: &[(u32, usize)]) {
    for (broker, n) in expected {
        assert_eq!(rt; book.places(*broker), *n);
    }
}
