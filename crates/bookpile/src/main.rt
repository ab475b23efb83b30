// A pile of two caps over a flat book: makes the calls of a text on it, and shows what rests.
#![tactic(auto)]

use book::{Book, BookRefusal, orders};
use book_calls::{BookCall, play, read_call};
use book_price::book_price;
use capped_book::pile;
use flat_book::FlatBook;
use order::{Order, Side};
use std::fmt;
use std::io::Read;
use std::process::ExitCode;
use words::{Lines, Words, is_word, number, uncommented};

// The most rows that the program takes.
const MOST_ROWS: u32 = 100_000;

// How many rows the flat book has, and the two caps over it.
#[derive(Clone, Copy)]
struct Sizes {
    rows: usize,
    lower: u8,
    upper: u8,
}

// The next word as a number.
fn next_number(words: &mut Words<'_>) -> Option<u32> {
    number(words.next()?)
}

// The next word as a cap, from 0 to 255.
fn next_cap(words: &mut Words<'_>) -> Option<u8> {
    u8::try_from(next_number(words)?).ok()
}

// The sizes that a line `pile ROWS LOWER UPPER` gives.
fn read_sizes(line: &[u8]) -> Option<Sizes> {
    let mut words = Words::new(uncommented(line));
    if !is_word(words.next()?, b"pile") {
        return None;
    }
    let rows = next_number(&mut words)?;
    let lower = next_cap(&mut words)?;
    let upper = next_cap(&mut words)?;
    if rows > MOST_ROWS || words.next().is_some() {
        return None;
    }
    Some(Sizes {
        // no `From` makes a `usize` of a `u32`, and `try_from` would add a way to fail
        rows: rows as usize,
        lower,
        upper,
    })
}

// A book's answer to a call, as it is printed.
#[derive(Clone, Copy)]
struct Answer(Result<(), BookRefusal>);

impl fmt::Display for Answer {
    fn fmt<W: fmt::Write>(&self, f: &mut fmt::Formatter<W>) -> fmt::Result {
        match self.0 {
            Ok(()) => f.write_str("done"),
            Err(refusal) => write!(f, "refused {refusal}"),
        }
    }
}

// Makes a call, and prints it with the book's answer; of a put, also the places that its broker has left.
fn answer_call<B: Book>(rt: &HostRuntime, book: &mut B, call: BookCall) -> anyhow::Result<()> {
    let answer = Answer(play(book, call));
    match call {
        BookCall::Put(order) => {
            let number = order.number;
            let broker = order.broker;
            let places = book.places(broker);
            println!(rt; "put {number} of broker {broker}: {answer}, places left {places}")?;
        }
        BookCall::Replace(old, new) => {
            let number = new.number;
            println!(rt; "replace {old} by {number}: {answer}")?;
        }
        BookCall::Cut(number, shares) => println!(rt; "cut {shares} off {number}: {answer}")?,
    }
    Ok(())
}

// Makes the calls of a text, whose first line is passed over; fails at a line that is refused.
fn answer_calls<B: Book>(rt: &HostRuntime, book: &mut B, text: &[u8]) -> anyhow::Result<ExitCode> {
    for (line, place) in Lines::new(text).zip(1u64..).skip(1) {
        match read_call(line) {
            Ok(Some(call)) => answer_call(rt, book, call)?,
            Ok(None) => {}
            Err(fault) => {
                // not `{fault}`: `Display` may fail, and the message does not
                let message = fault.message();
                eprintln!(rt; "line {place}: {message}")?;
                return Ok(ExitCode::FAILURE);
            }
        }
    }
    Ok(ExitCode::SUCCESS)
}

// Prints an order, with the places that its broker has left.
fn show_order(rt: &HostRuntime, order: &Order, places: usize) -> anyhow::Result<()> {
    let Order {
        number,
        broker,
        side,
        kind,
        shares,
    } = *order;
    println!(rt; "{number:>10} {broker:>8} {side:>5} {shares:>10} {kind:>10} {places:>8}")?;
    Ok(())
}

fn show_first<B: Book>(rt: &HostRuntime, book: &B, side: Side) -> anyhow::Result<()> {
    match book.first_ranked(side) {
        Some(order) => {
            let number = order.number;
            println!(rt; "first {side}: {number}")?;
        }
        None => println!(rt; "first {side}: none")?,
    }
    Ok(())
}

// Prints what rests, who is served first, and the price at which the book would open without a closing price.
fn show_book<B: Book>(rt: &HostRuntime, book: &B) -> anyhow::Result<()> {
    let count = book.count();
    println!(rt; "resting: {count}")?;
    println!(rt; "    number   broker  side     shares      price   places")?;
    for order in orders(book) {
        show_order(rt, &order, book.places(order.broker))?;
    }
    show_first(rt, book, Side::Buy)?;
    show_first(rt, book, Side::Sell)?;
    match book_price(book, None) {
        Some(struck) => {
            let price = struck.price;
            let matched = struck.matched;
            println!(rt; "auction price {price}, matched {matched}")?;
        }
        None => println!(rt; "no auction price")?,
    }
    Ok(())
}

fn main(rt: HostRuntime) -> anyhow::Result<ExitCode> {
    let heap = rt.alloc();
    let mut text = Vec::new(heap);
    rt.stdin().read_to_end(&mut text)?;
    let text = text.as_slice();
    let Some(sizes) = Lines::new(text).next().and_then(read_sizes) else {
        eprintln!(rt;
            "line 1: it is not pile ROWS LOWER UPPER, with at most 100000 rows and caps of at most 255"
        )?;
        return Ok(ExitCode::FAILURE);
    };
    let mut rows = vec![in heap; Order::default(); sizes.rows]?;
    let mut book = pile(FlatBook::new(rows.as_mut_slice()), sizes.lower, sizes.upper);
    let answered = answer_calls(&rt, &mut book, text)?;
    if answered == ExitCode::SUCCESS {
        show_book(&rt, &book)?;
    }
    Ok(answered)
}
