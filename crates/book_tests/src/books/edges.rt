// The flat book at its edges.
use super::{answers, buy, holds, places};
use book::BookRefusal::{BadCut, NoPlace, NoShares, NotResting, NumberNotAbove};
use book::{Book, orders};
use book_calls::{BookCall, CallFault, play};
use flat_book::FlatBook;
use order::{Kind, Side, UnknownSide};
use std::process::Abort;
use std::test::Fail;

fn over_no_rows<B: Book>(rt: &impl Abort, book: &mut B) {
    places(rt, book, &[(1, 0)]);
    answers(
        rt,
        book,
        b"put 1 1 buy 100 10000\nput 1 1 buy 0 10000\nreplace 1 2 100\ncut 1 1\n",
        &[
            Err(NoPlace),
            Err(NoShares),
            Err(NotResting),
            Err(NotResting),
        ],
    );
    holds(rt, book, b"");
    assert_eq!(rt; book.first_ranked(Side::Buy), None);
}

#[test]
fn no_rows(rt: HostRuntime) {
    let mut rows = [];
    over_no_rows(&rt, &mut FlatBook::new(&mut rows));
}

// Over 600 rows, whatever they held, there are 512 places.
fn over_600_rows<B: Book>(rt: &impl Abort, book: &mut B) {
    holds(rt, book, b"");
    places(rt, book, &[(1, 512)]);
    for number in 1..512 {
        assert_eq!(rt; play(book, BookCall::Put(buy(number, number, 100))), Ok(()));
    }
    places(rt, book, &[(1, 1), (600, 1)]);
    // a replacement needs no place, and a cut that leaves nothing makes one
    answers(
        rt,
        book,
        b"put 512 512 buy 100 10000\nput 513 1 buy 100 10000\nreplace 1 513 200 9990\nput 514 1 buy 100 10000\ncut 2 100\nput 514 1 buy 100 10000\n",
        &[Ok(()), Err(NoPlace), Ok(()), Err(NoPlace), Ok(()), Ok(())],
    );
    places(rt, book, &[(1, 0), (600, 0)]);
    assert_eq!(rt; book.get(0), Some(buy(3, 3, 100)));
    assert_eq!(rt; book.get(511), Some(buy(514, 1, 100)));
    assert_eq!(rt; book.first_ranked(Side::Buy), Some(buy(3, 3, 100)));
}

#[test]
fn the_512th_order(rt: HostRuntime) {
    let mut rows = [buy(7, 7, 7); 600];
    over_600_rows(&rt, &mut FlatBook::new(&mut rows));
}

fn wide_numbers<B: Book>(rt: &impl Abort, book: &mut B) {
    let last = buy(u32::MAX, u32::MAX, u32::MAX);
    assert_eq!(rt; play(book, BookCall::Put(last)), Ok(()));
    assert_eq!(rt; play(book, BookCall::Put(last)), Err(NumberNotAbove));
    assert_eq!(rt; book.find(u32::MAX), Some(last));
    assert_eq!(rt; book.get(usize::MAX), None);
    assert_eq!(rt; play(book, BookCall::Cut(u32::MAX, u32::MAX)), Ok(()));
    assert_eq!(rt; book.count(), 0);
}

#[test]
fn numbers_to_the_end_of_their_width(rt: HostRuntime) {
    let mut rows = [buy(0, 0, 0); 4];
    wide_numbers(&rt, &mut FlatBook::new(&mut rows));
}

// The first check that applies refuses, and a refusal changes nothing.
fn over_one_row<B: Book>(rt: &impl Abort, book: &mut B) {
    answers(
        rt,
        book,
        b"put 5 1 buy 100 10000\nput 5 1 buy 0 10000\nput 6 1 buy 0 10000\nput 6 1 buy 1 10000\n",
        &[Ok(()), Err(NumberNotAbove), Err(NoShares), Err(NoPlace)],
    );
    answers(
        rt,
        book,
        b"replace 4 5 0\nreplace 4 6 0\nreplace 4 6 1\nreplace 5 5 1\n",
        &[
            Err(NumberNotAbove),
            Err(NoShares),
            Err(NotResting),
            Err(NumberNotAbove),
        ],
    );
    answers(
        rt,
        book,
        b"cut 4 0\ncut 5 0\ncut 5 101\n",
        &[Err(NotResting), Err(BadCut), Err(BadCut)],
    );
    holds(rt, book, b"put 5 1 buy 100 10000\n");
}

#[test]
fn refusals_in_order(rt: HostRuntime) {
    let mut rows = [buy(0, 0, 0); 1];
    over_one_row(&rt, &mut FlatBook::new(&mut rows));
}

// A limit order without a new price keeps its own; an at-auction order keeps its kind, whatever price it is given.
fn over_two_rows<B: Book>(rt: &impl Abort, book: &mut B) {
    answers(
        rt,
        book,
        b"put 1 9 sell 100 at-auction\nput 2 9 buy 300 10000\nreplace 1 3 400 9000\nreplace 2 4 50\ncut 3 150\n",
        &[Ok(()), Ok(()), Ok(()), Ok(()), Ok(())],
    );
    holds(
        rt,
        book,
        b"put 3 9 sell 250 at-auction\nput 4 9 buy 50 10000\n",
    );
}

#[test]
fn replacements_and_prices(rt: HostRuntime) {
    let mut rows = [buy(0, 0, 0); 2];
    over_two_rows(&rt, &mut FlatBook::new(&mut rows));
}

// A refusal has its number, and is written so.
#[test]
fn refusals_by_number(rt: HostRuntime) -> Result<(), Fail> {
    let all = [
        (NumberNotAbove, 1, "B1"),
        (NoShares, 2, "B2"),
        (NoPlace, 3, "B3"),
        (NotResting, 4, "B4"),
        (BadCut, 5, "B5"),
    ];
    for (refusal, number, text) in all {
        assert_eq!(rt; u32::from(refusal), number);
        assert_eq!(rt; refusal.to_string(rt.alloc())?.as_str(), text);
    }
    Ok(())
}

// The iterator gives the resting orders in rising entry number, and then nothing more.
fn one_after_the_other<B: Book>(rt: &impl Abort, book: &mut B) {
    assert_eq!(rt; orders(book).next(), None);
    answers(
        rt,
        book,
        b"put 1 1 buy 100 10000\nput 2 2 buy 100 10000\nreplace 1 3 100\n",
        &[Ok(()), Ok(()), Ok(())],
    );
    let mut all = orders(book);
    assert_eq!(rt; all.next(), Some(buy(2, 2, 100)));
    assert_eq!(rt; all.next(), Some(buy(3, 1, 100)));
    assert_eq!(rt; all.next(), None);
    assert_eq!(rt; all.next(), None);
}

#[test]
fn orders_to_the_last(rt: HostRuntime) {
    let mut rows = [buy(0, 0, 0); 3];
    one_after_the_other(&rt, &mut FlatBook::new(&mut rows));
}

// Why a line is refused is told, and written so.
#[test]
fn faults_by_name(rt: HostRuntime) -> Result<(), Fail> {
    let all = [
        (
            CallFault::UnknownWord,
            "the first word is not put, replace or cut",
        ),
        (CallFault::WordMissing, "a word is missing"),
        (CallFault::WordTooMany, "there is a word too many"),
        (
            CallFault::BadNumber,
            "a word is not a number of at most eight digits",
        ),
        (CallFault::BadSide, "the side is not buy or sell"),
        (
            CallFault::BadPrice,
            "the price is not a number of at most eight digits (a put may also say at-auction)",
        ),
    ];
    for (fault, text) in all {
        assert_eq!(rt; fault.message(), text);
        assert_eq!(rt; fault.to_string(rt.alloc())?.as_str(), text);
    }
    Ok(())
}

#[test]
fn sides_and_kinds_by_name(rt: HostRuntime) -> Result<(), Fail> {
    assert_eq!(rt; Side::Buy.to_string(rt.alloc())?.as_str(), "buy");
    assert_eq!(rt; Side::Sell.to_string(rt.alloc())?.as_str(), "sell");
    assert_eq!(rt;
        Kind::AtAuction.to_string(rt.alloc())?.as_str(),
        "at-auction"
    );
    assert_eq!(rt;
        Kind::Limit(10_020).to_string(rt.alloc())?.as_str(),
        "10020"
    );
    assert_eq!(rt;
        UnknownSide.to_string(rt.alloc())?.as_str(),
        "the side is not buy or sell"
    );
    Ok(())
}
