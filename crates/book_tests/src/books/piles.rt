// Caps over a flat book, and the price over any book.
use super::{answers, buy, holds, places};
use auction::AuctionPrice;
use book::Book;
use book::BookRefusal::{NoPlace, NoShares, NumberNotAbove};
use book_calls::{BookCall, play};
use book_price::{book_explain, book_price, open_alike};
use capped_book::{CappedBook, pile};
use flat_book::FlatBook;
use reasons::Verdict;
use std::alloc::Global;
use std::process::Abort;
use std::test::Fail;

// Broker 1 fills an empty capped book up to the cap; broker 2 still has all the places that the cap allows.
fn fills_up<B: Book + Drop>(rt: &impl Abort, below: B, cap: u8) {
    let mut book = CappedBook::new(below, cap);
    let most = u32::from(cap);
    for number in 0..most {
        assert_eq!(rt; play(&mut book, BookCall::Put(buy(number, 1, 1))), Ok(()));
    }
    assert_eq!(rt;
        play(&mut book, BookCall::Put(buy(most, 1, 1))),
        Err(NoPlace)
    );
    places(rt, &book, &[(1, 0), (2, usize::from(cap))]);
}

#[test]
fn caps_at_their_ends(rt: HostRuntime) {
    let mut rows = [buy(0, 0, 0); 512];
    fills_up(&rt, FlatBook::new(&mut rows), 0);
    fills_up(&rt, FlatBook::new(&mut rows), 1);
    fills_up(&rt, FlatBook::new(&mut rows), 255);
}

fn lesser_cap<B: Book + Drop>(rt: &impl Abort, below: B, lower: u8, upper: u8) {
    let mut book = pile(below, lower, upper);
    places(rt, &book, &[(1, 2)]);
    // at the cap the checks come in the same order
    answers(
        rt,
        &mut book,
        b"put 1 1 buy 9 10\nput 2 1 buy 9 10\nput 2 1 buy 0 10\nput 3 1 buy 0 10\nput 3 1 buy 9 10\nput 3 2 buy 9 10\n",
        &[
            Ok(()),
            Ok(()),
            Err(NumberNotAbove),
            Err(NoShares),
            Err(NoPlace),
            Ok(()),
        ],
    );
    places(rt, &book, &[(1, 0), (2, 1), (3, 1)]);
    answers(rt, &mut book, b"cut 1 9\n", &[Ok(())]);
    places(rt, &book, &[(1, 1), (2, 1), (3, 2)]);
    holds(rt, &book, b"put 2 1 buy 9 10\nput 3 2 buy 9 10\n");
}

// Two caps over four rows are the lesser one, whichever lies above.
#[test]
fn piles_of_two(rt: HostRuntime) {
    let mut rows = [buy(0, 0, 0); 4];
    lesser_cap(&rt, FlatBook::new(&mut rows), 2, 200);
    lesser_cap(&rt, FlatBook::new(&mut rows), 200, 2);
}

// Two buys of broker 1, one at-auction, and a sell of broker 2.
const PUTS: &[u8] = b"put 1 1 buy 300 10020\nput 2 1 buy 100 at-auction\nput 3 2 sell 200 9980\n";

fn alike<A: Book, B: Book + Drop>(rt: &impl Abort, plain: &mut A, below: B) {
    let mut capped = pile(below, 2, 2);
    assert!(rt; open_alike(plain, &capped, None));
    answers(rt, plain, PUTS, &[Ok(()), Ok(()), Ok(())]);
    assert!(rt; !open_alike(plain, &capped, None));
    answers(rt, &mut capped, PUTS, &[Ok(()), Ok(()), Ok(())]);
    assert!(rt; open_alike(plain, &capped, None));
    let struck = AuctionPrice {
        price: 10_020,
        matched: 200,
    };
    assert_eq!(rt; book_price(&capped, Some(10_000)), Some(struck));
}

#[test]
fn one_price_for_one_list(rt: HostRuntime) {
    let mut rows = [buy(0, 0, 0); 3];
    let mut others = [buy(0, 0, 0); 9];
    alike(
        &rt,
        &mut FlatBook::new(&mut rows),
        FlatBook::new(&mut others),
    );
}

// At both candidates 200 shares match and 200 are left; demand exceeds supply at each, so the higher is struck.
fn explained<B: Book>(rt: &impl Abort, heap: Global, book: &mut B) -> Result<(), Fail> {
    answers(rt, book, PUTS, &[Ok(()), Ok(()), Ok(())]);
    let told = book_explain(heap, book, None)?;
    assert_eq!(rt; told.len(), 2);
    for candidate in told.as_slice() {
        assert_eq!(rt; candidate.matched, 200);
        assert_eq!(rt; candidate.surplus, 200);
        assert_eq!(rt;
            matches!(candidate.verdict, Verdict::Struck),
            candidate.row.price == 10_020
        );
    }
    Ok(())
}

#[test]
fn why_a_book_opens_so(rt: HostRuntime) -> Result<(), Fail> {
    let mut rows = [buy(0, 0, 0); 3];
    explained(&rt, rt.alloc(), &mut FlatBook::new(&mut rows))
}
