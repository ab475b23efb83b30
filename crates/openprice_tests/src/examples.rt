// Texts that are read or refused, and a report that is written. What is expected is worked out by hand.
use ladder::BandedLadder;
use order_text::{BadLine, Fault, ReadError, read};
use price_report::report;
use std::alloc::Global;
use std::process::Abort;
use std::test::Fail;

// A text that is refused, and where and why.
#[derive(Clone, Copy)]
struct Case {
    text: &'static str,
    line: usize,
    fault: Fault,
}

const CASES: [Case; 31] = [
    Case {
        text: "hold 1 10000",
        line: 1,
        fault: Fault::UnknownWord,
    },
    Case {
        text: "Buy 1 10000",
        line: 1,
        fault: Fault::UnknownWord,
    },
    Case {
        text: "at-auction",
        line: 1,
        fault: Fault::UnknownWord,
    },
    Case {
        text: "close",
        line: 1,
        fault: Fault::WordMissing,
    },
    Case {
        text: "\n\n sell \t\r\n",
        line: 3,
        fault: Fault::WordMissing,
    },
    Case {
        text: "buy 100",
        line: 1,
        fault: Fault::WordMissing,
    },
    // the comment takes the price
    Case {
        text: "buy 100 # 10000",
        line: 1,
        fault: Fault::WordMissing,
    },
    Case {
        text: "close 10000 now",
        line: 1,
        fault: Fault::WordTooMany,
    },
    Case {
        text: "buy 1 10000\nsell 1 at-auction 9980\n",
        line: 2,
        fault: Fault::WordTooMany,
    },
    Case {
        text: "buy 0 10000",
        line: 1,
        fault: Fault::BadShares,
    },
    Case {
        text: "buy 30000001 10000",
        line: 1,
        fault: Fault::BadShares,
    },
    Case {
        text: "buy 000000001 10000",
        line: 1,
        fault: Fault::BadShares,
    },
    Case {
        text: "buy +1 10000",
        line: 1,
        fault: Fault::BadShares,
    },
    Case {
        text: "sell at-auction 1",
        line: 1,
        fault: Fault::BadShares,
    },
    Case {
        text: "close at-auction",
        line: 1,
        fault: Fault::BadPrice,
    },
    Case {
        text: "buy 1 1O000",
        line: 1,
        fault: Fault::BadPrice,
    },
    Case {
        text: "buy 1 at-auctions",
        line: 1,
        fault: Fault::BadPrice,
    },
    Case {
        text: "sell 1 000010000",
        line: 1,
        fault: Fault::BadPrice,
    },
    Case {
        text: "sell 1 9:",
        line: 1,
        fault: Fault::BadPrice,
    },
    Case {
        text: "sell 1 9/",
        line: 1,
        fault: Fault::BadPrice,
    },
    Case {
        text: "close 9981",
        line: 1,
        fault: Fault::PriceNotLegal,
    },
    Case {
        text: "sell 1 99999999",
        line: 1,
        fault: Fault::PriceNotLegal,
    },
    Case {
        text: "buy 1 10010",
        line: 1,
        fault: Fault::PriceNotLegal,
    },
    Case {
        text: "close 10000\nclose 10000",
        line: 2,
        fault: Fault::SecondClose,
    },
    // the first bad line
    Case {
        text: "close 10000\nbuy 1\nhold\n",
        line: 2,
        fault: Fault::WordMissing,
    },
    // of several faults of a line the leftmost
    Case {
        text: "buy x",
        line: 1,
        fault: Fault::BadShares,
    },
    Case {
        text: "buy 0 1x 2",
        line: 1,
        fault: Fault::BadShares,
    },
    Case {
        text: "buy 1 1x 2",
        line: 1,
        fault: Fault::BadPrice,
    },
    Case {
        text: "buy 1 9981 2",
        line: 1,
        fault: Fault::PriceNotLegal,
    },
    // a line's words before what came in other lines
    Case {
        text: "close 10000\n# again\nclose 9981\n",
        line: 3,
        fault: Fault::PriceNotLegal,
    },
    Case {
        text: "close 10000\nclose 10000 now\n",
        line: 2,
        fault: Fault::WordTooMany,
    },
];

fn refused(
    rt: &impl Abort,
    heap: Global,
    text: &str,
    line: usize,
    fault: Fault,
) -> Result<(), Fail> {
    let Err(e) = read(heap, &BandedLadder, text.as_bytes()) else {
        return Err(Fail::new(text));
    };
    assert_eq!(rt; e, ReadError::Bad(BadLine { line, fault }), "{}", text);
    Ok(())
}

#[test]
fn bad_lines(rt: HostRuntime) -> Result<(), Fail> {
    for case in CASES {
        refused(&rt, rt.alloc(), case.text, case.line, case.fault)?;
    }
    Ok(())
}

#[test]
fn most_orders(rt: HostRuntime) -> Result<(), Fail> {
    let mut many = String::new(rt.alloc());
    for _ in 0..512 {
        many.push_str("sell 1 at-auction\n")?;
    }
    let most = read(rt.alloc(), &BandedLadder, many.as_bytes())?;
    assert_eq!(rt; most.orders.len(), 512);
    many.push_str("sell 1 at-auction")?;
    refused(&rt, rt.alloc(), many.as_str(), 513, Fault::TooManyOrders)
}

// Orders, and how the report on them ends.
#[derive(Clone, Copy)]
struct Book {
    text: &'static str,
    end: &'static str,
}

const NO_PRICE: &str = "no price: no limit buy reaches a limit sell\n";

const BOOKS: [Book; 8] = [
    Book {
        text: "close 10000\n",
        end: NO_PRICE,
    },
    Book {
        text: "close 10000\nbuy 100 9990\nsell 100 10000\n",
        end: NO_PRICE,
    },
    Book {
        text: "close 10000\nbuy 300 10020\nbuy 100 at-auction\nsell 200 9980\n",
        end: "  struck\n\nauction price 10020, matched 200\n",
    },
    Book {
        text: "close 10000\nbuy 300 10020\nsell 400 9980\n",
        end: "so the lowest wins\n\nauction price 9980, matched 300\n",
    },
    Book {
        text: "close 10000\nbuy 200 10040\nsell 200 9970\n",
        end: "as close\n\nauction price 9970, matched 200\n",
    },
    Book {
        text: "close 10000\nbuy 200 10020\nsell 200 9980\n",
        end: "  struck\n\nauction price 10020, matched 200\n",
    },
    Book {
        text: "buy 200 10040\nsell 200 9970\n",
        end: "  struck\n\nauction price 10040, matched 200\n",
    },
    Book {
        text: "close 10000\nbuy 100 10000\nbuy 100 10060\nsell 100 9980\nsell 100 10040\n",
        end: "as close\n\nauction price 10000, matched 100\n",
    },
];

#[test]
fn opens(rt: HostRuntime) -> Result<(), Fail> {
    for book in BOOKS {
        let text = report(rt.alloc(), &BandedLadder, book.text.as_bytes())?;
        assert!(rt; text.as_str().ends_with(book.end), "{}", book.end);
    }
    Ok(())
}
