// What prints itself, to the end, and rows that a caller lends. What is expected is worked out by hand.
use arrayvec::ArrayVec;
use auction::ThirdRule;
use order::{Kind, Order, Side};
use order_text::{BadLine, Fault, ReadError};
use price_rows::{AuctionError, PriceRow, entry_rows, write_entry_rows};
use reasons::Verdict;
use std::test::Fail;

#[test]
fn faults(rt: HostRuntime) -> Result<(), Fail> {
    let all = [
        (
            Fault::UnknownWord,
            "the first word is not close, buy or sell",
            "line 40: the first word is not close, buy or sell\n",
        ),
        (
            Fault::WordMissing,
            "a word is missing",
            "line 40: a word is missing\n",
        ),
        (
            Fault::WordTooMany,
            "there is a word too many",
            "line 40: there is a word too many\n",
        ),
        (
            Fault::BadShares,
            "the shares are not a number from 1 to 30000000",
            "line 40: the shares are not a number from 1 to 30000000\n",
        ),
        (
            Fault::BadPrice,
            "the price is not a number of at most eight digits (an order may also say at-auction)",
            "line 40: the price is not a number of at most eight digits (an order may also say at-auction)\n",
        ),
        (
            Fault::PriceNotLegal,
            "the price is not a legal price",
            "line 40: the price is not a legal price\n",
        ),
        (
            Fault::SecondClose,
            "there is a closing price already",
            "line 40: there is a closing price already\n",
        ),
        (
            Fault::TooManyOrders,
            "there are 512 orders already",
            "line 40: there are 512 orders already\n",
        ),
    ];
    for (fault, text, line) in all {
        assert_eq!(rt; fault.to_string(rt.alloc())?.as_str(), text);
        let bad = BadLine { line: 40, fault };
        assert_eq!(rt; bad.to_string(rt.alloc())?.as_str(), line);
        assert_eq!(rt; ReadError::Bad(bad).to_string(rt.alloc())?.as_str(), line);
    }
    Ok(())
}

#[test]
fn errors(rt: HostRuntime) -> Result<(), Fail> {
    let few = AuctionError::TooManyOrders.to_string(rt.alloc())?;
    assert_eq!(rt; few.as_str(), "there are more than 512 orders");
    let memory = AuctionError::NoMemory.to_string(rt.alloc())?;
    assert_eq!(rt; memory.as_str(), "there is not enough memory");
    let read = ReadError::NoMemory.to_string(rt.alloc())?;
    assert_eq!(rt; read.as_str(), "there is not enough memory");
    Ok(())
}

#[test]
fn verdicts(rt: HostRuntime) -> Result<(), Fail> {
    let all = [
        (Verdict::Struck, "struck"),
        (Verdict::MatchesLess(200), "lost: matches 200 less"),
        (
            Verdict::LeavesMore(100),
            "lost: matches as many and leaves 100 more",
        ),
        (
            Verdict::LostByThird(ThirdRule::DemandExceeds),
            "lost: equal on both, and demand exceeds supply at each, so the highest wins",
        ),
        (
            Verdict::LostByThird(ThirdRule::SupplyExceeds),
            "lost: equal on both, and supply exceeds demand at each, so the lowest wins",
        ),
        (
            Verdict::LostByThird(ThirdRule::ClosestTo(10_000)),
            "lost: equal on both, and the closest to the closing price 10000 wins, the higher of two as close",
        ),
        (
            Verdict::LostByThird(ThirdRule::NoClosingPrice),
            "lost: equal on both, and without a closing price the highest wins",
        ),
    ];
    for (verdict, text) in all {
        assert_eq!(rt; verdict.to_string(rt.alloc())?.as_str(), text);
    }
    Ok(())
}

fn limit(number: u32, side: Side, shares: u32, price: u32) -> Order {
    Order {
        number,
        broker: 1,
        side,
        kind: Kind::Limit(price),
        shares,
    }
}

// At 9,980 and at 10,020 a buy of 300 meets a sell of 200; the sell at 10,060 lies outside.
#[test]
fn rows_of_two_prices(rt: HostRuntime) -> Result<(), Fail> {
    let orders = [
        limit(1, Side::Buy, 300, 10_020),
        limit(2, Side::Sell, 200, 9_980),
        limit(3, Side::Sell, 100, 10_060),
    ];
    let mut lent: ArrayVec<PriceRow, 512> = ArrayVec::new();
    lent.push(PriceRow::default());
    write_entry_rows(&orders, &mut lent)?;
    let handed = entry_rows(&orders)?;
    for rows in [lent.as_slice(), handed.as_slice()] {
        assert_eq!(rt; rows.len(), 2);
        for (row, price) in rows.iter().zip([10_020, 9_980]) {
            assert_eq!(rt; row.price, price);
            assert_eq!(rt; row.demand, 300);
            assert_eq!(rt; row.supply, 200);
        }
    }
    Ok(())
}
