// Why each candidate price won or lost.
#![tactic(auto)]

ghost use Rattle.std.specs.Prelude.{◌≡◌, map, Some, IfOk};
ghost use Rattle.reasons.specs.VerdictText.{verdict_text};
ghost use Rattle.auction.specs.Rules.{thousandths, auction_price};
ghost use Rattle.reasons.specs.Verdicts.{verdict_of, candidate_of, Explained};
ghost use Rattle.reasons.specs.Truth.{ExplainsPrice};

use auction::{Decision, ThirdRule, decide};
use order::Order;
use price_rows::{AuctionError, PriceRow, candidate_rows};
use std::alloc::{AllocError, Global};
use std::fmt;

// Why a candidate price won or lost, beside the struck price.
#[derive(Clone, Copy, PartialEq, Eq, Debug)]
pub enum Verdict {
    Struck,
    // matches this many shares less
    MatchesLess(u64),
    // matches as many, and leaves a surplus larger by this
    LeavesMore(u64),
    // equal on both, and lost by the third rule, in this case of it
    LostByThird(ThirdRule),
}

impl fmt::Display for Verdict {
    ghost output = { λ verdict. Some (verdict_text verdict) };

    fn fmt<W: fmt::Write>(&self, f: &mut fmt::Formatter<W>) -> fmt::Result {
        match self {
            Verdict::Struck => f.write_str("struck"),
            Verdict::MatchesLess(n) => write!(f, "lost: matches {n} less"),
            Verdict::LeavesMore(n) => write!(f, "lost: matches as many and leaves {n} more"),
            Verdict::LostByThird(rule) => write!(f, "lost: equal on both, and {rule}"),
        }
    }
}

// A candidate price with its demand and supply, what it matches and leaves, and why it won or lost.
#[derive(Clone, Copy)]
pub struct Candidate {
    pub row: PriceRow,
    pub matched: u64,
    pub surplus: u64,
    pub verdict: Verdict,
}

fn verdict_on(struck: &Decision, row: &PriceRow) -> Verdict
    ensures { result ≡ verdict_of struck.now row.now }
{
    if row.price == struck.row.price {
        return Verdict::Struck;
    }
    let most = struck.row.matched();
    let matched = row.matched();
    if matched < most {
        return Verdict::MatchesLess(most - matched);
    }
    let least = struck.row.surplus();
    let surplus = row.surplus();
    if least < surplus {
        return Verdict::LeavesMore(surplus - least);
    }
    Verdict::LostByThird(struck.third)
}

fn judge(struck: &Decision, row: &PriceRow) -> Candidate
    ensures { result ≡ candidate_of struck.now row.now }
{
    Candidate {
        row: *row,
        matched: row.matched(),
        surplus: row.surplus(),
        verdict: verdict_on(struck, row),
    }
}

fn judge_all(
    heap: Global,
    struck: &Decision,
    rows: &[PriceRow],
) -> Result<Vec<Candidate>, AllocError>
    ensures { IfOk result (λ v. v.items ≡ map (candidate_of struck.now) rows.now) }
{
    rows.iter().map(|row| judge(struck, row)).collect(heap)
}

// Every candidate in rising price, with why it won or lost; none where there is no price.
pub fn explain(
    heap: Global,
    orders: &[Order],
    close: Option<u32>,
) -> Result<Vec<Candidate>, AuctionError>
    ensures value { Explained close orders.now result }
    ensures truth { IfOk result (λ told. ExplainsPrice close orders.now (auction_price thousandths close orders.now) told.items) }
{
    let Some(struck) = decide(orders, close)? else {
        return Ok(Vec::new(heap));
    };
    let rows = candidate_rows(heap, orders)?;
    Ok(judge_all(heap, &struck, rows.as_slice())?)
}
