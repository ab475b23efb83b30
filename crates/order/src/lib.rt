// Orders, and the order in which those of a side are served.
#![tactic(auto)]

ghost use Rattle.std.specs.Prelude.{◌≡◌, Some};
ghost use Rattle.std.specs.Fmt.{padded, styled_decimal};
ghost use Rattle.order.specs.OrderText.{side_text, unknown_side_text, kind_written, kind_text};
ghost use Rattle.order.specs.Orders.{same_side, within_limit, accepts, better_limit, served_before, order_ahead, order_key, first_ranked, ServedFirst};
ghost use Rattle.std.proofs.Common.{rules};

use rank::{Rank, first};
use std::error::Error;
use std::fmt;

// The most orders that rest in a book, and so the most of an auction.
pub const MOST_ORDERS: usize = 512;

#[derive(Clone, Copy, PartialEq, Eq, Debug, Default)]
pub enum Side {
    #[default]
    Buy,
    Sell,
}

// How an order is priced: at-auction orders trade at whatever the auction strikes. No Option of a limit: the cases are the
// market's words.
#[derive(Clone, Copy, PartialEq, Eq, Debug, Default)]
pub enum Kind {
    #[default]
    AtAuction,
    Limit(u32),
}

// A resting order. `number` is its entry number, `shares` what is left of it. The default, of no shares, is for rows that
// no order has taken.
#[derive(Clone, Copy, PartialEq, Eq, Debug, Default)]
pub struct Order {
    pub number: u32,
    pub broker: u32,
    pub side: Side,
    pub kind: Kind,
    pub shares: u32,
}

impl Side {
    pub fn is(self, other: Side) -> bool
        ensures { result ≡ same_side self other }
    {
        self == other
    }

    // Whether an order of this side with this limit trades at the price.
    pub fn within(self, limit: u32, price: u32) -> bool
        ensures { result ≡ within_limit self limit price }
    {
        match self {
            Side::Buy => price <= limit,
            Side::Sell => limit <= price,
        }
    }

    // Whether p is the better of two limits for this side: no `Ord`, since the two sides turn the order round.
    pub fn prefers(self, p: u32, q: u32) -> bool
        ensures { result ≡ better_limit self p q }
    {
        match self {
            Side::Buy => q < p,
            Side::Sell => p < q,
        }
    }

    // Whether an order of kind a is served before one of kind b; `earlier` says that a came first.
    // No `Ord` of kinds, for the same reason.
    fn serves_first(self, a: Kind, b: Kind, earlier: bool) -> bool
        ensures { result ≡ served_before self a b earlier }
    {
        match (a, b) {
            (Kind::AtAuction, Kind::AtAuction) => earlier,
            (Kind::AtAuction, Kind::Limit(_)) => true,
            (Kind::Limit(_), Kind::AtAuction) => false,
            (Kind::Limit(p), Kind::Limit(q)) => self.prefers(p, q) || (p == q && earlier),
        }
    }
}

impl fmt::Display for Side {
    ghost output = { λ side. Some (side_text side) };

    ghost styled_output = { λ side spec. Some (padded spec (side_text side)) };

    fn fmt<W: fmt::Write>(&self, f: &mut fmt::Formatter<W>) -> fmt::Result {
        f.pad(match self {
            Side::Buy => "buy",
            Side::Sell => "sell",
        })
    }
}

// A word that is no side's.
#[derive(Clone, Copy, PartialEq, Eq, Debug)]
pub struct UnknownSide;

impl fmt::Display for UnknownSide {
    ghost output = { λ _. Some unknown_side_text };

    fn fmt<W: fmt::Write>(&self, f: &mut fmt::Formatter<W>) -> fmt::Result {
        f.write_str("the side is not buy or sell")
    }
}

impl Error for UnknownSide {}

impl TryFrom<&[u8]> for Side {
    type Error = UnknownSide;

    ghost use Rattle.order.specs.OrderText.{side_of};

    ghost try_from_gives = { λ word r. r ≡ side_of word.now };

    fn try_from(word: &[u8]) -> Result<Side, UnknownSide> {
        match word {
            b"buy" => Ok(Side::Buy),
            b"sell" => Ok(Side::Sell),
            _ => Err(UnknownSide),
        }
    }
}

// A limit is shown by its price.
impl fmt::Display for Kind {
    ghost output = { λ kind. Some (kind_text kind) };

    ghost styled_output = { λ kind spec. Some (kind_written (padded spec) (styled_decimal spec) kind) };

    fn fmt<W: fmt::Write>(&self, f: &mut fmt::Formatter<W>) -> fmt::Result {
        match self {
            Kind::AtAuction => f.pad("at-auction"),
            Kind::Limit(price) => fmt::Display::fmt(price, f),
        }
    }
}

impl Order {
    // Whether the order trades at the price.
    pub fn accepts(&self, price: u32) -> bool
        ensures { result ≡ accepts self.now price }
    {
        match self.kind {
            Kind::AtAuction => true,
            Kind::Limit(limit) => self.side.within(limit, price),
        }
    }
}

// The rank of one side's orders, in a list that may hold both sides: the buy rank or the sell rank.
#[derive(Clone, Copy)]
pub struct SideRank {
    pub side: Side,
}

impl Rank<Order> for SideRank {
    ghost counts = { λ r o. same_side r.side o.side };

    ghost ahead = { λ r a b. order_ahead r.side a b };

    ghost key = { λ r o. order_key o };

    ghost lawful = { Prim.search rules };

    fn counted(&self, x: &Order) -> bool {
        self.side.is(x.side)
    }

    // no `Ord`: the side decides
    fn is_ahead(&self, a: &Order, b: &Order) -> bool {
        self.side.serves_first(a.kind, b.kind, a.number < b.number)
    }
}

// The order of this side that is served first, in a list that may hold both sides.
pub fn first_ranked(side: Side, orders: &[Order]) -> Option<Order>
    ensures value { result ≡ first_ranked side orders.now }
    ensures served { ServedFirst side orders.now result }
{
    first(&SideRank { side }, orders)
}
