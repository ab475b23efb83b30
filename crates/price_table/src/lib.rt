// The text of a report: a row for each candidate price, and below them the price that is struck.
#![tactic(auto)]

ghost use Rattle.std.specs.Prelude.{◌≡◌, IfOk, Some, string_bytes};
ghost use Rattle.price_table.specs.TableText.{column_text, row_text, end_text, table_text};

use reasons::{Candidate, Verdict};
use std::alloc::{AllocError, Global};
use std::fmt;

// A number at the right of its column.
#[derive(Clone, Copy)]
struct Column(u64);

impl fmt::Display for Column {
    ghost output = { λ column. Some (column_text column.0) };

    fn fmt<W: fmt::Write>(&self, f: &mut fmt::Formatter<W>) -> fmt::Result {
        let n = self.0;
        write!(f, " {n:>11}")
    }
}

// The line of one candidate price.
#[derive(Clone, Copy)]
struct Row<'a>(&'a Candidate);

impl fmt::Display for Row<'_> {
    ghost output = { λ row. Some (row_text row.0.now) };

    fn fmt<W: fmt::Write>(&self, f: &mut fmt::Formatter<W>) -> fmt::Result {
        let price = Column(u64::from(self.0.row.price));
        let demand = Column(self.0.row.demand);
        let supply = Column(self.0.row.supply);
        let matched = Column(self.0.matched);
        let surplus = Column(self.0.surplus);
        let verdict = self.0.verdict;
        writeln!(f, "{price}{demand}{supply}{matched}{surplus}  {verdict}")
    }
}

// What stands below the table of a candidate price: the price and its shares, if it is struck.
#[derive(Clone, Copy)]
struct End<'a>(&'a Candidate);

impl fmt::Display for End<'_> {
    ghost output = { λ end. Some (end_text end.0.now) };

    fn fmt<W: fmt::Write>(&self, f: &mut fmt::Formatter<W>) -> fmt::Result {
        let price = self.0.row.price;
        let matched = self.0.matched;
        match self.0.verdict {
            Verdict::Struck => writeln!(f, "\nauction price {price}, matched {matched}"),
            Verdict::MatchesLess(_) | Verdict::LeavesMore(_) | Verdict::LostByThird(_) => Ok(()),
        }
    }
}

// The whole report.
pub fn table(heap: Global, candidates: &[Candidate]) -> Result<String, AllocError>
    ensures { IfOk result (λ s. string_bytes s ≡ table_text candidates.now) }
{
    if candidates.is_empty() {
        return String::from_str(heap, "no price: no limit buy reaches a limit sell\n");
    }
    let mut text = String::from_str(
        heap,
        "       price      demand      supply     matched     surplus  verdict\n",
    )?;
    'rows: for candidate in candidates {
        write!(text, "{}", Row(candidate))?;
    }
    'ends: for candidate in candidates {
        write!(text, "{}", End(candidate))?;
    }
    Ok(text)
}
