// Eight small books and the prices that they open at, proved as one table.
#![tactic(auto)]

ghost use Rattle.worked_books.specs.Table.{AllOpen, worked_books};
ghost use Rattle.std.specs.Prelude.{◌≡◌, length};

// How many books the table has; each opens as it says.
pub fn worked_books() -> usize
    ensures count { result ≡ length worked_books }
    ensures open { AllOpen }
{
    8
}
