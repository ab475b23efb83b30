// Books at their edges, by example.
#![tactic(auto)]

#[cfg(test)]
mod books;
