// Ladders, texts that are read or refused, and reports and messages that are written, by example.
#![tactic(auto)]

#[cfg(test)]
mod examples;
#[cfg(test)]
mod ladders;
#[cfg(test)]
mod written;
