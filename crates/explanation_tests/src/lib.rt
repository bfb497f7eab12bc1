//! What is told of a malformed line, and a watch over a reader and a writer.
#![tactic(auto)]

#[cfg(test)]
mod tests;
