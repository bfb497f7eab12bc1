//! Error types are errors as `std` has them, so that `?` takes them into an `anyhow::Error`: those of texts, lines,
//! books, nodes, stores and programs, whose texts are promised, and two of those that `thiserror` derives.
#![tactic(auto)]

#[cfg(test)]
mod tests;
