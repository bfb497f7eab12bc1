//! What a run does where reading or writing fails, and when it flushes.
#![tactic(auto)]

#[cfg(test)]
mod numbered;
#[cfg(test)]
mod tests;
