//! Lists a script, from anything that reads to anything that writes: replays it over a pager on five memories of its own, and prints the listing.
#![tactic(auto)]

mod error;
mod printing;
#[cfg(test)]
mod tests;

pub use error::ListError;
pub use printing::{BYTES, list};
