//! Runs of `pict` that end well wherever memory is refused: `tools/refuse-memory` refuses each growth in turn.
#![tactic(auto)]

#[cfg(test)]
mod refused;
