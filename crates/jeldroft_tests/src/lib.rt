//! Tests of whole runs of `jeldroft` over files and streams in memory.
#![tactic(auto)]

#[cfg(test)]
mod case;
#[cfg(test)]
mod check;
#[cfg(test)]
mod files;
#[cfg(test)]
mod generate;
#[cfg(test)]
mod import;
#[cfg(test)]
mod lint;
#[cfg(test)]
mod measure;
#[cfg(test)]
mod page;
#[cfg(test)]
mod pipe;
#[cfg(test)]
mod sequence;
#[cfg(test)]
mod show;
#[cfg(test)]
mod shrink;
#[cfg(test)]
mod stopped;
#[cfg(test)]
mod suspect;
#[cfg(test)]
mod told;
