//! Tests of the texts of pages. Expected texts are written by hand from HTML.
#![tactic(auto)]

#[cfg(test)]
mod escaping;
#[cfg(test)]
mod suite_pages;
