//! Tests of the forms of tables: their texts, and that the kit's readers and this project's read them back.
#![tactic(auto)]

#[cfg(test)]
mod comma_rows_read;
#[cfg(test)]
mod read_back;
#[cfg(test)]
mod tables;
#[cfg(test)]
mod texts;
