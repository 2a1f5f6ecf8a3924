//! Tests of the crates of the configuration: rows of texts, and what is seen of each.
mod directives;
mod faults;
mod items;
mod places;
mod rows;
mod sites;
mod words;
