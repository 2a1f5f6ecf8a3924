//! Tests of what the engine holds: `live` the live world; `holding` run queue, deadlines, seats and sockets; `dictionaries` dictionaries, with a table of the
//! plain rules in `laws`.
#![tactic(auto)]

#[cfg(test)]
mod dictionaries;
#[cfg(test)]
mod holding;
mod laws;
#[cfg(test)]
mod live;
#[cfg(test)]
mod words;

pub use laws::dictionary_table;
