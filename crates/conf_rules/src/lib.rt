//! The directives of a configuration, each with the rule for its place, its form and its words.
#![tactic(auto)]

mod directives;
mod effects;
mod values;
mod words;

pub use directives::{
    Directive, Form, Place, Scope, directive_of, form_of, may_repeat, may_stand, same,
};
pub use effects::{Effect, LocationKind, effect_of};
pub use values::{number_of, size_of, time_of};
pub use words::word;
