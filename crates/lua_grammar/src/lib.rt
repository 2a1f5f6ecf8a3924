//! The grammar of Lua 5.1: which tokens are which program, as definitions and laws of them, and the table of operators.
#![tactic(auto)]

mod laws;
mod operators;

pub use laws::{
    a_block_stands_before_the_rest, a_chunk_is_read_from_its_tokens,
    a_chunk_resolves_to_one_program, a_dead_reader_reads_no_chunk, a_failed_reader_stays_failed,
    a_new_local_is_seen, a_parenthesis_after_a_prefix_calls, a_program_begins_with_its_chunk,
    a_program_is_whole, a_reader_that_has_not_failed_can_go_on, no_program_begins_with_assign,
    operators_group_one_way, program_by_hand, the_empty_text_is_the_empty_chunk,
    tokens_have_one_program, tokens_have_one_tree, tokens_of_a_waiting_reader_begin_a_chunk,
    unary_operators_group, what_is_read_prints_to_its_tokens,
};
pub use operators::{Operator, left_level, level, operator_of, right_level};
