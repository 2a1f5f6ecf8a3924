//! Laws of the grammar, each the contract of a function that does nothing.
ghost use Rattle.std.specs.Prelude.{◌≡◌, ℕ, true, false, List, [], ◌++◌};
ghost use Rattle.lua_ast.specs.SameProgram.{SameProgram};
ghost use Rattle.lua_ast.specs.WholeProgram.{IsWholeProgram};
ghost use Rattle.lua_ast.specs.declared.programs.Program.{Program};
ghost use Rattle.lua_lexer.specs.declared.signs.Sign.TheVariants.{Assign};
ghost use Rattle.lua_lexer.specs.declared.tokens.Token.{Token};
ghost use Rattle.lua_grammar.specs.Grammar.{IsChunk, IsProgramOf, ResolvesChunk};
ghost use Rattle.lua_grammar.specs.Laws.{BeginChunk, BeginWith, BeginsWithChunk, GoesOnToChunk, IsBefore, IsEmptyProgram, IsOneValid, IsProgramByHand, IsSeen};
ghost use Rattle.lua_grammar.specs.Laws.{IsTreeOf, IsValidNot, grouped_left, grouped_right, minus_of_power, not_before_equal, not_of_equal, one_call};
ghost use Rattle.lua_grammar.specs.Laws.{power_of_minus, tokens_by_hand, two_statements};
ghost use Rattle.lua_grammar.specs.Printing.{Lexeme, lexemes, print_block};
ghost use Rattle.lua_grammar.specs.Reading.{read, read_chunk, run};
ghost use Rattle.lua_grammar.specs.Scopes.{Frame};
ghost use Rattle.lua_grammar.specs.Tree.{Block, bare, closed};
ghost use Rattle.lua_grammar.specs.Validity.{IsValidBlock};
ghost use Rattle.lua_grammar.specs.Waiting.{IsWaiting, Reader, chunk, failed};
ghost use Rattle.lua_grammar.specs.Dead.{IsDead};
ghost use Rattle.lua_grammar.specs.declared.operators.Operator.{Operator};

/// Three operands with two operators between them group in one way.
pub fn operators_group_one_way()
    ensures { (first second : Operator) → IsOneValid (grouped_left first second) (grouped_right first second) }
{}

/// A power binds tighter than a unary operator before it, and a comparison doesn't.
pub fn unary_operators_group()
    ensures minus { IsValidNot minus_of_power power_of_minus }
    ensures not { IsValidNot not_before_equal not_of_equal }
{}

/// No program begins with `=`.
pub fn no_program_begins_with_assign()
    ensures { (tokens : List Token) (program : Program) → BeginWith Assign tokens → IsProgramOf tokens program → ⊥ }
{}

/// A program that was written by hand, with a local and a closure that captures it, is that of its tokens.
pub fn program_by_hand()
    ensures { (tokens : List Token) (program : Program) → lexemes tokens ≡ tokens_by_hand → IsProgramByHand program → IsProgramOf tokens program }
{}

/// The tokens of a block stand before the rest, whatever that is.
pub fn a_block_stands_before_the_rest()
    ensures { (block : Block) → IsBefore (print_block block) }
{}

/// The empty text is the chunk without statements, and no other.
pub fn the_empty_text_is_the_empty_chunk()
    ensures { (program : Program) → IsProgramOf [] program → IsEmptyProgram program }
{}

/// A local is seen from its declaration on, before all other variables of its name.
pub fn a_new_local_is_seen()
    ensures { (name : List ℕ) (f : Frame) (enclosing : List Frame) → IsSeen name f enclosing }
{}

/// Tokens have at most one tree: two valid chunks of the same kinds of tokens on the same lines are the same.
pub fn tokens_have_one_tree()
    ensures { (tokens : List Lexeme) (chunk other : Block) → IsTreeOf tokens chunk → IsTreeOf tokens other → chunk ≡ other }
{}

/// Each valid chunk is read from its tokens.
pub fn a_chunk_is_read_from_its_tokens()
    ensures { (block : Block) → IsValidBlock true false block → read (print_block block []) ≡ chunk block }
{}

/// What is read from tokens prints to them: a chunk is read from its tokens alone.
pub fn what_is_read_prints_to_its_tokens()
    ensures { (tokens : List Lexeme) (block : Block) → read tokens ≡ chunk block → print_block block [] ≡ tokens }
{}

/// A reader that failed at a token fails at all that stands after it.
pub fn a_failed_reader_stays_failed()
    ensures { (after : List Lexeme) → run failed after ≡ failed }
{}

/// No tokens lead from a dead state of a reader to a chunk that stands for a program.
pub fn a_dead_reader_reads_no_chunk()
    ensures { (r : Reader) (after : List Lexeme) (block : Block) → IsDead r → run r after ≡ chunk block → IsChunk block → ⊥ }
{}

/// A reader of a chunk that hasn't failed at some tokens can go on: further tokens lead it to a chunk.
pub fn a_reader_that_has_not_failed_can_go_on()
    ensures { (tokens : List Lexeme) → (run read_chunk tokens ≡ failed → ⊥) → GoesOnToChunk tokens }
{}

/// Tokens after which a reader of a chunk waits begin a chunk.
pub fn tokens_of_a_waiting_reader_begin_a_chunk()
    ensures { (tokens : List Lexeme) → IsWaiting (run read_chunk tokens) → BeginChunk tokens }
{}

/// In `a = f (g)()` the `(` after `f` is that of a call, and no other tree has these tokens. With `f` and the `(` on
/// two lines no tree has them, and with a `;` between they are two statements (Lua 5.1 Reference Manual, 2.5.8).
pub fn a_parenthesis_after_a_prefix_calls()
    ensures same { print_block (one_call 1) [] ≡ print_block (two_statements 1 bare) [] }
    ensures valid { IsValidBlock true false (one_call 1) }
    ensures only { (chunk : Block) → IsTreeOf (print_block (two_statements 1 bare) []) chunk → chunk ≡ one_call 1 }
    ensures lines { (chunk : Block) → IsTreeOf (print_block (two_statements 2 bare) []) chunk → ⊥ }
    ensures apart { IsValidBlock true false (two_statements 2 (closed 1)) }
{}

/// A chunk resolves to one program, up to where its parts stand in memory.
pub fn a_chunk_resolves_to_one_program()
    ensures { (line : ℕ) (chunk : Block) (p q : Program) → ResolvesChunk line chunk p → ResolvesChunk line chunk q → SameProgram p q }
{}

/// Each number in the program of tokens names something that is there.
pub fn a_program_is_whole()
    ensures { (tokens : List Token) (program : Program) → IsProgramOf tokens program → IsWholeProgram program }
{}

/// Tokens have at most one program, up to where its parts stand in memory.
pub fn tokens_have_one_program()
    ensures { (tokens : List Token) (p q : Program) → IsProgramOf tokens p → IsProgramOf tokens q → SameProgram p q }
{}

/// The first function of the program of tokens is its chunk, which captures nothing.
pub fn a_program_begins_with_its_chunk()
    ensures { (tokens : List Token) (program : Program) → IsProgramOf tokens program → BeginsWithChunk program }
{}
