//! The table of binary operators: their tokens, and how tightly they bind (Lua 5.1 Reference Manual, 2.5.6).
ghost use Rattle.std.specs.Prelude.{◌≡◌, IfSome};
ghost use Rattle.lua_grammar.specs.Operators.{kind_of, level, left_level, right_level};
ghost use Rattle.lua_grammar.specs.declared.operators.Operator.{Operator};
ghost use Rattle.lua_grammar.specs.declared.operators.Operator.TheVariants.{Plain};
ghost use Rattle.lua_ast.specs.declared.expressions.BinOp.{BinOp};
ghost use Rattle.lua_lexer.specs.declared.tokens.TokenKind.TheVariants.{Sign as SignKind};

use lua_ast::BinOp;
use lua_lexer::{Sign, TokenKind, Word};

/// A binary operator (Lua 5.1 Reference Manual, 2.5.6).
#[derive(Clone, Copy, Debug, PartialEq, Eq)]
pub enum Operator {
    Or,
    And,
    /// One that evaluates both of its operands.
    Plain(BinOp),
}

/// The operator of a sign.
fn operator_of_sign(sign: Sign) -> Option<BinOp>
    ensures some { IfSome result (λ op. SignKind sign ≡ kind_of (Plain op)) }
    ensures none { (op : BinOp) → SignKind sign ≡ kind_of (Plain op) → result ≡ Some op }
{
    match sign {
        Sign::Plus => Some(BinOp::Add),
        Sign::Minus => Some(BinOp::Sub),
        Sign::Star => Some(BinOp::Mul),
        Sign::Slash => Some(BinOp::Div),
        Sign::Percent => Some(BinOp::Mod),
        Sign::Caret => Some(BinOp::Pow),
        Sign::Concat => Some(BinOp::Concat),
        Sign::Equal => Some(BinOp::Eq),
        Sign::NotEqual => Some(BinOp::Ne),
        Sign::Less => Some(BinOp::Lt),
        Sign::LessEqual => Some(BinOp::Le),
        Sign::Greater => Some(BinOp::Gt),
        Sign::GreaterEqual => Some(BinOp::Ge),
        _ => None,
    }
}

/// The operator that a token is, if it is one.
pub fn operator_of(kind: &TokenKind) -> Option<Operator>
    ensures some { IfSome result (λ op. kind.now ≡ kind_of op) }
    ensures none { (op : Operator) → kind.now ≡ kind_of op → result ≡ Some op }
{
    match kind {
        TokenKind::Word(Word::Or) => Some(Operator::Or),
        TokenKind::Word(Word::And) => Some(Operator::And),
        TokenKind::Sign(sign) => Some(Operator::Plain(operator_of_sign(*sign)?)),
        _ => None,
    }
}

/// The level of an expression of which this is the outermost operator: 1 for `or`, up to 8 for `^`. Unary operators have
/// 7, and all else 9.
pub fn level(op: Operator) -> u8
    ensures { result ≡ level op }
{
    match op {
        Operator::Or => 1,
        Operator::And => 2,
        Operator::Plain(plain) => match plain {
            BinOp::Eq | BinOp::Ne | BinOp::Lt | BinOp::Le | BinOp::Gt | BinOp::Ge => 3,
            BinOp::Concat => 4,
            BinOp::Add | BinOp::Sub => 5,
            BinOp::Mul | BinOp::Div | BinOp::Mod => 6,
            BinOp::Pow => 8,
        },
    }
}

/// The lowest level of a left operand: that of the operator itself, and one more for `..` and `^`, which associate to the
/// right.
pub fn left_level(op: Operator) -> u8
    ensures { result ≡ left_level op }
{
    match op {
        Operator::Plain(BinOp::Concat | BinOp::Pow) => level(op) + 1,
        _ => level(op),
    }
}

/// The lowest level of a right operand: one more than that of the operator, that of the operator itself for `..`, and
/// that of a unary operator for `^`.
pub fn right_level(op: Operator) -> u8
    ensures { result ≡ right_level op }
{
    match op {
        Operator::Plain(BinOp::Concat) => level(op),
        Operator::Plain(BinOp::Pow) => 7,
        _ => level(op) + 1,
    }
}
