//! The nodes of expressions, each with its height.
ghost use Rattle.std.specs.Prelude.{◌≡◌, max, MatchResult};
ghost use Rattle.lua_ast.specs.declared.expressions.ExprKind as kind;
ghost use Rattle.lua_grammar.specs.Resolution.{binary_kind};
ghost use Rattle.lua_parser_base.specs.Nodes.{leaf, IsUnary, IsBinary, IsParen, IsIndexed, IsMember, IsCalled, IsMethodCalled, IsTable, IsAlone, IsNone};
ghost use Rattle.lua_parser_base.specs.Nodes.{AddsValue, AddsItem, AreNone};
ghost use Rattle.lua_parser_base.specs.Next.{IsMemory};

use crate::ParseFault;
use crate::cursor::Named;
use lua_ast::{Expr, ExprKind, TableItem, UnOp};
use lua_grammar::{Operator, level};
use resty_base::Bytes;
use std::alloc::Global;
use std::rc::Rc;

/// An expression, its height, and its level of precedence.
#[derive(Drop)]
pub struct Built {
    pub expr: Expr,
    pub height: u32,
    pub level: u8,
}

/// What a prefix is.
#[derive(Clone, Copy, PartialEq, Eq)]
pub enum Form {
    Variable,
    Call,
    Paren,
}

/// A prefix of an index or a call, its height, and what it is.
#[derive(Drop)]
pub struct Prefix {
    pub expr: Expr,
    pub height: u32,
    pub form: Form,
}

/// Expressions, and the height of the highest.
#[derive(Drop)]
pub struct Values {
    pub exprs: Vec<Expr>,
    pub height: u32,
}

/// An item of a table constructor, and the height of its highest expression.
#[derive(Drop)]
pub struct Item {
    pub item: TableItem,
    pub height: u32,
}

/// Items of a table constructor, and the height of the highest of their expressions.
#[derive(Drop)]
pub struct Items {
    pub items: Vec<TableItem>,
    pub height: u32,
}

/// An expression of no other.
pub fn leaf(line: u32, kind: ExprKind) -> Built
    ensures { result ≡ leaf line kind }
{
    Built {
        expr: Expr { line, kind },
        height: 1,
        level: 9,
    }
}

impl Built {
    /// The expression alone.
    pub fn into_expr(self) -> Expr
        ensures { result ≡ self.expr }
    {
        let Built { expr, .. } = self;
        expr
    }
}

impl Named {
    /// The name as a text.
    pub fn into_text(self) -> Built
        ensures { result ≡ leaf self.line (kind.Text self.name) }
    {
        let Named { name, line } = self;
        leaf(line, ExprKind::Text(name))
    }
}

impl Values {
    /// No expression.
    pub fn none(alloc: Global) -> Values
        ensures { IsNone result }
    {
        Values {
            exprs: Vec::new(alloc),
            height: 0,
        }
    }

    /// One expression.
    pub fn one(alloc: Global, built: Built) -> Result<Values, ParseFault>
        ensures { MatchResult result (IsAlone built) IsMemory }
    {
        let Built { expr, height, .. } = built;
        Ok(Values {
            exprs: vec![in alloc; expr]?,
            height,
        })
    }

    /// A text.
    pub fn text(alloc: Global, text: Named) -> Result<Values, ParseFault>
        ensures { MatchResult result (IsAlone (leaf text.line (kind.Text text.name))) IsMemory }
    {
        Values::one(alloc, text.into_text())
    }

    /// The expressions alone.
    pub fn into_exprs(self) -> Vec<Expr>
        ensures { result ≡ self.exprs }
    {
        let Values { exprs, .. } = self;
        exprs
    }

    /// Puts an expression at the end.
    pub fn push(&mut self, built: Built) -> Result<(), ParseFault>
        ensures { MatchResult result (λ _. AddsValue self.old built self.new) IsMemory }
    {
        let Built { expr, height, .. } = built;
        self.exprs.push(expr)?;
        self.height = self.height.max(height);
        Ok(())
    }
}

impl Item {
    /// An item without a key.
    pub fn value(value: Built) -> Item
        ensures item { result.item ≡ TableItem.Item value.expr }
        ensures height { result.height ≡ value.height }
    {
        let Built { expr, height, .. } = value;
        Item {
            item: TableItem::Item(expr),
            height,
        }
    }

    /// An item with its key.
    pub fn pair(key: Built, value: Built) -> Item
        ensures item { result.item ≡ TableItem.Pair key.expr value.expr }
        ensures height { result.height ≡ max key.height value.height }
    {
        let height = key.height.max(value.height);
        let Built { expr: key, .. } = key;
        let Built { expr: value, .. } = value;
        Item {
            item: TableItem::Pair(key, value),
            height,
        }
    }
}

impl Items {
    /// No item.
    pub fn none(alloc: Global) -> Items
        ensures { AreNone result }
    {
        Items {
            items: Vec::new(alloc),
            height: 0,
        }
    }

    /// Puts an item at the end.
    pub fn push(&mut self, item: Item) -> Result<(), ParseFault>
        ensures { MatchResult result (λ _. AddsItem self.old item self.new) IsMemory }
    {
        let Item { item, height } = item;
        self.items.push(item)?;
        self.height = self.height.max(height);
        Ok(())
    }

    /// The table constructor that begins on that line.
    pub fn into_table(self, alloc: Global, line: u32) -> Result<Built, ParseFault>
        ensures { MatchResult result (IsTable self line) IsMemory }
    {
        let Items { items, height } = self;
        Ok(Built {
            expr: Expr {
                line,
                kind: ExprKind::Table(Rc::new(alloc, items)?),
            },
            height: height.saturating_add(1),
            level: 9,
        })
    }
}

/// `(inner)`.
pub fn paren(alloc: Global, inner: Built, line: u32) -> Result<Prefix, ParseFault>
    ensures { MatchResult result (IsParen inner line) IsMemory }
{
    let Built { expr, height, .. } = inner;
    Ok(Prefix {
        expr: Expr {
            line,
            kind: ExprKind::Paren(Rc::new(alloc, expr)?),
        },
        height: height.saturating_add(1),
        form: Form::Paren,
    })
}

/// `object[key]`, where the sign is on that line.
pub fn indexed(alloc: Global, object: Prefix, line: u32, key: Built) -> Result<Prefix, ParseFault>
    ensures { MatchResult result (IsIndexed object line key) IsMemory }
{
    let height = object.height.max(key.height).saturating_add(1);
    let Prefix { expr: object, .. } = object;
    let Built { expr: key, .. } = key;
    let shared = both(alloc, object, key)?;
    Ok(Prefix {
        expr: Expr {
            line,
            kind: ExprKind::Index(shared.0, shared.1),
        },
        height,
        form: Form::Variable,
    })
}

/// `callee(values)`, where the values begin on that line.
pub fn called(
    alloc: Global,
    callee: Prefix,
    line: u32,
    values: Values,
) -> Result<Prefix, ParseFault>
    ensures { MatchResult result (IsCalled callee line values) IsMemory }
{
    let height = callee.height.max(values.height).saturating_add(1);
    let Prefix { expr, .. } = callee;
    let Values { exprs, .. } = values;
    let callee = Rc::new(alloc, expr)?;
    let values = Rc::new(alloc, exprs)?;
    Ok(Prefix {
        expr: Expr {
            line,
            kind: ExprKind::Call(callee, values),
        },
        height,
        form: Form::Call,
    })
}

/// `object:name(values)`, where the values begin on that line.
pub fn method_called(
    alloc: Global,
    object: Prefix,
    name: Bytes,
    line: u32,
    values: Values,
) -> Result<Prefix, ParseFault>
    ensures { MatchResult result (IsMethodCalled object name line values) IsMemory }
{
    let height = object.height.max(values.height).saturating_add(1);
    let Prefix { expr, .. } = object;
    let Values { exprs, .. } = values;
    let object = Rc::new(alloc, expr)?;
    let values = Rc::new(alloc, exprs)?;
    Ok(Prefix {
        expr: Expr {
            line,
            kind: ExprKind::Method(object, name, values),
        },
        height,
        form: Form::Call,
    })
}

/// An operator with its operand.
pub fn unary(alloc: Global, op: UnOp, line: u32, operand: Built) -> Result<Built, ParseFault>
    ensures { MatchResult result (IsUnary op line operand) IsMemory }
{
    let Built { expr, height, .. } = operand;
    Ok(Built {
        expr: Expr {
            line,
            kind: ExprKind::Unary(op, Rc::new(alloc, expr)?),
        },
        height: height.saturating_add(1),
        level: 7,
    })
}

/// An operator between its operands.
pub fn binary(
    alloc: Global,
    left: Built,
    op: Operator,
    line: u32,
    right: Built,
) -> Result<Built, ParseFault>
    ensures { MatchResult result (IsBinary left op line right) IsMemory }
{
    let height = left.height.max(right.height).saturating_add(1);
    let Built { expr: left, .. } = left;
    let Built { expr: right, .. } = right;
    let shared = both(alloc, left, right)?;
    Ok(Built {
        expr: Expr {
            line,
            kind: binary_kind(op, shared.0, shared.1),
        },
        height,
        level: level(op),
    })
}

/// An expression, shared.
pub(crate) fn share(alloc: Global, expr: Expr) -> Result<Rc<Expr>, ParseFault>
    ensures { MatchResult result (λ shared. shared.value ≡ expr) IsMemory }
{
    Ok(Rc::new(alloc, expr)?)
}

/// Two expressions, each shared.
pub(crate) fn both(
    alloc: Global,
    first: Expr,
    second: Expr,
) -> Result<(Rc<Expr>, Rc<Expr>), ParseFault>
    ensures { MatchResult result (λ shared. (shared.0.value ≡ first) × (shared.1.value ≡ second)) IsMemory }
{
    match (share(alloc, first), share(alloc, second)) {
        (Ok(first), Ok(second)) => Ok((first, second)),
        _ => Err(ParseFault::Memory),
    }
}

/// What an operator between operands is.
fn binary_kind(op: Operator, left: Rc<Expr>, right: Rc<Expr>) -> ExprKind
    ensures { result ≡ binary_kind op left right }
{
    match op {
        Operator::Or => ExprKind::Or(left, right),
        Operator::And => ExprKind::And(left, right),
        Operator::Plain(plain) => ExprKind::Binary(plain, left, right),
    }
}

/// `object.name`, where the point is on the line `dot`.
pub(crate) fn member(
    alloc: Global,
    object: Rc<Expr>,
    dot: u32,
    named: Named,
) -> Result<Expr, ParseFault>
    ensures { MatchResult result (IsMember object.value dot named.line named.name) IsMemory }
{
    let key = named.into_text().into_expr();
    Ok(Expr {
        line: dot,
        kind: ExprKind::Index(object, Rc::new(alloc, key)?),
    })
}
