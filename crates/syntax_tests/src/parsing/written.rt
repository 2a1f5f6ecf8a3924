//! Programs in a short written form, for tests.
use crate::rows::{put, put_number};
use lua_ast::{Arm, Capture, Expr, ExprKind, Function, Program, Stmt, StmtKind, TableItem};

/// Writes the bodies of the functions of a program, with ` | ` between them. With lines, a statement's stands before it, as
/// `1: break`, and an expression's after it, as `nil@1`.
pub(super) fn see_bodies(all: &mut String, program: &Program, lines: bool) {
    for function in &program.functions {
        if !all.is_empty() {
            put(all, " | ");
        }
        block(all, &function.body, lines);
    }
}

/// Writes the number of files and the heads of the functions of a program.
pub(super) fn see_heads(all: &mut String, program: &Program) {
    let files = program.files.as_slice().len();
    put_number(all, i64::try_from(files).unwrap_or(-1));
    put(all, " file");
    for function in &program.functions {
        put(all, "; ");
        head(all, function);
    }
}

/// Writes a function's number of parameters, `...` or nothing, its slots, its line, and its captures.
fn head(all: &mut String, function: &Function) {
    let rest = if function.vararg { "..." } else { "" };
    let (params, slots, line) = (function.params, function.slots, function.line);
    let _ = write!(all, "{params}{rest}/{slots}@{line}");
    for capture in &function.captures {
        match capture {
            Capture::Slot(n) => put_named(all, " s", u32::from(*n)),
            Capture::Outer(n) => put_named(all, " c", u32::from(*n)),
        }
    }
}

/// Writes a letter and a number.
fn put_named(all: &mut String, letter: &str, n: u32) {
    put(all, letter);
    put_number(all, i64::from(n));
}

fn slots(all: &mut String, slots: &[u8]) {
    for slot in slots {
        put_named(all, "s", u32::from(*slot));
        put(all, " ");
    }
}

#[cycle(write_stmt)]
fn block(all: &mut String, body: &[Stmt], lines: bool) {
    for statement in body {
        stmt(all, statement, lines);
        put(all, ";");
    }
}

#[cycle(write_stmt)]
fn arms(all: &mut String, arms: &[Arm], lines: bool) {
    for arm in arms {
        put(all, "if ");
        expr(all, &arm.test, lines);
        put(all, " then ");
        block(all, &arm.body, lines);
        put(all, " ");
    }
}

#[cycle(write_stmt)]
fn stmt(all: &mut String, statement: &Stmt, lines: bool) {
    if lines {
        put_number(all, i64::from(statement.line));
        put(all, ": ");
    }
    match &statement.kind {
        StmtKind::Do(body)
        | StmtKind::While(_, body)
        | StmtKind::NumericFor { body, .. }
        | StmtKind::GenericFor { body, .. } => {
            loop_head(all, &statement.kind, lines);
            block(all, body, lines);
            put(all, " end");
        }
        StmtKind::Repeat(body, test) => {
            put(all, "repeat ");
            block(all, body, lines);
            put(all, " until ");
            expr(all, test, lines);
        }
        StmtKind::If(tests, otherwise) => {
            arms(all, tests, lines);
            put(all, "else ");
            block(all, otherwise, lines);
            put(all, " end");
        }
        kind => plain_stmt(all, kind, lines),
    }
}

/// Writes what stands before the block of a statement that begins with `do`, `while` or `for`.
fn loop_head(all: &mut String, kind: &StmtKind, lines: bool) {
    match kind {
        StmtKind::While(test, _) => {
            put(all, "while ");
            expr(all, test, lines);
            put(all, " ");
        }
        StmtKind::NumericFor {
            slot,
            from,
            to,
            step,
            ..
        } => {
            put_named(all, "for s", u32::from(*slot));
            put(all, " = ");
            expr(all, from, lines);
            put(all, ", ");
            expr(all, to, lines);
            put(all, ", ");
            if let Some(step) = step {
                expr(all, step, lines);
            }
            put(all, " ");
        }
        StmtKind::GenericFor {
            slots: targets,
            values,
            ..
        } => {
            put(all, "for ");
            slots(all, targets);
            put(all, "in ");
            exprs(all, values, lines);
            put(all, " ");
        }
        _ => {}
    }
    put(all, "do ");
}

/// Writes a statement that has no block.
fn plain_stmt(all: &mut String, kind: &StmtKind, lines: bool) {
    match kind {
        StmtKind::Local(targets, values) => {
            put(all, "local ");
            slots(all, targets);
            put(all, "= ");
            exprs(all, values, lines);
        }
        StmtKind::LocalFunction(slot, n) => {
            put_named(all, "local s", u32::from(*slot));
            put_named(all, " f", *n);
        }
        StmtKind::Assign(targets, values) => {
            exprs(all, targets, lines);
            put(all, " = ");
            exprs(all, values, lines);
        }
        StmtKind::Call(call) => expr(all, call, lines),
        StmtKind::Return(values) => {
            put(all, "return ");
            exprs(all, values, lines);
        }
        _ => put(all, "break"),
    }
}

#[cycle(write_expr)]
fn exprs(all: &mut String, exprs: &[Expr], lines: bool) {
    let mut is_first = true;
    for one in exprs {
        if !is_first {
            put(all, ", ");
        }
        is_first = false;
        expr(all, one, lines);
    }
}

#[cycle(write_expr)]
fn items(all: &mut String, items: &[TableItem], lines: bool) {
    for item in items {
        match item {
            TableItem::Item(value) => expr(all, value, lines),
            TableItem::Pair(key, value) => {
                expr(all, key, lines);
                put(all, "=");
                expr(all, value, lines);
            }
        }
        put(all, " ");
    }
}

/// Writes an expression in Lua's own signs, each operation in parentheses of its own, and each parenthesis of the text as `<>`.
#[cycle(write_expr)]
fn expr(all: &mut String, expression: &Expr, lines: bool) {
    kind(all, &expression.kind, lines);
    if lines {
        put_named(all, "@", expression.line);
    }
}

#[cycle(write_expr)]
fn kind(all: &mut String, kind: &ExprKind, lines: bool) {
    match kind {
        ExprKind::Index(object, key) => {
            expr(all, object, lines);
            put(all, "[");
            expr(all, key, lines);
            put(all, "]");
        }
        ExprKind::Call(object, values) | ExprKind::Method(object, _, values) => {
            expr(all, object, lines);
            method(all, kind);
            put(all, "(");
            exprs(all, values, lines);
            put(all, ")");
        }
        ExprKind::Unary(_, operand) => {
            put(all, "(");
            operator(all, kind);
            expr(all, operand, lines);
            put(all, ")");
        }
        ExprKind::Binary(_, left, right) | ExprKind::And(left, right) | ExprKind::Or(left, right) =>
            {
                put(all, "(");
                expr(all, left, lines);
                put(all, " ");
                operator(all, kind);
                expr(all, right, lines);
                put(all, ")");
            }
        ExprKind::Paren(inner) => {
            put(all, "<");
            expr(all, inner, lines);
            put(all, ">");
        }
        ExprKind::Table(all_items) => {
            put(all, "{");
            items(all, all_items, lines);
            put(all, "}");
        }
        _ => leaf(all, kind),
    }
}

/// Writes the name of a method that is called.
fn method(all: &mut String, kind: &ExprKind) {
    if let ExprKind::Method(_, text, _) = kind {
        put(all, ":");
        name(all, text.as_slice());
    }
}

/// Writes the name of an operator, and a blank.
fn operator(all: &mut String, kind: &ExprKind) {
    let _ = match kind {
        ExprKind::Unary(op, _) => write!(all, "{op:?} "),
        ExprKind::Binary(op, _, _) => write!(all, "{op:?} "),
        ExprKind::And(_, _) => all.push_str("And "),
        _ => all.push_str("Or "),
    };
}

/// Writes an expression that has no other within it.
fn leaf(all: &mut String, kind: &ExprKind) {
    match kind {
        ExprKind::True => put(all, "true"),
        ExprKind::False => put(all, "false"),
        ExprKind::Number(number) => put_number(all, number.get()),
        ExprKind::Text(text) => name(all, text.as_slice()),
        ExprKind::Vararg => put(all, "..."),
        ExprKind::Function(n) => put_named(all, "f", *n),
        ExprKind::Slot(n) => put_named(all, "s", u32::from(*n)),
        ExprKind::Captured(n) => put_named(all, "c", u32::from(*n)),
        ExprKind::Global(text) => {
            put(all, "g");
            name(all, text.as_slice());
        }
        _ => put(all, "nil"),
    }
}

/// Writes a name or a text.
fn name(all: &mut String, bytes: &[u8]) {
    put(all, "'");
    for byte in bytes {
        let _ = all.push(char::from(*byte));
    }
    put(all, "'");
}
