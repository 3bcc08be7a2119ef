//! Trees of statements.

use crate::expressions::ExprTree;
use crate::operators::{Assignment, Step};
use crate::types::TypeTree;
use sl_base::List;
use sl_token::Token;
use sqlite_items::{Boxed, Items};

/// An initialiser.
#[derive(Debug, Drop)]
pub enum InitTree {
    /// A value.
    Value(ExprTree),
    /// The values of fields behind an opening brace.
    Fields(Token, Items<ExprTree>),
}

/// A name with its initialiser, if there is one.
#[derive(Debug, Drop)]
pub struct Declarator {
    pub name: Token,
    pub init: Option<InitTree>,
}

/// A word of locals whose types need not be written.
#[derive(Clone, Copy, Debug, PartialEq, Eq)]
pub enum Binding {
    Let,
    Var,
}

/// A local.
#[derive(Debug, Drop)]
pub enum LocalTree {
    /// Its type behind the word `const`, if that is written, and its names.
    Typed(Option<Token>, TypeTree, List<Declarator>),
    /// Its word, its name, its type if that is written, and its value.
    Inferred(Binding, Token, Token, Option<TypeTree>, ExprTree),
}

/// A statement that changes a place, or a call.
#[derive(Debug, Drop)]
pub enum SimpleTree {
    /// The mark's first token, the place, the value.
    Assign(Assignment, Token, ExprTree, ExprTree),
    /// A place with `++` or `--` behind it.
    PostfixStep(Step, ExprTree, Token),
    /// A place with `++` or `--` before it.
    PrefixStep(Step, Token, ExprTree),
    /// A call alone.
    CallStatement(ExprTree),
}

/// What a `for` begins with.
#[derive(Debug, Drop)]
pub enum StartTree {
    NoStart,
    LocalStart(LocalTree),
    SimpleStart(SimpleTree),
}

/// A statement by its form, with its first token where its parts do not have it.
#[derive(Debug, Drop)]
pub enum StmtTree {
    /// Statements behind an opening brace.
    Block(Token, Items<StmtTree>),
    /// A local.
    Local(LocalTree),
    /// A simple statement.
    Simple(SimpleTree),
    /// A semicolon alone.
    Empty(Token),
    /// `return`, with its value if there is one.
    Return(Token, Option<ExprTree>),
    /// `break`.
    Break(Token),
    /// `continue`.
    Continue(Token),
    /// `if` without `else`.
    If(Token, ExprTree, Boxed<StmtTree>),
    /// `if` with `else`.
    IfElse(Token, ExprTree, Boxed<StmtTree>, Boxed<StmtTree>),
    /// `while`.
    While(Token, ExprTree, Boxed<StmtTree>),
    /// `for` with its start, its condition and its step, each if there is one.
    For(Token, StartTree, Option<ExprTree>, Option<SimpleTree>, Boxed<StmtTree>),
}
