//! Trees of expressions.

use crate::operators::{Operator, UnaryOperator};
use crate::types::{TypeTree, TypeWord};
use sl_token::Token;
use sqlite_items::{Boxed, Items};

/// An expression by its form.
#[derive(Debug, Drop)]
pub enum ExprTree {
    /// A number.
    Number(Token),
    /// `true` or `false`.
    BooleanLiteral(bool, Token),
    /// `this`.
    Itself(Token),
    /// A name with its type arguments, if there are any.
    Name(Token, Items<TypeTree>),
    /// `int(..)`, `uint(..)` or `bool(..)`, by the word.
    FunctionalCast(TypeWord, Token, Boxed<ExprTree>),
    /// `This`.
    OwnType(Token),
    /// An expression in brackets, with the opening one.
    Group(Token, Boxed<ExprTree>),
    /// A call: what is called, the opening bracket, the arguments.
    Call(Boxed<ExprTree>, Token, Items<ExprTree>),
    /// A place by its number: the base, the opening bracket, the index.
    Index(Boxed<ExprTree>, Token, Boxed<ExprTree>),
    /// A member behind `.` or `::`, by its name.
    Member(Boxed<ExprTree>, Token),
    /// An operator with its operand.
    Unary(UnaryOperator, Token, Boxed<ExprTree>),
    /// `(int) ..`, `(uint) ..` or `(bool) ..`: the opening bracket, the word, the operand.
    Cast(Token, TypeWord, Token, Boxed<ExprTree>),
    /// An operator, its first token, its operands.
    Binary(Operator, Token, Boxed<ExprTree>, Boxed<ExprTree>),
    /// `.. ? .. : ..` with the first mark.
    Conditional(Boxed<ExprTree>, Token, Boxed<ExprTree>, Boxed<ExprTree>),
}
