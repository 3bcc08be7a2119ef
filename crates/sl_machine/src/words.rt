//! The signs of expressions, by their texts.

ghost use Rattle.std.specs.Prelude.{◌≡◌};
ghost use Rattle.std.specs.Option.{option_map};
ghost use Rattle.def_tree.specs.Operator.{operators, operator_text};
ghost use Rattle.sl_tree.specs.View.{operator_of};
ghost use Rattle.def_reading.specs.Machine.{behinds, behind_text, starts, start_text, written};
ghost use Rattle.sl_machine.specs.Words.{AreRows, behind_in, start_in};

use sl_base::{Row, find_row};
use sl_tree::{Operator, TypeWord, UnaryOperator};

/// A sign with which operands begin.
#[derive(Clone, Copy, Debug, PartialEq, Eq)]
pub enum Start {
    True,
    False,
    Itself,
    OwnType,
    Bracket,
    Scalar(TypeWord),
    Unary(UnaryOperator),
}

/// A sign behind operands that is no operator with two operands.
#[derive(Clone, Copy, Debug, PartialEq, Eq)]
pub enum Behind {
    Call,
    Index,
    Dot,
    Colons,
    Question,
    Colon,
    Comma,
    Closing,
    IndexClosing,
}

const STARTS: [Row<Start>; 9] = [
    ("true", Start::True),
    ("false", Start::False),
    ("this", Start::Itself),
    ("This", Start::OwnType),
    ("(", Start::Bracket),
    ("-", Start::Unary(UnaryOperator::Minus)),
    ("+", Start::Unary(UnaryOperator::Plus)),
    ("!", Start::Unary(UnaryOperator::Not)),
    ("~", Start::Unary(UnaryOperator::Complement)),
];

const BEHINDS: [Row<Behind>; 9] = [
    ("(", Behind::Call),
    ("[", Behind::Index),
    (".", Behind::Dot),
    ("::", Behind::Colons),
    ("?", Behind::Question),
    (":", Behind::Colon),
    (",", Behind::Comma),
    (")", Behind::Closing),
    ("]", Behind::IndexClosing),
];

const OPERATORS: [Row<Operator>; 18] = [
    ("||", Operator::Or),
    ("&&", Operator::And),
    ("|", Operator::BitOr),
    ("^", Operator::BitXor),
    ("&", Operator::BitAnd),
    ("==", Operator::Equal),
    ("!=", Operator::NotEqual),
    ("<", Operator::Less),
    ("<=", Operator::LessEqual),
    (">", Operator::Greater),
    (">=", Operator::GreaterEqual),
    ("<<", Operator::ShiftLeft),
    (">>", Operator::ShiftRight),
    ("+", Operator::Add),
    ("-", Operator::Subtract),
    ("*", Operator::Multiply),
    ("/", Operator::Divide),
    ("%", Operator::Remainder),
];

/// The sign before operands that a text is.
pub fn start_of(text: &[u8]) -> Option<Start>
    ensures { option_map start_in result ≡ written start_text starts text.now }
{
    if let Some(row) = find_row(&STARTS, text) {
        return Some(row.1);
    }
    match TypeWord::of(text) {
        Some(word) if word.is_scalar() => Some(Start::Scalar(word)),
        _ => None,
    }
}

/// The sign behind operands that a text is.
pub fn behind_of(text: &[u8]) -> Option<Behind>
    ensures { option_map behind_in result ≡ written behind_text behinds text.now }
{
    let row = find_row(&BEHINDS, text)?;
    Some(row.1)
}

/// The operator with two operands that a text is.
pub fn operator_of(text: &[u8]) -> Option<Operator>
    ensures { option_map operator_of result ≡ written operator_text operators text.now }
{
    operator_among(&OPERATORS, text)
}

// The operator that a text is, by the table of them.
fn operator_among(rows: &[Row<Operator>], text: &[u8]) -> Option<Operator>
    requires { AreRows operator_of operator_text operators rows.now }
    ensures { option_map operator_of result ≡ written operator_text operators text.now }
{
    let row = find_row(rows, text)?;
    Some(row.1)
}
