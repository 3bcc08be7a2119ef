//! Operators.

/// An operator with two operands.
#[derive(Clone, Copy, Debug, PartialEq, Eq)]
pub enum Operator {
    Or,
    And,
    BitOr,
    BitXor,
    BitAnd,
    Equal,
    NotEqual,
    Less,
    LessEqual,
    Greater,
    GreaterEqual,
    ShiftLeft,
    ShiftRight,
    Add,
    Subtract,
    Multiply,
    Divide,
    Remainder,
}

/// An operator with one operand.
#[derive(Clone, Copy, Debug, PartialEq, Eq)]
pub enum UnaryOperator {
    Minus,
    Plus,
    Not,
    Complement,
}

/// What an assignment writes: the value, or the place's own value and it under an operator.
#[derive(Clone, Copy, Debug, PartialEq, Eq)]
pub enum Assignment {
    Set,
    AddTo,
    SubtractFrom,
    MultiplyBy,
    DivideBy,
    RemainderBy,
    BitAndWith,
    BitOrWith,
    BitXorWith,
    ShiftLeftBy,
    ShiftRightBy,
}

/// A step by one.
#[derive(Clone, Copy, Debug, PartialEq, Eq)]
pub enum Step {
    Increment,
    Decrement,
}
