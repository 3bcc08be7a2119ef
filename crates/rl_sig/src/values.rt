//! Types, values, and how values are converted and combined.

ghost use Rattle.std.specs.Prelude.{◌≡◌};
ghost use Rattle.def_check.specs.Values.{arithmetic_of, converted, int_result, misfit_of, result_of};
ghost use Rattle.def_check.specs.Values.{type_of, uint_result, width};
ghost use Rattle.sl_tree.specs.View.{operator_of};

use sl_key::{Arithmetic, Ty, Value};
use sl_tree::Operator;

/// The operator on integers that is written, if it is built.
pub fn arithmetic_of(operator: Operator) -> Option<Arithmetic>
    ensures { result ≡ arithmetic_of (operator_of operator) }
{
    match operator {
        Operator::Add => Some(Arithmetic::Add),
        Operator::Subtract => Some(Arithmetic::Subtract),
        Operator::Multiply => Some(Arithmetic::Multiply),
        _ => None,
    }
}

/// The type of a value.
pub fn type_of(value: Value) -> Ty
    ensures { result ≡ type_of value }
{
    match value {
        Value::Bool(_) => Ty::Bool,
        Value::Int(_) => Ty::Int,
        Value::Uint(_) => Ty::Uint,
    }
}

/// A value as one of a type, if it can be converted.
pub fn converted(ty: Ty, value: Value) -> Option<Value>
    ensures { result ≡ converted ty value }
{
    match (ty, value) {
        (Ty::Bool, Value::Bool(truth)) => Some(Value::Bool(truth)),
        (Ty::Int, Value::Int(number)) => Some(Value::Int(number)),
        (Ty::Int, Value::Uint(number)) => Some(Value::Int(number.cast_signed())),
        (Ty::Uint, Value::Int(number)) => Some(Value::Uint(number.cast_unsigned())),
        (Ty::Uint, Value::Uint(number)) => Some(Value::Uint(number)),
        _ => None,
    }
}

/// An operator on two values, if it takes them.
pub fn result_of(operator: Arithmetic, left: Value, right: Value) -> Option<Value>
    ensures { result ≡ result_of operator left right }
{
    match (left, right) {
        (Value::Int(x), Value::Int(y)) => Some(Value::Int(int_result(operator, x, y))),
        (Value::Int(x), Value::Uint(y)) => {
            Some(Value::Uint(uint_result(operator, x.cast_unsigned(), y)))
        }
        (Value::Uint(x), Value::Int(y)) => {
            Some(Value::Uint(uint_result(operator, x, y.cast_unsigned())))
        }
        (Value::Uint(x), Value::Uint(y)) => Some(Value::Uint(uint_result(operator, x, y))),
        _ => None,
    }
}

// An operator on ints.
fn int_result(operator: Arithmetic, x: i32, y: i32) -> i32
    ensures { result ≡ int_result width operator x y }
{
    match operator {
        Arithmetic::Add => x.wrapping_add(y),
        Arithmetic::Subtract => x.wrapping_sub(y),
        Arithmetic::Multiply => x.wrapping_mul(y),
    }
}

// An operator on uints.
fn uint_result(operator: Arithmetic, x: u32, y: u32) -> u32
    ensures { result ≡ uint_result width operator x y }
{
    match operator {
        Arithmetic::Add => x.wrapping_add(y),
        Arithmetic::Subtract => x.wrapping_sub(y),
        Arithmetic::Multiply => x.wrapping_mul(y),
    }
}

/// The type of the first operand that is no integer.
pub fn misfit_of(left: Value, right: Value) -> Ty
    ensures { result ≡ misfit_of left right }
{
    match left {
        Value::Bool(_) => Ty::Bool,
        Value::Int(_) | Value::Uint(_) => type_of(right),
    }
}
