//! Expressions.

ghost use Rattle.std.specs.Prelude.{◌≡◌, ℕ, List};
ghost use Rattle.def_tree.specs.ExprTree as trees;
ghost use Rattle.def_check.specs.Evaluate.{combined, converted_to, value_of, value_written};
ghost use Rattle.def_check.specs.Values.{arithmetic_of};
ghost use Rattle.def_body.specs.Part.{run};
ghost use Rattle.sl_key.specs.Flow.{Tells};
ghost use Rattle.sl_token.specs.View.{token_in};
ghost use Rattle.sl_tree.specs.View.{expr_in, operator_of};

use crate::scope::Reader;
use crate::values::{arithmetic_of, converted, misfit_of, result_of, type_of};
use rl_built::small_number;
use sl_key::{Fault, Flow, Ty, Value};
use sl_token::Token;
use sl_tree::{ExprTree, Operator};

impl Reader<'_> {
    ghost use Rattle.rl_sig.specs.Reading.{facts_of, scope_of, text_of};

    /// The value of an expression.
    #[tactic(auto, using(sl_tree::proofs::Forms::expr_forms, crate::proofs::Forms::part_forms))]
    pub fn value_of(&self, expr: &ExprTree) -> Flow<Value>
        ensures { let expr = expr_in (text_of self.now) expr.now in
            Tells result (run (facts_of self.now) (value_of (scope_of self.now) expr)) }
    {
        match expr {
            ExprTree::Number(token) => self.value_written(*token),
            ExprTree::BooleanLiteral(truth, _) => Ok(Value::Bool(*truth)),
            ExprTree::Name(name, args) => {
                if args.is_empty() {
                    self.value_named(*name)
                } else {
                    self.unbuilt(*name)
                }
            }
            ExprTree::Group(_, inner) => self.value_of(inner.get()),
            ExprTree::Binary(operator, token, left, right) => {
                let x = self.value_of(left.get())?;
                let y = self.value_of(right.get())?;
                self.combined(*operator, *token, x, y)
            }
            ExprTree::Itself(_)
            | ExprTree::FunctionalCast(_, _, _)
            | ExprTree::OwnType(_)
            | ExprTree::Call(_, _, _)
            | ExprTree::Index(_, _, _)
            | ExprTree::Member(_, _)
            | ExprTree::Unary(_, _, _)
            | ExprTree::Cast(_, _, _, _)
            | ExprTree::Conditional(_, _, _, _) => self.unbuilt(expr.first_token()),
        }
    }

    /// A value as one of a type, where this expression has it.
    pub fn converted_to(&self, ty: Ty, expr: &ExprTree, value: Value) -> Flow<Value>
        ensures { let first = trees.first_token (expr_in (text_of self.now) expr.now) in
            Tells result (run (facts_of self.now) (converted_to (scope_of self.now) ty first value)) }
    {
        match converted(ty, value) {
            Some(value) => Ok(value),
            None => {
                let fault = Fault::NoConversion(type_of(value), ty);
                Err(self.broken(expr.first_token(), fault)?)
            }
        }
    }

    // The value of a number.
    fn value_written(&self, token: Token) -> Flow<Value>
        ensures { let token = token_in (text_of self.now) token in
            Tells result (run (facts_of self.now) (value_written (scope_of self.now) token)) }
    {
        match small_number(self.decls.text(token)) {
            Some(number) => Ok(Value::Int(number.cast_signed())),
            None => self.unbuilt(token),
        }
    }

    // The value of an operator on two values.
    fn combined(&self, operator: Operator, token: Token, left: Value, right: Value) -> Flow<Value>
        ensures { Tells result (run (facts_of self.now) (combined (scope_of self.now) (arithmetic_of (operator_of operator))
            (token_in (text_of self.now) token) left right)) }
    {
        let Some(operator) = arithmetic_of(operator) else {
            return self.unbuilt(token);
        };
        match result_of(operator, left, right) {
            Some(value) => Ok(value),
            None => {
                let fault = Fault::NotTaken(operator, misfit_of(left, right));
                Err(self.broken(token, fault)?)
            }
        }
    }
}
