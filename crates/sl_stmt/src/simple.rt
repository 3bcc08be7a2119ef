//! Simple statements: assignments, steps by one, and calls alone.

ghost use Rattle.std.specs.Prelude.{◌≡◌, ℕ, List, false};
ghost use Rattle.std.specs.Option.{option_map};
ghost use Rattle.def_reading.specs.Machine.{written};
ghost use Rattle.def_reading.specs.StmtReading as lists;
ghost use Rattle.def_reading.specs.Try.{try_as, expr_in};
ghost use Rattle.def_tree.specs.Operator.{assignment_text};
ghost use Rattle.def_tree.specs.Statements.{is_call};
ghost use Rattle.def_tree.specs.StmtTree as tree;
ghost use Rattle.sl_token.specs.View.{token_in};
ghost use Rattle.sl_tree.specs.View as view;
ghost use Rattle.sl_cursor.specs.Nestings.{nesting_in};
ghost use Rattle.def_tree.specs.Limits.{assignment_tokens};
ghost use Rattle.sl_cursor.specs.Following.{IsBehind};
ghost use Rattle.sl_cursor.specs.Following.{Follows, IsAt};
ghost use Rattle.sl_stmt.specs.Simples.{FollowsExpr};

use crate::wholes::{value, whole};
use sl_cursor::nesting::Nesting;
use sl_cursor::source::{Here, Source, Unread};
use sl_cursor::touching::sign_at;
use sl_token::Token;
use sl_tree::{Assignment, ExprTree, SimpleTree, Step};

/// The assignment that a text is.
fn assignment_of(text: &[u8]) -> Option<Assignment>
    ensures { option_map view.assignment_of result ≡ written assignment_text lists.assignments text.now }
{
    if text == "=".as_bytes() {
        Some(Assignment::Set)
    } else if text == "+=".as_bytes() {
        Some(Assignment::AddTo)
    } else if text == "-=".as_bytes() {
        Some(Assignment::SubtractFrom)
    } else if text == "*=".as_bytes() {
        Some(Assignment::MultiplyBy)
    } else if text == "/=".as_bytes() {
        Some(Assignment::DivideBy)
    } else if text == "%=".as_bytes() {
        Some(Assignment::RemainderBy)
    } else if text == "&=".as_bytes() {
        Some(Assignment::BitAndWith)
    } else if text == "|=".as_bytes() {
        Some(Assignment::BitOrWith)
    } else if text == "^=".as_bytes() {
        Some(Assignment::BitXorWith)
    } else if text == "<<=".as_bytes() {
        Some(Assignment::ShiftLeftBy)
    } else if text == ">>=".as_bytes() {
        Some(Assignment::ShiftRightBy)
    } else {
        None
    }
}

/// Whether an expression is a call.
fn is_call(expr: &ExprTree) -> bool
    ensures { (source : List ℕ) → result ≡ is_call (view.expr_in source expr.now) }
{
    match expr {
        ExprTree::Call(..) => true,
        _ => false,
    }
}

/// The place behind an assignment's tokens.
fn behind_assignment<'a>(here: &Here<'a>, assignment: Assignment) -> Here<'a>
    ensures { IsBehind (assignment_tokens (view.assignment_of assignment)) here.now result }
{
    match assignment {
        Assignment::ShiftRightBy => here.advance().advance().advance(),
        _ => here.advance(),
    }
}

/// A call alone.
fn alone<'a>(
    input: &Source<'_>,
    expr: ExprTree,
    here: &Here<'a>,
) -> Result<(SimpleTree, Here<'a>), Unread>
    requires { IsAt input.now here.now.place }
    ensures { FollowsExpr input.now (λ tree. lists.alone_by (is_call tree) tree) expr here.now result }
{
    if is_call(&expr) {
        Ok((SimpleTree::CallStatement(expr), *here))
    } else {
        Err(input.refused(here))
    }
}

/// A place with a step behind it, or a call alone.
fn stepped<'a>(
    input: &Source<'_>,
    expr: ExprTree,
    here: &Here<'a>,
) -> Result<(SimpleTree, Here<'a>), Unread>
    requires { IsAt input.now here.now.place }
    ensures { FollowsExpr input.now lists.stepped_in expr here.now result }
{
    if let Some((token, behind)) = input.sign("++", here) {
        return Ok((
            SimpleTree::PostfixStep(Step::Increment, expr, token),
            behind,
        ));
    }
    if let Some((token, behind)) = input.sign("--", here) {
        return Ok((
            SimpleTree::PostfixStep(Step::Decrement, expr, token),
            behind,
        ));
    }
    alone(input, expr, here)
}

/// What stands behind the expression with which a simple statement begins.
fn assigned<'a>(
    input: &Source<'_>,
    around: &Nesting,
    expr: ExprTree,
    here: &Here<'a>,
) -> Result<(SimpleTree, Here<'a>), Unread>
    requires { IsAt input.now here.now.place }
    ensures { FollowsExpr input.now (lists.assigned_in (nesting_in around.now)) expr here.now result }
{
    let Some((token, _)) = here.place.rest.split_first() else {
        return alone(input, expr, here);
    };
    match assignment_of(sign_at(input.bytes, here.place.rest)) {
        None => stepped(input, expr, here),
        Some(assignment) => {
            let behind = behind_assignment(here, assignment);
            let (value, end) = value(input, around, &behind)?;
            Ok((SimpleTree::Assign(assignment, *token, expr, value), end))
        }
    }
}

/// A place behind its step.
fn step_before<'a>(
    input: &Source<'_>,
    around: &Nesting,
    step: Step,
    token: Token,
    here: &Here<'a>,
) -> Result<(SimpleTree, Here<'a>), Unread>
    requires { IsAt input.now here.now.place }
    ensures { let source = input.now.bytes.now in
        Follows input.now (view.simple_in source)
        (λ reach place. try_as (tree.PrefixStep (view.step_of step) (token_in source token))
        (expr_in false (nesting_in around.now) reach place))
        here.now result }
{
    let (expr, end) = value(input, around, here)?;
    Ok((SimpleTree::PrefixStep(step, token, expr), end))
}

/// A simple statement.
pub fn simple<'a>(
    input: &Source<'_>,
    around: &Nesting,
    here: &Here<'a>,
) -> Result<(SimpleTree, Here<'a>), Unread>
    requires { IsAt input.now here.now.place }
    ensures { Follows input.now (view.simple_in input.now.bytes.now)
        (lists.simple_in (nesting_in around.now)) here.now result }
{
    if let Some((token, behind)) = input.sign("++", here) {
        return step_before(input, around, Step::Increment, token, &behind);
    }
    if let Some((token, behind)) = input.sign("--", here) {
        return step_before(input, around, Step::Decrement, token, &behind);
    }
    let (expr, behind) = whole(input, around, true, here)?;
    assigned(input, around, expr, &behind)
}
