//! The machine that reads expressions: operators with two operands.

ghost use Rattle.std.specs.Prelude.{◌≡◌, List, Some, IfOk, replicate, true, ℕ};
ghost use Rattle.def_tree.specs.ExprTree as trees;
ghost use Rattle.def_tree.specs.Limits.{operator_tokens, plain};
ghost use Rattle.sl_token.specs.View.{token_in, tokens_in};
ghost use Rattle.sl_tree.specs.View.{expr_in, operator_of};
ghost use Rattle.sl_machine.specs.Framed.{frames_in, held_in};
ghost use Rattle.sl_machine.specs.Kept.{IsAlike};
ghost use Rattle.sl_cursor.specs.Nestings.{nesting_in};
ghost use Rattle.def_reading.specs.Machine as machine;
ghost use Rattle.def_reading.specs.Cursor.{passed};
ghost use Rattle.std.specs.Option.{option_map};
ghost use Rattle.sl_cursor.specs.Seen.{place_in, reach_in};
ghost use Rattle.sl_machine.specs.Steps.{step_in};

use crate::closing::{bound, level};
use crate::frames::{Frame, Frames};
use crate::machine::{Around, Mode, Step};
use sl_base::NoMemory;
use sl_cursor::cursor::{Cursor, FarthestFailure};
use sl_cursor::reach::reach_at;
use sl_token::Token;
use sl_tree::{ExprTree, Operator};

/// Whether a whole expression may end inside frames before an assignment that begins as an operator does.
fn may_assign(operator: Operator, frames: &Frames) -> bool
    ensures { (source : List ℕ) (value : trees.ExprTree) → result
        ≡ machine.may_assign (operator_of operator) (machine.whole value (frames_in source frames.now)) }
{
    match operator {
        Operator::Greater | Operator::ShiftRight => {
            frames.brackets() == 0 && frames.asked() == 0
        }
        _ => false,
    }
}

/// The place behind the tokens of an operator.
fn behind_operator<'a>(operator: Operator, place: &Cursor<'a>) -> Cursor<'a>
    ensures { (source : List ℕ) → place_in source result
        ≡ passed (replicate (operator_tokens (operator_of operator)) plain) (place_in source place.now) }
{
    match operator {
        Operator::GreaterEqual | Operator::ShiftRight => place.advance().advance(),
        _ => place.advance(),
    }
}

impl Around<'_> {
    ghost use Rattle.sl_machine.specs.Long.{long_in};

    /// An operator behind its left operand.
    pub fn operator<'a>(
        &self,
        frames: &mut Frames,
        operator: Operator,
        value: ExprTree,
        token: Token,
        place: &Cursor<'a>,
        keep: bool,
    ) -> Result<Step<'a>, NoMemory>
        ensures { let source = self.now.source.bytes.now in IfOk result
            (λ step. IsAlike (keep ≡ true) (step_in source frames.new step)
            (machine.operator_by (nesting_in self.now.open) (long_in self.now) (Some (operator_of operator))
            (expr_in source value)
            (frames_in source frames.old) place.now.at (token_in source token) (tokens_in source place.now.rest.now)
            (place_in source place.now))) }
    {
        let behind = behind_operator(operator, place);
        let other = self.assigned(frames, operator, place, &behind);
        let left = bound(self.source.alloc, frames, level(operator), value, keep)?;
        self.operated(frames, operator, left, other, token, &behind)
    }

    // How far the way goes that ends before an assignment that begins as the operator does, if one may.
    fn assigned(
        &self,
        frames: &Frames,
        operator: Operator,
        place: &Cursor<'_>,
        behind: &Cursor<'_>,
    ) -> Option<FarthestFailure>
        ensures { let source = self.now.source.bytes.now in (value : trees.ExprTree)
            → option_map (reach_in source) result
            ≡ machine.assign_by (nesting_in self.now.open) (long_in self.now)
            (machine.may_assign (operator_of operator) (machine.whole value (frames_in source frames.now)))
            place.now.at (place_in source behind.now) }
    {
        if may_assign(operator, frames) {
            reach_at(self.long, place.at, behind)
        } else {
            None
        }
    }

    // An operator with its left operand, and how far another way goes.
    fn operated<'a>(
        &self,
        frames: &mut Frames,
        operator: Operator,
        left: ExprTree,
        other: Option<FarthestFailure>,
        token: Token,
        behind: &Cursor<'a>,
    ) -> Result<Step<'a>, NoMemory>
        ensures { let source = self.now.source.bytes.now in IfOk result (λ step. step_in source frames.new step
            ≡ machine.operator_on (operator_of operator) (held_in source left frames.old) (option_map
            (reach_in source) other)
            (token_in source token) (place_in source behind.now)) }
    {
        frames.push(Frame::Left(left, operator, token))?;
        Ok(Step::On(other, Mode::Expected, *behind))
    }
}
