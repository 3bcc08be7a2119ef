//! The machine that reads expressions: whole steps.

ghost use Rattle.std.specs.Prelude.{◌≡◌, [], Some, IfOk, drop, true};
ghost use Rattle.std.specs.Option.{option_map};
ghost use Rattle.def_tree.specs.Operator as lists;
ghost use Rattle.def_tree.specs.Operator.{operators, operator_text};
ghost use Rattle.def_tree.specs.Symbol.{symbol};
ghost use Rattle.sl_token.specs.View.{token_in, tokens_in};
ghost use Rattle.sl_tree.specs.View.{expr_in};
ghost use Rattle.sl_machine.specs.Framed.{frames_in, held_in};
ghost use Rattle.sl_machine.specs.Kept.{IsAlike};
ghost use Rattle.sl_look.specs.Looks.{BeginsWith};
ghost use Rattle.sl_cursor.specs.Nestings.{nesting_in};
ghost use Rattle.sl_machine.specs.Marks.{mark_on};
ghost use Rattle.sl_machine.specs.Words.{behind_in};
ghost use Rattle.def_reading.specs.Machine as machine;
ghost use Rattle.sl_cursor.specs.Seen.{place_in};
ghost use Rattle.sl_machine.specs.Steps.{mode_in, step_in};
ghost use Rattle.sl_cursor.specs.Tries.{IsIn};

use crate::closing::{bound, whole};
use crate::frames::Frames;
use crate::machine::{Around, Mode, Step, stands};
use crate::words::{Behind, behind_of, operator_of, start_of};
use sl_base::NoMemory;
use sl_cursor::cursor::Cursor;
use sl_cursor::touching::sign_at;
use sl_token::{Kind, Token, text_at};
use sl_tree::ExprTree;

/// The sign behind operands that a token is.
fn behind_at(source: &[u8], token: Token) -> Option<Behind>
    ensures { option_map behind_in result
        ≡ machine.sign_of machine.behind_text machine.behinds (symbol (token_in source.now token)) }
{
    match token.kind {
        Kind::Mark | Kind::Keyword => behind_of(text_at(source, token.span)),
        Kind::Name | Kind::Number | Kind::Text | Kind::End => None,
    }
}

impl Around<'_> {
    ghost use Rattle.sl_machine.specs.Long.{long_in};

    /// A step at the next token.
    pub fn step<'a>(
        &self,
        frames: &mut Frames,
        mode: Mode,
        place: &Cursor<'a>,
        keep: bool,
    ) -> Result<Step<'a>, NoMemory>
        requires { IsIn self.now.source place.now }
        ensures { let source = self.now.source.bytes.now in IfOk result
            (λ step. IsAlike (keep ≡ true) (step_in source frames.new step)
            (machine.step_at (nesting_in self.now.open) (long_in self.now) (mode_in source mode)
            (frames_in source frames.old) (place_in source place.now))) }
    {
        let Some((token, _)) = place.rest.split_first() else {
            return self.exhausted(frames, mode, place, keep);
        };
        match mode {
            Mode::Expected => self.operand(frames, *token, place),
            Mode::Value(value) => self.behind(frames, value, *token, place, keep),
            Mode::Dotted(base) => self.member(base, *token, place),
            Mode::Converting(word, first) => self.conversion(frames, word, first, *token, place),
        }
    }

    // Where there is no token any more.
    fn exhausted<'a>(
        &self,
        frames: &mut Frames,
        mode: Mode,
        place: &Cursor<'a>,
        keep: bool,
    ) -> Result<Step<'a>, NoMemory>
        requires { place.now.rest.now ≡ [] }
        ensures { let source = self.now.source.bytes.now in IfOk result
            (λ step. IsAlike (keep ≡ true) (step_in source frames.new step)
            (machine.step_at (nesting_in self.now.open) (long_in self.now) (mode_in source mode)
            (frames_in source frames.old) (place_in source place.now))) }
    {
        match mode {
            Mode::Value(value) => self.over(frames, value, place, keep),
            _ => Ok(Step::Refused(*place)),
        }
    }

    // A token where an operand may stand.
    fn operand<'a>(
        &self,
        frames: &mut Frames,
        token: Token,
        place: &Cursor<'a>,
    ) -> Result<Step<'a>, NoMemory>
        requires within { IsIn self.now.source place.now }
        requires first { BeginsWith token place.now }
        ensures { let source = self.now.source.bytes.now in IfOk result
            (λ step. IsAlike (Unit {0}) (step_in source frames.new step)
            (machine.step_at (nesting_in self.now.open) (long_in self.now) machine.Expected
            (frames_in source frames.old) (place_in source place.now))) }
    {
        match token.kind {
            Kind::Name => self.name(token, place),
            Kind::Number => Ok(stands(ExprTree::Number(token), place)),
            Kind::Mark | Kind::Keyword => {
                match start_of(text_at(self.source.bytes, token.span)) {
                    Some(sign) => self.start(frames, sign, token, place),
                    None => self.empty(frames, token, place),
                }
            }
            Kind::Text | Kind::End => Ok(Step::Refused(*place)),
        }
    }

    // A token behind an operand.
    fn behind<'a>(
        &self,
        frames: &mut Frames,
        value: ExprTree,
        token: Token,
        place: &Cursor<'a>,
        keep: bool,
    ) -> Result<Step<'a>, NoMemory>
        requires { BeginsWith token place.now }
        ensures { let source = self.now.source.bytes.now in IfOk result
            (λ step. IsAlike (keep ≡ true) (step_in source frames.new step)
            (machine.step_at (nesting_in self.now.open) (long_in self.now)
            (machine.Value (expr_in source value)) (frames_in source frames.old)
            (place_in source place.now))) }
    {
        match behind_at(self.source.bytes, token) {
            None => self.unmarked(frames, value, token, place, keep),
            Some(mark) => self.marked(frames, mark, value, token, place, keep),
        }
    }

    // A mark behind an operand.
    fn marked<'a>(
        &self,
        frames: &mut Frames,
        mark: Behind,
        value: ExprTree,
        token: Token,
        place: &Cursor<'a>,
        keep: bool,
    ) -> Result<Step<'a>, NoMemory>
        requires { BeginsWith token place.now }
        ensures { let source = self.now.source.bytes.now in IfOk result
            (λ step. IsAlike (keep ≡ true) (step_in source frames.new step)
            (machine.behind_by (nesting_in self.now.open) (long_in self.now) (Some (behind_in mark))
            (expr_in source value) (frames_in source frames.old)
            place.now.at (token_in source token) (tokens_in source (drop 1 place.now.rest.now))
            (place_in source place.now))) }
    {
        match mark {
            Behind::Call => self.called(frames, value, token, place),
            Behind::Index => self.indexed(frames, value, token, place),
            Behind::Dot | Behind::Colons => {
                Ok(Step::On(None, Mode::Dotted(value), place.advance()))
            }
            Behind::Question => {
                let condition = bound(self.source.alloc, frames, 1, value, keep)?;
                self.asked(frames, condition, token, place)
            }
            _ => {
                let last = whole(self.source.alloc, frames, value, keep)?;
                self.ending(frames, mark, last, place)
            }
        }
    }

    // A mark behind a whole expression.
    fn ending<'a>(
        &self,
        frames: &mut Frames,
        mark: Behind,
        last: ExprTree,
        place: &Cursor<'a>,
    ) -> Result<Step<'a>, NoMemory>
        ensures { let source = self.now.source.bytes.now in IfOk result (λ step. step_in source frames.new step
            ≡ mark_on mark (held_in source last frames.old) (tokens_in source place.now.rest.now)
            (place_in source place.now)) }
    {
        match mark {
            Behind::Colon => self.colon(frames, last, place),
            Behind::Comma => self.comma(frames, last, place),
            Behind::Closing => self.closing(frames, last, place),
            Behind::IndexClosing => self.index(frames, last, place),
            _ => self.ended(frames, last, place),
        }
    }

    // A token behind an operand that does not go on with it.
    fn over<'a>(
        &self,
        frames: &mut Frames,
        value: ExprTree,
        place: &Cursor<'a>,
        keep: bool,
    ) -> Result<Step<'a>, NoMemory>
        ensures { let source = self.now.source.bytes.now in IfOk result
            (λ step. IsAlike (keep ≡ true) (step_in source frames.new step)
            (machine.ends_by (machine.whole (expr_in source value)
            (frames_in source frames.old)) (tokens_in source place.now.rest.now)
            (place_in source place.now))) }
    {
        let last = whole(self.source.alloc, frames, value, keep)?;
        self.ended(frames, last, place)
    }

    // An operator behind an operand, or what does not go on with it.
    fn unmarked<'a>(
        &self,
        frames: &mut Frames,
        value: ExprTree,
        token: Token,
        place: &Cursor<'a>,
        keep: bool,
    ) -> Result<Step<'a>, NoMemory>
        requires { BeginsWith token place.now }
        ensures { let source = self.now.source.bytes.now in IfOk result
            (λ step. IsAlike (keep ≡ true) (step_in source frames.new step)
            (machine.operator_by (nesting_in self.now.open) (long_in self.now) (machine.written operator_text operators
            (lists.sign_at (tokens_in source place.now.rest.now)).0) (expr_in source value)
            (frames_in source frames.old) place.now.at
            (token_in source token) (tokens_in source (drop 1 place.now.rest.now)) (place_in source place.now))) }
    {
        match operator_of(sign_at(self.source.bytes, place.rest)) {
            Some(operator) => self.operator(frames, operator, value, token, place, keep),
            None => self.over(frames, value, place, keep),
        }
    }
}
