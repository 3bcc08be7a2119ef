//! The machine that reads expressions: what stands behind a whole expression.

ghost use Rattle.std.specs.Prelude.{◌≡◌, [], ◌∷◌, IfOk, List, codes};
ghost use Rattle.std.specs.Str.{bytes_eq};
ghost use Rattle.def_tree.specs.Operator as operators;
ghost use Rattle.sl_token.specs.View.{token_in, tokens_in};
ghost use Rattle.sl_tree.specs.View.{expr_in};
ghost use Rattle.sl_machine.specs.Finish.{stuck};
ghost use Rattle.sl_machine.specs.Framed.{frames_in, held_in};
ghost use Rattle.sl_cursor.specs.Nestings.{nesting_in};
ghost use Rattle.def_reading.specs.Machine as machine;
ghost use Rattle.def_reading.specs.Cursor.{advance};
ghost use Rattle.sl_cursor.specs.Seen.{place_in};
ghost use Rattle.sl_machine.specs.Steps.{step_in};
ghost use Rattle.sl_machine.specs.declared.frames.Frame.{Frame};

use crate::finish::discard;
use crate::frames::{Frame, Frames};
use crate::machine::{Around, Mode, Step, stands};
use sl_base::NoMemory;
use sl_cursor::cursor::Cursor;
use sl_cursor::touching::sign_at;
use sl_token::Token;
use sl_tree::ExprTree;
use sqlite_items::Items;

impl Around<'_> {
    /// Whether `>>=` stands at a place.
    pub fn is_assignment(&self, place: &Cursor<'_>) -> bool
        ensures { result ≡ bytes_eq (operators.sign_at (tokens_in self.now.source.bytes.now place.now.rest.now)).0
            (codes ">>=") }
    {
        sign_at(self.source.bytes, place.rest) == ">>=".as_bytes()
    }

    // A whole expression in a form that the next token does not go on with.
    fn stuck<'a>(&self, place: &Cursor<'a>) -> Step<'a>
        ensures { let source = self.now.source.bytes.now in (frames : List Frame) → step_in source frames result
            ≡ stuck (tokens_in source place.now.rest.now) (place_in source place.now) }
    {
        if self.is_assignment(place) {
            Step::Refused(place.advance().advance())
        } else {
            Step::Refused(*place)
        }
    }

    /// The mark `)` behind a whole expression.
    pub fn closing<'a>(
        &self,
        frames: &mut Frames,
        last: ExprTree,
        place: &Cursor<'a>,
    ) -> Result<Step<'a>, NoMemory>
        ensures { let source = self.now.source.bytes.now in IfOk result (λ step. step_in source frames.new step
            ≡ machine.closing_by (held_in source last frames.old)
            (tokens_in source place.now.rest.now) (place_in source place.now)) }
    {
        let Some(frame) = frames.pop() else {
            return Ok(Step::Ends(last, *place));
        };
        match frame.close(self.source.alloc, last)? {
            Some(tree) => Ok(stands(tree, place)),
            None => Ok(self.stuck(place)),
        }
    }

    /// The mark `]` behind a whole expression.
    pub fn index<'a>(
        &self,
        frames: &mut Frames,
        last: ExprTree,
        place: &Cursor<'a>,
    ) -> Result<Step<'a>, NoMemory>
        ensures { let source = self.now.source.bytes.now in IfOk result (λ step. step_in source frames.new step
            ≡ machine.index_by (held_in source last frames.old)
            (tokens_in source place.now.rest.now) (place_in source place.now)) }
    {
        let Some(frame) = frames.pop() else {
            return Ok(Step::Ends(last, *place));
        };
        match frame.index(self.source.alloc, last)? {
            Some(tree) => Ok(stands(tree, place)),
            None => Ok(self.stuck(place)),
        }
    }

    /// The mark `:` behind a whole expression.
    pub fn colon<'a>(
        &self,
        frames: &mut Frames,
        last: ExprTree,
        place: &Cursor<'a>,
    ) -> Result<Step<'a>, NoMemory>
        ensures { let source = self.now.source.bytes.now in IfOk result (λ step. step_in source frames.new step
            ≡ machine.colon_by (held_in source last frames.old)
            (tokens_in source place.now.rest.now) (place_in source place.now)) }
    {
        let Some(frame) = frames.pop() else {
            return Ok(Step::Ends(last, *place));
        };
        match frame.choose(last) {
            Some(frame) => {
                frames.push(frame)?;
                Ok(Step::On(None, Mode::Expected, place.advance()))
            }
            None => Ok(self.stuck(place)),
        }
    }

    /// A comma behind a whole expression.
    pub fn comma<'a>(
        &self,
        frames: &mut Frames,
        last: ExprTree,
        place: &Cursor<'a>,
    ) -> Result<Step<'a>, NoMemory>
        ensures { let source = self.now.source.bytes.now in IfOk result (λ step. step_in source frames.new step
            ≡ machine.comma_by (held_in source last frames.old)
            (tokens_in source place.now.rest.now) (place_in source place.now)) }
    {
        let Some(frame) = frames.pop() else {
            return Ok(Step::Ends(last, *place));
        };
        match frame.separate(last)? {
            Some(frame) => {
                frames.push(frame)?;
                Ok(Step::On(None, Mode::Expected, place.advance()))
            }
            None => Ok(self.stuck(place)),
        }
    }

    /// A bracket behind an operand: a call.
    pub fn called<'a>(
        &self,
        frames: &mut Frames,
        callee: ExprTree,
        token: Token,
        place: &Cursor<'a>,
    ) -> Result<Step<'a>, NoMemory>
        ensures { let source = self.now.source.bytes.now in IfOk result (λ step. step_in source frames.new step
            ≡ machine.expects (machine.InCall (expr_in source callee)
            (token_in source token) [] ∷ frames_in source frames.old)
            (advance (machine.bracket_opens (nesting_in self.now.open)
            (frames_in source frames.old)) (place_in source place.now))) }
    {
        let behind = self.bracket(frames, place);
        frames.push(Frame::InCall(callee, token, Items::new(self.source.alloc)))?;
        Ok(Step::On(None, Mode::Expected, behind))
    }

    /// A square bracket behind an operand: a place by its number.
    pub fn indexed<'a>(
        &self,
        frames: &mut Frames,
        base: ExprTree,
        token: Token,
        place: &Cursor<'a>,
    ) -> Result<Step<'a>, NoMemory>
        ensures { let source = self.now.source.bytes.now in IfOk result (λ step. step_in source frames.new step
            ≡ machine.expects (machine.InIndex (expr_in source base)
            (token_in source token) ∷ frames_in source frames.old)
            (advance (machine.bracket_opens (nesting_in self.now.open)
            (frames_in source frames.old)) (place_in source place.now))) }
    {
        let behind = self.bracket(frames, place);
        frames.push(Frame::InIndex(base, token))?;
        Ok(Step::On(None, Mode::Expected, behind))
    }

    /// The mark `?` behind a condition.
    pub fn asked<'a>(
        &self,
        frames: &mut Frames,
        condition: ExprTree,
        token: Token,
        place: &Cursor<'a>,
    ) -> Result<Step<'a>, NoMemory>
        ensures { let source = self.now.source.bytes.now in IfOk result (λ step. step_in source frames.new step
            ≡ machine.asked_by (held_in source condition frames.old) (token_in source token)
            (place_in source place.now)) }
    {
        frames.push(Frame::Asked(condition, token))?;
        Ok(Step::On(None, Mode::Expected, place.advance()))
    }

    /// A token behind an operand that does not go on with it.
    pub fn ended<'a>(
        &self,
        frames: &mut Frames,
        last: ExprTree,
        place: &Cursor<'a>,
    ) -> Result<Step<'a>, NoMemory>
        ensures { let source = self.now.source.bytes.now in IfOk result (λ step. step_in source frames.new step
            ≡ machine.ends_by (held_in source last frames.old)
            (tokens_in source place.now.rest.now) (place_in source place.now)) }
    {
        match frames.pop() {
            None => Ok(Step::Ends(last, *place)),
            Some(frame) => {
                discard(frame);
                Ok(self.stuck(place))
            }
        }
    }
}
