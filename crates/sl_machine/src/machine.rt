//! The machine that reads expressions: one step.

ghost use Rattle.std.specs.Prelude.{◌≡◌, ℕ, List, Some, IfOk, codes};
ghost use Rattle.def_tree.specs.Limits.{plain};
ghost use Rattle.def_tree.specs.Symbol.{symbol};
ghost use Rattle.sl_token.specs.View.{token_in};
ghost use Rattle.sl_tree.specs.View.{expr_in, word_of};
ghost use Rattle.sl_machine.specs.Framed.{frames_in};
ghost use Rattle.def_reading.specs.Machine as machine;
ghost use Rattle.def_reading.specs.Cursor.{advance};
ghost use Rattle.sl_cursor.specs.Seen.{place_in};
ghost use Rattle.sl_cursor.specs.Signs.{is_text};
ghost use Rattle.sl_machine.specs.Steps.{step_in};
ghost use Rattle.def_reading.specs.TypeAhead.{names};
ghost use Rattle.sl_machine.specs.Words.{start_in};
ghost use Rattle.sl_machine.specs.declared.frames.Frame.{Frame};

use crate::frames::{Frame, Frames};
use crate::words::Start;
use sl_base::NoMemory;
use sl_cursor::cursor::{Cursor, FarthestFailure, Told, is_too_deep};
use sl_cursor::nesting::Nesting;
use sl_cursor::signs::{is_name, is_sign};
use sl_cursor::source::Source;
use sl_token::Token;
use sl_tree::{ExprTree, TypeWord};
use sqlite_items::Boxed;

/// What stands before the next token: nothing that is an operand yet, an operand, an operand and a dot, or the word of a
/// conversion or a cast.
#[derive(Debug, Drop)]
pub enum Mode {
    Expected,
    Value(ExprTree),
    Dotted(ExprTree),
    Converting(TypeWord, Token),
}

/// A step leads on, with how far another way goes if there is one; or the expression ends; or no token goes on.
#[derive(Debug, Drop)]
pub enum Step<'a> {
    On(Option<FarthestFailure>, Mode, Cursor<'a>),
    Ends(ExprTree, Cursor<'a>),
    Refused(Cursor<'a>),
}

/// A source in which so many forms of each kind are open around an expression, and where the expression is too long.
#[derive(Clone, Copy)]
pub struct Around<'a> {
    pub source: Source<'a>,
    pub open: Nesting,
    pub long: Option<Told>,
}

impl Around<'_> {
    ghost use Rattle.sl_machine.specs.Long.{long_in};
    ghost use Rattle.sl_cursor.specs.Nestings.{nesting_in};

    /// A token that is an operand by its sign, or begins one.
    pub fn start<'a>(
        &self,
        frames: &mut Frames,
        sign: Start,
        token: Token,
        place: &Cursor<'a>,
    ) -> Result<Step<'a>, NoMemory>
        ensures { IfOk result (λ step. step_in self.now.source.bytes.now frames.new step
            ≡ machine.start_by (nesting_in self.now.open) (long_in self.now) (Some (start_in sign))
            (frames_in self.now.source.bytes.now frames.old)
            (token_in self.now.source.bytes.now token) (place_in self.now.source.bytes.now place.now)) }
    {
        match sign {
            Start::True => Ok(stands(ExprTree::BooleanLiteral(true, token), place)),
            Start::False => Ok(stands(ExprTree::BooleanLiteral(false, token), place)),
            Start::Itself => Ok(stands(ExprTree::Itself(token), place)),
            Start::OwnType => Ok(stands(ExprTree::OwnType(token), place)),
            Start::Scalar(word) => Ok(Step::On(
                None,
                Mode::Converting(word, token),
                place.advance(),
            )),
            Start::Bracket => {
                let behind = self.bracket(frames, place);
                frames.push(Frame::InGroup(token))?;
                Ok(Step::On(None, Mode::Expected, behind))
            }
            Start::Unary(operator) => {
                let behind = self.prefix(frames, place);
                frames.push(Frame::Prefix(operator, token))?;
                Ok(Step::On(None, Mode::Expected, behind))
            }
        }
    }

    /// The place behind a bracket that opens inside frames.
    pub fn bracket<'a>(&self, frames: &Frames, place: &Cursor<'a>) -> Cursor<'a>
        ensures { (source : List ℕ) → place_in source result
            ≡ advance (machine.bracket_opens (nesting_in self.now.open)
            (frames_in source frames.now)) (place_in source place.now) }
    {
        place.open(is_too_deep(self.open.brackets, frames.brackets()))
    }

    // The place behind an operator before its operand inside frames.
    fn prefix<'a>(&self, frames: &Frames, place: &Cursor<'a>) -> Cursor<'a>
        ensures { (source : List ℕ) → place_in source result
            ≡ advance (machine.unary_opens (nesting_in self.now.open)
            (frames_in source frames.now)) (place_in source place.now) }
    {
        place.open(is_too_deep(self.open.unary, frames.unary()))
    }

    /// A mark where an operand may stand: it closes a call without arguments, or no token goes on.
    pub fn empty<'a>(
        &self,
        frames: &mut Frames,
        token: Token,
        place: &Cursor<'a>,
    ) -> Result<Step<'a>, NoMemory>
        ensures { IfOk result (λ step. step_in self.now.source.bytes.now frames.new step
            ≡ machine.empty_by (is_text (codes ")") (symbol (token_in self.now.source.bytes.now token)))
            (frames_in self.now.source.bytes.now frames.old)
            (place_in self.now.source.bytes.now place.now)) }
    {
        if !is_sign(self.source.bytes, token, ")") {
            return Ok(Step::Refused(*place));
        }
        let Some(frame) = frames.pop() else {
            return Ok(Step::Refused(*place));
        };
        match frame.call(self.source.alloc)? {
            Some(call) => Ok(stands(call, place)),
            None => Ok(Step::Refused(*place)),
        }
    }

    /// A bracket behind the word of a conversion or a cast.
    pub fn conversion<'a>(
        &self,
        frames: &mut Frames,
        word: TypeWord,
        first: Token,
        token: Token,
        place: &Cursor<'a>,
    ) -> Result<Step<'a>, NoMemory>
        ensures { let source = self.now.source.bytes.now in IfOk result (λ step. step_in source frames.new step
            ≡ machine.conversion_by (nesting_in self.now.open) (long_in self.now) (is_text (codes "(") (symbol
            (token_in source token)))
            (is_text (codes ")") (symbol (token_in source token))) (word_of word) (token_in source first)
            (frames_in source frames.old) (place_in source place.now)) }
    {
        if is_sign(self.source.bytes, token, "(") {
            let behind = self.bracket(frames, place);
            frames.push(Frame::InFunctionalCast(word, first))?;
            Ok(Step::On(None, Mode::Expected, behind))
        } else {
            self.cast(frames, word, first, token, place)
        }
    }

    // The mark `)` behind the word of a cast.
    fn cast<'a>(
        &self,
        frames: &mut Frames,
        word: TypeWord,
        first: Token,
        token: Token,
        place: &Cursor<'a>,
    ) -> Result<Step<'a>, NoMemory>
        ensures { let source = self.now.source.bytes.now in IfOk result (λ step. step_in source frames.new step
            ≡ machine.cast_by (is_text (codes ")") (symbol (token_in source token))) (word_of word)
            (token_in source first)
            (frames_in source frames.old) (place_in source place.now)) }
    {
        if !is_sign(self.source.bytes, token, ")") {
            return Ok(Step::Refused(*place));
        }
        let Some(frame) = frames.pop() else {
            return Ok(Step::Refused(*place));
        };
        match frame.cast(word, first) {
            Some(casting) => {
                frames.push(casting)?;
                Ok(Step::On(None, Mode::Expected, place.advance()))
            }
            None => Ok(Step::Refused(*place)),
        }
    }

    /// The name behind a dot.
    pub fn member<'a>(
        &self,
        base: ExprTree,
        token: Token,
        place: &Cursor<'a>,
    ) -> Result<Step<'a>, NoMemory>
        ensures { let source = self.now.source.bytes.now in (frames : List Frame)
            → IfOk result (λ step. step_in source frames step
            ≡ machine.member_by (names (symbol (token_in source token))) (expr_in source base) (token_in source token)
            (frames_in source frames) (place_in source place.now)) }
    {
        if is_name(self.source.bytes, token) {
            Ok(stands(
                ExprTree::Member(Boxed::new(self.source.alloc, base)?, token),
                place,
            ))
        } else {
            Ok(Step::Refused(*place))
        }
    }
}

/// An operand stands before the place behind the next token.
pub fn stands<'a>(value: ExprTree, place: &Cursor<'a>) -> Step<'a>
    ensures { (source : List ℕ) (frames : List Frame) → step_in source frames result
        ≡ machine.stands (frames_in source frames) (expr_in source value) (advance plain (place_in source place.now)) }
{
    Step::On(None, Mode::Value(value), place.advance())
}
