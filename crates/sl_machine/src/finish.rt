//! Forms that a mark ends or leads on.

ghost use Rattle.std.specs.Prelude.{◌≡◌, ℕ, List, IfOk};
ghost use Rattle.std.specs.Option.{option_map};
ghost use Rattle.sl_token.specs.View.{token_in};
ghost use Rattle.sl_tree.specs.View.{expr_in, word_of};
ghost use Rattle.sl_machine.specs.Framed.{frame_in};
ghost use Rattle.sl_machine.specs.Finish.{called, casting, chosen, closed, indexed, separated};

use crate::frames::Frame;
use sl_base::NoMemory;
use sl_token::Token;
use sl_tree::{ExprTree, TypeWord};
use sqlite_items::Boxed;
use std::alloc::Global;

impl Frame {
    /// The form that `)` ends behind its last part, if this is one.
    pub fn close(self, alloc: Global, last: ExprTree) -> Result<Option<ExprTree>, NoMemory>
        ensures { (source : List ℕ) → IfOk result (λ whole. option_map (expr_in source) whole
            ≡ closed (frame_in source self) (expr_in source last)) }
    {
        match self {
            Frame::InGroup(opening) => Ok(Some(ExprTree::Group(opening, Boxed::new(alloc, last)?))),
            Frame::InFunctionalCast(word, first) => {
                Ok(Some(ExprTree::FunctionalCast(word, first, Boxed::new(alloc, last)?)))
            }
            Frame::InCall(callee, opening, mut args) => {
                args.push(last)?;
                Ok(Some(ExprTree::Call(Boxed::new(alloc, callee)?, opening, args)))
            }
            other => {
                discard(other);
                Ok(None)
            }
        }
    }

    /// The form that `]` ends behind its last part, if this is one.
    pub fn index(self, alloc: Global, last: ExprTree) -> Result<Option<ExprTree>, NoMemory>
        ensures { (source : List ℕ) → IfOk result (λ whole. option_map (expr_in source) whole
            ≡ indexed (frame_in source self) (expr_in source last)) }
    {
        match self {
            Frame::InIndex(base, opening) => {
                let base = Boxed::new(alloc, base)?;
                Ok(Some(ExprTree::Index(base, opening, Boxed::new(alloc, last)?)))
            }
            other => {
                discard(other);
                Ok(None)
            }
        }
    }

    /// The call without arguments that `)` ends, if this is one.
    pub fn call(self, alloc: Global) -> Result<Option<ExprTree>, NoMemory>
        ensures { (source : List ℕ) → IfOk result (λ whole. option_map (expr_in source) whole
            ≡ called (frame_in source self)) }
    {
        match self {
            Frame::InCall(callee, opening, args) => {
                if args.is_empty() {
                    Ok(Some(ExprTree::Call(Boxed::new(alloc, callee)?, opening, args)))
                } else {
                    Ok(None)
                }
            }
            other => {
                discard(other);
                Ok(None)
            }
        }
    }

    /// The condition and its first arm that `:` ends, if this is one.
    pub fn choose(self, last: ExprTree) -> Option<Frame>
        ensures { (source : List ℕ) → option_map (frame_in source) result
            ≡ chosen (frame_in source self) (expr_in source last) }
    {
        match self {
            Frame::Asked(condition, question) => Some(Frame::Chosen(condition, question, last)),
            other => {
                discard(other);
                None
            }
        }
    }

    /// The call with one more argument that a comma ends, if this is one.
    pub fn separate(self, last: ExprTree) -> Result<Option<Frame>, NoMemory>
        ensures { (source : List ℕ) → IfOk result (λ call. option_map (frame_in source) call
            ≡ separated (frame_in source self) (expr_in source last)) }
    {
        match self {
            Frame::InCall(callee, opening, mut args) => {
                args.push(last)?;
                Ok(Some(Frame::InCall(callee, opening, args)))
            }
            other => {
                discard(other);
                Ok(None)
            }
        }
    }

    /// The cast that a group is which ends behind a word, if this is one.
    pub fn cast(self, word: TypeWord, first: Token) -> Option<Frame>
        ensures { (source : List ℕ) → option_map (frame_in source) result
            ≡ casting (frame_in source self) (word_of word) (token_in source first) }
    {
        match self {
            Frame::InGroup(opening) => Some(Frame::Casting(opening, word, first)),
            other => {
                discard(other);
                None
            }
        }
    }
}

/// Ends a form that no mark ends.
pub fn discard(_frame: Frame) {}

/// Ends a tree that is not read.
pub fn release(_tree: ExprTree) {}
