//! What is open in an expression.

ghost use Rattle.std.specs.Prelude.{◌≡◌, ℕ, List, [], ◌∷◌, OnOk, IfOk, MatchOption};

use crate::closing::level;
use crate::finish::discard;
use sl_base::NoMemory;
use sl_token::Token;
use sl_tree::{ExprTree, Operator, TypeWord, UnaryOperator};
use sqlite_items::{Boxed, Items};
use std::alloc::Global;
use std::marker::Model;

/// What is open: an operator before its operand, a cast, a left operand with its operator, a condition with its `?`, a
/// condition and its first arm with the mark `?`, and brackets: of a group, a conversion, a call with the arguments
/// before the open one, an index.
#[derive(Debug, Drop)]
pub enum Frame {
    Prefix(UnaryOperator, Token),
    Casting(Token, TypeWord, Token),
    Left(ExprTree, Operator, Token),
    Asked(ExprTree, Token),
    Chosen(ExprTree, Token, ExprTree),
    InGroup(Token),
    InFunctionalCast(TypeWord, Token),
    InCall(ExprTree, Token, Items<ExprTree>),
    InIndex(ExprTree, Token),
}

/// Frames, of which the innermost is the first that contracts see. How many there are of some kinds is kept with them.
#[derive(Debug, Drop)]
pub struct Frames {
    items: Vec<Frame>,
    brackets: usize,
    unary: usize,
    asked: usize,
}

impl Model for Frames {
    ghost use Rattle.std.specs.Coded.{codes};
    ghost use Rattle.std.specs.Prelude.{◌≡◌, List, reverse};
    ghost use Rattle.sl_machine.specs.contracts.frames.Frame as frame;
    ghost use Rattle.sl_machine.specs.declared.frames.Frame.{Frame};
    ghost use Rattle.sl_machine.specs.Counts.{brackets_in, unary_in, asked_in};

    ghost Value = { List Frame };

    ghost coded = { Prim.hlevel (codes, frame.the_row.coded) };

    ghost view = { λ frames. reverse frames.items.items };

    ghost invariant = { λ frames. (frames.brackets ≡ brackets_in (reverse frames.items.items))
        × (frames.unary ≡ unary_in (reverse frames.items.items)) × (frames.asked
        ≡ asked_in (reverse frames.items.items)) };
}

impl Frames {
    ghost use Rattle.sl_machine.specs.Counts.{brackets_in, unary_in, asked_in};

    /// No frames.
    pub fn new(alloc: Global) -> Frames
        ensures { result ≡ [] }
    {
        Frames {
            items: Vec::new(alloc),
            brackets: 0,
            unary: 0,
            asked: 0,
        }
    }

    /// How many brackets are open.
    pub fn brackets(&self) -> usize
        ensures { result ≡ brackets_in self.now }
    {
        self.brackets
    }

    /// How many operators stand before their operands.
    pub fn unary(&self) -> usize
        ensures { result ≡ unary_in self.now }
    {
        self.unary
    }

    /// How many conditions stand before `?` without the mark `:`.
    pub fn asked(&self) -> usize
        ensures { result ≡ asked_in self.now }
    {
        self.asked
    }

    /// Puts a frame into the others.
    pub fn push(&mut self, frame: Frame) -> Result<(), NoMemory>
        ensures { OnOk result (self.new ≡ frame ∷ self.old) }
    {
        let (brackets, unary, asked) = frame.counts();
        self.items.push(frame)?;
        // Sums of what frames open are bounded by their number, which is in range once it was read.
        let _ = self.items.len();
        self.brackets += brackets;
        self.unary += unary;
        self.asked += asked;
        Ok(())
    }

    /// Takes the innermost frame.
    pub fn pop(&mut self) -> Option<Frame>
        ensures { MatchOption result ((self.old ≡ []) × (self.new ≡ [])) (λ frame. self.old ≡ frame ∷ self.new) }
    {
        let frame = self.items.pop()?;
        let (brackets, unary, asked) = frame.counts();
        self.brackets -= brackets;
        self.unary -= unary;
        self.asked -= asked;
        Some(frame)
    }
}

impl Frame {
    ghost use Rattle.sl_machine.specs.Counts.{counts_of};

    // How many of the kinds that are counted this is: a bracket, an operator before its operand, a condition before `?`.
    fn counts(&self) -> (usize, usize, usize)
        ensures { result ≡ counts_of self.now }
    {
        match self {
            Frame::InGroup(_)
            | Frame::InFunctionalCast(..)
            | Frame::InCall(..)
            | Frame::InIndex(..) => (1, 0, 0),
            Frame::Prefix(..) => (0, 1, 0),
            Frame::Asked(..) => (0, 0, 1),
            Frame::Casting(..) | Frame::Left(..) | Frame::Chosen(..) => (0, 0, 0),
        }
    }

    ghost use Rattle.sl_tree.specs.View.{expr_in};
    ghost use Rattle.sl_machine.specs.Framed.{frame_in};
    ghost use Rattle.sl_machine.specs.Joins.{binds, closes, join};
    ghost use Rattle.sl_machine.specs.Kept.{kept_tree};
    ghost use Rattle.def_reading.specs.Plain.{plain_tree};

    /// Whether the form is complete before the end of a whole expression.
    pub fn closes(&self) -> bool
        ensures { (source : List ℕ) → result ≡ closes (frame_in source self.now) }
    {
        match self {
            Frame::Prefix(..) | Frame::Casting(..) | Frame::Left(..) | Frame::Chosen(..) => true,
            _ => false,
        }
    }

    /// Whether the form is complete before an operator of this level.
    pub fn binds(&self, least: u32) -> bool
        ensures { (source : List ℕ) → result ≡ binds least (frame_in source self.now) }
    {
        match self {
            Frame::Prefix(..) | Frame::Casting(..) => true,
            Frame::Left(_, operator, _) => least <= level(*operator),
            _ => false,
        }
    }

    /// The form with its last part; what is not complete then is left out.
    pub fn join(self, alloc: Global, last: ExprTree) -> Result<ExprTree, NoMemory>
        ensures { (source : List ℕ) → IfOk result
            (λ whole. expr_in source whole ≡ join (frame_in source self) (expr_in source last)) }
    {
        match self {
            Frame::Prefix(operator, token) => Ok(ExprTree::Unary(
                operator,
                token,
                Boxed::new(alloc, last)?,
            )),
            Frame::Casting(opening, word, token) => Ok(ExprTree::Cast(
                opening,
                word,
                token,
                Boxed::new(alloc, last)?,
            )),
            Frame::Left(left, operator, token) => {
                let left = Boxed::new(alloc, left)?;
                Ok(ExprTree::Binary(operator, token, left, Boxed::new(alloc, last)?))
            }
            Frame::Chosen(condition, question, first) => {
                let condition = Boxed::new(alloc, condition)?;
                let first = Boxed::new(alloc, first)?;
                Ok(ExprTree::Conditional(condition, question, first, Boxed::new(alloc, last)?))
            }
            _ => Ok(last),
        }
    }

    // A leaf in place of the form with its last part; what is not complete then is left out.
    fn stub(&self, last: ExprTree) -> ExprTree
        ensures { (source : List ℕ) → plain_tree (expr_in source result)
            ≡ plain_tree (join (frame_in source self.now) (expr_in source last)) }
    {
        match self {
            Frame::Prefix(_, token) => leaf(*token, last),
            Frame::Casting(opening, _, _) => leaf(*opening, last),
            Frame::Left(_, _, token) => leaf(*token, last),
            Frame::Chosen(_, question, _) => leaf(*question, last),
            _ => last,
        }
    }

    /// The form with its last part, or a leaf in place of it where trees are not kept.
    pub fn joined(self, alloc: Global, last: ExprTree, keep: bool) -> Result<ExprTree, NoMemory>
        ensures { (source : List ℕ) → IfOk result
            (λ whole. kept_tree keep (expr_in source whole)
            ≡ kept_tree keep (join (frame_in source self) (expr_in source last))) }
    {
        if keep {
            return self.join(alloc, last);
        }
        let leaf = self.stub(last);
        discard(self);
        Ok(leaf)
    }
}

ghost use Rattle.def_reading.specs.Plain as plain;
ghost use Rattle.sl_tree.specs.View.{expr_in};

/// A leaf at a token in place of a tree.
pub fn leaf(token: Token, _tree: ExprTree) -> ExprTree
    ensures { (source : List ℕ) → plain.plain_tree (expr_in source result) ≡ plain.leaf }
{
    ExprTree::Itself(token)
}
