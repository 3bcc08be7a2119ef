//! Single tokens of forms, and what is told where none goes on.

ghost use Rattle.std.specs.Prelude.{◌≡◌, suc, true};
ghost use Rattle.def_reading.specs.TypeAhead.{names};
ghost use Rattle.def_tree.specs.Limits.{opens, plain};
ghost use Rattle.sl_token.specs.View.{tokens_in};
ghost use Rattle.sl_cursor.specs.Signs.{ends, is_text, narrows, numbers, texts};

use crate::cursor::{Cursor, Told, is_too_deep};
use crate::reach::{further, reach_at, settled};
use crate::signs::{begins_with, is_end, is_name, is_narrow, is_number, is_sign, is_text};
use crate::source::{Here, Source, Unread};
use sl_base::code;
use sl_token::Token;

impl<'a> Here<'a> {
    ghost use Rattle.sl_cursor.specs.Following.{IsNoting};

    /// The same place, where a token opens too much, or not.
    pub fn noting(&self, deep: bool, at: usize, token: Token) -> Here<'a>
        ensures { IsNoting deep at token self.now result }
    {
        let limit = if deep && self.place.limit.is_none() {
            Some(Told {
                at,
                token,
                code: code::NESTING_TOO_DEEP,
            })
        } else {
            self.place.limit
        };
        Here {
            place: Cursor {
                at: self.place.at,
                limit,
                rest: self.place.rest,
            },
            reach: self.reach,
        }
    }
}

impl Source<'_> {
    ghost use Rattle.sl_cursor.specs.Following.{IsAt, MayOpen, MayPass, MustPass, Refuses, passes};

    /// No token goes on here.
    pub fn refused(&self, here: &Here<'_>) -> Unread
        ensures { Refuses self.now here.now result }
    {
        Unread::Refused(further(here.reach, reach_at(None, 0, &settled(&here.place))))
    }

    /// The next token, if there is one, and what stands behind it.
    pub fn token<'a>(&self, here: &Here<'a>) -> Option<(Token, Here<'a>)>
        requires { IsAt self.now here.now.place }
        ensures { MayPass self.now (λ symbol. true) here.now result }
    {
        match here.place.rest.split_first() {
            None => None,
            Some((token, _)) => Some((*token, here.advance())),
        }
    }

    /// The next token, if it is this sign, and what stands behind it.
    pub fn sign<'a>(&self, sign: &str, here: &Here<'a>) -> Option<(Token, Here<'a>)>
        requires { IsAt self.now here.now.place }
        ensures { MayPass self.now (is_text sign.now) here.now result }
    {
        match here.place.rest.split_first() {
            Some((token, _)) if is_sign(self.bytes, *token, sign) => {
                Some((*token, here.advance()))
            }
            _ => None,
        }
    }

    /// Whether the next token is this sign.
    pub fn stands(&self, sign: &str, here: &Here<'_>) -> bool
        ensures { result ≡ passes (is_text sign.now) (tokens_in self.now.bytes.now here.now.place.rest.now) }
    {
        begins_with(self.bytes, here.place.rest, sign)
    }

    /// Whether the next token is the end.
    pub fn ends(&self, here: &Here<'_>) -> bool
        ensures { result ≡ passes ends (tokens_in self.now.bytes.now here.now.place.rest.now) }
    {
        match here.place.rest.first() {
            None => false,
            Some(token) => is_end(self.bytes, *token),
        }
    }

    /// The end, and what stands behind it.
    pub fn end<'a>(&self, here: &Here<'a>) -> Result<(Token, Here<'a>), Unread>
        requires { IsAt self.now here.now.place }
        ensures { MustPass self.now ends plain here.now result }
    {
        match here.place.rest.split_first() {
            Some((token, _)) if is_end(self.bytes, *token) => Ok((*token, here.advance())),
            _ => Err(self.refused(here)),
        }
    }

    /// The next token, if it is a name, and what stands behind it.
    pub fn name<'a>(&self, here: &Here<'a>) -> Result<(Token, Here<'a>), Unread>
        requires { IsAt self.now here.now.place }
        ensures { MustPass self.now names plain here.now result }
    {
        match here.place.rest.split_first() {
            Some((token, _)) if is_name(self.bytes, *token) => Ok((*token, here.advance())),
            _ => Err(self.refused(here)),
        }
    }

    /// The next token, which is this sign, and what stands behind it.
    pub fn mark<'a>(&self, sign: &str, here: &Here<'a>) -> Result<(Token, Here<'a>), Unread>
        requires { IsAt self.now here.now.place }
        ensures { MustPass self.now (is_text sign.now) plain here.now result }
    {
        match self.sign(sign, here) {
            Some(found) => Ok(found),
            None => Err(self.refused(here)),
        }
    }

    /// The next token, if it is a number, and what stands behind it.
    pub fn number<'a>(&self, here: &Here<'a>) -> Result<(Token, Here<'a>), Unread>
        requires { IsAt self.now here.now.place }
        ensures { MustPass self.now numbers plain here.now result }
    {
        match here.place.rest.split_first() {
            Some((token, _)) if is_number(self.bytes, *token) => Ok((*token, here.advance())),
            _ => Err(self.refused(here)),
        }
    }

    /// The next token, if it is a number of a type of 32 bits, and what stands behind it.
    pub fn narrow<'a>(&self, here: &Here<'a>) -> Result<(Token, Here<'a>), Unread>
        requires { IsAt self.now here.now.place }
        ensures { MustPass self.now narrows plain here.now result }
    {
        match here.place.rest.split_first() {
            Some((token, _)) if is_narrow(self.bytes, *token) => Ok((*token, here.advance())),
            _ => Err(self.refused(here)),
        }
    }

    /// The next token, if it is a string, and what stands behind it.
    pub fn text<'a>(&self, here: &Here<'a>) -> Result<(Token, Here<'a>), Unread>
        requires { IsAt self.now here.now.place }
        ensures { MustPass self.now texts plain here.now result }
    {
        match here.place.rest.split_first() {
            Some((token, _)) if is_text(self.bytes, *token) => Ok((*token, here.advance())),
            _ => Err(self.refused(here)),
        }
    }

    /// A mark that opens a form, of which so many are open around it, if it is the next token.
    pub fn opening_if<'a>(
        &self,
        mark: &str,
        around: usize,
        here: &Here<'a>,
    ) -> Option<(Token, Here<'a>)>
        requires { IsAt self.now here.now.place }
        ensures { MayOpen self.now (is_text mark.now) (opens (suc around)) here.now result }
    {
        let Some((opening, behind)) = self.sign(mark, here) else {
            return None;
        };
        let deep = is_too_deep(around, 0);
        Some((opening, behind.noting(deep, here.place.at, opening)))
    }

    /// A mark that opens a form, of which so many are open around it, and what stands behind it.
    pub fn opening<'a>(
        &self,
        mark: &str,
        around: usize,
        here: &Here<'a>,
    ) -> Result<(Token, Here<'a>), Unread>
        requires { IsAt self.now here.now.place }
        ensures { MustPass self.now (is_text mark.now) (opens (suc around)) here.now result }
    {
        match self.opening_if(mark, around, here) {
            Some(found) => Ok(found),
            None => Err(self.refused(here)),
        }
    }
}
