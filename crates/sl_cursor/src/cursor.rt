//! Places in tokens, what is told of them, and how far tokens are read.

ghost use Rattle.std.specs.Prelude.{◌≡◌, ℕ, suc, nat_lt, ◌+◌, ◌-◌, ◌<◌, ◌≤◌, ◌^◌, length, List, drop};
ghost use Rattle.def_reading.specs.Cursor as lists;
ghost use Rattle.sl_token.specs.View.{token_in};

use sl_base::code;
use sl_token::Token;

/// How many forms of a kind may be open at a place.
pub const MOST_OPEN: usize = 64;

/// How many tokens an expression may have.
pub const MOST_TOKENS: usize = 1024;

/// What is told: the number of a token, counted from 0, the token, and the code.
#[derive(Clone, Copy, Debug)]
pub struct Told {
    pub at: usize,
    pub token: Token,
    pub code: u16,
}

/// A place in tokens: how many stand before it, the first limit that ends at one of them, and those from it on.
#[derive(Clone, Copy, Debug)]
pub struct Cursor<'a> {
    pub at: usize,
    pub limit: Option<Told>,
    pub rest: &'a [Token],
    ghost fits: { at + length rest.now < 2 ^ 64 },
}

impl<'a> Cursor<'a> {
    ghost use Rattle.std.specs.Option.{option_map};
    ghost use Rattle.sl_token.specs.View.{tokens_in};
    ghost use Rattle.sl_cursor.specs.Seen.{IsAfter, deep_by, place_in, told_in};

    /// The place behind the next token.
    pub fn advance(&self) -> Cursor<'a>
        ensures { IsAfter self.now result }
    {
        match self.rest.split_first() {
            None => *self,
            Some((_, rest)) => Cursor {
                at: self.at + 1,
                limit: self.limit,
                rest,
            },
        }
    }

    /// The place behind the next token, which opens too much or not.
    pub fn open(&self, deep: bool) -> Cursor<'a>
        ensures { (source : List ℕ) → place_in source result ≡ lists.advance (deep_by deep) (place_in source self.now) }
    {
        match self.rest.split_first() {
            None => *self,
            Some((token, rest)) => Cursor {
                at: self.at + 1,
                limit: self.noted(deep, *token),
                rest,
            },
        }
    }

    // The first limit behind this token, which opens too much or not.
    fn noted(&self, deep: bool, token: Token) -> Option<Told>
        ensures { (source : List ℕ) → option_map (told_in source) result
            ≡ lists.noted (option_map (told_in source) self.now.limit) (deep_by deep) self.now.at
            (token_in source token) }
    {
        if self.limit.is_none() && deep {
            Some(Told {
                at: self.at,
                token,
                code: code::NESTING_TOO_DEEP,
            })
        } else {
            self.limit
        }
    }

    /// The place with another first limit.
    pub fn with_limit(&self, limit: Option<Told>) -> Cursor<'a>
        ensures place { (source : List ℕ) → place_in source result
            ≡ lists.At self.now.at (option_map (told_in source) limit) (tokens_in source self.now.rest.now) }
        ensures at { result.at ≡ self.now.at }
        ensures limit { result.limit ≡ limit }
        ensures rest { result.rest.now ≡ self.now.rest.now }
    {
        Cursor {
            at: self.at,
            limit,
            rest: self.rest,
        }
    }

    /// The place among the tokens here where another one stands, with the first limit there.
    pub fn follow(&self, other: &Cursor<'_>) -> Cursor<'a>
        requires behind { self.now.at ≤ other.now.at }
        requires within { other.now.at ≤ self.now.at + length self.now.rest.now }
        ensures at { result.at ≡ other.now.at }
        ensures limit { result.limit ≡ other.now.limit }
        ensures rest { result.rest.now ≡ drop (other.now.at - self.now.at) self.now.rest.now }
    {
        self.skip(other.at - self.at).with_limit(other.limit)
    }

    /// The place behind so many of the tokens, where nothing ends at them.
    pub fn skip(&self, many: usize) -> Cursor<'a>
        requires { many ≤ length self.now.rest.now }
        ensures place { (source : List ℕ) → place_in source result
            ≡ lists.At (self.now.at + many) (option_map (told_in source) self.now.limit) (drop many
            (tokens_in source self.now.rest.now)) }
        ensures limit { result.limit ≡ self.now.limit }
        ensures at { result.at ≡ self.now.at + many }
        ensures rest { result.rest.now ≡ drop many self.now.rest.now }
    {
        Cursor {
            at: self.at + many,
            limit: self.limit,
            rest: &self.rest[many..],
        }
    }
}

/// Whether one more form of a kind is one too many, where so many are open around what is read, and in it.
pub fn is_too_deep(around: usize, inside: usize) -> bool
    ensures { result ≡ nat_lt 64 (suc (around + inside)) }
{
    inside >= MOST_OPEN || around >= MOST_OPEN - inside
}

/// How far tokens are read in one way: how many of them, and what is told where no more are.
#[derive(Clone, Copy, Debug)]
pub struct FarthestFailure {
    pub many: usize,
    pub told: Told,
}
