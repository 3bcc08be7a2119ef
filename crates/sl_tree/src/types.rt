//! Trees of types.

ghost use Rattle.std.specs.Prelude.{◌≡◌, codes, find};
ghost use Rattle.std.specs.Option.{option_map};
ghost use Rattle.std.specs.Str.{bytes_eq};

use sl_base::{List, Row, find_row};
use sl_token::Token;
use sqlite_items::Items;

/// A word that is a type.
#[derive(Clone, Copy, Debug, PartialEq, Eq)]
pub enum TypeWord {
    Int,
    Uint,
    Int64,
    Uint64,
    Bool,
    Void,
    Uint3,
    This,
}

const WORDS: [Row<TypeWord>; 8] = [
    ("int", TypeWord::Int),
    ("uint", TypeWord::Uint),
    ("int64_t", TypeWord::Int64),
    ("uint64_t", TypeWord::Uint64),
    ("bool", TypeWord::Bool),
    ("void", TypeWord::Void),
    ("uint3", TypeWord::Uint3),
    ("This", TypeWord::This),
];

impl TypeWord {
    ghost use Rattle.def_tree.specs.TypeTree.{is_scalar, type_words, word_text};
    ghost use Rattle.sl_tree.specs.View.{word_of};

    /// The word that a text is, if it is one.
    pub fn of(text: &[u8]) -> Option<TypeWord>
        ensures { option_map word_of result
            ≡ find (λ word. bytes_eq text.now (codes (word_text word))) type_words }
    {
        let row = find_row(&WORDS, text)?;
        Some(row.1)
    }

    /// Whether casts are made of the word.
    pub fn is_scalar(self) -> bool
        ensures { result ≡ is_scalar (word_of self) }
    {
        match self {
            TypeWord::Int | TypeWord::Uint | TypeWord::Int64 | TypeWord::Uint64 | TypeWord::Bool =>
                true,
            TypeWord::Void | TypeWord::Uint3 | TypeWord::This => false,
        }
    }
}

/// A type, with the names behind its dots.
#[derive(Debug, Drop)]
pub enum TypeTree {
    /// A word.
    Word {
        word: TypeWord,
        first: Token,
        path: List<Token>,
    },
    /// A name with its type arguments, if there are any.
    Named {
        first: Token,
        args: Items<TypeTree>,
        path: List<Token>,
    },
}
