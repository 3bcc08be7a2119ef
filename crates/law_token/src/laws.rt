//! Laws.

ghost use Rattle.def_token.specs.Lexical.{TextsAreDetermined, TokensAreSequences};
ghost use Rattle.def_token.specs.Number.{NumbersAreTold};
ghost use Rattle.def_token.specs.Lexed.{TokensAreTold};

/// A text has at most one list of tokens or at most one first fault, and not both.
pub fn texts_are_determined()
    ensures { TextsAreDetermined }
{}

/// The last token of a text alone is its end, and each other one fits its kind.
pub fn tokens_are_sequences()
    ensures { TokensAreSequences }
{}

/// The number of a word is the one that it spells.
pub fn numbers_are_told()
    ensures { NumbersAreTold }
{}

/// The tokens of a text, and its first lexical fault, are the ones that it has.
pub fn tokens_are_told()
    ensures { TokensAreTold }
{}
