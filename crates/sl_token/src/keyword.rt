//! The words that are no names of declarations.

ghost use Rattle.std.specs.Prelude.{◌≡◌};
ghost use Rattle.std.specs.List.{list_any};
ghost use Rattle.std.specs.Str.{bytes_eq};
ghost use Rattle.def_slang.specs.Keyword.{is_keyword};

const KEYWORDS: [&str; 44] = [
    "module",
    "import",
    "__exported",
    "public",
    "internal",
    "private",
    "typealias",
    "static",
    "const",
    "struct",
    "interface",
    "extension",
    "where",
    "mutating",
    "override",
    "associatedtype",
    "in",
    "inout",
    "vk",
    "binding",
    "StructuredBuffer",
    "RWStructuredBuffer",
    "shader",
    "numthreads",
    "int",
    "uint",
    "int64_t",
    "uint64_t",
    "bool",
    "void",
    "uint3",
    "This",
    "return",
    "break",
    "continue",
    "if",
    "else",
    "while",
    "for",
    "let",
    "var",
    "true",
    "false",
    "this",
];

/// Whether a word is one of the grammar, and so no name of a declaration.
pub fn is_keyword(word: &[u8]) -> bool
    ensures { result ≡ is_keyword word.now }
{
    contains(&KEYWORDS, word)
}

fn contains(words: &[&str], word: &[u8]) -> bool
    ensures { result ≡ list_any (λ other. bytes_eq word.now other.now) words.now }
{
    words.iter().any(|other| word == other.as_bytes())
}
