//! The marks.

ghost use Rattle.std.specs.Prelude.{◌≡◌, find, length, nat_eq};
ghost use Rattle.std.specs.List.{starts_with};
ghost use Rattle.std.specs.Option.{option_copied, option_map};
ghost use Rattle.def_token.specs.Mark.{marks};

// A mark stands before those that it begins with.
const MARKS: [&str; 42] = [
    "<<=", "::", "<<", "<=", "==", "!=", "&&", "||", "+=", "-=", "*=", "/=", "%=", "&=", "|=",
    "^=", "++", "--", "{", "}", "(", ")", "[", "]", ";", ",", ".", ":", "?", "<", ">", "=", "+",
    "-", "*", "/", "%", "&", "|", "^", "~", "!",
];

/// How many bytes the longest mark has that a text begins with, if there is one.
pub fn mark_len(text: &[u8]) -> Option<usize>
    ensures { result ≡ option_map length (find (starts_with nat_eq text.now) marks) }
{
    let mark = find_mark(&MARKS, text)?;
    Some(mark.len())
}

fn find_mark<'a>(marks: &'a [&'a str], text: &[u8]) -> Option<&'a &'a str>
    ensures { option_copied result ≡ find (λ mark. starts_with nat_eq text.now mark.now) marks.now }
{
    marks.iter().find(|mark| text.starts_with(mark.as_bytes()))
}
