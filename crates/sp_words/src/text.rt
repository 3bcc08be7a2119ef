//! Texts as words.

ghost use Rattle.std.specs.Prelude.{◌≡◌, ◌<◌, ◌++◌, [], ◌∷◌, length, OnOk, OnErr};
ghost use Rattle.sp_words.specs.Text.{AppendsSome};
ghost use Rattle.def_spirv.specs.Words.{text_words};

use sl_base::{List, NoMemory};

/// Puts the words of a text at the end: its bytes, a zero byte and zero padding, the first byte of
/// each word lowest (SPIR-V 1.5, 2.2.1, "Instructions").
///
/// Where memory runs out, the words that found room stay at the end.
pub fn push_text(operands: &mut List<u32>, text: &[u8]) -> Result<(), NoMemory>
    ensures ok { OnOk result (operands.new ≡ operands.old ++ text_words text.now) }
    ensures err { OnErr result (AppendsSome (text_words text.now) operands.old operands.new) }
{
    let mut rest = text;
    while let [a, b, c, d, tail @ ..] = rest {
        operands.push(u32::from_le_bytes([*a, *b, *c, *d]))?;
        rest = tail;
    }
    operands.push(last_word(rest))
}

fn last_word(rest: &[u8]) -> u32
    requires { length rest.now < 4 }
    ensures { result ∷ [] ≡ text_words rest.now }
{
    match rest {
        [] => 0,
        [a] => u32::from_le_bytes([*a, 0, 0, 0]),
        [a, b] => u32::from_le_bytes([*a, *b, 0, 0]),
        [a, b, c] => u32::from_le_bytes([*a, *b, *c, 0]),
        _ => unreachable!(),
    }
}
