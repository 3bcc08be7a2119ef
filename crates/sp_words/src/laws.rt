//! Laws: that bytes are the spelling of one module at most, and that the constants of this crate are
//! the numbers that its definitions cite.

ghost use Rattle.sp_words.specs.Decoding.{OneAnswer, OneSpelling};
ghost use Rattle.sp_words.specs.Numbers.{EnumerantsAgree, OpcodesAgree};

/// No spelling of a module equals the spelling of another.
pub fn one_spelling()
    ensures { OneSpelling }
{}

/// Bytes decode to one module, or to one refusal.
pub fn one_answer()
    ensures { OneAnswer }
{}

/// Each constant of `opcode` is the definitions' opcode of that name.
pub fn opcodes_agree()
    ensures { OpcodesAgree }
{}

/// Each constant of `enumerant` is the definitions' enumerant of that name.
pub fn enumerants_agree()
    ensures { EnumerantsAgree }
{}
