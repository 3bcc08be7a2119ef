//! Numbers.

ghost use Rattle.std.specs.Prelude.{◌≡◌, ◌<◌, ◌≤◌, ◌^◌, nat_le, length, find, IfSome, IfNone, IsTrue};
ghost use Rattle.std.specs.Char.{is_ascii_digit, is_ascii_hexdigit};
ghost use Rattle.std.specs.List.{list_all, prefix_len};
ghost use Rattle.std.specs.Option.{option_copied, option_map};
ghost use Rattle.std.specs.Str.{bytes_eq};
ghost use Rattle.std.specs.Str.Parse.{digits_value};
ghost use Rattle.def_token.specs.Number as definition;
ghost use Rattle.sl_token.specs.Reading.{base_in, ranges_in, suffix_in};
ghost use Rattle.sl_token.specs.View.{number_in};

/// The type of a number.
#[derive(Clone, Copy, Debug, PartialEq, Eq)]
pub enum NumberType {
    Int,
    Uint,
    Int64,
    Uint64,
}

/// What a number is.
#[derive(Clone, Copy, Debug, PartialEq, Eq)]
pub struct Number {
    pub number_type: NumberType,
    pub value: u64,
}

/// How the digits of a number are written.
#[derive(Clone, Copy, Debug, PartialEq, Eq)]
enum Base {
    Decimal,
    Hexadecimal,
}

/// A type, and the greatest value that a number of it can have.
type Range = (NumberType, u64);

/// A suffix, and which types a decimal and a hexadecimal number with it can have.
#[derive(Clone, Copy, Debug)]
struct Suffix {
    text: &'static str,
    decimal: &'static [Range],
    hexadecimal: &'static [Range],
}

const INT: Range = (NumberType::Int, 2147483647);

const UINT: Range = (NumberType::Uint, 4294967295);

const INT64: Range = (NumberType::Int64, 9223372036854775807);

const UINT64: Range = (NumberType::Uint64, 18446744073709551615);

const SUFFIXES: [Suffix; 7] = [
    Suffix {
        text: "",
        decimal: &[INT],
        hexadecimal: &[INT, UINT],
    },
    Suffix {
        text: "u",
        decimal: &[UINT],
        hexadecimal: &[UINT],
    },
    Suffix {
        text: "U",
        decimal: &[UINT],
        hexadecimal: &[UINT],
    },
    Suffix {
        text: "ll",
        decimal: &[INT64],
        hexadecimal: &[INT64],
    },
    Suffix {
        text: "LL",
        decimal: &[INT64],
        hexadecimal: &[INT64],
    },
    Suffix {
        text: "ull",
        decimal: &[UINT64],
        hexadecimal: &[UINT64],
    },
    Suffix {
        text: "ULL",
        decimal: &[UINT64],
        hexadecimal: &[UINT64],
    },
];

/// The number that a word is, if it is one: decimal digits without a leading zero, or `0x` and
/// hexadecimal digits, and then a suffix, of a value that a type of the suffix has.
pub fn number_of(word: &[u8]) -> Option<Number>
    ensures some { IfSome result (λ number. definition.IsNumber word.now (number_in number)) }
    ensures none { IfNone result ((number : definition.Number) → definition.IsNumber word.now number → ⊥) }
    ensures value { option_map number_in result ≡ definition.number_of word.now }
{
    number_told(word)
}

/// The number of a word, by its prefix.
fn number_told(word: &[u8]) -> Option<Number>
    ensures { option_map number_in result ≡ definition.number_of word.now }
{
    if word.starts_with(b"0x") {
        number_behind(Base::Hexadecimal, &word[2..])
    } else {
        number_behind(Base::Decimal, word)
    }
}

/// The number of a text behind its prefix.
fn number_behind(base: Base, text: &[u8]) -> Option<Number>
    ensures { option_map number_in result ≡ definition.number_behind (base_in base) text.now }
{
    let (digits, suffix) = text.split_at(digits_len(base, text));
    number_by(base, digits, suffix)
}

/// The number of these digits with the suffix of this text.
fn number_by(base: Base, digits: &[u8], text: &[u8]) -> Option<Number>
    requires { IsTrue (list_all (definition.is_digit_of (base_in base)) digits.now) }
    ensures { option_map number_in result
        ≡ definition.number_by (base_in base) digits.now text.now }
{
    if digits.is_empty() || !may_lead(base, digits) {
        return None;
    }
    let suffix = suffix_of(text)?;
    let value = value_of(base, digits)?;
    number_with(ranges_of(base, &suffix), value)
}

/// How many digits a text begins with.
fn digits_len(base: Base, text: &[u8]) -> usize
    ensures { result ≡ prefix_len (definition.is_digit_of (base_in base)) text.now }
{
    match base {
        Base::Decimal => decimal_len(text),
        Base::Hexadecimal => hexadecimal_len(text),
    }
}

fn decimal_len(text: &[u8]) -> usize
    ensures { result ≡ prefix_len is_ascii_digit text.now }
{
    text.iter().take_while(|b| b.is_ascii_digit()).count()
}

fn hexadecimal_len(text: &[u8]) -> usize
    ensures { result ≡ prefix_len is_ascii_hexdigit text.now }
{
    text.iter().take_while(|b| b.is_ascii_hexdigit()).count()
}

/// Whether the digits are one zero or begin with another digit, as decimal ones do.
fn may_lead(base: Base, digits: &[u8]) -> bool
    requires { 0 < length digits.now }
    ensures { result ≡ definition.may_lead (base_in base) digits.now }
{
    match base {
        Base::Decimal => digits.len() <= 1 || digits[0] != b'0',
        Base::Hexadecimal => true,
    }
}

/// The value of digits, where it is below 2^64.
fn value_of(base: Base, digits: &[u8]) -> Option<u64>
    requires some { 0 < length digits.now }
    requires digits { IsTrue (list_all (definition.is_digit_of (base_in base)) digits.now) }
    ensures value { IfSome result
        (λ value. value ≡ digits_value (definition.radix_of (base_in base)) digits.now) }
    ensures large { IfNone result
        (2 ^ 64 ≤ digits_value (definition.radix_of (base_in base)) digits.now) }
{
    match str::from_utf8(digits) {
        Ok(text) => parsed(base, text),
        Err(_) => None,
    }
}

/// The value of a text of digits, where it is below 2^64.
fn parsed(base: Base, text: &str) -> Option<u64>
    requires some { 0 < length text.now }
    requires digits { IsTrue (list_all (definition.is_digit_of (base_in base)) text.now) }
    ensures value { IfSome result
        (λ value. value ≡ digits_value (definition.radix_of (base_in base)) text.now) }
    ensures large { IfNone result
        (2 ^ 64 ≤ digits_value (definition.radix_of (base_in base)) text.now) }
{
    match u64::from_str_radix(text, radix_of(base)) {
        Ok(value) => Some(value),
        Err(_) => None,
    }
}

fn radix_of(base: Base) -> u32
    ensures { result ≡ definition.radix_of (base_in base) }
{
    match base {
        Base::Decimal => 10,
        Base::Hexadecimal => 16,
    }
}

/// The suffix with this text.
fn suffix_of(text: &[u8]) -> Option<Suffix>
    ensures { option_map suffix_in result ≡ definition.suffix_of text.now }
{
    find_suffix(&SUFFIXES, text).copied()
}

fn find_suffix<'a>(suffixes: &'a [Suffix], text: &[u8]) -> Option<&'a Suffix>
    ensures { option_copied result
        ≡ find (λ suffix. bytes_eq text.now suffix.text.now) suffixes.now }
{
    suffixes
        .iter()
        .find(|suffix| text == suffix.text.as_bytes())
}

fn ranges_of(base: Base, suffix: &Suffix) -> &'static [Range]
    ensures { ranges_in result.now
        ≡ definition.ranges_of (base_in base) (suffix_in suffix.now) }
{
    match base {
        Base::Decimal => suffix.decimal,
        Base::Hexadecimal => suffix.hexadecimal,
    }
}

/// The number of a value, of the first type that has it.
fn number_with(ranges: &[Range], value: u64) -> Option<Number>
    ensures { option_map number_in result ≡ definition.number_with (ranges_in ranges.now) value }
{
    match find_range(ranges, value) {
        None => None,
        Some(range) => Some(Number {
            number_type: range.0,
            value,
        }),
    }
}

fn find_range(ranges: &[Range], value: u64) -> Option<&Range>
    ensures { option_copied result ≡ find (λ range. nat_le value range.1) ranges.now }
{
    ranges.iter().find(|range| value <= range.1)
}
