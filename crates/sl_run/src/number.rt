//! Decimal numbers.

ghost use Rattle.std.specs.Prelude.{◌≡◌, ℕ, ◌<◌, ◌^◌, false, IfSome, IfNone};
ghost use Rattle.std.specs.Fmt.{decimal};
ghost use Rattle.sl_run.specs.Number.{has_other_spelling};

/// The number below 2^32 that a token spells in decimal digits, without sign, suffix or leading
/// zero.
pub fn number(token: &[u8]) -> Option<u32>
    ensures spelled { IfSome result (λ n. token.now ≡ decimal n) }
    ensures none { IfNone result ((n : ℕ) → n < 2 ^ 32 → token.now ≡ decimal n → ⊥) }
{
    if has_other_spelling(token) {
        return None;
    }
    match str::from_utf8(token) {
        Ok(text) => parsed(text),
        Err(_) => None,
    }
}

fn parsed(text: &str) -> Option<u32>
    requires { has_other_spelling text.now ≡ false }
    ensures spelled { IfSome result (λ n. text.now ≡ decimal n) }
    ensures none { IfNone result ((n : ℕ) → n < 2 ^ 32 → text.now ≡ decimal n → ⊥) }
{
    match text.parse::<u32>() {
        Ok(n) => Some(n),
        Err(_) => None,
    }
}

/// Whether a plus or a zero stands before the first digit, which no number's one spelling has.
fn has_other_spelling(token: &[u8]) -> bool
    ensures { result ≡ has_other_spelling token.now }
{
    match token {
        [b'+', ..] => true,
        [b'0', ..] => token.len() > 1,
        _ => false,
    }
}
