//! How far tokens are read.

ghost use Rattle.std.specs.Prelude.{◌≡◌, ℕ, List};
ghost use Rattle.std.specs.Option.{option_map};
ghost use Rattle.sl_token.specs.View.{tokens_in};
ghost use Rattle.def_reading.specs.Cursor as lists;
ghost use Rattle.def_reading.specs.Try.{settled};
ghost use Rattle.sl_cursor.specs.Seen.{place_in, reach_in, told_in};

use crate::cursor::{Cursor, FarthestFailure, Told};
use sl_base::code;

/// What is told, if it is told of the tokens before this one.
pub fn before(at: usize, told: Option<Told>) -> Option<Told>
    ensures { (source : List ℕ) → option_map (told_in source) result
        ≡ lists.before at (option_map (told_in source) told) }
{
    match told {
        Some(told) if told.at < at => Some(told),
        _ => None,
    }
}

/// The earlier of two that are told; at one token the first of these.
pub fn earlier(this: Option<Told>, other: Option<Told>) -> Option<Told>
    ensures { (source : List ℕ) → option_map (told_in source) result
        ≡ lists.earlier (option_map (told_in source) this) (option_map (told_in source) other) }
{
    match (this, other) {
        (Some(told), Some(another)) => Some(if another.at < told.at { another } else { told }),
        (Some(told), None) => Some(told),
        (None, other) => other,
    }
}

/// What is told at a place where no token goes on: the first limit on the way there, else E110 of the next token.
pub fn told_behind(limit: Option<Told>, place: &Cursor<'_>) -> Option<Told>
    ensures { (source : List ℕ) → option_map (told_in source) result
        ≡ lists.told_by (option_map (told_in source) limit) place.now.at (tokens_in source place.now.rest.now) }
{
    match limit {
        Some(told) => Some(told),
        None => unexpected(place),
    }
}

/// E110 of the next token, if there is one.
fn unexpected(place: &Cursor<'_>) -> Option<Told>
    ensures { (source : List ℕ) → option_map (told_in source) result
        ≡ lists.told_at 110 place.now.at (tokens_in source place.now.rest.now) }
{
    let Some((token, _)) = place.rest.split_first() else {
        return None;
    };
    Some(Told {
        at: place.at,
        token: *token,
        code: code::UNEXPECTED_TOKEN,
    })
}

/// How far tokens are read up to a place, by a tree that has at least so many tokens, if trees are too long at `long`.
pub fn reach_at(long: Option<Told>, least: usize, place: &Cursor<'_>) -> Option<FarthestFailure>
    ensures { (source : List ℕ) → option_map (reach_in source) result
        ≡ lists.reach_at (option_map (told_in source) long) least (place_in source place.now) }
{
    match told_behind(earlier(place.limit, before(least, long)), place) {
        Some(told) => Some(FarthestFailure {
            many: place.at,
            told,
        }),
        None => None,
    }
}

/// Whether what is told stands behind another; at one token E111 stands behind E112.
fn is_later(this: &Told, other: &Told) -> bool
    ensures { (source : List ℕ) → result ≡ lists.is_later (told_in source this.now) (told_in source other.now) }
{
    other.at < this.at || this.at == other.at && this.code < other.code
}

/// Whether a way counts more than another: it goes further, or as far and what is told of it is later.
fn counts_more(this: &FarthestFailure, other: &FarthestFailure) -> bool
    ensures { (source : List ℕ) → result
        ≡ lists.counts_more (reach_in source this.now) (reach_in source other.now) }
{
    other.many < this.many || this.many == other.many && is_later(&this.told, &other.told)
}

/// The one of two ways that counts.
pub fn further(
    this: Option<FarthestFailure>,
    other: Option<FarthestFailure>,
) -> Option<FarthestFailure>
    ensures { (source : List ℕ) → option_map (reach_in source) result
        ≡ lists.further (option_map (reach_in source) this) (option_map (reach_in source) other) }
{
    match (this, other) {
        (Some(one), Some(another)) => Some(if counts_more(&another, &one) {
            another
        } else {
            one
        }),
        (Some(one), None) => Some(one),
        (None, other) => other,
    }
}

/// The place, with the first limit that ends before it.
pub fn settled<'a>(place: &Cursor<'a>) -> Cursor<'a>
    ensures { (source : List ℕ) → place_in source result ≡ settled (place_in source place.now) }
{
    place.with_limit(before(place.at, place.limit))
}
