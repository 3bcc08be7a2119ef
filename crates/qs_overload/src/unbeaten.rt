//! Lists of costs that no other beats.

ghost use Rattle.std.specs.Prelude.{◌≡◌, ◌↔◌, ◌<◌, IsTrue, MatchOption, length};
ghost use Rattle.qs_overload.specs.Best.{HaveOneLength, IsUnbeaten};
ghost use Rattle.qs_overload.specs.Search.{AreBeaten, IsNextUnbeaten};

use crate::beats::beats;
use sl_base::List;

/// The number of a list that no other beats.
pub fn a_best(costs: &[List<u32>]) -> usize
    requires one_length { HaveOneLength costs.now }
    requires some { 0 < length costs.now }
    ensures { IsUnbeaten costs.now result }
{
    let mut best = 0;
    for (number, list) in costs.iter().enumerate() {
        if beats(list, &costs[best]) {
            best = number;
        }
    }
    best
}

/// The number of the first list from one on that no list beats; `best` is the number of one that many are beaten by.
pub fn next_unbeaten(costs: &[List<u32>], from: usize, best: usize) -> Option<usize>
    requires one_length { HaveOneLength costs.now }
    requires within { best < length costs.now }
    ensures { MatchOption result (AreBeaten costs.now from (length costs.now))
        (λ number. IsNextUnbeaten costs.now from number) }
{
    for number in from..costs.len() {
        if is_unbeaten(costs, number, best) {
            return Some(number);
        }
    }
    None
}

// Whether no list beats the one of a number. The list `best` is tried first.
fn is_unbeaten(costs: &[List<u32>], number: usize, best: usize) -> bool
    requires one_length { HaveOneLength costs.now }
    requires within { number < length costs.now }
    requires best { best < length costs.now }
    ensures { IsTrue result ↔ IsUnbeaten costs.now number }
{
    if beats(&costs[best], &costs[number]) {
        return false;
    }
    for other in costs {
        if beats(other, &costs[number]) {
            return false;
        }
    }
    true
}
