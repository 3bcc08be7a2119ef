//! Where looks ahead end that begin at one token.

/// Where a look ahead ends: whether something is found, and behind how many tokens the look ends.
#[derive(Clone, Copy, Debug, PartialEq, Eq)]
pub struct End {
    pub found: bool,
    pub many: usize,
}

/// Where looks end that begin at one token: for names behind dots, for a type, for types up to `>`.
#[derive(Clone, Copy, Debug, PartialEq, Eq)]
pub struct Ends {
    pub path: End,
    pub one: End,
    pub list: End,
}
