//! Keys of queries, their answers, and what requests ask and are replied.
#![tactic(auto)]

mod answer;
mod declarations;
mod fault;
mod flow;
mod key;
mod path;
mod request;
mod shared;
mod threads;
mod using;
mod value;

pub use answer::{Answer, Facts, Good, copy_diag};
pub use declarations::{Declarations, name_of};
pub use fault::Fault;
pub use flow::{Early, Flow};
pub use key::{Key, Kind};
pub use path::{DeclPath, Part};
pub use request::{Reply, Request, Term};
pub use shared::Shared;
pub use threads::can_be_shared;
pub use using::{alias_type, const_value, declarations_of, finish, modules_of};
pub use value::{Arithmetic, Ty, Value};

#[cfg(test)]
mod tests;
