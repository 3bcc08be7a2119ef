//! What threads can send to each other and share.

use crate::key::Key;
use crate::request::{Reply, Request};
use crate::shared::Shared;
use crate::value::{Ty, Value};
use qe_rules::Cycle;
use sl_base::{Diag, List, Name};

/// Keys, requests and replies, and what answers hold but for the trees of modules, can be sent to other
/// threads and shared with them: this function is only accepted where that is proved.
pub fn can_be_shared() {
    crosses::<Key>();
    crosses::<Shared<Key>>();
    crosses::<Shared<Cycle<Key>>>();
    crosses::<Shared<List<Name>>>();
    crosses::<Shared<Ty>>();
    crosses::<Shared<Value>>();
    crosses::<Diag>();
    crosses::<Request>();
    crosses::<Reply>();
}

// A type whose values can be sent and shared.
fn crosses<T: Send + Sync>() {}
