//! Modules that are held in memory.

ghost use Rattle.std.specs.Prelude.{◌≡◌, ◌≢◌, Some, None, IfSome, IsNone, find, option_map};
ghost use Rattle.std.specs.Str.{bytes_eq};
ghost use Rattle.sl_io.specs.Root.{bytes_of};
ghost use Rattle.sl_roots.specs.Held.{held_answer};

use sl_base::{Bytes, List, Name};
use sl_io::Fetched;
use std::alloc::Global;

/// A copy of the bytes of the first module with a name, where they are at most `max`.
pub fn fetch_held(alloc: Global, files: &List<(Name, Bytes)>, name: &Name, max: usize) -> Fetched
    ensures { result ≢ Fetched.NoMemory → result ≡ held_answer files.now name.now max }
{
    match bytes_of(files, name) {
        None => Fetched::Absent,
        Some(bytes) if max < bytes.len() => Fetched::TooLarge,
        Some(bytes) => match Bytes::from_slice(alloc, bytes) {
            Ok(bytes) => Fetched::Found(bytes),
            Err(_) => Fetched::NoMemory,
        },
    }
}

/// The bytes of the first module with a name.
pub fn bytes_of<'a>(files: &'a List<(Name, Bytes)>, name: &Name) -> Option<&'a [u8]>
    ensures some { IfSome result (λ bytes. bytes_of files.now name.now ≡ Some bytes.now) }
    ensures none { IsNone result → bytes_of files.now name.now ≡ None }
{
    match first_named(files.as_slice(), name) {
        Some(file) => Some(file.1.as_slice()),
        None => None,
    }
}

/// The first module with a name.
fn first_named<'a>(files: &'a [(Name, Bytes)], name: &Name) -> Option<&'a (Name, Bytes)>
    ensures { option_map (λ file. file.now) result
        ≡ find (λ file. bytes_eq file.0 name.now) files.now }
{
    files.iter().find(|file| file.0.bytes() == name.bytes())
}
