//! Modules that are one entry point, which writes one number into one buffer.

ghost use Rattle.std.specs.Prelude.{◌≡◌, ◌<◌, ◌≤◌, ◌*◌, ◌↔◌, IsTrue, IfOk, IfSome, IfNone, IsSomeAnd};
ghost use Rattle.std.specs.Fmt.{decimal};
ghost use Rattle.def_slang.specs.BufferWrite as form;
ghost use Rattle.def_slang.specs.BufferWrite.{tokens_of, IsAllowed, IsBufferWrite, IsGroup, is_free_name};
ghost use Rattle.def_slang.specs.Token.{without_mark};
ghost use Rattle.sl_run.specs.Reading.{write_of, texts, HasSmallNumbers};

use crate::number::number;
use crate::token::tokens;
use sl_base::{NoMemory, is_name};
use sl_token::is_keyword;
use std::alloc::Global;

/// The UTF-8 byte order mark (Unicode, 23.8, "Specials").
const BYTE_ORDER_MARK: [u8; 3] = [0xEF, 0xBB, 0xBF];

/// The greatest number of threads of a group, along one axis and in all.
const MOST_THREADS: u32 = 1024;

/// The names of a module, the threads of a group along x, y and z, and the number that it writes.
#[derive(Clone, Copy, Debug)]
pub struct BufferWrite<'a> {
    pub buffer: &'a [u8],
    pub entry: &'a [u8],
    pub id: &'a [u8],
    pub threads: (u32, u32, u32),
    pub value: u32,
}

impl<'a> BufferWrite<'a> {
    /// The module that a text is, if it is one of this form.
    pub fn read(alloc: Global, text: &'a [u8]) -> Result<Option<BufferWrite<'a>>, NoMemory>
        ensures found { IfOk result (λ found.
            IfSome found (λ write. IsBufferWrite text.now (write_of write))) }
        ensures only { IfOk result (λ found. (w : form.BufferWrite) → IsBufferWrite text.now w
            → IsSomeAnd found (λ write. write_of write ≡ w)) }
    {
        let tokens = tokens(alloc, without_mark(text))?;
        match parsed(&tokens) {
            Some(write) if write.is_allowed() => Ok(Some(write)),
            _ => Ok(None),
        }
    }

    /// Whether its names and numbers are allowed.
    fn is_allowed(&self) -> bool
        ensures { IsTrue result ↔ IsAllowed (write_of self.now) }
    {
        is_free_name(self.buffer)
            && is_free_name(self.entry)
            && is_free_name(self.id)
            && self.buffer != self.entry
            && self.buffer != self.id
            && self.entry != self.id
            && is_group(self.threads)
            && self.value <= i32::MAX as u32
    }
}

/// Whether a word is a name that a declaration can have.
fn is_free_name(word: &[u8]) -> bool
    ensures { result ≡ is_free_name word.now }
{
    is_name(word) && !is_keyword(word)
}

/// Whether a group may have these numbers of threads along x, y and z.
fn is_group(threads: (u32, u32, u32)) -> bool
    ensures { IsTrue result ↔ IsGroup (threads.0, threads.1, threads.2) }
{
    let (x, y, z) = threads;
    is_axis(x) && is_axis(y) && is_axis(z) && product(x, y, z) <= MOST_THREADS
}

fn product(x: u32, y: u32, z: u32) -> u32
    requires x { x ≤ 1024 }
    requires y { y ≤ 1024 }
    requires z { z ≤ 1024 }
    ensures { result ≡ x * y * z }
{
    x * y * z
}

fn is_axis(threads: u32) -> bool
    ensures { IsTrue result ↔ (1 ≤ threads) × (threads ≤ 1024) }
{
    (1..=MOST_THREADS).contains(&threads)
}

/// A text behind its byte order mark, if it begins with one.
fn without_mark(text: &[u8]) -> &[u8]
    ensures { result.now ≡ without_mark text.now }
{
    if text.starts_with(&BYTE_ORDER_MARK) {
        &text[BYTE_ORDER_MARK.len()..]
    } else {
        text
    }
}

/// The tokens of four numbers: the threads along x, y and z, and the number written.
#[derive(Clone, Copy)]
struct Numbers<'a> {
    x: &'a [u8],
    y: &'a [u8],
    z: &'a [u8],
    value: &'a [u8],
}

/// How many tokens such a module has, and which of them are its names and numbers.
const TOKENS: usize = 41;

const BUFFER: usize = 4;

const X: usize = 15;

const Y: usize = 17;

const Z: usize = 19;

const ENTRY: usize = 23;

const ID: usize = 26;

const VALUE: usize = 38;

/// The module that these tokens are, whatever its names and numbers are.
fn parsed<'a>(tokens: &[&'a [u8]]) -> Option<BufferWrite<'a>>
    ensures some { IfSome result (λ write. texts tokens.now ≡ tokens_of (write_of write)) }
    ensures small { IfSome result (λ write. HasSmallNumbers (write_of write)) }
    ensures none { IfNone result ((w : form.BufferWrite) → HasSmallNumbers w
        → texts tokens.now ≡ tokens_of w → ⊥) }
{
    if tokens.len() != TOKENS {
        return None;
    }
    let numbers = Numbers {
        x: tokens[X],
        y: tokens[Y],
        z: tokens[Z],
        value: tokens[VALUE],
    };
    let write = BufferWrite {
        buffer: tokens[BUFFER],
        entry: tokens[ENTRY],
        id: tokens[ID],
        threads: (number(numbers.x)?, number(numbers.y)?, number(numbers.z)?),
        value: number(numbers.value)?,
    };
    if are_same(tokens, &spelling(&write, &numbers)) {
        Some(write)
    } else {
        None
    }
}

fn are_same(tokens: &[&[u8]], others: &[&[u8]]) -> bool
    ensures { IsTrue result ↔ (texts tokens.now ≡ texts others.now) }
{
    tokens == others
}

/// All tokens of a module.
#[rattlefmt::skip]
fn spelling<'a>(write: &BufferWrite<'a>, numbers: &Numbers<'a>) -> [&'a [u8]; TOKENS]
    requires x { numbers.now.x.now ≡ decimal write.now.threads.0 }
    requires y { numbers.now.y.now ≡ decimal write.now.threads.1 }
    requires z { numbers.now.z.now ≡ decimal write.now.threads.2 }
    requires value { numbers.now.value.now ≡ decimal write.now.value }
    ensures { texts result ≡ tokens_of (write_of write.now) }
{
    [
        b"RWStructuredBuffer", b"<", b"int", b">", write.buffer, b";",
        b"[", b"shader", b"(", b"\"compute\"", b")", b"]",
        b"[", b"numthreads", b"(", numbers.x, b",", numbers.y, b",", numbers.z, b")", b"]",
        b"void", write.entry, b"(", b"uint3", write.id, b":", b"SV_DispatchThreadID", b")",
        b"{",
        write.buffer, b"[", write.id, b".", b"x", b"]", b"=", numbers.value, b";",
        b"}",
    ]
}
