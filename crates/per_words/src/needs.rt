//! What a line has at its places.

ghost use Rattle.std.specs.Prelude.{◌≡◌, option_map};
ghost use Rattle.per_words.specs.Flaws.{needed_after, needed_once, takes_element, takes_handle, takes_nothing};
ghost use Rattle.per_words.specs.Flaws.{takes_number, takes_storage, takes_text};

use crate::kinds::is_word;

/// What a line has at a place.
#[derive(Clone, Copy)]
pub enum Needed {
    /// The digit of an application, or `now`, or `end`.
    Application,
    /// The word of a call.
    CallWord,
    /// The name of a storage, a key or a file.
    Name,
    /// The number of a handle.
    Handle,
    /// A number of 64 bits.
    Number,
    /// The text of a type.
    TypeText,
    /// The text of a value.
    ValueText,
    /// A number with its type, alone or within a value.
    TypedNumber,
    /// Bytes in two digits each.
    Octets,
    /// One byte in two digits.
    Octet,
    /// The text of a manifest.
    Manifest,
    /// What a file is opened for.
    OpenKind,
    /// How it is opened.
    OpenMode,
    /// From where a position moves.
    Origin,
    /// How far it moves.
    Offset,
    /// Nothing more.
    End,
}

/// What is needed after the word of a call; none where the word is that of no call.
pub(crate) fn needed_after(call: &[u8]) -> Option<&'static [Needed]>
    ensures { option_map (λ n. n.now) result ≡ needed_after call.now }
{
    if takes_nothing(call) {
        Some(&[])
    } else if takes_text(call) {
        Some(&[Needed::Manifest])
    } else if takes_storage(call) {
        Some(&[Needed::Name])
    } else if takes_element(call) {
        Some(&[Needed::Name, Needed::Name])
    } else if takes_handle(call) {
        Some(&[Needed::Name, Needed::Handle])
    } else if takes_number(call) {
        Some(&[Needed::Name, Needed::Handle, Needed::Number])
    } else {
        needed_once(call)
    }
}

/// The same of a call that takes what no other does.
fn needed_once(call: &[u8]) -> Option<&'static [Needed]>
    ensures { option_map (λ n. n.now) result ≡ needed_once call.now }
{
    if is_word(call, b"get-as") {
        Some(&[Needed::Name, Needed::Name, Needed::TypeText])
    } else if is_word(call, b"set") {
        Some(&[Needed::Name, Needed::Name, Needed::ValueText])
    } else if is_word(call, b"put") {
        Some(&[Needed::Name, Needed::Name, Needed::Octets])
    } else if is_word(call, b"open-file") {
        Some(&[
            Needed::Name,
            Needed::Name,
            Needed::OpenKind,
            Needed::OpenMode,
        ])
    } else if is_word(call, b"line") {
        Some(&[Needed::Name, Needed::Handle, Needed::Octet])
    } else if is_word(call, b"write") {
        Some(&[Needed::Name, Needed::Handle, Needed::Octets])
    } else if is_word(call, b"move") {
        Some(&[Needed::Name, Needed::Handle, Needed::Origin, Needed::Offset])
    } else {
        None
    }
}

fn takes_nothing(call: &[u8]) -> bool
    ensures { result ≡ takes_nothing call.now }
{
    is_word(call, b"status")
        || is_word(call, b"finish")
        || is_word(call, b"rollback")
        || is_word(call, b"wipe")
        || is_word(call, b"update-next")
        || is_word(call, b"update-commit")
        || is_word(call, b"update-abort")
}

fn takes_text(call: &[u8]) -> bool
    ensures { result ≡ takes_text call.now }
{
    is_word(call, b"install") || is_word(call, b"update") || is_word(call, b"update-begin")
}

fn takes_storage(call: &[u8]) -> bool
    ensures { result ≡ takes_storage call.now }
{
    is_word(call, b"open-kvs")
        || is_word(call, b"open-files")
        || is_word(call, b"close")
        || is_word(call, b"size")
        || is_word(call, b"recover-storage")
        || is_word(call, b"reset-storage")
        || is_word(call, b"keys")
        || is_word(call, b"remove-all")
        || is_word(call, b"sync")
        || is_word(call, b"discard")
        || is_word(call, b"files")
}

fn takes_element(call: &[u8]) -> bool
    ensures { result ≡ takes_element call.now }
{
    is_word(call, b"exists")
        || is_word(call, b"get")
        || is_word(call, b"remove")
        || is_word(call, b"recover-key")
        || is_word(call, b"reset-key")
        || is_word(call, b"file-exists")
        || is_word(call, b"size-of")
        || is_word(call, b"info")
        || is_word(call, b"delete")
        || is_word(call, b"recover-file")
        || is_word(call, b"reset-file")
        || is_word(call, b"cat")
}

fn takes_handle(call: &[u8]) -> bool
    ensures { result ≡ takes_handle call.now }
{
    is_word(call, b"close-file")
        || is_word(call, b"peek")
        || is_word(call, b"byte")
        || is_word(call, b"read-all")
        || is_word(call, b"handle-size")
        || is_word(call, b"position")
        || is_word(call, b"eof")
        || is_word(call, b"flush")
}

fn takes_number(call: &[u8]) -> bool
    ensures { result ≡ takes_number call.now }
{
    is_word(call, b"read") || is_word(call, b"set-size") || is_word(call, b"seek")
}
