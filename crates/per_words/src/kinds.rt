//! What stands around a call that is made alone.

ghost use Rattle.std.specs.Prelude.{◌≡◌, ◌||◌, is_some};
ghost use Rattle.std.specs.Str.{bytes_eq};
ghost use Rattle.per_words.specs.Words.{call_kind, call_word, changes_files, changes_keys, is_of_application};
ghost use Rattle.per_words.specs.Words.{is_of_closed, reads_files, reads_keys, takes_manifest};

/// What is done around a call of a storage that is made alone.
#[derive(Clone, Copy)]
pub enum CallKind {
    /// The storage is closed.
    Closed,
    /// The call reads keys.
    ReadsKeys,
    /// It changes keys, which are then synchronised.
    ChangesKeys,
    /// It reads files.
    ReadsFiles,
    /// It changes files, which are then closed.
    ChangesFiles,
}

/// Whether the word is that of a call that can be made alone.
pub fn is_call(call: &[u8]) -> bool
    ensures { result ≡ takes_manifest call.now || (is_of_application call.now || is_some (call_kind call.now)) }
{
    takes_manifest(call) || is_of_application(call) || call_kind(call).is_some()
}

/// Whether the call takes a manifest.
pub fn takes_manifest(call: &[u8]) -> bool
    ensures { result ≡ takes_manifest call.now }
{
    is_word(call, b"install") || is_word(call, b"update")
}

/// Whether the call is of an application alone.
pub(crate) fn is_of_application(call: &[u8]) -> bool
    ensures { result ≡ is_of_application call.now }
{
    is_word(call, b"status")
        || is_word(call, b"finish")
        || is_word(call, b"rollback")
        || is_word(call, b"wipe")
}

/// What is done around the call with this word, where it is one of a storage.
pub(crate) fn call_kind(call: &[u8]) -> Option<CallKind>
    ensures { result ≡ call_kind call.now }
{
    if is_of_closed(call) {
        Some(CallKind::Closed)
    } else if reads_keys(call) {
        Some(CallKind::ReadsKeys)
    } else if changes_keys(call) {
        Some(CallKind::ChangesKeys)
    } else if reads_files(call) {
        Some(CallKind::ReadsFiles)
    } else if changes_files(call) {
        Some(CallKind::ChangesFiles)
    } else {
        None
    }
}

fn is_of_closed(call: &[u8]) -> bool
    ensures { result ≡ is_of_closed call.now }
{
    is_word(call, b"recover-storage") || is_word(call, b"reset-storage")
}

fn reads_keys(call: &[u8]) -> bool
    ensures { result ≡ reads_keys call.now }
{
    is_word(call, b"keys")
        || is_word(call, b"exists")
        || is_word(call, b"get")
        || is_word(call, b"get-as")
}

fn changes_keys(call: &[u8]) -> bool
    ensures { result ≡ changes_keys call.now }
{
    is_word(call, b"set")
        || is_word(call, b"remove")
        || is_word(call, b"remove-all")
        || is_word(call, b"recover-key")
        || is_word(call, b"reset-key")
}

fn reads_files(call: &[u8]) -> bool
    ensures { result ≡ reads_files call.now }
{
    is_word(call, b"ls")
        || is_word(call, b"files")
        || is_word(call, b"file-exists")
        || is_word(call, b"size-of")
        || is_word(call, b"info")
        || is_word(call, b"cat")
}

fn changes_files(call: &[u8]) -> bool
    ensures { result ≡ changes_files call.now }
{
    is_word(call, b"put")
        || is_word(call, b"delete")
        || is_word(call, b"recover-file")
        || is_word(call, b"reset-file")
}

/// The word of the call in a line.
pub fn call_word(call: &[u8]) -> &[u8]
    ensures { result.now ≡ call_word call.now }
{
    if is_word(call, b"ls") { b"files" } else { call }
}

/// Whether the text is this word.
pub(crate) fn is_word(text: &[u8], word: &[u8]) -> bool
    ensures { result ≡ bytes_eq text.now word.now }
{
    text == word
}
