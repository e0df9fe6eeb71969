//! Hashes and sealed texts.

ghost use Rattle.std.specs.Prelude.{◌≤◌, IfOk, length};
ghost use Rattle.hash_guard.specs.SealedText.{max_body};

use case_words::{CaseError, bytes_of, bytes_text, cut, number, text};
use hash_guard::{HEADER, MAX_BODY, hash, seal, seal_into, verify};
use std::alloc::Global;

/// A generation, and a body that can be sealed under it.
#[derive(Drop)]
pub struct Sealing {
    pub generation: u64,
    pub body: Vec<u8>,
}

/// `GENERATION:BYTES`, or with another character between them.
pub fn sealing_of(alloc: Global, word: &str, at: char) -> Result<Sealing, CaseError>
    ensures { IfOk result (λ s. (1 ≤ s.generation) × (length s.body.items ≤ max_body)) }
{
    let (generation, body) = cut(word, at);
    let generation = number(generation)?;
    let body = bytes_of(alloc, body)?;
    if generation == 0 || body.len() > MAX_BODY {
        return Err(CaseError::NoCase);
    }
    Ok(Sealing { generation, body })
}

/// `GENERATION:BYTES`: the sealed text.
pub fn sealed_text(alloc: Global, word: &str) -> Result<Vec<u8>, CaseError> {
    let Sealing { generation, body } = sealing_of(alloc, word, ':')?;
    Ok(seal(alloc, generation, &body)?)
}

/// `hash BYTES`: their SHA-256.
pub fn hash_of(alloc: Global, word: &str) -> Result<String, CaseError> {
    bytes_text(alloc, &hash(&bytes_of(alloc, word)?))
}

/// `seal GENERATION BYTES`: the sealed text, written to a new buffer and over other bytes.
pub fn sealed(alloc: Global, words: &str) -> Result<String, CaseError> {
    let Sealing { generation, body } = sealing_of(alloc, words, ' ')?;
    let sealed = seal(alloc, generation, &body)?;
    let mut room = vec![in alloc; 9; HEADER + body.len()]?;
    seal_into(&mut room, generation, &body);
    if room != sealed {
        return text(alloc, "two texts");
    }
    bytes_text(alloc, &sealed)
}

/// `verify BYTES`: the generation and the body of the sealed text at their start.
pub fn verified(alloc: Global, word: &str) -> Result<String, CaseError> {
    let slot = bytes_of(alloc, word)?;
    match verify(&slot) {
        None => text(alloc, "none"),
        Some(found) => {
            let generation = found.generation;
            let body = bytes_text(alloc, found.body)?;
            Ok(format!(in alloc; "{generation}={body}")?)
        }
    }
}
