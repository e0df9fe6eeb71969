//! The vote among copies of a text: which text do at least m of the copies agree on?
//!
//! A copy that is missing or unreadable is `None`, and agrees with no text. Where several texts have
//! m copies, the one whose first copy comes first wins, so that every reader of the same copies comes
//! to the same answer.
//!
//! [`vote`] does not allocate. It compares each copy with every other, which is cheap for the few copies
//! that a storage has.
#![tactic(auto)]

ghost use Rattle.std.specs.Prelude.{◌≡◌, ◌≤◌};
ghost use Rattle.std.specs.Option.{option_copied};
ghost use Rattle.m_of_n.specs.Vote.{holders, texts_of, voted};

/// The first text, in order of copies, that at least `m` copies equal; `None` exactly where there is none. `copies` has
/// the text that was read of each copy, and `None` for one that is missing or unreadable.
#[tactic(auto, unfolding(crate::specs::Vote::voted))]
pub fn vote<'a>(m: u32, copies: &[Option<&'a [u8]>]) -> Option<&'a [u8]>
    requires { 1 ≤ m }
    // The answer is the text that the vote gives, as its bytes, and none where the vote gives none.
    ensures { option_copied result ≡ voted m (texts_of copies.now) }
{
    for copy in copies {
        if let Some(text) = copy {
            if count_holders(copies, *text) >= m as usize {
                return Some(*text);
            }
        }
    }
    None
}

// How many copies are this text.
fn count_holders(copies: &[Option<&[u8]>], text: &[u8]) -> usize
    ensures { result ≡ holders (texts_of copies.now) text.now }
{
    let mut count = 0;
    for copy in copies {
        if let Some(other) = copy {
            if *other == text {
                count += 1;
            }
        }
    }
    count
}
