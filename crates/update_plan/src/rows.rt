//! The rows by which a name gets its content.

ghost use Rattle.std.specs.Prelude.{◌≡◌, option_map, true};
ghost use Rattle.file_core.specs.Infos as infos;
ghost use Rattle.per_base.specs.declared.elements.Cause.TheVariants.{Update};
ghost use Rattle.update_plan.specs.Fates.{initial_info};
ghost use Rattle.update_plan.specs.Items.{row_of};
ghost use Rattle.update_plan.specs.Rows.{initial_or, kept_or, row_by};

use deployment_model::{CollectionStrategy, ElementStrategy};
use file_core::{changed, made};
use per_base::{Bytes, Cause, Entry, FileInfo, StoreKind};

/// What a name gets.
#[derive(Clone, Copy)]
pub(crate) enum Row<'a> {
    Nothing,
    /// The initial content.
    Initial(&'a Bytes),
    /// What is stored.
    Kept(&'a Entry),
}

/// The row of a name, by its own strategy, that of its storage, its initial content and what is stored.
pub(crate) fn row_by<'a>(
    strategy: Option<ElementStrategy>,
    collection: CollectionStrategy,
    initial: Option<&'a Bytes>,
    stored: Option<&'a Entry>,
) -> Row<'a>
    ensures { row_of result ≡ row_by strategy collection (option_map (λ b. b.now) initial.entry)
        (option_map (λ e. e.now) stored.entry) }
{
    match strategy {
        Some(ElementStrategy::Delete) => Row::Nothing,
        Some(ElementStrategy::Overwrite) => initial_or_nothing(initial),
        Some(ElementStrategy::KeepExisting) => kept_or_initial(stored, initial),
        None => match collection {
            CollectionStrategy::KeepExisting => kept_or_initial(stored, initial),
            CollectionStrategy::Delete => initial_or_nothing(initial),
        },
    }
}

/// The initial content, if there is one, and else nothing.
fn initial_or_nothing(initial: Option<&Bytes>) -> Row<'_>
    ensures { row_of result ≡ initial_or (option_map (λ b. b.now) initial.entry) }
{
    match initial {
        Some(bytes) => Row::Initial(bytes),
        None => Row::Nothing,
    }
}

/// What is stored, and else the initial content, if there is one.
fn kept_or_initial<'a>(stored: Option<&'a Entry>, initial: Option<&'a Bytes>) -> Row<'a>
    ensures { row_of result ≡ kept_or (option_map (λ e. e.now) stored.entry) true
        (initial_or (option_map (λ b. b.now) initial.entry)) }
{
    match stored {
        Some(entry) => Row::Kept(entry),
        None => initial_or_nothing(initial),
    }
}

/// The info of an element that gets its initial content now: a stored file that is overwritten changes, any other file
/// is made.
pub(crate) fn initial_info(
    kind: StoreKind,
    strategy: Option<ElementStrategy>,
    stored: Option<&Entry>,
    now: u64,
) -> Option<FileInfo>
    ensures { result ≡ initial_info kind strategy (option_map (λ e. e.now) stored.entry) now }
{
    match kind {
        StoreKind::Keys => None,
        StoreKind::Files => match (strategy, stored) {
            (Some(ElementStrategy::Overwrite), Some(entry)) => overwritten_info(entry.info, now),
            _ => Some(made(now, Cause::Update)),
        },
    }
}

/// The info of a stored file that is overwritten: an update changed it now. A key has none.
fn overwritten_info(info: Option<FileInfo>, now: u64) -> Option<FileInfo>
    ensures { result ≡ option_map (infos.info_changed now Update) info }
{
    match info {
        Some(info) => Some(changed(now, Cause::Update, info)),
        None => None,
    }
}
