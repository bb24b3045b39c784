//! What a host is asked to write, as a value of its own.
ghost use Rattle.std.specs.Prelude.{◌≡◌, IfOk, option_map};
ghost use Rattle.driver_lookup.specs.PropertiesView.{locator_view, properties_view};
ghost use Rattle.driver_lookup.specs.SourceView.{source_view};
ghost use Rattle.host_memo.specs.Keys.{
  cite_key,
  date_key,
  item_key,
  key_of_part,
  located,
  standing_of,
};
ghost use Rattle.driver_writers.specs.TaskView.{cite_task_view, date_task_view, item_task_view};

use crate::host_style::style_name;
use csl_base::entry::EntryLike;
use csl_base::taxonomy::Locator;
use csl_base::text::Text;
use driver_lookup::locator::{LocatorPayload, SpecificLocator};
use driver_lookup::lookup::StyleLocales;
use driver_lookup::means::Means;
use driver_lookup::properties::CiteProperties;
use driver_lookup::purpose::CitePurpose;
use driver_lookup::state::{CollapseVerdict, DisambiguateState, IbidState, IdentifierUsage};
use driver_writers::task::{CiteTask, DateTask, ItemTask};
use std::alloc::{AllocError, Global};

/// What is asked for: an entry, by its key, in a style, by its name, and in the locale in use.
///
/// Cites that are rendered to be compared have no place, and items of the bibliography have none; a
/// cite or a date that is written for the last time has the index of its request and its own in the
/// items of that request, both from 0.
#[derive(PartialEq, Eq, PartialOrd, Ord, Drop)]
pub struct TaskKey {
    pub entry: Text,
    pub place: Option<(usize, usize)>,
    pub part: TaskPart,
    // Last: most keys of a document agree in these, and are compared field by field.
    pub style: Text,
    pub locale: Text,
}

/// What of the entry is asked for.
#[derive(PartialEq, Eq, PartialOrd, Ord, Drop)]
pub enum TaskPart {
    /// A cite, for its purpose and as its verdict cuts it.
    Cite(Standing, Option<CitePurpose>, Option<CollapseVerdict>),
    /// An item of the bibliography.
    Item(Standing),
    /// The date alone, with the suffix that the means of its cite have.
    Date(Option<usize>),
}

/// What is known of a cite.
#[derive(PartialEq, Eq, PartialOrd, Ord, Drop)]
pub struct Standing {
    /// The number of the note in which it stands.
    pub note_number: Option<usize>,
    /// The number of the first note that cites the entry.
    pub first_note_number: Option<usize>,
    /// Whether a note shortly before cites the entry too.
    pub is_near_note: bool,
    /// Whether no cite before cites the entry.
    pub is_first: bool,
    /// Whether it repeats the cite before it.
    pub ibid: IbidState,
    /// The number of the entry, from 0.
    pub citation_number: usize,
    /// What its locator counts, and its text; that of a payload of the caller's own is empty.
    pub locator: Option<(Locator, Text)>,
    /// By what means the entry is disambiguated, where one is taken at a time.
    pub disambiguation: DisambiguateState,
    /// By what means it is, where they are taken together.
    pub means: Means,
    /// Which identifiers the cite wrote at its first rendering.
    pub identifier_usage: IdentifierUsage,
}

/// What a locator counts, and its text.
fn located<P>(
    alloc: Global,
    locator: &SpecificLocator<'_, P>,
) -> Result<(Locator, Text), AllocError>
    ensures { IfOk result (λ l. l ≡ located (locator_view locator.now)) }
{
    let text = match &locator.1 {
        LocatorPayload::Str(text) => Text::copied(alloc, *text)?,
        LocatorPayload::Transparent(_) => Text::copied(alloc, "")?,
    };
    Ok((locator.0, text))
}

/// What is known of a cite with these properties.
fn standing_of<P>(alloc: Global, properties: &CiteProperties<'_, P>) -> Result<Standing, AllocError>
    ensures { IfOk result (λ s. s ≡ standing_of (properties_view properties.now)) }
{
    let certain = &properties.certain;
    let speculative = &properties.speculative;
    let locator = match &speculative.locator {
        Some(locator) => Some(located(alloc, locator)?),
        None => None,
    };
    Ok(Standing {
        note_number: certain.note_number,
        first_note_number: certain.first_note_number,
        is_near_note: certain.is_near_note,
        is_first: certain.is_first,
        ibid: speculative.ibid,
        citation_number: speculative.citation_number,
        locator,
        disambiguation: speculative.disambiguation.clone()?,
        means: speculative.means.clone()?,
        identifier_usage: speculative.identifier_usage,
    })
}

/// The locale in use of a style, and its name, with the key of an entry.
fn key_of<T: EntryLike>(
    alloc: Global,
    source: &StyleLocales<'_>,
    entry: &T,
    place: Option<(usize, usize)>,
    part: TaskPart,
) -> Result<TaskKey, AllocError>
    ensures { IfOk result (λ k. k
        ≡ key_of_part (source_view source.now) (T.answers entry.now).key place part) }
{
    Ok(TaskKey {
        style: Text::copied(alloc, style_name(source.style))?,
        locale: Text::copied(alloc, source.locale())?,
        entry: Text::copied(alloc, entry.key())?,
        place,
        part,
    })
}

/// The key of a cite.
///
/// # Errors
///
/// Where memory is refused.
pub fn cite_key<T: EntryLike, P>(
    alloc: Global,
    task: &CiteTask<'_, '_, T, P>,
) -> Result<TaskKey, AllocError>
    ensures { IfOk result (λ k. k ≡ cite_key T.answers (cite_task_view task.now)) }
{
    let standing = standing_of(alloc, task.properties)?;
    let part = TaskPart::Cite(standing, task.purpose, task.verdict);
    key_of(alloc, &task.source, task.entry, task.place, part)
}

/// The key of an item of the bibliography.
///
/// # Errors
///
/// Where memory is refused.
pub fn item_key<T: EntryLike, P>(
    alloc: Global,
    task: &ItemTask<'_, '_, T, P>,
) -> Result<TaskKey, AllocError>
    ensures { IfOk result (λ k. k ≡ item_key T.answers (item_task_view task.now)) }
{
    let part = TaskPart::Item(standing_of(alloc, task.properties)?);
    key_of(alloc, &task.source, task.entry, None, part)
}

/// The key of a date.
///
/// # Errors
///
/// Where memory is refused.
pub fn date_key<T: EntryLike>(alloc: Global, task: &DateTask<'_, T>) -> Result<TaskKey, AllocError>
    ensures { IfOk result (λ k. k ≡ date_key T.answers (date_task_view task.now)) }
{
    let part = TaskPart::Date(task.suffix);
    key_of(alloc, &task.source, task.entry, task.place, part)
}

impl Clone for TaskKey {
    ghost is_clone = { λ key copy. copy ≡ key };

    fn clone(&self) -> Result<TaskKey, AllocError> {
        Ok(TaskKey {
            style: self.style.clone()?,
            locale: self.locale.clone()?,
            entry: self.entry.clone()?,
            place: self.place,
            part: self.part.clone()?,
        })
    }
}

impl Clone for TaskPart {
    ghost is_clone = { λ part copy. copy ≡ part };

    fn clone(&self) -> Result<TaskPart, AllocError> {
        Ok(match self {
            TaskPart::Cite(standing, purpose, verdict) => {
                TaskPart::Cite(standing.clone()?, *purpose, *verdict)
            }
            TaskPart::Item(standing) => TaskPart::Item(standing.clone()?),
            TaskPart::Date(suffix) => TaskPart::Date(*suffix),
        })
    }
}

impl Clone for Standing {
    ghost is_clone = { λ standing copy. copy ≡ standing };

    fn clone(&self) -> Result<Standing, AllocError> {
        let locator = match &self.locator {
            Some((kind, text)) => Some((*kind, text.clone()?)),
            None => None,
        };
        Ok(Standing {
            note_number: self.note_number,
            first_note_number: self.first_note_number,
            is_near_note: self.is_near_note,
            is_first: self.is_first,
            ibid: self.ibid,
            citation_number: self.citation_number,
            locator,
            disambiguation: self.disambiguation.clone()?,
            means: self.means.clone()?,
            identifier_usage: self.identifier_usage,
        })
    }
}

impl TaskKey {
    ghost use Rattle.host_memo.specs.Keys.{stage};

    /// When it is asked for: 0 for cites that are compared before any is disambiguated, 1 for those
    /// that are compared later, and 2 for what is written for the last time.
    pub fn stage(&self) -> u8
        ensures { result ≡ stage self.now }
    {
        match (&self.part, self.place) {
            (TaskPart::Cite(standing, _, _), None) => standing.stage(),
            _ => 2,
        }
    }
}

impl Standing {
    ghost use Rattle.host_memo.specs.Keys.{stage_of};

    // The stage of a cite that is compared.
    fn stage(&self) -> u8
        ensures { result ≡ stage_of self.now }
    {
        match self.disambiguation {
            DisambiguateState::None => { if self.means.are_none() { 0 } else { 1 } }
            _ => 1,
        }
    }
}
