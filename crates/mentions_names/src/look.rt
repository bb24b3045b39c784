//! What a form shows of a person.
ghost use Rattle.std.specs.Prelude.{◌≡◌, IfOk, Some};
ghost use Rattle.value_sources.specs.Initials.{given_initials};
ghost use Rattle.mentions_names.specs.Looks.{given_shown, given_name, has_given, initials_of, look};

use std::alloc::{AllocError, Global};
use value_lists::text::Text;
use value_sources::entry::Person;
use value_sources::names::DisambiguatedNameForm;

/// What is shown of a given name.
#[derive(Clone, PartialEq, Eq, PartialOrd, Ord, Hash, Drop)]
pub enum GivenShown {
    /// Nothing, or there is none with initials.
    Nothing,
    /// Its initials, never empty.
    Initials(Text),
    /// All of it.
    Full(Text),
}

/// How a person looks in some form.
#[derive(Clone, PartialEq, Eq, PartialOrd, Ord, Hash, Drop)]
pub struct Look {
    /// The family name.
    pub name: Text,
    pub given: GivenShown,
}

fn given_shown(
    alloc: Global,
    form: DisambiguatedNameForm,
    person: &Person,
) -> Result<GivenShown, AllocError>
    ensures { IfOk result (λ g. g ≡ given_shown form (given_name person.now)) }
{
    let Some(given) = &person.given_name else {
        return Ok(GivenShown::Nothing);
    };
    let initials = person.initials(alloc)?;
    if initials.as_str().is_empty() {
        return Ok(GivenShown::Nothing);
    }
    match form {
        DisambiguatedNameForm::Count | DisambiguatedNameForm::Short => Ok(GivenShown::Nothing),
        DisambiguatedNameForm::LongInitialized => Ok(GivenShown::Initials(initials)),
        DisambiguatedNameForm::LongFull => Ok(GivenShown::Full(given.clone()?)),
    }
}

/// The look of a person in a form.
pub(crate) fn shown_as(
    alloc: Global,
    form: DisambiguatedNameForm,
    person: &Person,
) -> Result<Look, AllocError>
    ensures { IfOk result (λ r. r ≡ look form person.now) }
{
    Ok(Look {
        name: person.name.clone()?,
        given: given_shown(alloc, form, person)?,
    })
}

impl Look {
    /// A copy.
    pub(crate) fn copied(&self) -> Result<Look, AllocError>
        ensures { IfOk result (λ r. r ≡ self.now) }
    {
        self.clone()
    }

    /// Whether it has a given name.
    pub(crate) fn has_given(&self) -> bool
        ensures { result ≡ has_given self.now }
    {
        match &self.given {
            GivenShown::Nothing => false,
            GivenShown::Initials(_) | GivenShown::Full(_) => true,
        }
    }

    /// The initials of a look in full; an empty text where it has no given name.
    pub(crate) fn initials(&self, alloc: Global) -> Result<Text, AllocError>
        ensures { IfOk result (λ t. t ≡ initials_of self.now.given) }
    {
        match &self.given {
            GivenShown::Nothing => Ok(Text::new(String::new(alloc))),
            GivenShown::Initials(initials) => initials.clone(),
            GivenShown::Full(given) => initials_of(alloc, given),
        }
    }
}

fn initials_of(alloc: Global, given: &Text) -> Result<Text, AllocError>
    ensures { IfOk result (λ t. t ≡ given_initials (Some given.now)) }
{
    let person = Person {
        name: Text::new(String::new(alloc)),
        given_name: Some(given.clone()?),
    };
    person.initials(alloc)
}
