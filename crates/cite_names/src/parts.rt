//! The parts of a name in their order (CSL 1.0.2, "Name-part Order").
use crate::rules::NameRules;
use crate::scripts::is_spaced;
use cite_texts::initials::{Initials, in_initials};
use csl_base::names::DisambiguatedNameForm;
use reference_values::name::{Name, PersonName};
use std::alloc::{AllocError, Global};

/// Which element `name-part` a part is set by.
#[derive(Clone, Copy, PartialEq, Eq)]
pub enum PartRole {
    Family,
    Given,
    /// None: what stands between parts, and suffixes.
    Between,
}

/// A part of a name.
#[derive(Drop)]
pub struct WrittenPart {
    /// Whose formatting and text case it has.
    pub role: PartRole,
    /// Whose affixes stand around it, and around the parts beside it that have the same.
    pub affixed: PartRole,
    pub text: String,
}

/// Whether a name begins with the family name where it is in sort order.
pub fn may_be_inverted(name: &Name) -> bool {
    match name {
        Name::Person(person) => {
            person.family.is_some() && !person.has_static_ordering && is_person_spaced(person)
        }
        Name::Literal(_) => false,
    }
}

fn is_person_spaced(person: &PersonName) -> bool {
    person.family.as_deref().is_some_and(is_spaced)
        || person.given.as_deref().is_some_and(is_spaced)
}

/// The parts of a name in this form, in their order; `is_inverted`: in sort order.
///
/// # Errors
///
/// Where memory is refused.
pub fn parts_of(
    alloc: Global,
    rules: &NameRules<'_>,
    name: &Name,
    form: DisambiguatedNameForm,
    is_inverted: bool,
) -> Result<Vec<WrittenPart>, AllocError> {
    let mut parts = Parts {
        alloc,
        parts: Vec::new(alloc),
    };
    match name {
        Name::Literal(text) => parts.add(PartRole::Family, text.as_str())?,
        Name::Person(person) => parts.add_person(rules, person, form, is_inverted)?,
    }
    Ok(parts.parts)
}

/// The parts of a name, as they are written.
#[derive(Drop)]
struct Parts {
    alloc: Global,
    parts: Vec<WrittenPart>,
}

impl Parts {
    /// Adds a part between its own affixes, unless it is empty.
    fn add(&mut self, role: PartRole, text: &str) -> Result<(), AllocError> {
        self.add_within(role, role, text)
    }

    /// Adds a part between the affixes of `affixed`, unless it is empty.
    fn add_within(
        &mut self,
        affixed: PartRole,
        role: PartRole,
        text: &str,
    ) -> Result<(), AllocError> {
        if text.is_empty() {
            return Ok(());
        }
        let text = String::from_str(self.alloc, text)?;
        self.parts.push(WrittenPart {
            role,
            affixed,
            text,
        })?;
        Ok(())
    }

    fn add_person(
        &mut self,
        rules: &NameRules<'_>,
        person: &PersonName,
        form: DisambiguatedNameForm,
        is_inverted: bool,
    ) -> Result<(), AllocError> {
        let Some(family) = &person.family else {
            return self.add(PartRole::Given, person.given.as_deref().unwrap_or(""));
        };
        let family = family.as_str();
        let particle = person.non_dropping_particle.as_deref();
        let given = given_of(self.alloc, rules, person, form)?;
        let has_given = !given.is_empty();
        if !is_person_spaced(person) {
            let whole = joined(self.alloc, particle, Some(family))?;
            self.add(PartRole::Family, whole.as_str())?;
            return self.add(PartRole::Given, given.as_str());
        }
        if person.has_static_ordering && has_given {
            let whole = joined(self.alloc, particle, Some(family))?;
            self.add(PartRole::Family, whole.as_str())?;
            self.add(PartRole::Between, " ")?;
            return self.add(PartRole::Given, given.as_str());
        }
        if form < DisambiguatedNameForm::LongInitialized {
            return self.add_short(rules, particle, family);
        }
        if is_inverted {
            self.add_inverted(rules, person, family, given.as_str())
        } else {
            self.add_upright(person, family, given.as_str())
        }
    }

    /// Adds a short name. In a key of sorting a particle that is demoted follows it.
    fn add_short(
        &mut self,
        rules: &NameRules<'_>,
        particle: Option<&str>,
        family: &str,
    ) -> Result<(), AllocError> {
        let whole = if rules.is_key && rules.demotes_particle {
            joined(self.alloc, Some(family), particle)?
        } else {
            joined(self.alloc, particle, Some(family))?
        };
        self.add(PartRole::Family, whole.as_str())
    }

    /// Adds a name in the order in which it is spoken. The affixes of the family name stand around
    /// the particles before it and the suffix behind it, too.
    fn add_upright(
        &mut self,
        person: &PersonName,
        family: &str,
        given: &str,
    ) -> Result<(), AllocError> {
        let dropping = person.dropping_particle.as_deref().unwrap_or("");
        self.add(PartRole::Given, given)?;
        if !given.is_empty() && !ends_tight(given, !dropping.is_empty()) {
            self.add(PartRole::Between, " ")?;
        }
        self.add_within(PartRole::Family, PartRole::Given, dropping)?;
        if !dropping.is_empty() && !ends_tight(dropping, true) {
            self.add_within(PartRole::Family, PartRole::Between, " ")?;
        }
        let particle = person.non_dropping_particle.as_deref();
        let whole = joined(self.alloc, particle, Some(family))?;
        self.add(PartRole::Family, whole.as_str())?;
        let Some(suffix) = &person.suffix else {
            return Ok(());
        };
        let between = if person.has_comma_suffix { ", " } else { " " };
        self.add_within(PartRole::Family, PartRole::Between, between)?;
        self.add_within(PartRole::Family, PartRole::Between, suffix.as_str())
    }

    /// Adds a name in sort order. The affixes of the given name stand around a particle that is
    /// demoted behind it, too; its formatting is that of the family name.
    fn add_inverted(
        &mut self,
        rules: &NameRules<'_>,
        person: &PersonName,
        family: &str,
        given: &str,
    ) -> Result<(), AllocError> {
        let particle = person.non_dropping_particle.as_deref();
        let (kept, demoted) = if rules.demotes_particle {
            (None, particle.unwrap_or(""))
        } else {
            (particle, "")
        };
        let whole = joined(self.alloc, kept, Some(family))?;
        self.add(PartRole::Family, whole.as_str())?;
        let dropping = person.dropping_particle.as_deref();
        let behind = joined(self.alloc, Some(given), dropping)?;
        if !behind.is_empty() || !demoted.is_empty() {
            self.add(PartRole::Between, rules.sort_separator)?;
        }
        self.add(PartRole::Given, behind.as_str())?;
        if !behind.is_empty() && !demoted.is_empty() && !ends_tight(behind.as_str(), true) {
            self.add_within(PartRole::Given, PartRole::Between, " ")?;
        }
        self.add_within(PartRole::Given, PartRole::Family, demoted)?;
        let Some(suffix) = &person.suffix else {
            return Ok(());
        };
        self.add(PartRole::Between, rules.sort_separator)?;
        self.add(PartRole::Between, suffix.as_str())
    }
}

/// The given name in a form.
fn given_of(
    alloc: Global,
    rules: &NameRules<'_>,
    person: &PersonName,
    form: DisambiguatedNameForm,
) -> Result<String, AllocError> {
    let given = person.given.as_deref().unwrap_or("");
    if form < DisambiguatedNameForm::LongInitialized {
        return Ok(String::new(alloc));
    }
    let shortens = rules.initialize && form == DisambiguatedNameForm::LongInitialized;
    match rules.initialize_with {
        Some(mark) if shortens || !rules.initialize => in_initials(
            alloc,
            given,
            Initials {
                mark,
                has_hyphens: rules.has_hyphens,
                shortens,
            },
        ),
        _ => String::from_str(alloc, given),
    }
}

/// Two parts of a name with a space between them, where the first doesn't end tight.
pub(crate) fn joined(
    alloc: Global,
    first: Option<&str>,
    second: Option<&str>,
) -> Result<String, AllocError> {
    let mut text = String::from_str(alloc, first.unwrap_or(""))?;
    let second = second.unwrap_or("");
    if !text.is_empty() && !second.is_empty() && !ends_tight(text.as_str(), true) {
        text.push(' ')?;
    }
    text.push_str(second)?;
    Ok(text)
}

/// Whether a part stands right before the next: a particle that ends in an apostrophe or a hyphen.
fn ends_tight(text: &str, is_particle: bool) -> bool {
    is_particle
        && matches!(
            text.chars().next_back(),
            Some('\'' | '’' | '-' | '‐' | '\u{a0}' | ' ')
        )
}
