//! The tests of branches.
use style_elements::attributes::{named, word_value};
use style_elements::children::{csl_name, missing};
use style_elements::fault::Wanted;
use style_elements::reading::Reading;
use style_elements::shape::{CHOOSE, ELSE_IF, IF, Shape, check};
use style_elements::stop::Stop;
use style_elements::tables::{MATCHES, POSITIONS};
use style_elements::words::{date_variable, item_type, locator_type, variable};
use style_file::choose::{Match, Test};
use style_xml::tree::{Attribute, Element};

/// Refuses a `choose` whose branches aren't in their order.
pub(crate) fn check_choose(element: &Element, reading: &mut Reading<'_>) -> Result<(), Stop> {
    check(element, &CHOOSE, reading)?;
    let mut has_branch = false;
    let mut has_else = false;
    for child in element.children() {
        let name = csl_name(child);
        let is_in_order = match name {
            "if" => !has_branch && !has_else,
            "else-if" | "else" => has_branch && !has_else,
            _ => true,
        };
        if !is_in_order {
            return Err(reading.stop(child.offset, name, Wanted::BranchOrder));
        }
        has_branch = has_branch || name == "if";
        has_else = has_else || name == "else";
    }
    if has_branch {
        Ok(())
    } else {
        Err(missing(reading.alloc, element, "if"))
    }
}

/// What a branch of this name may have; none where it is no branch with tests.
pub(crate) fn branch_shape(name: &str) -> Option<&'static Shape> {
    match name {
        "if" => Some(&IF),
        "else-if" => Some(&ELSE_IF),
        _ => None,
    }
}

/// The tests of an `if` or `else-if`, and how many of them must hold.
pub(crate) fn rule_of(
    element: &Element,
    shape: &'static Shape,
    reading: &mut Reading<'_>,
) -> Result<(Match, Vec<Test>), Stop> {
    check(element, shape, reading)?;
    let rule = named(reading.alloc, element, "match", MATCHES)?;
    Ok((rule.unwrap_or(Match::All), tests_of(element, reading)?))
}

fn tests_of(element: &Element, reading: &mut Reading<'_>) -> Result<Vec<Test>, Stop> {
    let mut tests = Vec::new(reading.alloc);
    for attribute in &element.attributes {
        add_tests(attribute, &mut tests, reading)?;
    }
    if tests.is_empty() {
        return Err(reading.stop(element.offset, element.name.as_str(), Wanted::Condition));
    }
    Ok(tests)
}

/// Adds the tests of an attribute, one for each of its values.
fn add_tests(
    attribute: &Attribute,
    tests: &mut Vec<Test>,
    reading: &mut Reading<'_>,
) -> Result<(), Stop> {
    for word in attribute.value.as_str().split_ascii_whitespace() {
        if let Some(test) = test_of(attribute, word, reading)? {
            tests.push(test)?;
        }
    }
    Ok(())
}

/// The only value of `disambiguate`.
const DISAMBIGUATE: &[(&str, Test)] = &[("true", Test::Disambiguate)];

/// The test of an attribute's value; none where the attribute is no condition.
fn test_of(
    attribute: &Attribute,
    word: &str,
    reading: &mut Reading<'_>,
) -> Result<Option<Test>, Stop> {
    let offset = attribute.offset;
    let test = match attribute.name.as_str() {
        "disambiguate" => { word_value(reading.alloc, "disambiguate", offset, word, DISAMBIGUATE)? }
        "position" => {
            Test::Position(word_value(reading.alloc, "position", offset, word, POSITIONS)?)
        }
        name => return word_test(name, offset, word, reading),
    };
    Ok(Some(test))
}

/// The test of a word that names something; none where the attribute is no condition.
fn word_test(
    name: &str,
    offset: usize,
    word: &str,
    reading: &mut Reading<'_>,
) -> Result<Option<Test>, Stop> {
    let test = match name {
        "is-numeric" => variable(reading, offset, word)?.map(Test::IsNumeric),
        "is-uncertain-date" => date_variable(reading, offset, word)?.map(Test::IsUncertainDate),
        "locator" => locator_type(reading, offset, word)?.map(Test::Locator),
        "type" => item_type(reading, offset, word)?.map(Test::Type),
        "variable" => variable(reading, offset, word)?.map(Test::Variable),
        _ => return Ok(None),
    };
    Ok(Some(test.unwrap_or(Test::Unknown)))
}
