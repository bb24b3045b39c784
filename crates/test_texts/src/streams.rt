//! Functions over streams.
use crate::said::Said;
use crate::texts::case_of;
use cite_locale::chain::LocaleChain;
use cite_pieces::output::{AffixPlace, Element, Output};
use cite_pieces::pieces::Pieces;
use cite_pieces::plain::plain_text;
use cite_pieces::punctuation::punctuated;
use reference_values::rich_text::RichText;
use std::alloc::{AllocError, Global};
use style_file::formatting::{
    Display, FontStyle, FontVariant, FontWeight, Formatting, TextDecoration, VerticalAlign,
};
use write_html::html::html;

/// What is written of a text with markup.
fn pieces_of_rich(
    alloc: Global,
    locales: &LocaleChain<'_>,
    text: &str,
) -> Result<Pieces, AllocError> {
    let mut output = Output::new(alloc, locales.language());
    push_markup(&mut output, text)?;
    output.finish()
}

/// TEXT: a text with markup, as HTML.
pub fn rich(alloc: Global, locales: &LocaleChain<'_>, args: &[&str], said: &mut Said) {
    if let [text] = args {
        said.give_made(rich_html(alloc, locales, *text));
    }
}

fn rich_html(alloc: Global, locales: &LocaleChain<'_>, text: &str) -> Result<String, AllocError> {
    let pieces = pieces_of_rich(alloc, locales, text)?;
    html(alloc, &pieces, locales.quote_marks())
}

/// TEXT: a text with markup, as plain text.
pub fn plain(alloc: Global, locales: &LocaleChain<'_>, args: &[&str], said: &mut Said) {
    if let [text] = args {
        said.give_made(rich_plain(alloc, locales, *text));
    }
}

fn rich_plain(alloc: Global, locales: &LocaleChain<'_>, text: &str) -> Result<String, AllocError> {
    let pieces = pieces_of_rich(alloc, locales, text)?;
    plain_text(alloc, &pieces, locales.quote_marks())
}

/// STEP..: what is written step by step, with its punctuation in order, as HTML. A step opens an
/// element (`{` with its attributes, apart by `|`), closes it (`}`), discards it (`!`), or adds a
/// text (behind `=`) or a text with markup (behind `~`).
pub fn written(alloc: Global, locales: &LocaleChain<'_>, steps: &[&str], said: &mut Said) {
    let mut output = Output::new(alloc, locales.language());
    match push_steps(&mut output, steps) {
        Ok(true) => said.give_made(punctuated_html(alloc, locales, output)),
        Ok(false) => drop(output),
        Err(_) => {
            drop(output);
            said.cut();
        }
    }
}

/// What is written, with its punctuation in order, as HTML.
fn punctuated_html(
    alloc: Global,
    locales: &LocaleChain<'_>,
    output: Output<'_>,
) -> Result<String, AllocError> {
    let in_quotes = locales.has_punctuation_in_quotes();
    let pieces = punctuated(alloc, output.finish()?, in_quotes)?;
    html(alloc, &pieces, locales.quote_marks())
}

/// Does these steps. Returns whether each is one.
fn push_steps<'s>(output: &mut Output<'s>, steps: &[&'s str]) -> Result<bool, AllocError> {
    for step in steps {
        if !push_step(output, *step)? {
            return Ok(false);
        }
    }
    Ok(true)
}

/// Does a step. Returns whether it is one.
fn push_step<'s>(output: &mut Output<'s>, step: &'s str) -> Result<bool, AllocError> {
    if let Some(attributes) = step.strip_prefix('{') {
        output.open(element_of(attributes))?;
    } else if step == "}" {
        output.close()?;
    } else if step == "!" {
        output.discard();
    } else if let Some(text) = step.strip_prefix('=') {
        output.push_str(text)?;
    } else if let Some(text) = step.strip_prefix('~') {
        push_markup(output, text)?;
    } else {
        return Ok(false);
    }
    Ok(true)
}

/// Adds a text with markup.
fn push_markup(output: &mut Output<'_>, text: &str) -> Result<(), AllocError> {
    let text = RichText::of_markup(output.alloc(), text)?;
    output.push_rich(&text)
}

fn element_of(attributes: &str) -> Element<'_> {
    let mut element = Element::PLAIN;
    for attribute in attributes.split('|') {
        match attribute.split_once('=') {
            Some(("prefix", prefix)) => element.prefix = prefix,
            Some(("suffix", suffix)) => element.suffix = suffix,
            Some(("delimiter", delimiter)) => element.delimiter = delimiter,
            Some(("case", case)) => element.text_case = case_of(case),
            Some(("display", display)) => element.display = display_of(display),
            Some(_) => {}
            None if attribute == "inside" => element.affixes = AffixPlace::Inside,
            None if attribute == "quotes" => element.has_quotes = true,
            None if attribute == "strip" => element.strips_periods = true,
            None => element.formatting = formatted(element.formatting, attribute),
        }
    }
    element
}

fn display_of(name: &str) -> Option<Display> {
    match name {
        "block" => Some(Display::Block),
        "left-margin" => Some(Display::LeftMargin),
        "right-inline" => Some(Display::RightInline),
        "indent" => Some(Display::Indent),
        _ => None,
    }
}

/// The formatting, with what the word asks for.
fn formatted(formatting: Formatting, asked: &str) -> Formatting {
    let mut formatting = formatting;
    match asked {
        "upright" => formatting.font_style = Some(FontStyle::Normal),
        "italic" => formatting.font_style = Some(FontStyle::Italic),
        "oblique" => formatting.font_style = Some(FontStyle::Oblique),
        "no-small-caps" => formatting.font_variant = Some(FontVariant::Normal),
        "small-caps" => formatting.font_variant = Some(FontVariant::SmallCaps),
        "not-bold" => formatting.font_weight = Some(FontWeight::Normal),
        "bold" => formatting.font_weight = Some(FontWeight::Bold),
        "light" => formatting.font_weight = Some(FontWeight::Light),
        "no-line" => formatting.text_decoration = Some(TextDecoration::None),
        "underline" => formatting.text_decoration = Some(TextDecoration::Underline),
        "baseline" => formatting.vertical_align = Some(VerticalAlign::Baseline),
        "sup" => formatting.vertical_align = Some(VerticalAlign::Superscript),
        "sub" => formatting.vertical_align = Some(VerticalAlign::Subscript),
        _ => {}
    }
    formatting
}
