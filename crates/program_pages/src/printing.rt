//! Answers are printed.
use crate::linking::with_links;
use crate::page::{ListLayout, Page, anchor, begin_list};
use cite_answer::printing::print_answer;
use cite_host::answer::{Answer, ListedItem};
use cite_pieces::pieces::Pieces;
use cite_tasks::cites::Citation;
use cite_texts::quotes::QuoteMarks;
use program_command::arguments::OutputFormat;
use program_files::error::CommandError;
use std::alloc::{AllocError, Global};
use style_file::style::CslStyle;
use write_forms::forms::{Form, written};
use write_forms::items::{written_block, written_item};

/// What is to be printed of an answer, and how.
#[derive(Clone, Copy)]
pub struct Printing<'p> {
    pub format: OutputFormat,
    /// Whether it is a whole page of HTML.
    pub is_standalone: bool,
    /// Where the cites of each citation lead, by their places. Those behind them lead nowhere.
    pub targets: &'p [Vec<String>],
    /// The layout of the bibliography, where the style has one.
    pub layout: Option<ListLayout>,
    /// The tag of the document's language.
    pub language: &'p str,
    pub marks: QuoteMarks<'p>,
}

impl<'p> Printing<'p> {
    /// A page with this title, where a whole page is wanted.
    fn page(&self, title: &'p str) -> Option<Page<'p>> {
        let is_page = self.format == OutputFormat::Html && self.is_standalone;
        let language = self.language;
        if is_page {
            Some(Page { language, title })
        } else {
            None
        }
    }

    /// The form of texts: that of lines, where the format has no texts.
    fn form(&self) -> Form {
        match self.format {
            OutputFormat::Html => Form::Html,
            OutputFormat::Markdown => Form::Markdown,
            OutputFormat::Latex => Form::Latex,
            OutputFormat::Text | OutputFormat::Json => Form::Text,
        }
    }
}

/// The bibliography of an answer. Its texts are made before anything is printed, so that nothing is
/// where memory is refused.
#[derive(Drop)]
struct List {
    layout: ListLayout,
    texts: Vec<String>,
}

/// Prints the citations of an answer, each on a line.
///
/// # Errors
///
/// `Output`; `OutOfMemory`.
pub fn print_citations(
    rt: &(impl Print + AllocGlobal),
    printing: &Printing<'_>,
    answer: &Answer,
) -> Result<(), CommandError> {
    let texts = citation_texts(rt.alloc(), printing, answer)?;
    let Some(page) = printing.page("Citations") else {
        return print_lines(rt, &texts);
    };
    page.begin(rt)?;
    print_paragraphs(rt, &texts)?;
    page.end(rt)
}

/// Prints the bibliography of an answer, each item on a line; as Markdown and LaTeX, each as a
/// paragraph. Where its style has none, standard error says so.
///
/// # Errors
///
/// `Output`; `OutOfMemory`.
pub fn print_bibliography(
    rt: &(impl Print + Eprint + AllocGlobal),
    printing: &Printing<'_>,
    answer: &Answer,
) -> Result<(), CommandError> {
    let page = printing.page("References");
    let are_blocks = page.is_some() || has_paragraphs(printing.form());
    let Some(list) = list_of(rt.alloc(), printing, answer, are_blocks)? else {
        warn_of_no_list(rt);
        return Ok(());
    };
    let Some(page) = page else {
        return print_items(rt, printing.form(), &list.texts);
    };
    page.begin(rt)?;
    print_list(rt, &list)?;
    page.end(rt)
}

/// Prints the citations of an answer and its bibliography, as [`print_whole`] does. Where its style
/// has none, standard error says so.
///
/// # Errors
///
/// `Output`; `OutOfMemory`.
pub fn print_both(
    rt: &(impl Print + Eprint + AllocGlobal),
    printing: &Printing<'_>,
    answer: &Answer,
) -> Result<(), CommandError> {
    if answer.bibliography.is_none() || printing.layout.is_none() {
        warn_of_no_list(rt);
    }
    print_whole(rt, printing, answer)
}

/// Prints the citations of an answer and, behind an empty line, its bibliography, if there is one;
/// as HTML, each in a section; as Markdown and LaTeX, each citation as a paragraph, too.
///
/// # Errors
///
/// `Output`; `OutOfMemory`.
pub fn print_whole(
    rt: &(impl Print + AllocGlobal),
    printing: &Printing<'_>,
    answer: &Answer,
) -> Result<(), CommandError> {
    let form = printing.form();
    let texts = citation_texts(rt.alloc(), printing, answer)?;
    let list = list_of(rt.alloc(), printing, answer, form != Form::Text)?;
    if form != Form::Html {
        return print_texts(rt, form, &texts, list.as_ref());
    }
    let Some(page) = printing.page("Citations") else {
        return print_sections(rt, &texts, list.as_ref());
    };
    page.begin(rt)?;
    print_sections(rt, &texts, list.as_ref())?;
    page.end(rt)
}

/// Prints texts of citations, and behind an empty line those of a list. An empty line follows each
/// citation that is a paragraph.
fn print_texts(
    rt: &impl Print,
    form: Form,
    texts: &[String],
    list: Option<&List>,
) -> Result<(), CommandError> {
    let are_paragraphs = has_paragraphs(form);
    if are_paragraphs {
        print_apart(rt, texts)?;
    } else {
        print_lines(rt, texts)?;
    }
    let Some(list) = list else {
        return Ok(());
    };
    if !are_paragraphs {
        println!(rt; "")?;
    }
    print_items(rt, form, &list.texts)
}

/// Prints a section of citations, and one of a list.
fn print_sections(
    rt: &impl Print,
    texts: &[String],
    list: Option<&List>,
) -> Result<(), CommandError> {
    println!(rt; "<section class=\"citations\">")?;
    print_paragraphs(rt, texts)?;
    println!(rt; "</section>")?;
    match list {
        Some(list) => {
            println!(rt; "<section class=\"bibliography\">")?;
            print_list(rt, list)?;
            Ok(println!(rt; "</section>")?)
        }
        None => Ok(()),
    }
}

/// The texts of the citations of an answer.
fn citation_texts(
    alloc: Global,
    printing: &Printing<'_>,
    answer: &Answer,
) -> Result<Vec<String>, AllocError> {
    let mut texts = Vec::new(alloc);
    for (place, citation) in answer.citations.iter().enumerate() {
        texts.push(citation_text(alloc, printing, place, citation)?)?;
    }
    Ok(texts)
}

/// The text of the citation at a place, whose cites lead to their targets.
fn citation_text(
    alloc: Global,
    printing: &Printing<'_>,
    place: usize,
    citation: &Pieces,
) -> Result<String, AllocError> {
    let form = printing.form();
    let Some(targets) = printing.targets.get(place) else {
        return written(alloc, form, citation, &[], printing.marks);
    };
    if form == Form::Html {
        let citation = with_links(alloc, citation, targets)?;
        return written(alloc, form, &citation, &[], printing.marks);
    }
    written(alloc, form, citation, targets, printing.marks)
}

/// The bibliography of an answer, if its style has one; its items are blocks, or texts alone.
fn list_of(
    alloc: Global,
    printing: &Printing<'_>,
    answer: &Answer,
    are_blocks: bool,
) -> Result<Option<List>, AllocError> {
    let (Some(items), Some(layout)) = (&answer.bibliography, printing.layout) else {
        return Ok(None);
    };
    let mut texts = Vec::with_capacity(alloc, items.len())?;
    for item in items {
        let text = if are_blocks {
            item_block(alloc, printing, layout, item)?
        } else {
            item_text(alloc, printing, item)?
        };
        texts.push(text)?;
    }
    Ok(Some(List { layout, texts }))
}

fn warn_of_no_list(rt: &impl Eprint) {
    let _ = eprintln!(rt; "gamhilon: warning: the style has no bibliography");
}

fn print_paragraphs(rt: &impl Print, texts: &[String]) -> Result<(), CommandError> {
    for text in texts {
        println!(rt; "<p class=\"citation\">{}</p>", text.as_str())?;
    }
    Ok(())
}

/// Prints texts with an empty line behind each.
fn print_apart(rt: &impl Print, texts: &[String]) -> Result<(), CommandError> {
    for text in texts {
        println!(rt; "{}\n", text.as_str())?;
    }
    Ok(())
}

fn print_lines(rt: &impl Print, texts: &[String]) -> Result<(), CommandError> {
    for text in texts {
        println!(rt; "{}", text.as_str())?;
    }
    Ok(())
}

/// Prints the whole answer to a document as JSON. Where its style has no bibliography, that has
/// none.
///
/// # Errors
///
/// `Output`; `OutOfMemory`.
pub fn print_json(
    rt: &(impl Print + AllocGlobal),
    style: &CslStyle,
    citations: &[Citation],
    answer: &Answer,
    marks: QuoteMarks<'_>,
) -> Result<(), CommandError> {
    let text = print_answer(rt.alloc(), style, citations, answer, marks)?;
    Ok(println!(rt; "{}", text.as_str())?)
}

/// Whether citations and items are paragraphs in a form.
fn has_paragraphs(form: Form) -> bool {
    matches!(form, Form::Markdown | Form::Latex)
}

/// Prints the texts of items, each on a line or as a paragraph.
fn print_items(rt: &impl Print, form: Form, texts: &[String]) -> Result<(), CommandError> {
    if has_paragraphs(form) {
        print_blocks(rt, form, texts)
    } else {
        print_lines(rt, texts)
    }
}

/// Prints items as paragraphs, with an empty line between two; in LaTeX one ends the last, too.
fn print_blocks(rt: &impl Print, form: Form, blocks: &[String]) -> Result<(), CommandError> {
    let mut before = "";
    for block in blocks {
        println!(rt; "{before}{}", block.as_str())?;
        before = "\n";
    }
    if form == Form::Latex {
        print!(rt; "{before}")?;
    }
    Ok(())
}

/// Prints items as a list of HTML, each with an id.
fn print_list(rt: &impl Print, list: &List) -> Result<(), CommandError> {
    begin_list(rt, list.layout)?;
    print_lines(rt, &list.texts)?;
    Ok(println!(rt; "</div>")?)
}

/// An item as a block, with the target of its cites.
fn item_block(
    alloc: Global,
    printing: &Printing<'_>,
    layout: ListLayout,
    item: &ListedItem,
) -> Result<String, AllocError> {
    let target = anchor(alloc, item.id.as_str())?;
    let text = item_text(alloc, printing, item)?;
    let is_hanging = layout.hanging_indent;
    written_block(
        alloc,
        printing.form(),
        target.as_str(),
        text.as_str(),
        is_hanging,
    )
}

/// An item, with its first field in front.
fn item_text(
    alloc: Global,
    printing: &Printing<'_>,
    item: &ListedItem,
) -> Result<String, AllocError> {
    let ListedItem {
        first_field,
        content,
        ..
    } = item;
    written_item(alloc, printing.form(), first_field, content, printing.marks)
}
