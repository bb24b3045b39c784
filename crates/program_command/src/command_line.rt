//! The command line, as a value of the crate `clap`.
use crate::usage::{
    ABOUT, CHECK_NOTES, DOCUMENT_NOTES, ENTRIES_NOTES, EXPLAIN_NOTES, PROGRAM_NOTES, SESSION_NOTES,
    STYLES_NOTES, VERSION, WRITING_NOTES,
};
use clap::builder::ValueParser;
use clap::{Arg, ArgAction, Command};
use std::alloc::{AllocError, Global};

/// The program with its commands.
///
/// # Errors
///
/// Where memory is refused.
pub(crate) fn program<'a>(alloc: Global) -> Result<Command<'a>, AllocError> {
    named(alloc)?.subcommands(commands(alloc)?)
}

/// The program without its commands.
fn named<'a>(alloc: Global) -> Result<Command<'a>, AllocError> {
    Command::new(alloc, "gamhilon")
        .version(VERSION)
        .about(ABOUT)
        .after_help(PROGRAM_NOTES)
        .subcommand_required(true)
        .bin_name("gamhilon")
}

/// A command of the program.
#[derive(Clone, Copy)]
enum Verb {
    Cite,
    Bibliography,
    Explain,
    Session,
    Render,
    Check,
    Entries,
    Styles,
    Css,
}

/// The commands, in the order in which help has them.
const VERBS: &[Verb] = &[
    Verb::Cite,
    Verb::Bibliography,
    Verb::Explain,
    Verb::Session,
    Verb::Render,
    Verb::Check,
    Verb::Entries,
    Verb::Styles,
    Verb::Css,
];

fn commands<'a>(alloc: Global) -> Result<Vec<Command<'a>>, AllocError> {
    let mut commands = Vec::new(alloc);
    for verb in VERBS {
        commands.push(command(alloc, *verb)?)?;
    }
    Ok(commands)
}

fn command<'a>(alloc: Global, verb: Verb) -> Result<Command<'a>, AllocError> {
    match verb {
        Verb::Cite => cite(alloc),
        Verb::Bibliography => bibliography(alloc),
        Verb::Explain => explain(alloc),
        Verb::Session => session(alloc),
        Verb::Render => render(alloc),
        Verb::Check => check(alloc),
        Verb::Entries => entries(alloc),
        Verb::Styles => styles(alloc),
        Verb::Css => css(alloc),
    }
}

// ---- commands that write in a style

fn cite<'a>(alloc: Global) -> Result<Command<'a>, AllocError> {
    let citations = citations(alloc).required(true);
    let command = writing(alloc, "cite", "Prints each citation", citations)?;
    let help = "The bibliography follows the citations";
    command
        .arg(links(alloc))?
        .arg(flag(alloc, "with-bibliography", help))
}

fn bibliography<'a>(alloc: Global) -> Result<Command<'a>, AllocError> {
    let about = "Prints the items that are cited, or of all references without citations";
    writing(alloc, "bibliography", about, citations(alloc))
}

/// A command that writes, with its options and files.
fn writing<'a>(
    alloc: Global,
    name: &'a str,
    about: &'a str,
    citations: Arg<'a>,
) -> Result<Command<'a>, AllocError> {
    Command::new(alloc, name)
        .about(about)
        .after_help(WRITING_NOTES)
        .arg(style(alloc))?
        .args(Vec::from_array(alloc, place_words(alloc))?)?
        .args(Vec::from_array(alloc, form_words(alloc))?)?
        .args(Vec::from_array(alloc, limit_words(alloc))?)?
        .args(Vec::from_array(alloc, file_words(alloc))?)?
        .arg(citations)
}

fn explain<'a>(alloc: Global) -> Result<Command<'a>, AllocError> {
    let formats: &'a [&'a str] = &["json", "html"];
    let about = "Says which element of a style wrote each text, as JSON or as a page";
    let references = references(alloc).required(false);
    Command::new(alloc, "explain")
        .about(about)
        .after_help(EXPLAIN_NOTES)
        .args(Vec::from_array(alloc, place_words(alloc))?)?
        .arg(explained_form(alloc, formats))?
        .args(Vec::from_array(alloc, limit_words(alloc))?)?
        .arg(from(alloc))?
        .arg(more(alloc))?
        .arg(explained_style(alloc))?
        .arg(references)?
        .arg(citations(alloc))
}

fn explained_form<'a>(alloc: Global, formats: &'a [&'a str]) -> Arg<'a> {
    let help = "The form of what is written (json)";
    valued(alloc, "to", "FORMAT", help).value_parser(ValueParser::Names(formats))
}

fn explained_style<'a>(alloc: Global) -> Arg<'a> {
    Arg::new(alloc, "STYLE").required(true).help(STYLE_HELP)
}

/// The language of a command that writes, and where the files beside its style are.
fn place_words<'a>(alloc: Global) -> [Arg<'a>; 4] {
    [
        valued(
            alloc,
            "locale",
            "TAG",
            "The language, in place of the style's",
        ),
        valued(alloc, "styles", "FOLDER", "Where styles are"),
        valued(alloc, "locales", "FOLDER", "Where locale files are"),
        valued(
            alloc,
            "abbreviations",
            "FILE",
            "Short forms, as of the titles of journals, in JSON",
        ),
    ]
}

/// In which form a command writes, and of what.
fn form_words<'a>(alloc: Global) -> [Arg<'a>; 4] {
    [
        form(alloc),
        standalone(alloc),
        flag(
            alloc,
            "nocite",
            "References that aren't cited are listed, too",
        ),
        flag(
            alloc,
            "draft",
            "Cites of items that aren't there stand as their ids, with a question mark",
        ),
    ]
}

/// The files of references.
fn file_words<'a>(alloc: Global) -> [Arg<'a>; 3] {
    [from(alloc), more(alloc), references(alloc)]
}

/// What the style may take.
fn limit_words<'a>(alloc: Global) -> [Arg<'a>; 2] {
    [
        limit(
            alloc,
            "most-steps",
            "How many steps the style may take for each cite and each item (5000)",
        ),
        limit(
            alloc,
            "most-bytes",
            "How many bytes the style may write for each cite and each item (100000)",
        ),
    ]
}

const STYLE_HELP: &str =
    "The style: a file, a name of `gamhilon styles`, or one in the folder of styles";

fn style<'a>(alloc: Global) -> Arg<'a> {
    valued(alloc, "style", "STYLE", STYLE_HELP).required(true)
}

fn more<'a>(alloc: Global) -> Arg<'a> {
    Arg::new(alloc, "more")
        .long("references")
        .value_name("FILE")
        .action(ArgAction::Append)
        .help("More references; it may stand several times")
}

fn references<'a>(alloc: Global) -> Arg<'a> {
    Arg::new(alloc, "REFERENCES")
        .required(true)
        .help("References, in CSL-JSON, BibLaTeX, BibTeX or RIS")
}

fn citations<'a>(alloc: Global) -> Arg<'a> {
    Arg::new(alloc, "CITATIONS").help("Citations, in JSON")
}

// ---- other commands

fn session<'a>(alloc: Global) -> Result<Command<'a>, AllocError> {
    let about = "Answers a document that is edited, a JSON object a line in and one out";
    Ok(
        Command::new(alloc, "session")
            .about(about)
            .after_help(SESSION_NOTES),
    )
}

fn render<'a>(alloc: Global) -> Result<Command<'a>, AllocError> {
    let words = Vec::from_array(alloc, document(alloc))?;
    Command::new(alloc, "render")
        .about("Prints the citations and the bibliography of a document of cite_run")
        .after_help(DOCUMENT_NOTES)
        .args(words)
}

/// The options of a document, and its file.
fn document<'a>(alloc: Global) -> [Arg<'a>; 6] {
    let file = Arg::new(alloc, "DOCUMENT")
        .required(true)
        .help("A document of cite_run, in JSON");
    [
        form(alloc),
        standalone(alloc),
        links(alloc),
        limit(
            alloc,
            "depth",
            "How deep the elements of a layout may nest (100)",
        ),
        limit(
            alloc,
            "elements",
            "How many elements a layout may have (100000)",
        ),
        file,
    ]
}

fn check<'a>(alloc: Global) -> Result<Command<'a>, AllocError> {
    let files = Arg::new(alloc, "FILE")
        .required(true)
        .num_args(1..)
        .action(ArgAction::Append)
        .help("A style, a locale file, references or a document of cite_run");
    Command::new(alloc, "check")
        .about("Says what files are, or where they are wrong")
        .after_help(CHECK_NOTES)
        .arg(checked_form(alloc))?
        .arg(flag(
            alloc,
            "fail-on-warnings",
            "A file with a warning counts as wrong",
        ))?
        .arg(files)
}

fn checked_form<'a>(alloc: Global) -> Arg<'a> {
    let formats: &'a [&'a str] = &["text", "json"];
    let help = "The form of what is said of files (text)";
    valued(alloc, "to", "FORMAT", help).value_parser(ValueParser::Names(formats))
}

fn entries<'a>(alloc: Global) -> Result<Command<'a>, AllocError> {
    let files = Arg::new(alloc, "FILE")
        .required(true)
        .num_args(1..)
        .action(ArgAction::Append)
        .help("References, in CSL-JSON, BibLaTeX, BibTeX or RIS");
    Command::new(alloc, "entries")
        .about("Prints references as CSL-JSON, and what was lost of them")
        .after_help(ENTRIES_NOTES)
        .arg(from(alloc))?
        .arg(files)
}

fn styles<'a>(alloc: Global) -> Result<Command<'a>, AllocError> {
    Command::new(alloc, "styles")
        .about("Prints the names of the styles that are built in, or the file of one")
        .after_help(STYLES_NOTES)
        .arg(Arg::new(alloc, "NAME").help("The name of a style"))
}

fn css<'a>(alloc: Global) -> Result<Command<'a>, AllocError> {
    Ok(Command::new(alloc, "css").about("Prints the style sheet of citations and reference lists"))
}

// ---- options

/// The option of the form of what is written, with the names of the forms.
fn form<'a>(alloc: Global) -> Arg<'a> {
    let formats: &'a [&'a str] = &["text", "html", "markdown", "latex", "json"];
    valued(alloc, "to", "FORMAT", "The form of what is written (text)").value_parser(
        ValueParser::Names(formats),
    )
}

fn standalone<'a>(alloc: Global) -> Arg<'a> {
    flag(alloc, "standalone", "A whole page of HTML")
}

fn links<'a>(alloc: Global) -> Arg<'a> {
    let help = "Cites lead to their items, in HTML, Markdown and LaTeX";
    flag(alloc, "link-citations", help)
}

/// The option of the form of references, with the names of the forms.
fn from<'a>(alloc: Global) -> Arg<'a> {
    let forms: &'a [&'a str] = &["json", "csljson", "csl-json", "bibtex", "biblatex", "ris"];
    let help = "The form of references, in place of that of the file's ending or beginning";
    valued(alloc, "from", "FORM", help).value_parser(ValueParser::Names(forms))
}

/// An option that sets a limit.
fn limit<'a>(alloc: Global, id: &'a str, help: &'a str) -> Arg<'a> {
    valued(alloc, id, "N", help).value_parser(ValueParser::Unsigned(0, u64::MAX))
}

/// An option that has a value.
fn valued<'a>(alloc: Global, id: &'a str, name: &'a str, help: &'a str) -> Arg<'a> {
    Arg::new(alloc, id).long(id).value_name(name).help(help)
}

/// An option that has none.
fn flag<'a>(alloc: Global, id: &'a str, help: &'a str) -> Arg<'a> {
    Arg::new(alloc, id)
        .long(id)
        .action(ArgAction::SetTrue)
        .help(help)
}
