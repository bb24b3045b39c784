//! What the words of a command line say.
use crate::arguments::{
    CheckFormat, CheckOptions, Command, DocumentOptions, EntriesOptions, Options, OutputFormat,
};
use crate::command_line::program;
use crate::error::{CommandLineError, UsageError};
use clap::ArgMatches;
use clap::error::ErrorKind;
use std::alloc::{AllocError, Global};

/// How deep the elements of a layout of a document may nest by default.
const DEPTH: usize = 100;

/// How many elements a layout of a document may have by default.
const ELEMENTS: usize = 100_000;

/// The command that these words say. The first word is the program.
///
/// # Errors
///
/// `Usage` where they say none; `OutOfMemory`.
pub fn command_of(alloc: Global, words: &[String]) -> Result<Command, CommandLineError> {
    match program(alloc)?.try_get_matches_from(words) {
        Ok(matches) => command_in(alloc, &matches),
        Err(error) => unmatched(alloc, &error),
    }
}

/// What comes of words that `clap` refuses: a text that they ask for, or an error.
fn unmatched(alloc: Global, error: &clap::Error) -> Result<Command, CommandLineError> {
    let text = format!(in alloc; "{error}")?;
    match error.kind() {
        ErrorKind::DisplayHelp | ErrorKind::DisplayVersion => Ok(Command::Show(text)),
        ErrorKind::OutOfMemory => Err(CommandLineError::OutOfMemory),
        _ => {
            let why = in_one_line(alloc, text.as_str())?;
            Err(CommandLineError::Usage(UsageError::Words(why)))
        }
    }
}

/// What an error of `clap` says before the usage.
fn in_one_line(alloc: Global, text: &str) -> Result<String, AllocError> {
    let mut line = String::new(alloc);
    for part in text.lines() {
        let part = part.trim();
        if part.starts_with("Usage:") || part.starts_with("For more information") {
            return Ok(line);
        }
        push_part(&mut line, part)?;
    }
    Ok(line)
}

/// Adds a line of the text of an error.
fn push_part(line: &mut String, part: &str) -> Result<(), AllocError> {
    if part.is_empty() {
        return Ok(());
    }
    if line.is_empty() {
        return line.push_str(part.strip_prefix("error: ").unwrap_or(part));
    }
    line.push_str(if part.starts_with("tip: ") { "; " } else { " " })?;
    line.push_str(part)
}

fn command_in(alloc: Global, matches: &ArgMatches<'_>) -> Result<Command, CommandLineError> {
    let Some((name, words)) = matches.subcommand() else {
        return Err(CommandLineError::Usage(UsageError::NoCommand));
    };
    match name {
        "check" => check_in(alloc, words),
        "entries" => entries_in(alloc, words),
        "render" => render_in(alloc, words),
        "styles" => styles_in(alloc, words),
        "css" => Ok(Command::StyleSheet),
        "session" => Ok(Command::Session),
        "cite" => Ok(Command::Cite(cite_options(alloc, words)?)),
        "explain" => Ok(Command::Explain(explain_options(alloc, words)?)),
        _ => Ok(Command::Bibliography(options_in(alloc, words)?)),
    }
}

/// The command `check`, with its options and files.
fn check_in(alloc: Global, words: &ArgMatches<'_>) -> Result<Command, CommandLineError> {
    let mut files = Vec::new(alloc);
    push_texts(alloc, words, "FILE", &mut files)?;
    if inputs_in(&files) > 1 {
        return Err(CommandLineError::Usage(UsageError::TwoInputs));
    }
    Ok(Command::Check(CheckOptions {
        files,
        format: match words.get_str("to") {
            Some("json") => CheckFormat::Json,
            _ => CheckFormat::Text,
        },
        fails_on_warnings: words.get_flag("fail-on-warnings"),
    }))
}

/// The command `entries`, with its files and their form.
fn entries_in(alloc: Global, words: &ArgMatches<'_>) -> Result<Command, CommandLineError> {
    let mut files = Vec::new(alloc);
    push_texts(alloc, words, "FILE", &mut files)?;
    if inputs_in(&files) > 1 {
        return Err(CommandLineError::Usage(UsageError::TwoInputs));
    }
    let from = text_at(alloc, words, "from")?;
    Ok(Command::Entries(EntriesOptions { files, from }))
}

/// The command `styles`, with the name.
fn styles_in(alloc: Global, words: &ArgMatches<'_>) -> Result<Command, CommandLineError> {
    Ok(Command::Styles(text_at(alloc, words, "NAME")?))
}

/// The options of the command that prints citations.
fn cite_options(alloc: Global, words: &ArgMatches<'_>) -> Result<Options, CommandLineError> {
    let mut options = options_in(alloc, words)?;
    options.has_bibliography = words.get_flag("with-bibliography");
    options.links_citations = words.get_flag("link-citations");
    Ok(options)
}

/// The options of the command that explains.
fn explain_options(alloc: Global, words: &ArgMatches<'_>) -> Result<Options, CommandLineError> {
    checked(Options {
        style: text_at(alloc, words, "STYLE")?.unwrap_or(String::new(alloc)),
        locale: text_at(alloc, words, "locale")?,
        styles: text_at(alloc, words, "styles")?,
        locales: text_at(alloc, words, "locales")?,
        format: match words.get_str("to") {
            Some("html") => OutputFormat::Html,
            _ => OutputFormat::Json,
        },
        is_standalone: false,
        has_bibliography: true,
        links_citations: false,
        lists_uncited: false,
        is_draft: false,
        abbreviations: text_at(alloc, words, "abbreviations")?,
        most_steps: words.get_one::<usize>("most-steps"),
        most_bytes: words.get_one::<usize>("most-bytes"),
        references: references_in(alloc, words)?,
        from: text_at(alloc, words, "from")?,
        citations: text_at(alloc, words, "CITATIONS")?,
    })
}

/// The options of a command that writes.
fn options_in(alloc: Global, words: &ArgMatches<'_>) -> Result<Options, CommandLineError> {
    checked(Options {
        style: text_at(alloc, words, "style")?.unwrap_or(String::new(alloc)),
        locale: text_at(alloc, words, "locale")?,
        styles: text_at(alloc, words, "styles")?,
        locales: text_at(alloc, words, "locales")?,
        format: format_in(words),
        is_standalone: words.get_flag("standalone"),
        has_bibliography: false,
        links_citations: false,
        lists_uncited: words.get_flag("nocite"),
        is_draft: words.get_flag("draft"),
        abbreviations: text_at(alloc, words, "abbreviations")?,
        most_steps: words.get_one::<usize>("most-steps"),
        most_bytes: words.get_one::<usize>("most-bytes"),
        references: references_in(alloc, words)?,
        from: text_at(alloc, words, "from")?,
        citations: text_at(alloc, words, "CITATIONS")?,
    })
}

/// The command `render`, with its document and options.
fn render_in(alloc: Global, words: &ArgMatches<'_>) -> Result<Command, CommandLineError> {
    let format = format_in(words);
    let is_standalone = words.get_flag("standalone");
    check_page(is_standalone, format)?;
    Ok(Command::Render(DocumentOptions {
        document: text_at(alloc, words, "DOCUMENT")?.unwrap_or(String::new(alloc)),
        format,
        is_standalone,
        links_citations: words.get_flag("link-citations"),
        depth: words.get_one::<usize>("depth").unwrap_or(DEPTH),
        elements: words.get_one::<usize>("elements").unwrap_or(ELEMENTS),
    }))
}

/// The text at an option or a file.
fn text_at(alloc: Global, words: &ArgMatches<'_>, id: &str) -> Result<Option<String>, AllocError> {
    match words.get_str(id) {
        Some(text) => Ok(Some(String::from_str(alloc, text)?)),
        None => Ok(None),
    }
}

/// The form of what is written; a whole page is HTML by default.
fn format_in(words: &ArgMatches<'_>) -> OutputFormat {
    match words.get_str("to") {
        Some("html") => OutputFormat::Html,
        Some("markdown") => OutputFormat::Markdown,
        Some("latex") => OutputFormat::Latex,
        Some("json") => OutputFormat::Json,
        None if words.get_flag("standalone") => OutputFormat::Html,
        _ => OutputFormat::Text,
    }
}

/// The files of references.
fn references_in(alloc: Global, words: &ArgMatches<'_>) -> Result<Vec<String>, AllocError> {
    let mut references = Vec::new(alloc);
    push_texts(alloc, words, "REFERENCES", &mut references)?;
    push_texts(alloc, words, "more", &mut references)?;
    Ok(references)
}

/// Adds the texts at an option or a file.
fn push_texts(
    alloc: Global,
    words: &ArgMatches<'_>,
    id: &str,
    texts: &mut Vec<String>,
) -> Result<(), AllocError> {
    let Some(found) = words.get_strs(id) else {
        return Ok(());
    };
    for text in found {
        texts.push(String::from_str(alloc, *text)?)?;
    }
    Ok(())
}

/// Options, where one file at most is the standard input, and a whole page is HTML.
fn checked(options: Options) -> Result<Options, CommandLineError> {
    if inputs(&options) > 1 {
        return Err(CommandLineError::Usage(UsageError::TwoInputs));
    }
    check_page(options.is_standalone, options.format)?;
    Ok(options)
}

/// Whether a whole page, if one is asked for, is HTML.
fn check_page(is_standalone: bool, format: OutputFormat) -> Result<(), CommandLineError> {
    if is_standalone && format != OutputFormat::Html {
        return Err(CommandLineError::Usage(UsageError::NoPage));
    }
    Ok(())
}

/// How many files are the standard input.
fn inputs(options: &Options) -> usize {
    let mut inputs = inputs_in(&options.references);
    if options.style.as_str() == "-" {
        inputs = inputs.saturating_add(1);
    }
    for path in [&options.citations, &options.abbreviations] {
        if path.as_deref() == Some("-") {
            inputs = inputs.saturating_add(1);
        }
    }
    inputs
}

fn inputs_in(paths: &[String]) -> usize {
    paths.iter().filter(|path| path.as_str() == "-").count()
}
