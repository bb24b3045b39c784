//! What a command line asks for.

/// What a command line asks for.
#[derive(Drop)]
pub enum Command {
    /// This text is printed: the help, or the version.
    Show(String),
    /// Files are checked.
    Check(CheckOptions),
    /// Citations are printed.
    Cite(Options),
    /// A bibliography is printed.
    Bibliography(Options),
    /// It is printed which element of a style wrote each text.
    Explain(Options),
    /// References are printed as CSL-JSON.
    Entries(EntriesOptions),
    /// A document of `cite_run` is answered.
    Render(DocumentOptions),
    /// The names of the styles that are built in are printed, or the file of that of this name.
    Styles(Option<String>),
    /// The style sheet of pages is printed.
    StyleSheet,
    /// A session does what the lines of the standard input say.
    Session,
}

/// The form of what is written.
#[derive(Clone, Copy, PartialEq, Eq)]
pub enum OutputFormat {
    /// Lines of text.
    Text,
    /// HTML.
    Html,
    /// Markdown, as CommonMark and pandoc read it.
    Markdown,
    /// LaTeX, for a document that loads hyperref.
    Latex,
    /// The JSON of docs/ANSWER.md.
    Json,
}

/// The options of a command that writes, and its files.
#[derive(Drop)]
pub struct Options {
    /// The style: a name, or the path of a file.
    pub style: String,
    /// The language, where it isn't that of the style.
    pub locale: Option<String>,
    /// The folder of styles.
    pub styles: Option<String>,
    /// The folder of locale files.
    pub locales: Option<String>,
    pub format: OutputFormat,
    /// Whether what is written is a whole page of HTML.
    pub is_standalone: bool,
    /// Whether citations are followed by the bibliography.
    pub has_bibliography: bool,
    /// Whether cites lead to their items, in HTML, Markdown and LaTeX.
    pub links_citations: bool,
    /// Whether references that aren't cited are listed.
    pub lists_uncited: bool,
    /// Whether cites of items that aren't there stand as their ids, and items with a fault are left
    /// out.
    pub is_draft: bool,
    /// The file of abbreviations.
    pub abbreviations: Option<String>,
    /// How many steps the style may take for each cite and each item, where the command line says
    /// it.
    pub most_steps: Option<usize>,
    /// How many bytes the style may write for each, where the command line says it.
    pub most_bytes: Option<usize>,
    /// The files of references: the one that is named as a file first, then those of
    /// `--references`.
    pub references: Vec<String>,
    /// The form of the files of references, where the command line says it.
    pub from: Option<String>,
    /// The file of citations.
    pub citations: Option<String>,
}

/// The form of what is said of files that are checked.
#[derive(Clone, Copy, PartialEq, Eq)]
pub enum CheckFormat {
    /// Lines of text.
    Text,
    /// A list of JSON, for editors.
    Json,
}

/// The options of the command that checks, and its files.
#[derive(Drop)]
pub struct CheckOptions {
    pub files: Vec<String>,
    pub format: CheckFormat,
    /// Whether a file with a warning counts as wrong.
    pub fails_on_warnings: bool,
}

/// The options of a command that prints references, and its files.
#[derive(Drop)]
pub struct EntriesOptions {
    pub files: Vec<String>,
    /// Their form, where the command line says it.
    pub from: Option<String>,
}

/// The options of a command that answers a document, and its file.
#[derive(Drop)]
pub struct DocumentOptions {
    /// The file of the document.
    pub document: String,
    /// The form of the answer; as text, it is what `cite_run` writes.
    pub format: OutputFormat,
    /// Whether what is written is a whole page of HTML.
    pub is_standalone: bool,
    /// Whether cites lead to their items, in HTML, Markdown and LaTeX.
    pub links_citations: bool,
    /// How deep the elements of a layout may nest.
    pub depth: usize,
    /// How many elements a layout may have.
    pub elements: usize,
}

impl Options {
    /// How the file of citations is called in messages.
    pub fn citations_path(&self) -> &str {
        match &self.citations {
            Some(path) => path.as_str(),
            None => "-",
        }
    }
}
