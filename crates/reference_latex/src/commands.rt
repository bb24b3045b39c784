//! The commands of LaTeX that write their argument, or leave it out.
use crate::run::Format;
use crate::symbols::{accent_of, row_of, symbol_of};

/// What a command does with its argument.
#[derive(Clone, Copy)]
pub(crate) enum Command {
    /// It stands for a text, and has no argument.
    Symbol(&'static str),
    /// It puts a mark on its letter.
    Accent(char),
    Format(Format),
    Quote,
    Upper,
    Lower,
    /// It keeps the case.
    Protect,
    /// Its argument is an address.
    Address,
    Formula,
    /// It shows its argument as it is.
    Transparent,
    /// So many arguments aren't shown. One behind them is.
    LeftOut(usize),
    /// So many arguments aren't shown.
    Silent(usize),
    Unknown,
}

/// What a command changes for the rest of its group.
#[derive(Clone, Copy)]
pub(crate) enum Switch {
    To(Format),
    /// To a font without formats.
    Plain,
}

const FORMATS: &[(&str, Format)] = &[
    ("emph", Format::Italic),
    ("textit", Format::Italic),
    ("textsl", Format::Italic),
    ("mkbibemph", Format::Italic),
    ("mkbibitalic", Format::Italic),
    ("textbf", Format::Bold),
    ("mkbibbold", Format::Bold),
    ("textsc", Format::SmallCaps),
    ("textsuperscript", Format::Superscript),
    ("mkbibsuperscript", Format::Superscript),
    ("textsubscript", Format::Subscript),
    ("mkbibsubscript", Format::Subscript),
];

const SWITCHES: &[(&str, Switch)] = &[
    ("em", Switch::To(Format::Italic)),
    ("it", Switch::To(Format::Italic)),
    ("sl", Switch::To(Format::Italic)),
    ("itshape", Switch::To(Format::Italic)),
    ("slshape", Switch::To(Format::Italic)),
    ("bf", Switch::To(Format::Bold)),
    ("bfseries", Switch::To(Format::Bold)),
    ("sc", Switch::To(Format::SmallCaps)),
    ("scshape", Switch::To(Format::SmallCaps)),
    ("rm", Switch::Plain),
    ("upshape", Switch::Plain),
    ("normalfont", Switch::Plain),
    ("tt", Switch::Plain),
    ("sf", Switch::Plain),
    ("mdseries", Switch::Plain),
    ("rmfamily", Switch::Plain),
];

const OTHERS: &[(&str, Command)] = &[
    ("", Command::Transparent),
    ("Large", Command::Transparent),
    ("MakeLowercase", Command::Lower),
    ("MakeSentenceCase", Command::Protect),
    ("MakeUppercase", Command::Upper),
    ("NOOPSORT", Command::Silent(1)),
    ("NoCaseChange", Command::Protect),
    ("SortNoop", Command::Silent(1)),
    ("allowbreak", Command::Transparent),
    ("autocap", Command::Transparent),
    ("bgroup", Command::Transparent),
    ("bibinfo", Command::LeftOut(1)),
    ("bibstring", Command::Transparent),
    ("boldmath", Command::Transparent),
    ("break", Command::Transparent),
    ("ce", Command::Protect),
    ("centering", Command::Transparent),
    ("cite", Command::Silent(1)),
    ("color", Command::Silent(1)),
    ("egroup", Command::Transparent),
    ("enquote", Command::Quote),
    ("ensuremath", Command::Formula),
    ("fbox", Command::Transparent),
    ("fontsize", Command::Silent(2)),
    ("footnote", Command::Silent(1)),
    ("footnotesize", Command::Transparent),
    ("foreignlanguage", Command::LeftOut(1)),
    ("hbox", Command::Transparent),
    ("hfill", Command::Transparent),
    ("href", Command::LeftOut(1)),
    ("hskip", Command::Transparent),
    ("hspace", Command::Silent(1)),
    ("hyphenation", Command::Silent(1)),
    ("ignorespaces", Command::Transparent),
    ("index", Command::Silent(1)),
    ("label", Command::Silent(1)),
    ("large", Command::Transparent),
    ("lowercase", Command::Lower),
    ("lowercaseexpand", Command::Transparent),
    ("mbox", Command::Transparent),
    ("mkbibacro", Command::Protect),
    ("mkbibbrackets", Command::Transparent),
    ("mkbibnamefamily", Command::Transparent),
    ("mkbibnamegiven", Command::Transparent),
    ("mkbibparens", Command::Transparent),
    ("mkbibquote", Command::Quote),
    ("nobreak", Command::Transparent),
    ("nocite", Command::Silent(1)),
    ("noindent", Command::Transparent),
    ("nolinebreak", Command::Transparent),
    ("nolinkurl", Command::Address),
    ("noop", Command::Silent(1)),
    ("noopsort", Command::Silent(1)),
    ("normalsize", Command::Transparent),
    ("parencite", Command::Silent(1)),
    ("path", Command::Address),
    ("phantom", Command::Silent(1)),
    ("protect", Command::Transparent),
    ("relax", Command::Transparent),
    ("selectlanguage", Command::Silent(1)),
    ("sloppy", Command::Transparent),
    ("small", Command::Transparent),
    ("sortnoop", Command::Silent(1)),
    ("sout", Command::Transparent),
    ("strut", Command::Transparent),
    ("switch", Command::Silent(1)),
    ("text", Command::Transparent),
    ("textcite", Command::Silent(1)),
    ("textcolor", Command::LeftOut(1)),
    ("textlang", Command::LeftOut(1)),
    ("textmd", Command::Transparent),
    ("textnocase", Command::Protect),
    ("textnormal", Command::Transparent),
    ("textrm", Command::Transparent),
    ("textsf", Command::Transparent),
    ("texttt", Command::Transparent),
    ("textulc", Command::Transparent),
    ("textup", Command::Transparent),
    ("tiny", Command::Transparent),
    ("ul", Command::Transparent),
    ("uline", Command::Transparent),
    ("underline", Command::Transparent),
    ("unskip", Command::Transparent),
    ("uppercase", Command::Upper),
    ("url", Command::Address),
    ("vspace", Command::Silent(1)),
];

/// What the command of this name does.
pub(crate) fn command_of(name: &str) -> Command {
    if let Some(text) = symbol_of(name) {
        return Command::Symbol(text);
    }
    if let Some(mark) = accent_of(name) {
        return Command::Accent(mark);
    }
    match row_of(FORMATS, name) {
        Some(format) => Command::Format(format),
        None => row_of(OTHERS, name).unwrap_or(Command::Unknown),
    }
}

/// What the command of this name changes for the rest of its group, if it does so.
pub(crate) fn switch_of(name: &str) -> Option<Switch> {
    row_of(SWITCHES, name)
}
