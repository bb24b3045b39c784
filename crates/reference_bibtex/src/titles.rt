//! Titles of items.
use crate::conversion::Conversion;
use reference_fields::strings::small;
use reference_fields::tables::is_whole_book;
use reference_latex::run::before_colon;
use reference_latex::text::csl_title;
use std::alloc::{AllocError, Global};

/// The fields of a title.
#[derive(Clone, Copy)]
struct TitleFields {
    title: &'static str,
    subtitle: &'static str,
    addon: &'static str,
}

const OWN: TitleFields = TitleFields {
    title: "title",
    subtitle: "subtitle",
    addon: "titleaddon",
};

const MAIN: TitleFields = TitleFields {
    title: "maintitle",
    subtitle: "mainsubtitle",
    addon: "maintitleaddon",
};

const BOOK: TitleFields = TitleFields {
    title: "booktitle",
    subtitle: "booksubtitle",
    addon: "booktitleaddon",
};

const ISSUE: TitleFields = TitleFields {
    title: "issuetitle",
    subtitle: "issuesubtitle",
    addon: "issuetitleaddon",
};

const EVENT: TitleFields = TitleFields {
    title: "eventtitle",
    subtitle: "eventsubtitle",
    addon: "eventtitleaddon",
};

const JOURNAL: TitleFields = TitleFields {
    title: "journaltitle",
    subtitle: "journalsubtitle",
    addon: "journaltitleaddon",
};

const OLDER_JOURNAL: TitleFields = TitleFields {
    title: "journal",
    subtitle: "journalsubtitle",
    addon: "journaltitleaddon",
};

impl<'e> Conversion<'e> {
    /// A title with its subtitle and what is added to it.
    fn whole_title(&mut self, fields: TitleFields) -> Result<String, AllocError> {
        let title = self.title(&[fields.title])?;
        let subtitle = self.title(&[fields.subtitle])?;
        let addon = self.title(&[fields.addon])?;
        title_of(self.alloc, title, subtitle, addon)
    }

    /// The title of a journal, which keeps its case.
    fn journal_title(&mut self, fields: TitleFields) -> Result<String, AllocError> {
        let title = self.text(&[fields.title])?;
        let subtitle = self.text(&[fields.subtitle])?;
        let addon = self.text(&[fields.addon])?;
        title_of(self.alloc, title, subtitle, addon)
    }

    /// Puts the titles of the work, of its volume, and of what contains it.
    pub(crate) fn put_titles(&mut self) -> Result<(), AllocError> {
        if self.is_periodical() {
            self.put_titles_of_periodical()?;
        } else if self.has_main_title() && !self.is_part() {
            self.put_title("title", MAIN)?;
            self.put_title("volume-title", OWN)?;
            self.put_journal()?;
        } else {
            self.put_title("title", OWN)?;
            self.put_container()?;
        }
        self.put_short_title()
    }

    fn put_title(&mut self, variable: &'static str, fields: TitleFields) -> Result<(), AllocError> {
        let title = self.whole_title(fields)?;
        self.item.put_text(variable, title)
    }

    fn put_titles_of_periodical(&mut self) -> Result<(), AllocError> {
        let journal = self.journal_title(OWN)?;
        let issue = self.whole_title(ISSUE)?;
        let title = if issue.is_empty() {
            self.whole_title(OWN)?
        } else {
            issue
        };
        self.item.put_text("container-title", journal)?;
        self.item.put_text("title", title)
    }

    /// Puts the title of what contains the work.
    fn put_container(&mut self) -> Result<(), AllocError> {
        if !self.is_part() {
            return self.put_journal();
        }
        if self.has_main_title() {
            self.put_title("container-title", MAIN)?;
            return self.put_title("volume-title", BOOK);
        }
        self.put_title("container-title", BOOK)
    }

    /// Puts the journal, or the book of a work that is no part of one.
    fn put_journal(&mut self) -> Result<(), AllocError> {
        let fields = if self.whole.has("journaltitle") {
            JOURNAL
        } else {
            OLDER_JOURNAL
        };
        let journal = self.journal_title(fields)?;
        let title = if journal.is_empty() && !is_whole_book(self.whole.kind) {
            self.whole_title(BOOK)?
        } else {
            journal
        };
        self.item.put_text("container-title", title)
    }

    /// Puts the short title of its own field, or what stands before a colon or a subtitle.
    fn put_short_title(&mut self) -> Result<(), AllocError> {
        let short = self.short_title()?;
        self.item.put_text("title-short", short)
    }

    fn short_title(&mut self) -> Result<String, AllocError> {
        let has_main_title = self.has_main_title();
        if self.whole.has("shorttitle") && (!has_main_title || self.is_part()) {
            return self.title(&["shorttitle"]);
        }
        let runs = if self.is_periodical() {
            self.title_runs(&["issuetitle", "title"])?
        } else {
            self.title_runs(&["title"])?
        };
        let before = before_colon(self.alloc, &runs)?;
        let has_more = self.whole.has("subtitle") || self.whole.has("titleaddon");
        if before.is_empty() && has_more && !has_main_title {
            csl_title(self.alloc, &runs)
        } else {
            csl_title(self.alloc, &before)
        }
    }

    /// Puts the other titles.
    pub(crate) fn put_other_titles(&mut self) -> Result<(), AllocError> {
        let is_journal = self.is_periodical() && !self.has_main_title();
        let short = if is_journal {
            "shorttitle"
        } else {
            "shortjournal"
        };
        self.put_text_of("container-title-short", &[short])?;
        self.put_series()?;
        self.put_title("event-title", EVENT)?;
        let original = self.title(&["origtitle"])?;
        self.item.put_text("original-title", original)
    }

    fn put_series(&mut self) -> Result<(), AllocError> {
        let title = self.title(&["series"])?;
        let series = series_of(self.alloc, title)?;
        self.item.put_text("collection-title", series)
    }
}

/// A series by its title, its number or its name.
fn series_of(alloc: Global, title: String) -> Result<String, AllocError> {
    if title.len() < 4 {
        if let Ok(number) = title.as_str().parse::<u16>() {
            let ending = ordinal_ending(number);
            return format!(in alloc; "{number}{ending} series");
        }
    }
    match small(alloc, title.as_str())?.as_str() {
        "newseries" => String::from_str(alloc, "New series"),
        "oldseries" => String::from_str(alloc, "Old series"),
        _ => Ok(title),
    }
}

fn ordinal_ending(number: u16) -> &'static str {
    match (number % 100, number % 10) {
        (11..=13, _) => "th",
        (_, 1) => "st",
        (_, 2) => "nd",
        (_, 3) => "rd",
        _ => "th",
    }
}

/// A title with a subtitle and what is added to it.
fn title_of(
    alloc: Global,
    title: String,
    subtitle: String,
    addon: String,
) -> Result<String, AllocError> {
    let title = joined_by(alloc, title, subtitle, ':')?;
    joined_by(alloc, title, addon, '.')
}

/// Two texts with a sign between them, where the first doesn't end with one.
///
/// # Errors
/// Where memory is refused.
pub(crate) fn joined_by(
    alloc: Global,
    first: String,
    second: String,
    sign: char,
) -> Result<String, AllocError> {
    if first.is_empty() {
        return Ok(second);
    }
    if second.is_empty() {
        return Ok(first);
    }
    let mut joined = String::from_str(alloc, first.as_str())?;
    if !ends_with_sign(first.as_str()) {
        joined.push(sign)?;
    }
    joined.push(' ')?;
    joined.push_str(second.as_str())?;
    Ok(joined)
}

/// Whether a text ends with a sign, but for tags and what closes quotes or brackets.
fn ends_with_sign(text: &str) -> bool {
    let mut rest = text;
    for _ in 0..text.len() {
        let bare = rest.trim_end_matches(['"', '\'', '’', '”', ')', ']']);
        rest = match bare.rsplit_once('<') {
            Some((before, _)) if bare.ends_with('>') => before,
            _ => return bare.ends_with(['.', '?', '!', ':', ';', ',']),
        };
    }
    false
}
