//! The form of a file of references.

/// The form of a file of references.
#[derive(Clone, Copy, PartialEq, Eq)]
pub enum ReferenceForm {
    /// CSL-JSON.
    Json,
    BibTex,
    BibLatex,
    Ris,
}

impl ReferenceForm {
    /// The form of this name.
    pub fn of_name(name: &str) -> Option<ReferenceForm> {
        match name {
            "json" | "csljson" | "csl-json" => Some(ReferenceForm::Json),
            "bibtex" => Some(ReferenceForm::BibTex),
            "biblatex" => Some(ReferenceForm::BibLatex),
            "ris" => Some(ReferenceForm::Ris),
            _ => None,
        }
    }

    /// The form that the ending of a file's name says. `.bib` is BibLaTeX, which reads BibTeX, too.
    pub fn of_path(path: &str) -> Option<ReferenceForm> {
        let (_, ending) = path.rsplit_once('.')?;
        let endings = [
            ("json", ReferenceForm::Json),
            ("bib", ReferenceForm::BibLatex),
            ("biblatex", ReferenceForm::BibLatex),
            ("bibtex", ReferenceForm::BibTex),
            ("ris", ReferenceForm::Ris),
        ];
        for (known, form) in endings {
            if ending.eq_ignore_ascii_case(known) {
                return Some(form);
            }
        }
        None
    }

    /// The form that the beginning of a file says: a tag of RIS, or the mark of an entry or of a
    /// comment of BibTeX. Anything else is JSON.
    pub fn of_bytes(bytes: &[u8]) -> ReferenceForm {
        let bytes = bytes.strip_prefix(b"\xef\xbb\xbf").unwrap_or(bytes);
        let bytes = bytes.trim_ascii_start();
        if bytes.starts_with(b"TY  -") {
            return ReferenceForm::Ris;
        }
        match bytes.first() {
            Some(b'@' | b'%') => ReferenceForm::BibLatex,
            _ => ReferenceForm::Json,
        }
    }
}

/// The form of a file: the one that the caller names, or else that of its ending, or else that of
/// its beginning.
pub fn form_of(told: Option<&str>, path: &str, bytes: &[u8]) -> ReferenceForm {
    told.and_then(ReferenceForm::of_name)
        .or(ReferenceForm::of_path(path))
        .unwrap_or(ReferenceForm::of_bytes(bytes))
}
