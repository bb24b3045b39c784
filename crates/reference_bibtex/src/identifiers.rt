//! Addresses and identifiers of items.
use crate::conversion::Conversion;
use reference_fields::genres::archive_of;
use reference_fields::strings::small;
use reference_latex::text::address_of;
use std::alloc::AllocError;

/// The variables of identifiers that stand as they are.
const IDENTIFIERS: &[(&str, &[&str])] = &[
    ("ISBN", &["isbn"]),
    ("ISSN", &["issn"]),
    ("PMID", &["pmid", "pubmedid"]),
    ("PMCID", &["pmcid"]),
];

/// What may stand before a DOI.
const RESOLVERS: [&str; 5] = [
    "https://doi.org/",
    "http://doi.org/",
    "https://dx.doi.org/",
    "http://dx.doi.org/",
    "doi:",
];

impl<'e> Conversion<'e> {
    /// Puts addresses and identifiers.
    pub(crate) fn put_identifiers(&mut self) -> Result<(), AllocError> {
        self.put_address()?;
        self.put_doi()?;
        for (variable, names) in IDENTIFIERS {
            let source = self.source(*names);
            let text = String::from_str(self.alloc, source)?;
            self.item.put_text(*variable, text)?;
        }
        self.put_text_of("call-number", &["library"])?;
        self.put_text_of("citation-label", &["shorthand"])
    }

    fn put_doi(&mut self) -> Result<(), AllocError> {
        let doi = address_of(self.alloc, self.source(&["doi"]))?;
        let bare = String::from_str(self.alloc, bare_doi(doi.as_str()))?;
        self.item.put_text("DOI", bare)
    }

    /// Puts the address of the work, or of an archive that has it.
    fn put_address(&mut self) -> Result<(), AllocError> {
        let url = self.address()?;
        let eprint = self.eprint()?;
        if url.is_empty() {
            return self.item.put_text("URL", eprint);
        }
        if !eprint.is_empty() {
            self.lose("eprint", "the URL stands alone")?;
        }
        self.item.put_text("URL", url)
    }

    fn address(&mut self) -> Result<String, AllocError> {
        let url = address_of(self.alloc, self.source(&["url"]))?;
        let is_used = self.is_used("howpublished");
        if !url.is_empty() || is_used {
            return Ok(url);
        }
        let source = self.source(&["howpublished"]);
        address_of(self.alloc, source)
    }

    /// The address of a work that an archive has.
    fn eprint(&mut self) -> Result<String, AllocError> {
        let number = address_of(self.alloc, self.source(&["eprint"]))?;
        let kind = self.source(&["eprinttype", "archiveprefix"]);
        let kind = small(self.alloc, kind)?;
        self.uses("eprintclass");
        self.uses("primaryclass");
        if number.is_empty() {
            return Ok(number);
        }
        if let Some(archive) = archive_of(kind.as_str()) {
            let mut address = String::from_str(self.alloc, archive)?;
            address.push_str(number.as_str())?;
            return Ok(address);
        }
        self.lose_eprint(kind.as_str())?;
        Ok(String::new(self.alloc))
    }

    fn lose_eprint(&mut self, kind: &str) -> Result<(), AllocError> {
        if kind.is_empty() {
            return self.lose("eprint", "no eprinttype names its archive");
        }
        let reason = format!(in self.alloc; "no known archive {kind}")?;
        self.lose("eprint", reason.as_str())
    }
}

/// A DOI without what stands before it.
fn bare_doi(doi: &str) -> &str {
    for resolver in RESOLVERS {
        if let Some((begin, bare)) = doi.split_at_checked(resolver.len()) {
            if begin.eq_ignore_ascii_case(resolver) {
                return bare.trim_start();
            }
        }
    }
    doi
}
