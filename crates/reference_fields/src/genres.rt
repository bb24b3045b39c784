//! What names in fields are in English.
use crate::tables::row_of;

/// What a type that `type` names, or that has a genre of its own, is called in English.
const GENRES: &[(&str, &str)] = &[
    ("mastersthesis", "Master’s thesis"),
    ("phdthesis", "PhD thesis"),
    ("mathesis", "Master’s thesis"),
    ("bathesis", "Bachelor’s thesis"),
    ("candthesis", "Candidate thesis"),
    ("techreport", "technical report"),
    ("resreport", "research report"),
    ("software", "computer software"),
    ("datacd", "CD-ROM"),
    ("audiocd", "audio CD"),
    ("patent", "patent"),
    ("patentde", "German patent"),
    ("patenteu", "European patent"),
    ("patentfr", "French patent"),
    ("patentuk", "British patent"),
    ("patentus", "U.S. patent"),
    ("patreq", "patent request"),
    ("patreqde", "German patent request"),
    ("patreqeu", "European patent request"),
    ("patreqfr", "French patent request"),
    ("patrequk", "British patent request"),
    ("patrequs", "U.S. patent request"),
];

/// What states of a publication are called in English.
const STATES: &[(&str, &str)] = &[
    ("inpreparation", "in preparation"),
    ("submitted", "submitted"),
    ("forthcoming", "forthcoming"),
    ("inpress", "in press"),
    ("prepublished", "pre-published"),
];

/// What countries of patents are called in English.
const COUNTRIES: &[(&str, &str)] = &[
    ("countryde", "Germany"),
    ("countryeu", "European Union"),
    ("countryep", "European Union"),
    ("countryfr", "France"),
    ("countryuk", "United Kingdom"),
    ("countryus", "United States of America"),
];

/// Where works are that an archive has.
const ARCHIVES: &[(&str, &str)] = &[
    ("arxiv", "https://arxiv.org/abs/"),
    ("jstor", "https://www.jstor.org/stable/"),
    ("pubmed", "https://www.ncbi.nlm.nih.gov/pubmed/"),
    ("googlebooks", "https://books.google.com?id="),
    ("hdl", "https://hdl.handle.net/"),
];

/// The genre that a name stands for.
pub fn genre_of(name: &str) -> Option<&'static str> {
    row_of(GENRES, name)
}

/// The state that a name stands for.
pub fn state_of(name: &str) -> Option<&'static str> {
    row_of(STATES, name)
}

/// The country that a name stands for.
pub fn country_of(name: &str) -> Option<&'static str> {
    row_of(COUNTRIES, name)
}

/// The address of an archive, up to the number of a work.
pub fn archive_of(name: &str) -> Option<&'static str> {
    row_of(ARCHIVES, name)
}
