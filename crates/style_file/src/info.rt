//! What a style says of itself (CSL 1.0.2, "Info").

/// The value of a link's `rel`.
#[derive(Clone, Copy, PartialEq, Eq)]
pub enum LinkRelation {
    /// The file itself.
    Itself,
    /// The style on which this one was modelled.
    Template,
    Documentation,
    /// The style that a dependent style stands for.
    IndependentParent,
}

/// An element `link`.
#[derive(Drop)]
pub struct Link {
    pub href: String,
    pub relation: LinkRelation,
    /// The language tag of what the link leads to.
    pub language: Option<String>,
}

/// The form of a style's citations.
#[derive(Clone, Copy, PartialEq, Eq)]
pub enum CitationFormat {
    Author,
    AuthorDate,
    Label,
    Note,
    Numeric,
}

/// The field of science that a style is for.
#[derive(Clone, Copy, PartialEq, Eq)]
pub enum Field {
    Anthropology,
    Astronomy,
    Biology,
    Botany,
    Chemistry,
    Communications,
    Engineering,
    GenericBase,
    Geography,
    Geology,
    History,
    Humanities,
    Law,
    Linguistics,
    Literature,
    Math,
    Medicine,
    Philosophy,
    Physics,
    PoliticalScience,
    Psychology,
    Science,
    SocialScience,
    Sociology,
    Theology,
    Zoology,
}

/// An element `category`.
#[derive(Clone, Copy, PartialEq, Eq)]
pub enum Category {
    CitationFormat(CitationFormat),
    Field(Field),
}

/// An element `info` of a style.
#[derive(Drop)]
pub struct Info {
    pub title: String,
    pub title_short: Option<String>,
    /// The identifier, most often a URL.
    pub id: String,
    pub links: Vec<Link>,
    pub categories: Vec<Category>,
    pub summary: Option<String>,
    /// When the style was last changed, as it is written.
    pub updated: Option<String>,
}
