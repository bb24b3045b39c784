//! The public paths of the crates that users know: none is lost while each line here is proved.

/// Those of `csl_base`.
pub mod of_base {
    pub use csl_base::calls::{add_all_calls, add_calls};
    pub use csl_base::elem::{BufWriteFormat, Elem, ElemChild, ElemChildren, ElemMeta};
    pub use csl_base::element::{
        Affixes, ChooseBranch, ChooseMatch, Condition, CslMacro, InheritableNameOptions,
        LayoutRenderingElement, NameAnd, NameForm, TestPosition, TextTarget,
    };
    pub use csl_base::entry::{
        Chunk, ChunkKind, ChunkedString, Date, EntryLike, Person, PlainEntry,
    };
    pub use csl_base::equality::equality_laws;
    pub use csl_base::first_names::first_names_laws;
    pub use csl_base::formatting::{
        Display, FontStyle, FontVariant, FontWeight, Formatted, Formatting, StyleFormatting,
        TextDecoration, VerticalAlign,
    };
    pub use csl_base::last_text::last_text_laws;
    pub use csl_base::laws::{
        choice_equality_decides, element_equality_decides, entry_equality_decides,
        formatting_equality_decides, locale_equality_decides, names_equality_decides,
        options_equality_decides, style_equality_decides, taxonomy_equality_decides,
    };
    pub use csl_base::locale::{Locale, LocaleCode, LocalizedTerm};
    pub use csl_base::names::{
        DisambiguatedNameForm, NameDisambiguationProperties, forms_are_in_order,
    };
    pub use csl_base::ring::body_of;
    pub use csl_base::seq::Seq;
    pub use csl_base::simplify::{append, simplify_laws};
    pub use csl_base::stack::NonEmptyStack;
    pub use csl_base::style::{
        Bibliography, Citation, CitationFormat, Collapse, DisambiguationRule, IndependentStyle,
        Layout, SecondFieldAlign, StyleCategory, StyleClass, StyleInfo, StyleSettings,
        SubsequentAuthorSubstituteRule,
    };
    pub use csl_base::taxonomy::{
        DateVariable, Locator, NameVariable, NumberVariable, OtherTerm, StandardVariable, Term,
        TermForm, Variable,
    };
    pub use csl_base::text::{Text, has_content};
}

/// Those of `csl_writing`.
pub mod of_writing {
    pub use csl_writing::brackets::Brackets;
    pub use csl_writing::cite::Cite;
    pub use csl_writing::context::Context;
    pub use csl_writing::counter::Renders;
    pub use csl_writing::laws::{
        copies_are_equal, defaults_are_none, equality_decides, states_go_on,
        states_have_a_greatest, suffixes_differ, usage_counts_once,
    };
    pub use csl_writing::locator::{LocatorPayload, SpecificLocator, TransparentLocator};
    pub use csl_writing::lookup::StyleContext;
    pub use csl_writing::means::{Means, is_chosen, names_told, suffix_told};
    pub use csl_writing::picking::{macros_unfold, suffixes_unfold};
    pub use csl_writing::prepared::PreparedStyle;
    pub use csl_writing::properties::{
        CertainCiteProperties, CiteProperties, SpeculativeCiteProperties,
    };
    pub use csl_writing::purpose::CitePurpose;
    pub use csl_writing::state::{CollapseVerdict, DisambiguateState, IbidState, IdentifierUsage};
    pub use csl_writing::terms::TermTables;
    pub use csl_writing::token::{DelimiterIdx, DisplayLoc, FormatIdx};
    pub use csl_writing::writing::WritingContext;
    pub use csl_writing::year::{letters_of_suffix, write_year};
}

/// Those of `csl_driver`.
pub mod of_driver {
    pub use csl_driver::account::Account;
    pub use csl_driver::apart::Apart;
    pub use csl_driver::brackets::Brackets;
    pub use csl_driver::cite::Cite;
    pub use csl_driver::context::Context;
    pub use csl_driver::counter::Renders;
    pub use csl_driver::csl_account::CslAccount;
    pub use csl_driver::driver::BibliographyDriver;
    pub use csl_driver::elem::BufWriteFormat;
    pub use csl_driver::elem::Elem;
    pub use csl_driver::elem::ElemChild;
    pub use csl_driver::elem::ElemChildren;
    pub use csl_driver::elem::ElemMeta;
    pub use csl_driver::element::Affixes;
    pub use csl_driver::element::ChooseBranch;
    pub use csl_driver::element::ChooseMatch;
    pub use csl_driver::element::Condition;
    pub use csl_driver::element::CslMacro;
    pub use csl_driver::element::InheritableNameOptions;
    pub use csl_driver::element::LayoutRenderingElement;
    pub use csl_driver::element::NameAnd;
    pub use csl_driver::element::NameForm;
    pub use csl_driver::element::TestPosition;
    pub use csl_driver::element::TextTarget;
    pub use csl_driver::entry::Chunk;
    pub use csl_driver::entry::ChunkKind;
    pub use csl_driver::entry::ChunkedString;
    pub use csl_driver::entry::Date;
    pub use csl_driver::entry::EntryLike;
    pub use csl_driver::entry::Person;
    pub use csl_driver::entry::PlainEntry;
    pub use csl_driver::error::CitationRefused;
    pub use csl_driver::error::DriverError;
    pub use csl_driver::error::RingLocation;
    pub use csl_driver::error::error_equality_decides;
    pub use csl_driver::formatting::Display;
    pub use csl_driver::formatting::FontStyle;
    pub use csl_driver::formatting::FontVariant;
    pub use csl_driver::formatting::FontWeight;
    pub use csl_driver::formatting::Formatted;
    pub use csl_driver::formatting::Formatting;
    pub use csl_driver::formatting::StyleFormatting;
    pub use csl_driver::formatting::TextDecoration;
    pub use csl_driver::formatting::VerticalAlign;
    pub use csl_driver::item::CitationItem;
    pub use csl_driver::laws::ambiguous_stand_together;
    pub use csl_driver::laws::answer_equality_decides;
    pub use csl_driver::laws::answers_copy_equal;
    pub use csl_driver::laws::answers_keep_laws;
    pub use csl_driver::laws::bibliography_holds_each_once;
    pub use csl_driver::laws::bibliography_request_equality_decides;
    pub use csl_driver::laws::choose_and_suffix_go_on;
    pub use csl_driver::laws::collapsed_can_be_read_back;
    pub use csl_driver::laws::final_order_laws;
    pub use csl_driver::laws::first_equality_decides;
    pub use csl_driver::laws::grouped_in_final_order;
    pub use csl_driver::laws::item_equality_decides;
    pub use csl_driver::laws::items_copy_equal;
    pub use csl_driver::laws::name_marks_go_on;
    pub use csl_driver::laws::numbers_have_no_gaps;
    pub use csl_driver::laws::properties_equality_decides;
    pub use csl_driver::laws::request_equality_decides;
    pub use csl_driver::laws::runs_are_lawful;
    pub use csl_driver::laws::suffixes_count_entries;
    pub use csl_driver::locale::Locale;
    pub use csl_driver::locale::LocaleCode;
    pub use csl_driver::locale::LocalizedTerm;
    pub use csl_driver::locator::LocatorPayload;
    pub use csl_driver::locator::SpecificLocator;
    pub use csl_driver::locator::TransparentLocator;
    pub use csl_driver::lookup::StyleContext;
    pub use csl_driver::means::Means;
    pub use csl_driver::names::DisambiguatedNameForm;
    pub use csl_driver::names::NameDisambiguationProperties;
    pub use csl_driver::names::forms_are_in_order;
    pub use csl_driver::passes::AmbiguousGroup;
    pub use csl_driver::passes::Marks;
    pub use csl_driver::passes::SpeculativeCiteRender;
    pub use csl_driver::passes::SpeculativeItemRender;
    pub use csl_driver::passes::collapse_items;
    pub use csl_driver::passes::disambiguate_names;
    pub use csl_driver::passes::disambiguate_with_choose;
    pub use csl_driver::passes::disambiguate_year_suffix;
    pub use csl_driver::passes::find_ambiguous_sets;
    pub use csl_driver::passes::group_cites;
    pub use csl_driver::passes::substitute_subsequent_authors;
    pub use csl_driver::passes::with_last;
    pub use csl_driver::prepared::PreparedStyle;
    pub use csl_driver::properties::CertainCiteProperties;
    pub use csl_driver::properties::CiteProperties;
    pub use csl_driver::properties::SpeculativeCiteProperties;
    pub use csl_driver::purpose::CitePurpose;
    pub use csl_driver::rendered::BibliographyItem;
    pub use csl_driver::rendered::Rendered;
    pub use csl_driver::rendered::RenderedBibliography;
    pub use csl_driver::rendered::RenderedCitation;
    pub use csl_driver::request::BibliographyRequest;
    pub use csl_driver::request::CitationRequest;
    pub use csl_driver::request::Order;
    pub use csl_driver::seq::Seq;
    pub use csl_driver::stack::NonEmptyStack;
    pub use csl_driver::standalone::standalone_citation;
    pub use csl_driver::state::CollapseVerdict;
    pub use csl_driver::state::DisambiguateState;
    pub use csl_driver::state::IbidState;
    pub use csl_driver::state::IdentifierUsage;
    pub use csl_driver::style::Bibliography;
    pub use csl_driver::style::Citation;
    pub use csl_driver::style::CitationFormat;
    pub use csl_driver::style::Collapse;
    pub use csl_driver::style::DisambiguationRule;
    pub use csl_driver::style::IndependentStyle;
    pub use csl_driver::style::Layout;
    pub use csl_driver::style::SecondFieldAlign;
    pub use csl_driver::style::StyleCategory;
    pub use csl_driver::style::StyleClass;
    pub use csl_driver::style::StyleInfo;
    pub use csl_driver::style::StyleSettings;
    pub use csl_driver::style::SubsequentAuthorSubstituteRule;
    pub use csl_driver::taxonomy::DateVariable;
    pub use csl_driver::taxonomy::Locator;
    pub use csl_driver::taxonomy::NameVariable;
    pub use csl_driver::taxonomy::NumberVariable;
    pub use csl_driver::taxonomy::OtherTerm;
    pub use csl_driver::taxonomy::StandardVariable;
    pub use csl_driver::taxonomy::Term;
    pub use csl_driver::taxonomy::TermForm;
    pub use csl_driver::taxonomy::Variable;
    pub use csl_driver::terms::TermTables;
    pub use csl_driver::text::Text;
    pub use csl_driver::text::has_content;
    pub use csl_driver::token::DelimiterIdx;
    pub use csl_driver::token::DisplayLoc;
    pub use csl_driver::token::FormatIdx;
    pub use csl_driver::writing::WritingContext;
    pub use csl_driver::year::letters_of_suffix;
    pub use csl_driver::year::write_year;
}
