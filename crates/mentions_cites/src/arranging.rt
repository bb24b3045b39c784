//! Cites as they are arranged in the end (CSL 1.0.2, position, citation number and cite
//! collapsing).
ghost use Rattle.std.specs.Prelude.{◌≡◌, ◌||◌, codes, map, option_map, slice_index_or, unwrap_or};
ghost use Rattle.std.specs.List.{zip};
ghost use Rattle.std.specs.Option.{option_or};
ghost use Rattle.value_styles.specs.ElementView.{text_view};
ghost use Rattle.value_styles.specs.StyleView.{citation_view};
ghost use Rattle.mentions_arranging.specs.Requests.{request_view, requests_view};
ghost use Rattle.driver_passes.specs.RendersView.{item_view, items_view, render_view, renders_view};
ghost use Rattle.mentions_tables.specs.Steps.{all_changed};
ghost use Rattle.mentions_cites.specs.Arranging.{
  arranged_by,
  arranged_cite,
  arranged_finally,
  arranged_request,
  delimiter_of,
  ibid_of,
  verdict_of,
};

use csl_base::style::Citation;
use driver_lookup::state::{CollapseVerdict, IbidState};
use driver_passes::renders::{SpeculativeCiteRender, SpeculativeItemRender};
use mentions_arranging::arranged::ArrangedCite;
use mentions_arranging::request::{CiteRequest, FinalCite};
use mentions_blocks::collapsed::{YearCut, YearDelimiter};
use mentions_notes::repeats::Position;

pub(crate) fn ibid_of(position: Position) -> IbidState
    ensures { result ≡ ibid_of position }
{
    match position {
        Position::Different => IbidState::Different,
        Position::Ibid => IbidState::Ibid,
        Position::IbidWithLocator => IbidState::IbidWithLocator,
    }
}

/// How a cite is cut that is shown so far.
fn verdict_of(cut: YearCut) -> Option<CollapseVerdict>
    ensures { result ≡ verdict_of cut }
{
    match cut {
        YearCut::Whole => None,
        YearCut::WithoutNames => Some(CollapseVerdict::First),
        YearCut::Suffix => Some(CollapseVerdict::YearSuffix),
    }
}

/// The cite group delimiter of a style; a comma where it names none.
fn group_delimiter(citation: &Citation) -> &str
    ensures { result.now
        ≡ unwrap_or (citation_view citation.now).cite_group_delimiter (codes ", ") }
{
    match &citation.cite_group_delimiter {
        Some(delimiter) => delimiter.as_str(),
        None => ", ",
    }
}

/// A delimiter of a style; the layout's where it names none.
fn or_of_layout<'a>(citation: &'a Citation, delimiter: &'a Option<String>) -> Option<&'a str>
    ensures { option_map (λ s. s.now) result
        ≡ option_or (text_view delimiter.now) (citation_view citation.now).layout.delimiter }
{
    let layout = citation.layout.delimiter.as_deref();
    delimiter.as_deref().or(layout)
}

/// What stands before a cite in place of the layout's delimiter.
#[tactic(auto, using(crate::proofs::Texts::en_dash_bytes))]
fn delimiter_of(citation: &Citation, delimiter: YearDelimiter) -> Option<&str>
    ensures { option_map (λ s. s.now) result ≡ delimiter_of (citation_view citation.now) delimiter }
{
    match delimiter {
        YearDelimiter::Layout => None,
        YearDelimiter::Group => Some(group_delimiter(citation)),
        YearDelimiter::AfterCollapse => {
            or_of_layout(citation, &citation.after_collapse_delimiter)
        }
        YearDelimiter::YearSuffix => or_of_layout(citation, &citation.year_suffix_delimiter),
        YearDelimiter::Dash => Some("–"),
    }
}

/// Whether a cite is hidden that its caller hides or doesn't, and that is inside a range or isn't.
fn is_hidden(hidden: bool, is_inner: bool) -> bool
    ensures { result ≡ (hidden || is_inner) }
{
    hidden || is_inner
}

/// The number of an entry; 0 where there is none.
pub(crate) fn number_of(numbers: &[usize], entry: usize) -> usize
    ensures { result ≡ slice_index_or numbers.now entry 0 }
{
    match numbers.get(entry) {
        Some(number) => *number,
        None => 0,
    }
}

/// Sets what arranging says of a cite, and the number of its entry.
fn arrange_cite<'a, T, P>(
    cite: &mut SpeculativeItemRender<'a, T, P>,
    citation: &'a Citation,
    number: usize,
    arranged: ArrangedCite,
)
    ensures { item_view cite.new
        ≡ arranged_cite (citation_view citation.now) number arranged (item_view cite.old) }
{
    cite.cite_props.speculative.ibid = ibid_of(arranged.position);
    cite.cite_props.speculative.citation_number = number;
    cite.hidden = is_hidden(cite.hidden, arranged.is_inner);
    cite.delim_override = delimiter_of(citation, arranged.delimiter);
    cite.collapse_verdict = verdict_of(arranged.cut);
}

/// Sets what arranging says of the cites of a request.
fn arrange_cites<'a, T, P, L>(
    items: &mut [SpeculativeItemRender<'a, T, P>],
    citation: &'a Citation,
    numbers: &[usize],
    cites: &[FinalCite<L>],
    arranged: &[ArrangedCite],
)
    ensures { items_view items.new
        ≡ all_changed (arranged_by numbers.now (citation_view citation.now))
        (zip cites.now arranged.now) (items_view items.old) }
{
    let count = items.len().min(cites.len()).min(arranged.len());
    for k in 0..count {
        let number = number_of(numbers, cites[k].cite.entry);
        arrange_cite(&mut items[k], citation, number, arranged[k]);
    }
}

fn arrange_request<T, P, L>(
    render: &mut SpeculativeCiteRender<'_, '_, T, P>,
    numbers: &[usize],
    request: &CiteRequest<FinalCite<L>>,
    arranged: &[ArrangedCite],
)
    ensures { render_view render.new
        ≡ arranged_request numbers.now (request_view request.now, arranged.now)
        (render_view render.old) }
{
    let citation = &render.request.style().citation;
    arrange_cites(
        &mut render.items,
        citation,
        numbers,
        &request.cites,
        arranged,
    );
}

/// Sets what arranging says of all cites, which are in their final order: their positions, whether
/// they are hidden inside of ranges, how they are cut, and what stands before them. Each also gets
/// the number of its entry, by the index that its entry has; 0 where there is none. Nothing else
/// changes. It takes no memory.
pub fn arrange_finally<T, P, L>(
    cites: &mut [SpeculativeCiteRender<'_, '_, T, P>],
    numbers: &[usize],
    requests: &[CiteRequest<FinalCite<L>>],
    arranged: &[Vec<ArrangedCite>],
)
    ensures { renders_view cites.new
        ≡ arranged_finally numbers.now (requests_view requests.now)
        (map (λ a. a.items) arranged.now) (renders_view cites.old) }
{
    let count = cites.len().min(requests.len()).min(arranged.len());
    for r in 0..count {
        arrange_request(&mut cites[r], numbers, &requests[r], &arranged[r]);
    }
}
