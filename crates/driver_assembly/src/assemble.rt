//! How a citation is put together from the trees of its cites.
ghost use Rattle.std.specs.Prelude.{
  ◌≡◌,
  ◌++◌,
  Some,
  IfOk,
  OnOk,
  if◌then◌else◌,
  [],
  map,
  option_map,
};
ghost use Rattle.value_styles.specs.ElementView.{text_view};
ghost use Rattle.value_styles.specs.StyleView.{layout_view};
ghost use Rattle.value_trees.specs.Tree.{last_text};
ghost use Rattle.driver_assembly.specs.Assembly.{
  assembled,
  behind_delimiter,
  enclosed_cites,
  joined_cites,
  layout_formatting,
  text_child,
  text_ends_with,
  with_layout_suffix,
};
ghost use Rattle.driver_assembly.specs.ShownView.{shown_view, shown_views};

use csl_base::elem::{ElemChild, ElemChildren};
use csl_base::formatting::Formatting;
use csl_base::style::Layout;
use std::alloc::{AllocError, Global};

/// The tree of a cite that is shown, and the delimiter that stands before it where it isn't the
/// first.
#[derive(Drop)]
pub struct ShownCite<'a> {
    pub delimiter: Option<&'a str>,
    pub tree: ElemChildren,
}

/// The formatting that a layout's own texts have.
fn layout_formatting(layout: &Layout) -> Formatting
    ensures { result ≡ layout_formatting (layout_view layout.now) }
{
    Formatting::default().apply(layout.formatting)
}

/// Adds a text; the empty text adds nothing.
fn push_text(
    alloc: Global,
    tree: &mut ElemChildren,
    text: &str,
    formatting: Formatting,
) -> Result<(), AllocError>
    ensures { OnOk result (tree.new ≡ tree.old ++ text_child formatting (Some text.now)) }
{
    if text.is_empty() {
        return Ok(());
    }
    let text = String::from_str(alloc, text)?;
    tree.push(ElemChild::Text(formatting.add_text(text)))
}

/// Adds a text, if there is one.
fn push_optional_text(
    alloc: Global,
    tree: &mut ElemChildren,
    text: Option<&str>,
    formatting: Formatting,
) -> Result<(), AllocError>
    ensures { OnOk result (tree.new
        ≡ tree.old ++ text_child formatting (option_map (λ t. t.now) text.entry)) }
{
    match text {
        Some(text) => push_text(alloc, tree, text, formatting),
        None => Ok(()),
    }
}

/// Moves the children of another tree to the end of this one.
fn push_children(tree: &mut ElemChildren, children: ElemChildren) -> Result<(), AllocError>
    ensures { OnOk result (tree.new ≡ tree.old ++ children) }
{
    for child in children.into_vec() {
        tree.push(child)?;
    }
    Ok(())
}

/// Adds a cite, behind its delimiter unless it is the first.
fn push_cite(
    alloc: Global,
    tree: &mut ElemChildren,
    cite: ShownCite<'_>,
    is_first: bool,
    formatting: Formatting,
) -> Result<(), AllocError>
    ensures { OnOk result (tree.new
        ≡ tree.old ++ (if is_first then (shown_view cite.entry).tree
        else behind_delimiter formatting (shown_view cite.entry))) }
{
    if !is_first {
        push_optional_text(alloc, tree, cite.delimiter, formatting)?;
    }
    push_children(tree, cite.tree)
}

/// Adds the cites, each but the first behind its delimiter.
fn push_cites(
    alloc: Global,
    tree: &mut ElemChildren,
    cites: Vec<ShownCite<'_>>,
    formatting: Formatting,
) -> Result<(), AllocError>
    ensures { OnOk result
        (tree.new ≡ tree.old ++ joined_cites formatting (shown_views cites.entry.items)) }
{
    let mut is_first = true;
    for cite in cites {
        push_cite(alloc, tree, cite, is_first, formatting)?;
        is_first = false;
    }
    Ok(())
}

/// Whether the last text of the tree ends with the suffix.
fn ends_with(tree: &ElemChildren, suffix: &str) -> bool
    ensures { result ≡ text_ends_with suffix.now (last_text tree.now) }
{
    match tree.last_text() {
        Some(last) => last.text.as_str().as_bytes().ends_with(suffix.as_bytes()),
        None => false,
    }
}

/// Adds the suffix, if there is one, unless the last text ends with it.
fn push_suffix(
    alloc: Global,
    tree: &mut ElemChildren,
    suffix: &Option<String>,
    formatting: Formatting,
) -> Result<(), AllocError>
    ensures { OnOk result
        (tree.new ≡ with_layout_suffix formatting (text_view suffix.now) tree.old) }
{
    match suffix {
        Some(suffix) => {
            if ends_with(tree, suffix.as_str()) {
                return Ok(());
            }
            push_text(alloc, tree, suffix.as_str(), formatting)
        }
        None => Ok(()),
    }
}

/// An empty tree, with room for so many cites, a text before each, and one behind them.
fn room_for(alloc: Global, cites: usize) -> Result<ElemChildren, AllocError>
    ensures { IfOk result (λ tree. tree ≡ []) }
{
    let children = cites.saturating_mul(2).saturating_add(1);
    Ok(ElemChildren(Vec::with_capacity(alloc, children)?))
}

/// The cites joined, between the layout's prefix and suffix where it encloses them.
fn enclosed(
    alloc: Global,
    layout: &Layout,
    cites: Vec<ShownCite<'_>>,
    encloses: bool,
) -> Result<ElemChildren, AllocError>
    ensures { IfOk result (λ tree. tree
        ≡ enclosed_cites encloses (layout_view layout.now) (shown_views cites.entry.items)) }
{
    let formatting = layout_formatting(layout);
    let mut tree = room_for(alloc, cites.len())?;
    if !encloses {
        push_cites(alloc, &mut tree, cites, formatting)?;
        return Ok(tree);
    }
    push_optional_text(alloc, &mut tree, layout.prefix.as_deref(), formatting)?;
    push_cites(alloc, &mut tree, cites, formatting)?;
    push_suffix(alloc, &mut tree, &layout.suffix, formatting)?;
    Ok(tree)
}

/// The tree of a citation from its shown cites: empty where there is none. Each cite but the first
/// follows its delimiter, if it has one; the layout's prefix and suffix stand around them
/// where it encloses them, the suffix unless the last text ends with it. Empty texts give no child.
///
/// # Errors
/// Where memory is refused.
pub fn assembled(
    alloc: Global,
    layout: &Layout,
    cites: Vec<ShownCite<'_>>,
    encloses: bool,
) -> Result<ElemChildren, AllocError>
    ensures { IfOk result (λ tree. tree
        ≡ assembled encloses (layout_view layout.now) (shown_views cites.entry.items)) }
{
    if cites.is_empty() {
        return Ok(ElemChildren::new(alloc));
    }
    let mut tree = enclosed(alloc, layout, cites, encloses)?;
    tree.simplify_children()?;
    Ok(tree)
}
