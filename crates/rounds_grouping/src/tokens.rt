//! Names elements as lists of tokens, by which they are compared.
ghost use Rattle.std.specs.Prelude.{◌≡◌, ◌++◌, IfOk, OnOk};
ghost use Rattle.value_trees.specs.ChildView.{child_view};
ghost use Rattle.rounds_grouping.specs.TokenView.{tokens_view};
ghost use Rattle.rounds_grouping.specs.Tokens.{child_tokens, elem_tokens, tree_tokens};

use csl_base::elem::{Elem, ElemChild, ElemChildren, ElemMeta};
use csl_base::formatting::{Display, Formatted, Formatting};
use csl_base::seq::Seq;
use csl_base::text::Text;
use std::alloc::{AllocError, Global};
use std::cmp::Ordering;
use std::marker::Model;

/// A part of an element. Its tokens, from left to right, tell an element from all others.
#[derive(Clone, Copy, PartialEq, Eq, PartialOrd, Ord)]
enum Token<'r> {
    /// A text in its formatting.
    Text(&'r Formatted),
    /// A text in markup of its own.
    Markup(&'r Text),
    /// A text that leads to a URL.
    Link(&'r Formatted, &'r Text),
    /// A place for what the caller puts in for a cite, in this formatting.
    Transparent(usize, Formatting),
    /// The beginning of an element: how it is set off and what it stands for.
    Open(Option<Display>, Option<&'r ElemMeta>),
    /// The end of an element.
    Close,
}

/// A names element. It is compared by its tokens, and seen as the element.
#[derive(Drop)]
pub(crate) struct Names<'r> {
    elem: &'r Elem,
    tokens: Seq<Token<'r>>,
}

impl<'r> Model for Names<'r> {
    ghost use Rattle.value_trees.specs.declared.elem.Elem.{Elem};

    ghost Value = { Elem };

    ghost use Rattle.rounds_grouping.specs.TokenView.{elem_code, tokens_view};

    ghost coded = { elem_code };

    ghost use Rattle.std.specs.Prelude.{◌≡◌};
    ghost use Rattle.rounds_grouping.specs.Tokens.{elem_tokens};

    ghost view = { λ n. n.elem.now };

    ghost invariant = { λ n. tokens_view n.tokens ≡ elem_tokens n.elem.now };
}

/// Adds the tokens of a tree.
#[cycle(tokens)]
fn add_tree_tokens<'r>(
    tokens: &mut Vec<Token<'r>>,
    tree: &'r ElemChildren,
) -> Result<(), AllocError>
    ensures { OnOk result (tokens_view tokens.new.items
        ≡ tokens_view tokens.old.items ++ tree_tokens tree.now) }
{
    for child in &tree.0 {
        add_child_tokens(tokens, child)?;
    }
    Ok(())
}

/// Adds the tokens of a child.
#[cycle(tokens)]
fn add_child_tokens<'r>(tokens: &mut Vec<Token<'r>>, child: &'r ElemChild) -> Result<(), AllocError>
    ensures { OnOk result (tokens_view tokens.new.items
        ≡ tokens_view tokens.old.items ++ child_tokens (child_view child.now)) }
{
    match child {
        ElemChild::Text(text) => tokens.push(Token::Text(text))?,
        ElemChild::Elem(elem) => add_elem_tokens(tokens, elem)?,
        ElemChild::Markup(text) => tokens.push(Token::Markup(text))?,
        ElemChild::Link { text, url } => tokens.push(Token::Link(text, url))?,
        ElemChild::Transparent { cite_idx, format } => {
            tokens.push(Token::Transparent(*cite_idx, *format))?;
        }
    }
    Ok(())
}

/// Adds the tokens of an element.
#[cycle(tokens)]
fn add_elem_tokens<'r>(tokens: &mut Vec<Token<'r>>, elem: &'r Elem) -> Result<(), AllocError>
    ensures { OnOk result (tokens_view tokens.new.items
        ≡ tokens_view tokens.old.items ++ elem_tokens elem.now) }
{
    tokens.push(Token::Open(elem.display, elem.meta.as_ref()))?;
    add_tree_tokens(tokens, &elem.children)?;
    tokens.push(Token::Close)?;
    Ok(())
}

impl<'r> Names<'r> {
    /// A names element, with its tokens.
    ///
    /// # Errors
    ///
    /// Where memory is refused.
    pub(crate) fn new(alloc: Global, elem: &'r Elem) -> Result<Names<'r>, AllocError>
        ensures { IfOk result (λ n. n ≡ elem.now) }
    {
        let mut tokens = Vec::new(alloc);
        add_elem_tokens(&mut tokens, elem)?;
        Ok(Names {
            elem,
            tokens: Seq::new(tokens),
        })
    }

    /// The same, with a list of its own.
    ///
    /// # Errors
    ///
    /// Where memory is refused.
    pub(crate) fn copied(&self, alloc: Global) -> Result<Names<'r>, AllocError>
        ensures { IfOk result (λ n. n ≡ self.now) }
    {
        Names::new(alloc, self.elem)
    }
}

impl PartialEq for Names<'_> {
    ghost use Rattle.std.specs.Cmp.{partial_equiv_from_equiv};
    ghost use Rattle.value_trees.specs.SameElem.{same_elem};
    ghost use Rattle.rounds_grouping.specs.NamesLaws.{names_equivalence};

    ghost eq = { same_elem };

    ghost laws = { partial_equiv_from_equiv names_equivalence };

    fn eq(&self, other: &Self) -> bool {
        self.tokens == other.tokens
    }
}

impl Eq for Names<'_> {
    ghost use Rattle.rounds_grouping.specs.NamesLaws.{names_equivalence};

    ghost laws = { names_equivalence };
}

impl PartialOrd for Names<'_> {
    ghost use Rattle.std.specs.Prelude.{Some};
    ghost use Rattle.rounds_grouping.specs.NamesOrder.{names_cmp};
    ghost use Rattle.rounds_grouping.specs.NamesLaws.{names_partial_order};

    ghost partial_cmp = { λ a b. Some (names_cmp a b) };

    ghost laws = { names_partial_order };

    fn partial_cmp(&self, other: &Self) -> Option<Ordering> {
        Some(self.cmp(other))
    }
}

impl Ord for Names<'_> {
    ghost use mathlib.Core.Path.{refl};
    ghost use Rattle.rounds_grouping.specs.NamesOrder.{names_cmp};
    ghost use Rattle.rounds_grouping.specs.NamesLaws.{names_tied, names_total};

    ghost cmp = { names_cmp };

    ghost total = { names_total };

    ghost matches_partial_cmp = { λ a b. refl };

    ghost matches_eq = { names_tied };

    fn cmp(&self, other: &Self) -> Ordering {
        self.tokens.cmp(&other.tokens)
    }
}
