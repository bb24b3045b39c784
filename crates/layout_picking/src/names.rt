//! Names elements (CSL 1.0.2, names).
ghost use Rattle.std.specs.Prelude.{
  ◌≡◌,
  [],
  ◌∷◌,
  ◌++◌,
  IfOk,
  OnOk,
  false,
  Some,
  None,
  ◌||◌,
  unwrap_or,
  take,
  map,
  option_map,
  if◌then◌else◌,
};
ghost use Rattle.value_trees.specs.declared.elem.ElemMeta.TheVariants as meta;
ghost use Rattle.value_styles.specs.ElementView.{options_view};
ghost use Rattle.layout_picking.specs.Names.{
  stand_in,
  blocks,
  author_variable,
  plain_block,
  first_block,
  first_forms,
  with_forms,
  noted_stand_in,
  blocks_parts,
  block_persons,
  names_node,
  noted_forms,
  pick_names,
};
ghost use Rattle.layout_picking.specs.BlockRun.{preceded, blocks_after};
ghost use Rattle.layout_picking.specs.NameRulesView.{rules_view};
ghost use Rattle.layout_picking.specs.Pieces.{opening, closing, tokens, plain_node};
ghost use Rattle.layout_picking.specs.PiecesView.{node_view, shape_look, tokens_of};
ghost use Rattle.layout_picking.specs.Picked.{gives, added};
ghost use Rattle.layout_picking.specs.HeldView.{held};
ghost use Rattle.layout_picking.specs.InputView.{cite_facts, env_of};

use crate::held::Picking;
use crate::input::{CiteFacts, Input};
use crate::name_blocks::{Blocks, blocks_of, written_blocks};
use crate::name_pieces::{Block, push_block};
use crate::name_rules::NameRules;
use crate::notes::Notes;
use crate::pieces::{Node, Piece, Shape};
use crate::variables::called_with;
use csl_base::elem::ElemMeta;
use csl_base::element::InheritableNameOptions;
use csl_base::entry::EntryLike;
use csl_base::names::{DisambiguatedNameForm, NameDisambiguationProperties};
use csl_base::seq::Seq;
use csl_base::taxonomy::NameVariable;
use driver_lookup::means::names_told;
use std::alloc::{AllocError, Global};

/// The variable that holds the author.
pub fn author_variable<T: EntryLike>(entry: &T) -> NameVariable
    ensures { result ≡ author_variable (T.answers entry.now) }
{
    if !entry.resolve_name_variable(NameVariable::Editor).is_empty()
        && entry.resolve_name_variable(NameVariable::Author).is_empty()
    {
        NameVariable::Editor
    } else {
        NameVariable::Author
    }
}

// Adds a block by the rules alone, with a text before it, and returns whether it gives anything.
#[tactic(auto, using(crate::proofs::FormsLength::length_of_forms))]
fn push_plain_block<'a, T: EntryLike>(
    input: &Input<'a, T>,
    rules: &NameRules<'a>,
    variable: NameVariable,
    before: Option<&'a str>,
    pieces: &mut Vec<Piece<'a>>,
) -> Result<bool, AllocError>
    ensures pieces { let env = env_of (T.answers input.now.entry.now) input.now.setting in
        OnOk result (tokens_of pieces.new.items
        ≡ tokens_of pieces.old.items
        ++ tokens (preceded (option_map (λ t. t.now) before.entry)
        (plain_block env (rules_view rules.now) variable))) }
    ensures given { IfOk result (λ b. b
        ≡ gives (plain_block (env_of (T.answers input.now.entry.now) input.now.setting)
        (rules_view rules.now) variable)) }
{
    let persons = input.entry.resolve_name_variable(variable);
    let forms = rules.forms(*pieces.allocator(), persons.len())?;
    let block = Block {
        variable,
        persons,
        forms: forms.as_slice(),
    };
    push_block(&input.setting, rules, block, before, pieces)
}

// What stands before a block, where another one may have given something.
fn delimiter_behind<'a>(rules: &NameRules<'a>, is_behind: bool) -> Option<&'a str>
    ensures { option_map (λ t. t.now) result
        ≡ (if is_behind then Some (rules_view rules.now).names_delimiter else None) }
{
    if is_behind {
        Some(rules.names_delimiter)
    } else {
        None
    }
}

// Adds blocks, where another one may have given something, and returns whether any did.
fn push_others<'a, T: EntryLike>(
    input: &Input<'a, T>,
    rules: &NameRules<'a>,
    mut is_behind: bool,
    others: &[NameVariable],
    pieces: &mut Vec<Piece<'a>>,
) -> Result<bool, AllocError>
    ensures pieces { let r = rules_view rules.now in
        let env = env_of (T.answers input.now.entry.now) input.now.setting in
        OnOk result (tokens_of pieces.new.items
        ≡ tokens_of pieces.old.items
        ++ tokens (blocks_after r.names_delimiter is_behind (map (plain_block env r) others.now))) }
    ensures given { let r = rules_view rules.now in
        let env = env_of (T.answers input.now.entry.now) input.now.setting in
        IfOk result (λ b. b ≡ (is_behind
        || gives (blocks_after r.names_delimiter is_behind (map (plain_block env r) others.now)))) }
{
    for variable in others {
        let before = delimiter_behind(rules, is_behind);
        let given = push_plain_block(input, rules, *variable, before, pieces)?;
        is_behind = is_behind | given;
    }
    Ok(is_behind)
}

// The forms of the first block where the forms that are given for names have their say.
fn first_own_forms(
    alloc: Global,
    cite: &CiteFacts,
    notes: &Notes,
    forms: &[DisambiguatedNameForm],
) -> Result<Option<Seq<DisambiguatedNameForm>>, AllocError>
    ensures { IfOk result
        (λ own. unwrap_or own forms.now
        ≡ first_forms (cite_facts cite.now) notes.now forms.now) }
{
    if notes.first_name.is_some() {
        return Ok(None);
    }
    names_told(alloc, cite.state, cite.means, forms)
}

// Forms of their own, or those that the rules give.
fn chosen_forms<'b>(
    own: &'b Option<Seq<DisambiguatedNameForm>>,
    forms: &'b Seq<DisambiguatedNameForm>,
) -> &'b [DisambiguatedNameForm]
    ensures { result.now ≡ unwrap_or own.now forms.now }
{
    match own {
        Some(own) => own.as_slice(),
        None => forms.as_slice(),
    }
}

impl Notes {
    // Behind a block whose names have these forms by the rules.
    fn note_forms(&mut self, forms: Seq<DisambiguatedNameForm>)
        ensures { self.new ≡ with_forms forms self.old }
    {
        if self.first_name.is_none() {
            self.first_name = Some(NameDisambiguationProperties { forms });
        }
    }

    // Behind a names element in which a variable may have stood in for others.
    fn note_stand_in(&mut self, given: bool, stand_in: Option<NameVariable>)
        ensures { self.new ≡ noted_stand_in given stand_in self.old }
    {
        if let Some(variable) = stand_in {
            if given {
                self.suppressed = self.suppressed.with(variable);
            }
        }
    }
}

// Adds the first block, and returns whether it gives anything.
#[tactic(auto, using(crate::proofs::FormsLength::length_of_forms, crate::proofs::FormsLength::length_of_first_forms))]
fn push_first_block<'a, T: EntryLike>(
    input: &Input<'a, T>,
    rules: &NameRules<'a>,
    variable: NameVariable,
    picking: &mut Picking<'a>,
) -> Result<bool, AllocError>
    ensures pieces { let env = env_of (T.answers input.now.entry.now) input.now.setting in
        OnOk result (tokens_of picking.new.pieces.items
        ≡ tokens_of picking.old.pieces.items
        ++ tokens (preceded None
        (first_block env (rules_view rules.now) picking.old.notes variable))) }
    ensures given { IfOk result (λ b. b
        ≡ gives (first_block (env_of (T.answers input.now.entry.now) input.now.setting)
        (rules_view rules.now) picking.old.notes variable)) }
    ensures noted { OnOk result (picking.new.notes
        ≡ noted_forms (T.answers input.now.entry.now) (rules_view rules.now)
        (variable ∷ []) picking.old.notes) }
    ensures called { picking.new.called ≡ picking.old.called }
{
    let alloc = *picking.pieces.allocator();
    let persons = input.entry.resolve_name_variable(variable);
    let forms = rules.forms(alloc, persons.len())?;
    let cite = &input.setting.cite;
    let own = first_own_forms(alloc, cite, &picking.notes, forms.as_slice())?;
    let block = Block {
        variable,
        persons,
        forms: chosen_forms(&own, &forms),
    };
    let given = push_block(&input.setting, rules, block, None, &mut picking.pieces)?;
    picking.notes.note_forms(forms);
    Ok(given)
}

// Adds the blocks of an element, and returns whether any gives anything.
fn push_blocks<'a, T: EntryLike>(
    input: &Input<'a, T>,
    rules: &NameRules<'a>,
    blocks: &[NameVariable],
    picking: &mut Picking<'a>,
) -> Result<bool, AllocError>
    ensures pieces { let env = env_of (T.answers input.now.entry.now) input.now.setting in
        OnOk result (tokens_of picking.new.pieces.items
        ≡ tokens_of picking.old.pieces.items
        ++ tokens (blocks_parts env (rules_view rules.now) picking.old.notes blocks.now)) }
    ensures given { IfOk result (λ b. b
        ≡ gives (blocks_parts (env_of (T.answers input.now.entry.now) input.now.setting)
        (rules_view rules.now) picking.old.notes blocks.now)) }
    ensures noted { OnOk result (picking.new.notes
        ≡ noted_forms (T.answers input.now.entry.now) (rules_view rules.now) blocks.now
        picking.old.notes) }
    ensures called { OnOk result (picking.new.called ≡ picking.old.called) }
{
    let (first, others) = match blocks.split_first() {
        Some(split) => split,
        None => return Ok(false),
    };
    let given = push_first_block(input, rules, *first, picking)?;
    push_others(input, rules, given, others, &mut picking.pieces)
}

// What a names element stands for.
fn names_meta<T: EntryLike>(
    alloc: Global,
    entry: &T,
    blocks: &[NameVariable],
) -> Result<ElemMeta, AllocError>
    ensures { IfOk result
        (λ m. m ≡ meta.Names (map (block_persons (T.answers entry.now)) blocks.now)) }
{
    let mut persons = Vec::with_capacity(alloc, blocks.len())?;
    for variable in blocks {
        let block = Vec::from_clones(alloc, entry.resolve_name_variable(*variable))?;
        persons.push((Seq::new(block), *variable))?;
    }
    Ok(ElemMeta::Names(Seq::new(persons)))
}

// The node of a names element.
fn names_node<'a>(shape: Shape<'a>, meta: ElemMeta) -> Node<'a>
    ensures { node_view result ≡ plain_node (shape_look shape.entry) false false (Some meta) }
{
    Node {
        affixes: Some(shape.affixes),
        formatting: shape.formatting,
        display: shape.display,
        quotes: false,
        strip_periods: false,
        delimiter: None,
        meta: Some(meta),
    }
}

// Opens a node.
fn push_opening<'a>(node: Node<'a>, pieces: &mut Vec<Piece<'a>>) -> Result<(), AllocError>
    ensures { OnOk result (tokens_of pieces.new.items
        ≡ tokens_of pieces.old.items ++ opening (node_view node.entry) ∷ []) }
{
    pieces.push(Piece::Open(node))?;
    Ok(())
}

// Closes the node that stands at this place, or takes it out where nothing stands in it.
fn close_node(pieces: &mut Vec<Piece>, start: usize, given: bool) -> Result<(), AllocError>
    ensures { OnOk result (tokens_of pieces.new.items
        ≡ (if given then tokens_of pieces.old.items ++ closing ∷ []
        else take start (tokens_of pieces.old.items))) }
{
    if given {
        pieces.push(Piece::Close)?;
    } else {
        pieces.truncate(start);
    }
    Ok(())
}

/// A names element.
pub(crate) fn pick_names<'a, T: EntryLike>(
    input: &Input<'a, T>,
    variables: &'a [NameVariable],
    substitute: &'a [NameVariable],
    options: &'a InheritableNameOptions,
    shape: Shape<'a>,
    picking: &mut Picking<'a>,
) -> Result<(), AllocError>
    ensures { let env = env_of (T.answers input.now.entry.now) input.now.setting in
        OnOk result (held picking.new
        ≡ added (pick_names env variables.now substitute.now (options_view options.now)
        (shape_look shape.entry) picking.old.notes) (held picking.old)) }
{
    let alloc = *picking.pieces.allocator();
    let chosen = blocks_of(alloc, input.entry, &picking.notes, variables, substitute)?;
    let Blocks {
        variables,
        stand_in,
    } = chosen;
    let author = author_variable(input.entry);
    let written = written_blocks(alloc, input.setting.form, author, variables)?;
    let blocks = written.as_slice();
    let style = input.setting.context.style;
    let rules = NameRules::new(
        options,
        input.setting.layout_options,
        &style.settings.options,
    );
    let start = picking.pieces.len();
    let meta = names_meta(alloc, input.entry, blocks)?;
    push_opening(names_node(shape, meta), &mut picking.pieces)?;
    let given = push_blocks(input, &rules, blocks, picking)?;
    close_node(&mut picking.pieces, start, given)?;
    picking.called = picking.called.and(called_with(given));
    picking.notes.note_stand_in(given, stand_in);
    Ok(())
}
