//! The names of one variable, and what stands between and behind them (CSL 1.0.2, name, et-al).
ghost use Rattle.std.specs.Prelude.{
  ◌≡◌,
  ◌+◌,
  ◌<◌,
  ◌^◌,
  [],
  ◌∷◌,
  ◌++◌,
  IfOk,
  OnOk,
  false,
  Some,
  None,
  ◌||◌,
  map,
  length,
  codes,
  option_map,
  option_to_list,
};
ghost use Rattle.std.specs.List.{list_any};
ghost use Rattle.value_sources.specs.declared.taxonomy.OtherTerm.{OtherTerm};
ghost use Rattle.value_trees.specs.declared.elem.ElemMeta.TheVariants as meta;
ghost use Rattle.layout_picking.specs.Names.{
  written_names,
  name_part,
  and_words,
  last_joint,
  is_count,
  joined_parts,
  last_words,
  et_al_parts,
  block_parts,
};
ghost use Rattle.layout_picking.specs.BlockRun.{before_parts, preceded, name_behind, waiting_parts};
ghost use Rattle.layout_picking.specs.NamesView.{name_view};
ghost use Rattle.layout_picking.specs.NameRulesView.{rules_view};
ghost use Rattle.layout_picking.specs.Pieces.{leaf_token, text_leaf, part_tokens, tokens};
ghost use Rattle.layout_picking.specs.PiecesView.{leaf_view, tokens_of};
ghost use Rattle.layout_picking.specs.Variables.{words_for};
ghost use Rattle.layout_picking.specs.Picked.{gives};
ghost use Rattle.layout_picking.specs.InputView.{term_for};

use crate::input::Setting;
use crate::name_rules::NameRules;
use crate::name_text::name_leaf;
use crate::pieces::{Leaf, Node, Piece};
use csl_base::elem::ElemMeta;
use csl_base::element::NameAnd;
use csl_base::entry::Person;
use csl_base::formatting::StyleFormatting;
use csl_base::names::DisambiguatedNameForm;
use csl_base::taxonomy::{NameVariable, OtherTerm};
use csl_base::text::Text;
use std::alloc::{AllocError, Global};

// The word before the last name.
fn and_words<'a>(setting: &Setting<'a>, and: NameAnd) -> &'a str
    ensures { result.now ≡ and_words (term_for setting.now) and }
{
    match and {
        NameAnd::Symbol => "&",
        NameAnd::Text => setting.words_for(OtherTerm::And, "and"),
    }
}

// The term behind names that are cut.
fn et_al_words<'a>(setting: &Setting<'a>) -> &'a str
    ensures { result.now ≡ words_for (term_for setting.now) OtherTerm.EtAl (codes "et al.") }
{
    setting.words_for(OtherTerm::EtAl, "et al.")
}

// What stands between the last two of so many names.
fn last_joint<'a>(
    alloc: Global,
    setting: &Setting<'a>,
    rules: &NameRules<'a>,
    count: usize,
) -> Result<Leaf<'a>, AllocError>
    ensures { IfOk result (λ leaf. leaf_view leaf
        ≡ text_leaf (last_joint (term_for setting.now) (rules_view rules.now) count)) }
{
    let and = match rules.and {
        None => return Ok(Leaf::Text(rules.name_delimiter)),
        Some(NameAnd::Symbol) if count == 2 => return Ok(Leaf::Text(" & ")),
        Some(and) => and,
    };
    let before = if count == 2 {
        " "
    } else {
        rules.name_delimiter
    };
    let mut joint = Text::copied(alloc, before)?;
    joint.push_str(and_words(setting, and))?;
    joint.push_str(" ")?;
    Ok(Leaf::Owned(joint))
}

// Adds a leaf.
fn push_leaf<'a>(leaf: Leaf<'a>, pieces: &mut Vec<Piece<'a>>) -> Result<(), AllocError>
    ensures { OnOk result (tokens_of pieces.new.items
        ≡ tokens_of pieces.old.items ++ leaf_token (leaf_view leaf.entry) ∷ []) }
{
    pieces.push(Piece::Leaf(leaf))?;
    Ok(())
}

// Adds a name.
fn push_name<'a>(
    variable: NameVariable,
    place: usize,
    leaf: Leaf<'a>,
    pieces: &mut Vec<Piece<'a>>,
) -> Result<(), AllocError>
    ensures { OnOk result (tokens_of pieces.new.items
        ≡ tokens_of pieces.old.items
        ++ part_tokens (name_part variable (place, leaf_view leaf.entry))) }
{
    pieces.push(Piece::Open(Node {
        affixes: None,
        formatting: StyleFormatting::default(),
        display: None,
        quotes: false,
        strip_periods: false,
        delimiter: None,
        meta: Some(ElemMeta::Name(variable, place)),
    }))?;
    pieces.push(Piece::Leaf(leaf))?;
    pieces.push(Piece::Close)?;
    Ok(())
}

// The names of one variable, in these forms.
#[derive(Clone, Copy)]
pub(crate) struct Block<'a, 'b> {
    pub(crate) variable: NameVariable,
    pub(crate) persons: &'a [Person],
    pub(crate) forms: &'b [DisambiguatedNameForm],
}

// What stands before the last of so many names.
fn last_words<'a>(
    alloc: Global,
    setting: &Setting<'a>,
    rules: &NameRules<'a>,
    is_cut: bool,
    count: usize,
) -> Result<Leaf<'a>, AllocError>
    ensures { IfOk result (λ leaf. leaf_view leaf
        ≡ text_leaf (last_words (term_for setting.now) (rules_view rules.now) is_cut count)) }
{
    if is_cut {
        return Ok(Leaf::Text(rules.name_delimiter));
    }
    last_joint(alloc, setting, rules, count)
}

// Adds the last name, behind so many others.
fn push_last_name<'a>(
    setting: &Setting<'a>,
    rules: &NameRules<'a>,
    is_cut: bool,
    block: Block<'a, '_>,
    count: usize,
    name: (usize, Leaf<'a>),
    pieces: &mut Vec<Piece<'a>>,
) -> Result<(), AllocError>
    requires fits { count + 1 < 2 ^ 64 }
    ensures { let r = rules_view rules.now in
        OnOk result (tokens_of pieces.new.items
        ≡ tokens_of pieces.old.items
        ++ tokens (name_behind
        (text_leaf (last_words (term_for setting.now) r is_cut (count + 1))) count
        (name_part block.entry.variable (name_view name.entry)))) }
{
    let (place, leaf) = name;
    if count == 0 {
        return push_name(block.variable, place, leaf, pieces);
    }
    let joint = last_words(*pieces.allocator(), setting, rules, is_cut, count + 1)?;
    push_leaf(joint, pieces)?;
    push_name(block.variable, place, leaf, pieces)
}

// Adds a name that others follow, behind so many others.
fn push_inner_name<'a>(
    rules: &NameRules<'a>,
    block: Block<'a, '_>,
    count: usize,
    name: (usize, Leaf<'a>),
    pieces: &mut Vec<Piece<'a>>,
) -> Result<(), AllocError>
    ensures { OnOk result (tokens_of pieces.new.items
        ≡ tokens_of pieces.old.items
        ++ tokens (name_behind (text_leaf (rules_view rules.now).name_delimiter) count
        (name_part block.entry.variable (name_view name.entry)))) }
{
    let (place, leaf) = name;
    if count == 0 {
        return push_name(block.variable, place, leaf, pieces);
    }
    push_leaf(Leaf::Text(rules.name_delimiter), pieces)?;
    push_name(block.variable, place, leaf, pieces)
}

// Adds the name that waits for one behind it, if one does, and returns how many are added then.
fn push_waiting<'a>(
    rules: &NameRules<'a>,
    block: Block<'a, '_>,
    count: usize,
    waiting: Option<(usize, Leaf<'a>)>,
    pieces: &mut Vec<Piece<'a>>,
) -> Result<usize, AllocError>
    requires fits { count + length (option_to_list waiting) < 2 ^ 64 }
    ensures pieces { OnOk result (tokens_of pieces.new.items
        ≡ tokens_of pieces.old.items
        ++ tokens (waiting_parts (text_leaf (rules_view rules.now).name_delimiter) count
        (option_map (λ name. name_part block.entry.variable (name_view name)) waiting.entry))) }
    ensures count { IfOk result (λ added. added ≡ count + length (option_to_list waiting.entry)) }
{
    match waiting {
        Some(name) => {
            push_inner_name(rules, block, count, name, pieces)?;
            Ok(count + 1)
        }
        None => Ok(count),
    }
}

// Adds the names that are written, with what stands between them, and returns whether there are
// any. Each waits for the next one, since what stands before the last one is not what stands before
// others.
fn push_names<'a>(
    setting: &Setting<'a>,
    rules: &NameRules<'a>,
    is_cut: bool,
    block: Block<'a, '_>,
    pieces: &mut Vec<Piece<'a>>,
) -> Result<bool, AllocError>
    requires { length block.forms.now ≡ length block.persons.now }
    ensures pieces { let r = rules_view rules.now in
        let names = written_names r.initial_end block.entry.forms.now block.entry.persons.now in
        OnOk result (tokens_of pieces.new.items
        ≡ tokens_of pieces.old.items
        ++ tokens (joined_parts r.name_delimiter
        (last_words (term_for setting.now) r is_cut (length names))
        (map (name_part block.entry.variable) names))) }
    ensures given { IfOk result (λ b. b
        ≡ gives (map (name_part block.entry.variable)
        (written_names (rules_view rules.now).initial_end block.entry.forms.now
        block.entry.persons.now))) }
{
    let alloc = *pieces.allocator();
    let (mut count, mut waiting) = (0, None);
    for (place, person) in block.persons.iter().enumerate() {
        if let Some(leaf) = name_leaf(alloc, rules.initial_end, block.forms[place], person)? {
            let earlier = waiting.replace((place, leaf));
            count = push_waiting(rules, block, count, earlier, pieces)?;
        }
    }
    match waiting {
        Some(last) => {
            push_last_name(setting, rules, is_cut, block, count, last, pieces)?;
            Ok(true)
        }
        None => Ok(false),
    }
}

// Adds a block, with a text before it, and returns whether it gives anything.
pub(crate) fn push_block<'a>(
    setting: &Setting<'a>,
    rules: &NameRules<'a>,
    block: Block<'a, '_>,
    before: Option<&'a str>,
    pieces: &mut Vec<Piece<'a>>,
) -> Result<bool, AllocError>
    requires { length block.forms.now ≡ length block.persons.now }
    ensures pieces { OnOk result (tokens_of pieces.new.items
        ≡ tokens_of pieces.old.items
        ++ tokens (preceded (option_map (λ t. t.now) before.entry)
        (block_parts (term_for setting.now)
        (rules_view rules.now) block.entry.variable block.entry.forms.now
        block.entry.persons.now))) }
    ensures given { IfOk result (λ b. b
        ≡ gives (block_parts (term_for setting.now)
        (rules_view rules.now) block.entry.variable block.entry.forms.now
        block.entry.persons.now)) }
{
    let start = pieces.len();
    let is_cut = are_cut(block.forms);
    push_before(before, pieces)?;
    let some_names = push_names(setting, rules, is_cut, block, pieces)?;
    if is_cut | some_names {
        push_et_al(setting, is_cut, pieces)?;
        return Ok(true);
    }
    pieces.truncate(start);
    Ok(false)
}

// Whether a name only counts.
fn is_count(form: DisambiguatedNameForm) -> bool
    ensures { result ≡ is_count form }
{
    matches!(form, DisambiguatedNameForm::Count)
}

// Whether some names only count.
fn are_cut(forms: &[DisambiguatedNameForm]) -> bool
    ensures { result ≡ list_any is_count forms.now }
{
    forms.iter().any(|form| is_count(*form))
}

// Adds a text before a block, if there is one.
fn push_before<'a>(before: Option<&'a str>, pieces: &mut Vec<Piece<'a>>) -> Result<(), AllocError>
    ensures { OnOk result (tokens_of pieces.new.items
        ≡ tokens_of pieces.old.items
        ++ tokens (before_parts (option_map (λ t. t.now) before.entry))) }
{
    match before {
        Some(words) => push_leaf(Leaf::Text(words), pieces),
        None => Ok(()),
    }
}

// Adds a space and the term behind names that are cut.
fn push_et_al<'a>(
    setting: &Setting<'a>,
    is_cut: bool,
    pieces: &mut Vec<Piece<'a>>,
) -> Result<(), AllocError>
    ensures { OnOk result (tokens_of pieces.new.items
        ≡ tokens_of pieces.old.items ++ tokens (et_al_parts (term_for setting.now) is_cut)) }
{
    if !is_cut {
        return Ok(());
    }
    let mut words = Text::copied(*pieces.allocator(), " ")?;
    words.push_str(et_al_words(setting))?;
    push_leaf(Leaf::Owned(words), pieces)
}
