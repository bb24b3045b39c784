//! Names (CSL 1.0.2, "Names").
use crate::cite::SceneKind;
use crate::persons::{persons_of, shown_persons};
use crate::walk::Walk;
use cite_names::forms::{own_forms, raise, shown_by, written_names};
use cite_names::list::{NameList, NameWords};
use cite_names::others::told_names;
use cite_names::rules::{HandedDown, NameRules};
use cite_names::shown::ShownNames;
use cite_pieces::output::{Element, element_with};
use cite_pieces::piece::Mark;
use cite_program::program::NamesInUse;
use cite_trees::trees::{NamedPersons, tree_variable};
use csl_base::names::DisambiguatedNameForm;
use csl_base::seq::Seq;
use reference_values::name::Name;
use std::alloc::{AllocError, Global};
use style_file::names::{EtAlTerm, LabelOptions, LabelPlural, LabelSide, NameForm};
use style_file::term::{PlainTerm, TermForm};
use style_file::variable::{NameVariable, Variable};

/// The names of a variable, and the term of their role.
#[derive(Clone, Copy)]
struct Block<'c> {
    variable: NameVariable,
    names: &'c [Name],
    term: PlainTerm,
}

impl Block<'_> {
    /// Which of the names are shown, each in its form.
    fn shown(&self, rules: &NameRules<'_>, forms: &[DisambiguatedNameForm]) -> ShownNames {
        let told = told_names(self.names).len();
        shown_by(forms, rules.use_last, told, self.names.len())
    }
}

impl<'s, 'c> Walk<'s, 'c> {
    /// Writes names. Returns whether there are some, or they are left out. Those are left out that
    /// are there, or that something may stand in for.
    pub(crate) fn write_names(
        &mut self,
        names: &NamesInUse<'s>,
        has_substitute: bool,
    ) -> Result<bool, AllocError> {
        let blocks = self.blocks_of(names)?;
        if self.leaves_out_names && (has_substitute || !blocks.is_empty()) {
            self.leaves_out_names = false;
            self.call(false);
            return Ok(true);
        }
        if blocks.is_empty() || self.cite.is_cut_to_suffix {
            self.call(false);
            return Ok(false);
        }
        for variable in names.variables {
            if self.cite.has(Variable::Name(*variable)) {
                self.use_variable(Variable::Name(*variable))?;
            }
        }
        let rules = NameRules::of_name(names.name, self.handed_down());
        if rules.form == NameForm::Count {
            return self.write_count(names, &rules, &blocks);
        }
        self.write_blocks(names, rules, &blocks)?;
        Ok(true)
    }

    /// The names of the variables that have some. The same persons as editors and translators are
    /// written once.
    fn blocks_of(&self, names: &NamesInUse<'s>) -> Result<Vec<Block<'c>>, AllocError> {
        let reference = self.cite.reference;
        let mut blocks: Vec<Block<'c>> = Vec::new(self.alloc());
        for variable in names.variables {
            if self.is_suppressed(Variable::Name(*variable)) {
                continue;
            }
            let Some(persons) = reference.names(*variable) else {
                continue;
            };
            if persons.is_empty() {
                continue;
            }
            let block = Block {
                variable: *variable,
                names: persons,
                term: variable.term(),
            };
            self.push_block(&mut blocks, block)?;
        }
        Ok(blocks)
    }

    /// Adds a block. Where there is a common term for editors who are translators too, and these
    /// are the persons of the last block, that gets the term.
    fn push_block(&self, blocks: &mut Vec<Block<'c>>, block: Block<'c>) -> Result<(), AllocError> {
        let last = blocks.last().copied();
        let block = match last {
            Some(last) if are_same_persons(last, block) && self.has_common_term() => {
                blocks.pop();
                Block {
                    term: PlainTerm::EditorTranslator,
                    ..last
                }
            }
            _ => block,
        };
        blocks.push(block)?;
        Ok(())
    }

    /// Whether the locale has a term for editors who are translators too.
    fn has_common_term(&self) -> bool {
        let term = PlainTerm::EditorTranslator;
        self.scene
            .locale
            .plain_term(term, TermForm::Long, false)
            .is_some_and(|words| !words.is_empty())
    }

    /// What is handed down to names here.
    pub(crate) fn handed_down(&self) -> HandedDown<'s> {
        let style = self.scene.style;
        HandedDown {
            section: &self.scene.names.name,
            style: &style.names.name,
            options: style.options,
            sort_key: match self.scene.kind {
                SceneKind::Key(key) => Some(key),
                SceneKind::Cite | SceneKind::Item => None,
            },
            is_subsequent: matches!(self.scene.kind, SceneKind::Cite) && !self.cite.is_first,
        }
    }

    /// Writes the number of names that would be written; in a key of sorting, after zeros.
    fn write_count(
        &mut self,
        names: &NamesInUse<'s>,
        rules: &NameRules<'s>,
        blocks: &[Block<'c>],
    ) -> Result<bool, AllocError> {
        let alloc = self.alloc();
        let mut count = 0usize;
        for block in blocks {
            let forms = own_forms(alloc, rules, block.names.len())?;
            let written = written_names(forms.as_slice()).min(told_names(block.names).len());
            count = count.saturating_add(written);
        }
        let digits = match self.scene.kind {
            SceneKind::Key(_) => format!(in alloc; "{count:010}")?,
            SceneKind::Cite | SceneKind::Item => format!(in alloc; "{count}")?,
        };
        let element = self.names_element(names);
        self.output.open(element)?;
        self.output.push_str(digits.as_str())?;
        self.output.close()?;
        Ok(true)
    }

    fn write_blocks(
        &mut self,
        names: &NamesInUse<'s>,
        rules: NameRules<'s>,
        blocks: &[Block<'c>],
    ) -> Result<(), AllocError> {
        let forms = self.forms_of_blocks(&rules, blocks)?;
        let mark = Some(self.mark_of(&rules, blocks, &forms)?);
        let is_one = blocks.len() == 1;
        let element = self.names_element(names);
        self.output.open(element)?;
        self.output.open(Element {
            mark: if is_one { None } else { mark },
            delimiter: element.delimiter,
            ..Element::PLAIN
        })?;
        for (block, own) in blocks.iter().zip(&forms) {
            let block_mark = if is_one { mark } else { None };
            self.write_block(names, rules, *block, own.as_slice(), block_mark)?;
        }
        self.output.close()?;
        self.output.close()?;
        Ok(())
    }

    /// Writes the names of a variable, and the label beside them.
    fn write_block(
        &mut self,
        names: &NamesInUse<'s>,
        rules: NameRules<'s>,
        block: Block<'c>,
        forms: &[DisambiguatedNameForm],
        mark: Option<Mark>,
    ) -> Result<(), AllocError> {
        let list = self.list_of(names, rules, block);
        self.output.open(Element::PLAIN)?;
        self.write_names_label(names, block, LabelSide::Before)?;
        self.output.open(Element {
            mark,
            ..Element::PLAIN
        })?;
        list.push(self.alloc(), &mut self.output, block.names, forms)?;
        self.output.close()?;
        self.write_names_label(names, block, LabelSide::Behind)?;
        self.output.close()?;
        Ok(())
    }

    /// How the names of a variable are written.
    fn list_of(
        &self,
        names: &NamesInUse<'s>,
        rules: NameRules<'s>,
        block: Block<'c>,
    ) -> NameList<'s, 's> {
        let locale = self.scene.locale;
        let et_al = match names.et_al.map(|et_al| et_al.term) {
            Some(EtAlTerm::AndOthers) => PlainTerm::AndOthers,
            Some(EtAlTerm::EtAl) | None => PlainTerm::EtAl,
        };
        NameList {
            rules,
            words: NameWords {
                and: locale
                    .plain_term(PlainTerm::And, TermForm::Long, false)
                    .unwrap_or(""),
                et_al: match self.scene.kind {
                    SceneKind::Key(_) => "",
                    SceneKind::Cite | SceneKind::Item => locale
                        .plain_term(et_al, TermForm::Long, false)
                        .unwrap_or(""),
                },
            },
            setting: match names.name {
                Some(name) => element_with(&name.affixes, name.formatting),
                None => Element::PLAIN,
            },
            et_al_formatting: names.et_al.map(|et_al| et_al.formatting),
            variable: self.told_variable(block.variable),
        }
    }

    /// The variable that the driver gets: items of the bibliography are compared by their names
    /// alone.
    fn told_variable(&self, variable: NameVariable) -> NameVariable {
        match self.scene.kind {
            SceneKind::Item => NameVariable::Author,
            SceneKind::Cite | SceneKind::Key(_) => variable,
        }
    }

    /// Writes the label of names, if it stands on this side. Keys of sorting have none.
    fn write_names_label(
        &mut self,
        names: &NamesInUse<'s>,
        block: Block<'c>,
        side: LabelSide,
    ) -> Result<(), AllocError> {
        let Some(label) = names.label else {
            return Ok(());
        };
        if label.side != side || matches!(self.scene.kind, SceneKind::Key(_)) {
            return Ok(());
        }
        let is_plural = match label.options.plural {
            LabelPlural::Contextual => block.names.len() > 1,
            LabelPlural::Always => true,
            LabelPlural::Never => false,
        };
        let words = self
            .scene
            .locale
            .plain_term(block.term, label.options.form, is_plural)
            .unwrap_or("");
        let element = self.label_element(&label.options);
        self.output.open(element)?;
        self.output.push_str(words)?;
        self.output.close()?;
        Ok(())
    }

    /// The element of a label, whose words are in the language of the locale.
    pub(crate) fn label_element(&self, label: &'s LabelOptions) -> Element<'s> {
        Element {
            text_case: label.text_case,
            language: Some(self.scene.locale.language()),
            strips_periods: label.strip_periods,
            ..element_with(&label.affixes, label.formatting)
        }
    }

    fn names_element(&self, names: &NamesInUse<'s>) -> Element<'s> {
        Element {
            delimiter: names.delimiter.unwrap_or(self.names_delimiter()),
            display: names.display,
            mark: self.author_mark(),
            ..element_with(names.affixes, names.formatting)
        }
    }

    /// What stands between the names of two variables where their element says nothing.
    pub(crate) fn names_delimiter(&self) -> &'s str {
        self.scene
            .names
            .names_delimiter
            .as_deref()
            .or(self.scene.style.names.names_delimiter.as_deref())
            .unwrap_or("")
    }

    /// The form of each name of each block.
    fn forms_of_blocks(
        &mut self,
        rules: &NameRules<'s>,
        blocks: &[Block<'c>],
    ) -> Result<Vec<Vec<DisambiguatedNameForm>>, AllocError> {
        let alloc = self.alloc();
        let forms = self.forms_of(rules, blocks)?;
        let mut apart = Vec::new(alloc);
        let mut begin = 0usize;
        for block in blocks {
            let end = begin.saturating_add(block.names.len()).min(forms.len());
            apart.push(forms.get(begin..end).unwrap_or(&[]).to_vec(alloc)?)?;
            begin = end;
        }
        Ok(apart)
    }

    /// The form of each name. Those of the first names of a cite are noted, and then raised to what
    /// disambiguates the item.
    fn forms_of(
        &mut self,
        rules: &NameRules<'s>,
        blocks: &[Block<'c>],
    ) -> Result<Vec<DisambiguatedNameForm>, AllocError> {
        let alloc = self.alloc();
        let mut forms = Vec::new(alloc);
        for block in blocks {
            for form in own_forms(alloc, rules, block.names.len())? {
                forms.push(form)?;
            }
        }
        if self.first_forms.is_some() {
            return Ok(forms);
        }
        self.first_forms = Some(forms.clone()?);
        raise(&mut forms, self.cite.name_forms);
        Ok(forms)
    }

    /// A mark for these names, whose persons are kept: of an item those that are shown, by which
    /// repeated authors are found.
    fn mark_of(
        &mut self,
        rules: &NameRules<'s>,
        blocks: &[Block<'c>],
        forms: &[Vec<DisambiguatedNameForm>],
    ) -> Result<Mark, AllocError> {
        let alloc = self.alloc();
        let mut named = Vec::with_capacity(alloc, blocks.len())?;
        for (block, own) in blocks.iter().zip(forms) {
            let persons = match self.scene.kind {
                SceneKind::Item => {
                    shown_persons(alloc, block.names, block.shown(rules, own.as_slice()))?
                },
                SceneKind::Cite | SceneKind::Key(_) => persons_of(alloc, block.names)?,
            };
            named.push((persons, tree_variable(self.told_variable(block.variable))))?;
        }
        let place = self.names.len();
        let named: NamedPersons = Seq::new(named);
        self.names.push(named)?;
        Ok(Mark::Names(place))
    }
}

/// Whether these are the same persons as editors and as translators.
fn are_same_persons(one: Block<'_>, other: Block<'_>) -> bool {
    are_editor_and_translator(one.variable, other.variable) && one.names == other.names
}

/// Whether these are the editors and the translators, in either order.
fn are_editor_and_translator(one: NameVariable, other: NameVariable) -> bool {
    match (one, other) {
        (NameVariable::Editor, NameVariable::Translator)
        | (NameVariable::Translator, NameVariable::Editor) => true,
        _ => false,
    }
}
