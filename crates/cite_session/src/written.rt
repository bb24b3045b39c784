//! The texts of an answer.
use crate::changes::KeyedTexts;
use cite_answer::printing::{print_citation, print_item};
use cite_host::answer::{Answer, ListedItem};
use cite_inputs::options::AnswerForm;
use cite_pieces::pieces::Pieces;
use cite_tasks::cites::Citation;
use cite_texts::quotes::QuoteMarks;
use csl_base::text::Text;
use ordered_map::map::OrderedMap;
use std::alloc::{AllocError, Global};
use style_file::style::CslStyle;
use write_forms::forms::written;
use write_forms::items::written_item;

/// The texts of an answer in a form.
#[derive(Drop)]
pub(crate) struct WrittenTexts {
    /// The citations, by their keys.
    pub citations: KeyedTexts,
    /// The items of the bibliography, by their ids, where the style has one.
    pub bibliography: Option<KeyedTexts>,
}

/// How an answer is written.
#[derive(Clone, Copy)]
pub(crate) struct TextWriting<'w> {
    pub form: AnswerForm,
    pub style: &'w CslStyle,
    /// The citations that are answered.
    pub citations: &'w [Citation],
    pub marks: QuoteMarks<'w>,
}

impl WrittenTexts {
    /// The texts of an answer, whose citations have these keys.
    ///
    /// # Errors
    ///
    /// Where memory is refused.
    pub fn of_answer(
        alloc: Global,
        writing: TextWriting<'_>,
        keys: &[String],
        answer: &Answer,
    ) -> Result<WrittenTexts, AllocError> {
        let bibliography = match &answer.bibliography {
            Some(items) => Some(writing.items(alloc, items)?),
            None => None,
        };
        Ok(WrittenTexts {
            citations: writing.citations(alloc, keys, &answer.citations)?,
            bibliography,
        })
    }
}

impl<'w> TextWriting<'w> {
    /// The texts of citations with these keys.
    fn citations(
        self,
        alloc: Global,
        keys: &[String],
        citations: &[Pieces],
    ) -> Result<KeyedTexts, AllocError> {
        let mut texts = OrderedMap::new(alloc);
        for (place, (key, citation)) in keys.iter().zip(citations).enumerate() {
            let text = match self.form {
                AnswerForm::Lines(form) => written(alloc, form, citation, &[], self.marks)?,
                AnswerForm::Json => {
                    let TextWriting {
                        style,
                        citations,
                        marks,
                        ..
                    } = self;
                    print_citation(alloc, style, citations, place, citation, marks)?
                }
            };
            add(alloc, &mut texts, key.as_str(), text)?;
        }
        Ok(texts)
    }

    /// The texts of the items of a bibliography.
    fn items(self, alloc: Global, items: &[ListedItem]) -> Result<KeyedTexts, AllocError> {
        let mut texts = OrderedMap::new(alloc);
        for item in items {
            let text = match self.form {
                AnswerForm::Lines(form) => {
                    written_item(alloc, form, &item.first_field, &item.content, self.marks)?
                }
                AnswerForm::Json => print_item(alloc, item, self.marks)?,
            };
            add(alloc, &mut texts, item.id.as_str(), text)?;
        }
        Ok(texts)
    }
}

/// Adds a text with its key.
fn add(alloc: Global, texts: &mut KeyedTexts, key: &str, text: String) -> Result<(), AllocError> {
    let key = Text::copied(alloc, key)?;
    let copy = key.clone()?;
    texts.add(key, copy, Text::new(text))
}
