//! The style of a session.
use crate::texts::SessionTexts;
use cite_inputs::error::CallError;
use cite_inputs::options::AnswerForm;
use cite_inputs::reader::TextReader;
use cite_inputs::remark::Remark;
use cite_inputs::styling::Styling;
use std::alloc::Global;
use write_forms::forms::Form;

/// A style with its locales and options.
#[derive(Drop)]
pub(crate) struct SessionStyle {
    /// The text of the style file.
    pub text: Vec<u8>,
    pub styling: Styling,
    /// The form of what is written.
    pub form: AnswerForm,
    /// What is odd in the texts.
    pub warnings: Vec<Remark>,
}

impl SessionStyle {
    /// The style that texts are.
    ///
    /// # Errors
    ///
    /// `Fault` with the first thing that is wrong: in the options, the style or the locale files;
    /// `LimitExceeded` where the style takes more than its limits; `OutOfMemory`.
    pub fn read(alloc: Global, texts: SessionTexts<'_>) -> Result<SessionStyle, CallError> {
        let mut reader = TextReader::new(alloc);
        let styling = reader.styling(texts.style, texts.locales, texts.options)?;
        let form = styling
            .options
            .form
            .unwrap_or(AnswerForm::Lines(Form::Text));
        styling.check(alloc, texts.style)?;
        Ok(SessionStyle {
            text: Vec::from_slice(alloc, texts.style)?,
            styling,
            form,
            warnings: reader.warnings,
        })
    }
}
