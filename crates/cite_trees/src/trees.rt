//! Trees of streams.
ghost use Rattle.std.specs.Prelude.{◌≡◌, ◌∷◌, ◌++◌, ◌-◌, [], IfOk, OnOk, length, string_bytes};
ghost use Rattle.value_trees.specs.ChildView.{child_view};
ghost use Rattle.value_trees.specs.Tree.{child_plain, plain};
ghost use Rattle.cite_trees.specs.Plain.{before_opened, texts, written};

use crate::others::entry_of_other;
use crate::streams::stream_of;
use cite_pieces::formatting::TextFormatting;
use cite_pieces::piece::{Mark, Piece, Wrap};
use cite_pieces::pieces::Pieces;
use csl_base::elem::{Elem, ElemChild, ElemChildren, ElemMeta};
use csl_base::entry::Person;
use csl_base::seq::Seq;
use csl_base::text::Text;
use csl_base::{formatting as tree, taxonomy};
use std::alloc::{AllocError, Global};
use std::mem::replace;
use style_file::formatting as file;
use style_file::variable::NameVariable;

/// The persons of the names of an element, by their variables.
pub type NamedPersons = Seq<(Seq<Person>, taxonomy::NameVariable)>;

/// The variable that trees have for this one: they know three.
pub fn tree_variable(variable: NameVariable) -> taxonomy::NameVariable {
    match variable {
        NameVariable::Editor => taxonomy::NameVariable::Editor,
        NameVariable::Translator => taxonomy::NameVariable::Translator,
        _ => taxonomy::NameVariable::Author,
    }
}

/// The tree of a stream that is written into text of this formatting; `names` has the persons of
/// its marks of names. Its plain text is the stream's.
///
/// # Errors
///
/// Where memory is refused.
pub fn tree_of(
    alloc: Global,
    stream: Pieces,
    around: TextFormatting,
    names: &[NamedPersons],
) -> Result<ElemChildren, AllocError>
    ensures { IfOk result (λ tree. plain tree ≡ texts stream.pieces.items) }
{
    let mut builder = Builder {
        alloc,
        names,
        formatting: around,
        url: None,
        text: String::new(alloc),
        children: ElemChildren::new(alloc),
        open: Vec::new(alloc),
    };
    for piece in stream.into_vec() {
        builder.read(piece)?;
    }
    for _ in 0..builder.open.len() {
        builder.close()?;
    }
    builder.end_text()?;
    let Builder { children, .. } = builder;
    Ok(exact(children))
}

/// What of a tree is shown, without what its elements stand for.
///
/// # Errors
///
/// Where memory is refused.
pub fn shown_of(alloc: Global, tree: &ElemChildren) -> Result<ElemChildren, AllocError> {
    tree_of(alloc, stream_of(alloc, tree)?, TextFormatting::NORMAL, &[])
}

/// A tree that is being built.
#[derive(Drop)]
struct Builder<'n> {
    alloc: Global,
    names: &'n [NamedPersons],
    formatting: TextFormatting,
    /// Where texts lead to.
    url: Option<Text>,
    /// The text behind the children, which is no child yet: what comes next may belong to it.
    text: String,
    /// The children of the innermost element that is open.
    children: ElemChildren,
    open: Vec<Opened>,
}

/// What ends with a wrap.
#[derive(Drop)]
enum Opened {
    /// A formatting, and the one around it.
    Formatting(TextFormatting),
    Link,
    Nothing,
    /// An element, and the children before it.
    Element {
        display: Option<tree::Display>,
        meta: Option<ElemMeta>,
        before: ElemChildren,
    },
}

impl Builder<'_> {
    fn read(&mut self, piece: Piece) -> Result<(), AllocError>
        ensures { OnOk result (written self.new ≡ written self.old ++ texts (piece ∷ [])) }
    {
        match piece {
            Piece::Text(text) => self.push_text(text),
            Piece::Open(wrap) => self.open(wrap),
            Piece::Close => self.close(),
        }
    }

    #[tactic(auto, using(crate::proofs::Written::text_pushed))]
    fn push_text(&mut self, text: String) -> Result<(), AllocError>
        ensures { OnOk result (written self.new ≡ written self.old ++ string_bytes text) }
    {
        if self.text.is_empty() {
            self.text = text;
            return Ok(());
        }
        self.text.push_str(text.as_str())
    }

    /// Makes a child of the text behind the children.
    #[tactic(auto, using(crate::proofs::Written::text_ended))]
    fn end_text(&mut self) -> Result<(), AllocError>
        ensures text { OnOk result (string_bytes self.new.text ≡ []) }
        ensures children { OnOk result (plain self.new.children
            ≡ plain self.old.children ++ string_bytes self.old.text) }
        ensures wraps { self.new.open ≡ self.old.open }
    {
        if self.text.is_empty() {
            return Ok(());
        }
        let text = replace(&mut self.text, String::new(self.alloc));
        let child = self.child_of(text)?;
        self.children.push(child)
    }

    /// A text as a child.
    fn child_of(&self, text: String) -> Result<ElemChild, AllocError>
        ensures { IfOk result (λ child. child_plain (child_view child) ≡ string_bytes text) }
    {
        let text = tree_formatting(self.formatting).add_text(text);
        match &self.url {
            Some(url) => Ok(ElemChild::Link {
                text,
                url: url.clone()?,
            }),
            None => Ok(ElemChild::Text(text)),
        }
    }

    fn open(&mut self, wrap: Wrap) -> Result<(), AllocError>
        ensures { OnOk result (written self.new ≡ written self.old) }
    {
        if !matches!(&wrap, Wrap::Mark(_)) {
            self.end_text()?;
        }
        let opened = match wrap {
            Wrap::Formatting(asked) => {
                let around = self.formatting;
                self.formatting = around.with(asked);
                Opened::Formatting(around)
            }
            Wrap::Markup(style) => {
                let around = self.formatting;
                self.formatting = around.with_markup(style);
                Opened::Formatting(around)
            }
            Wrap::Link(url) => {
                self.url = Some(Text::new(url));
                Opened::Link
            }
            Wrap::Quotes(_) => self.opened(None, None),
            Wrap::Display(display) => self.opened(Some(tree_display(display)), None),
            Wrap::Mark(mark) => match self.meta_of(mark)? {
                Some(meta) => {
                    self.end_text()?;
                    self.opened(None, Some(meta))
                }
                None => Opened::Nothing,
            },
        };
        self.open.push(opened)?;
        Ok(())
    }

    /// What the driver learns of a mark.
    fn meta_of(&self, mark: Mark) -> Result<Option<ElemMeta>, AllocError> {
        let meta = match mark {
            Mark::Names(place) => match self.names.get(place) {
                Some(names) => ElemMeta::Names(names.clone()?),
                None => return Ok(None),
            },
            Mark::Name(variable, place) => ElemMeta::Name(tree_variable(variable), place),
            Mark::Date(_) => ElemMeta::Date,
            Mark::CitationNumber => ElemMeta::CitationNumber,
            Mark::CitationLabel => ElemMeta::CitationLabel,
            Mark::Entry(place) => ElemMeta::Entry(place),
            Mark::Other(number) => match entry_of_other(number) {
                Some(place) => ElemMeta::Entry(place),
                None => return Ok(None),
            },
            Mark::Author(_) | Mark::YearSuffix | Mark::Locator => return Ok(None),
        };
        Ok(Some(meta))
    }

    fn opened(&mut self, display: Option<tree::Display>, meta: Option<ElemMeta>) -> Opened
        ensures before { before_opened result ≡ plain self.old.children }
        ensures children { self.new.children ≡ [] }
        ensures text { self.new.text ≡ self.old.text }
        ensures wraps { self.new.open ≡ self.old.open }
    {
        let before = replace(&mut self.children, ElemChildren::new(self.alloc));
        Opened::Element {
            display,
            meta,
            before,
        }
    }

    #[tactic(auto, using(crate::proofs::Written::wrap_closed))]
    fn close(&mut self) -> Result<(), AllocError>
        ensures text { OnOk result (written self.new ≡ written self.old) }
        ensures wraps { OnOk result (length self.new.open.items
            ≡ length self.old.open.items - 1) }
    {
        match self.open.pop() {
            Some(opened) => self.close_wrap(opened),
            None => self.end_text(),
        }
    }

    /// Ends what a wrap has opened.
    fn close_wrap(&mut self, opened: Opened) -> Result<(), AllocError>
        ensures text { OnOk result (plain self.new.children ++ string_bytes self.new.text
            ≡ before_opened opened ++ (plain self.old.children ++ string_bytes self.old.text)) }
        ensures wraps { self.new.open ≡ self.old.open }
    {
        if matches!(&opened, Opened::Nothing) {
            return Ok(());
        }
        self.end_text()?;
        match opened {
            Opened::Formatting(around) => self.formatting = around,
            Opened::Link => self.url = None,
            Opened::Nothing => {}
            Opened::Element {
                display,
                meta,
                before,
            } => return self.close_element(display, meta, before),
        }
        Ok(())
    }

    /// Ends an element: what it has is a child behind those before it.
    #[tactic(auto, using(crate::proofs::Written::text_ended))]
    fn close_element(
        &mut self,
        display: Option<tree::Display>,
        meta: Option<ElemMeta>,
        before: ElemChildren,
    ) -> Result<(), AllocError>
        ensures children { OnOk result (plain self.new.children
            ≡ plain before ++ plain self.old.children) }
        ensures text { self.new.text ≡ self.old.text }
        ensures wraps { self.new.open ≡ self.old.open }
    {
        let children = exact(replace(&mut self.children, before));
        self.children.push(ElemChild::Elem(Elem {
            children,
            display,
            meta,
        }))
    }
}

/// Children in a list without room for more, since trees are kept.
fn exact(children: ElemChildren) -> ElemChildren
    ensures { result ≡ children }
{
    let mut children = children;
    children.0.shrink_to_fit();
    children
}

fn tree_display(display: file::Display) -> tree::Display {
    match display {
        file::Display::Block => tree::Display::Block,
        file::Display::LeftMargin => tree::Display::LeftMargin,
        file::Display::RightInline => tree::Display::RightInline,
        file::Display::Indent => tree::Display::Indent,
    }
}

/// A formatting, as trees have it: oblique letters are italics, and light ones are normal.
pub fn tree_formatting(formatting: TextFormatting) -> tree::Formatting {
    tree::Formatting {
        font_style: match formatting.font_style {
            file::FontStyle::Normal => tree::FontStyle::Normal,
            file::FontStyle::Italic | file::FontStyle::Oblique => tree::FontStyle::Italic,
        },
        font_variant: match formatting.font_variant {
            file::FontVariant::Normal => tree::FontVariant::Normal,
            file::FontVariant::SmallCaps => tree::FontVariant::SmallCaps,
        },
        font_weight: match formatting.font_weight {
            file::FontWeight::Bold => tree::FontWeight::Bold,
            file::FontWeight::Normal | file::FontWeight::Light => tree::FontWeight::Normal,
        },
        text_decoration: match formatting.text_decoration {
            file::TextDecoration::None => tree::TextDecoration::None,
            file::TextDecoration::Underline => tree::TextDecoration::Underline,
        },
        vertical_align: match formatting.vertical_align {
            file::VerticalAlign::Baseline => tree::VerticalAlign::None,
            file::VerticalAlign::Superscript => tree::VerticalAlign::Superscript,
            file::VerticalAlign::Subscript => tree::VerticalAlign::Subscript,
        },
    }
}
