//! An entry type of one's own.
use csl_driver::entry::{ChunkedString, Date, EntryLike, Person};
use csl_driver::seq::Seq;
use csl_driver::taxonomy::{DateVariable, NameVariable, NumberVariable, StandardVariable};
use csl_driver::text::Text;
use std::alloc::{AllocError, Global};

/// A book whose authors and year are known.
#[derive(PartialEq, Eq, PartialOrd, Ord, Hash, Drop)]
pub struct Book {
    key: Text,
    authors: Seq<Person>,
    issued: Date,
}

impl Book {
    /// A book of one author, by a family name.
    pub fn by(alloc: Global, key: &str, author: &str, year: i32) -> Result<Book, AllocError> {
        let author = Person {
            name: Text::copied(alloc, author)?,
            given_name: None,
        };
        Ok(Book {
            key: Text::copied(alloc, key)?,
            authors: Seq::new(vec![in alloc; author]?),
            issued: Date { year },
        })
    }
}

impl EntryLike for Book {
    ghost use Rattle.first_citation.specs.Book.{book_answers, equal_books_answer_equally};

    ghost answers = { book_answers };

    ghost equal_answer_equally = { equal_books_answer_equally };

    fn key(&self) -> &str {
        self.key.as_str()
    }

    fn resolve_name_variable(&self, variable: NameVariable) -> &[Person] {
        match variable {
            NameVariable::Author => self.authors.as_slice(),
            _ => &[],
        }
    }

    fn resolve_date_variable(&self, variable: DateVariable) -> Option<&Date> {
        match variable {
            DateVariable::Issued => Some(&self.issued),
            _ => None,
        }
    }

    fn resolve_standard_variable(&self, _variable: StandardVariable) -> Option<&ChunkedString> {
        None
    }

    fn resolve_number_variable(&self, _variable: NumberVariable) -> Option<&str> {
        None
    }

    fn citation_label(&self) -> Option<&str> {
        None
    }
}
