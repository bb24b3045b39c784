//! Answers as they are printed.

use csl_base::elem::ElemChildren;
use csl_base::seq::Seq;
use csl_driver::rendered::{Rendered, RenderedBibliography, RenderedCitation};
use std::alloc::{AllocError, Global};
use write_json::printing::print_json;

/// Prints an answer as `cite_run` does.
pub fn print_answer(rt: &impl Print, rendered: &Rendered) {
    for each in rendered.citations.as_slice() {
        let _ = println!(rt; "{}", each.citation);
    }
    if let Some(bibliography) = &rendered.bibliography {
        print_items(rt, bibliography);
    }
}

fn print_items(rt: &impl Print, bibliography: &RenderedBibliography) {
    let _ = println!(rt; "");
    for item in bibliography.items.as_slice() {
        let _ = print!(rt; "{}\t", item.key.as_str());
        if let Some(field) = &item.first_field {
            let _ = print!(rt; "{field}");
        }
        let _ = println!(rt; "{}", item.content);
    }
}

/// Prints an answer as JSON.
pub fn print_data(rt: &(impl Print + AllocGlobal), rendered: &Rendered) -> Result<(), AllocError> {
    let text = print_json(rt.alloc(), rendered)?;
    let _ = println!(rt; "{text}");
    Ok(())
}

/// The answer that is a citation of this tree alone.
fn answer_of(alloc: Global, tree: ElemChildren) -> Result<Rendered, AllocError> {
    let citation = RenderedCitation {
        note_number: None,
        citation: tree,
    };
    Ok(Rendered {
        bibliography: None,
        citations: Seq::new(vec![in alloc; citation]?),
    })
}

/// Prints a tree as JSON.
pub fn print_tree(rt: &(impl Print + AllocGlobal), tree: ElemChildren) -> Result<(), AllocError> {
    let answer = answer_of(rt.alloc(), tree)?;
    let printed = print_data(rt, &answer);
    drop(answer);
    printed
}
