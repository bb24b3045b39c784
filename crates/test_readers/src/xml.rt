//! XML: a line for each document, with the MD5 digest of its tree, or the line, column and words of
//! its fault.
use crate::dump::Dump;
use crate::task::Task;
use std::alloc::Global;
use style_xml::error::XmlError;
use style_xml::reader::read_bytes;
use style_xml::tree::{Content, Element};

/// Appends the line of a document.
pub fn say(rt: &(impl Eprint + AllocGlobal), task: Task, document: &[u8], dump: &mut Dump) {
    let outcome = read_bytes(rt.alloc(), document);
    task.tell(rt, "show");
    match outcome {
        Ok(root) => {
            digest(rt.alloc(), &root, dump);
            drop(root);
        }
        Err(XmlError::Malformed(fault, place)) => dump.place(place.line, place.column, &fault),
        Err(XmlError::OutOfMemory) => dump.cut(),
    }
    dump.close();
}

/// 1 where a document is read.
pub fn count(alloc: Global, document: &[u8]) -> usize {
    usize::from(read_bytes(alloc, document).is_ok())
}

fn digest(alloc: Global, root: &Element, dump: &mut Dump) {
    let mut tree = Dump::new(alloc);
    push_element(root, &mut tree);
    dump.digest(&tree);
}

/// Appends an element. Before its name stands U+0001, before an attribute's name U+0002, before its
/// value U+0003, before a text U+0004, and behind the element U+0005: a document contains none of
/// these.
fn push_element(element: &Element, tree: &mut Dump) {
    tree.marked('\u{1}', element.name.as_str());
    for attribute in &element.attributes {
        tree.marked('\u{2}', attribute.name.as_str());
        tree.marked('\u{3}', attribute.value.as_str());
    }
    for part in &element.content {
        match part {
            Content::Element(child) => push_element(child, tree),
            Content::Text(text) => tree.marked('\u{4}', text.as_str()),
        }
    }
    tree.push('\u{5}');
}
