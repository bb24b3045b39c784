//! Documents answered for callers in C, and for whatever calls C.
//!
//! Each call stands alone: it is given a document, or texts, and a buffer for what it has to say,
//! and keeps nothing. A session alone is kept by its caller from one call to the next (`sessions`).
#![tactic(auto)]

mod buffer;
mod given;
mod ring;
mod sessions;
mod texts;

ghost use Rattle.document_requests.specs.Form.{form, value_in};
ghost use Rattle.document_answer.specs.Limited.{styles_in};
ghost use Rattle.document_answer.specs.Print.{json_text, print};
ghost use Rattle.document_driven.specs.DrivenForm.{driven_form};
ghost use Rattle.gamhilon_c.specs.Called.{Called};
ghost use Rattle.gamhilon_c.specs.CalledDriven.{CalledDriven};
ghost use Rattle.gamhilon_c.specs.FindsFault.{FindsFault};
ghost use Rattle.gamhilon_c.specs.KeepsLimits.{KeepsLimits};
ghost use Rattle.gamhilon_c.specs.OfTexts.{HandsText, IsCiteStatus, IsFaultStatus};
ghost use Rattle.gamhilon_c.specs.Ring.{FindsRing};

use crate::buffer::{ANSWERED, hand_out};
use crate::given::GamhilonText;
use crate::ring::{GamhilonRing, hand_out_ring};
use crate::texts::hand_out_of_texts;
use cite_call::calling::{cite, find_fault};
use cite_inputs::references::read_references;
use cite_inputs::texts::CallTexts;
use document_answer::faults::print_fault_bytes;
use document_answer::limits::check_limits;
use document_answer::running::{answer_bytes, print_bytes, print_json_bytes};
use document_driven::driving::drive_bytes;
use document_driven::faults::print_driven_fault_bytes;
use driver_styles::limits::Limits;
use std::alloc::Global;

/// Puts what the document prints into the buffer, and reports how many bytes that takes. Gives the
/// status.
#[unsafe(no_mangle)]
pub extern "C" fn gamhilon_render_text(
    alloc: Global,
    document: &[u8],
    buffer: &mut [u8],
    needed: &mut usize,
) -> u32
    ensures { Called print (form document.now) result buffer.old buffer.new needed.new }
{
    let text = print_bytes(alloc, document);
    hand_out(&text, buffer, needed)
}

/// Puts the answer to the document, as JSON, into the buffer, and reports how many bytes that
/// takes. Gives the status.
#[unsafe(no_mangle)]
pub extern "C" fn gamhilon_render_json(
    alloc: Global,
    document: &[u8],
    buffer: &mut [u8],
    needed: &mut usize,
) -> u32
    ensures { Called json_text (form document.now) result buffer.old buffer.new needed.new }
{
    let text = print_json_bytes(alloc, document);
    hand_out(&text, buffer, needed)
}

/// Puts the first fault of the document, as JSON, into the buffer, and reports how many bytes that
/// takes: none where the document has no fault. Gives the status.
#[unsafe(no_mangle)]
pub extern "C" fn gamhilon_find_fault(
    alloc: Global,
    document: &[u8],
    buffer: &mut [u8],
    needed: &mut usize,
) -> u32
    ensures { FindsFault (form document.now) (value_in document.now) result buffer.old buffer.new
        needed.new }
{
    let text = print_fault_bytes(alloc, document);
    hand_out(&text, buffer, needed)
}

/// Checks that each layout of each style of the document is within the limits. Gives the status.
#[unsafe(no_mangle)]
pub extern "C" fn gamhilon_check_limits(
    alloc: Global,
    document: &[u8],
    depth: usize,
    elements: usize,
) -> u32
    ensures { KeepsLimits (record { depth = depth; elements = elements })
        (styles_in document.now) result }
{
    match check_limits(alloc, document, &Limits { depth, elements }) {
        Ok(()) => ANSWERED,
        Err(error) => u32::from(error.status()),
    }
}

/// Puts the place of the first ring of macros into `ring`, where the document has one. Gives the
/// status.
#[unsafe(no_mangle)]
pub extern "C" fn gamhilon_find_ring(alloc: Global, document: &[u8], ring: &mut GamhilonRing) -> u32
    ensures { FindsRing (form document.now) result ring.old ring.new }
{
    let answer = answer_bytes(alloc, document);
    hand_out_ring(&answer, ring)
}

/// Puts what comes of the driven document, as JSON, into the buffer, and reports how many bytes
/// that takes: the answer with what its host has written, or what is missing of that. Gives the
/// status.
#[unsafe(no_mangle)]
pub extern "C" fn gamhilon_drive(
    alloc: Global,
    document: &[u8],
    buffer: &mut [u8],
    needed: &mut usize,
) -> u32
    ensures { CalledDriven (driven_form document.now) result buffer.old buffer.new needed.new }
{
    let text = drive_bytes(alloc, document);
    hand_out(&text, buffer, needed)
}

/// Puts the first fault of the driven document, as JSON, into the buffer, and reports how many
/// bytes that takes: none where it has no fault. Gives the status.
#[unsafe(no_mangle)]
pub extern "C" fn gamhilon_find_driven_fault(
    alloc: Global,
    document: &[u8],
    buffer: &mut [u8],
    needed: &mut usize,
) -> u32
    ensures { FindsFault (driven_form document.now) (value_in document.now) result
        buffer.old buffer.new
        needed.new }
{
    let text = print_driven_fault_bytes(alloc, document);
    hand_out(&text, buffer, needed)
}

/// Puts the citations and the bibliography of these texts, as JSON, into the buffer, and reports
/// how many bytes that takes. Gives the status.
#[unsafe(no_mangle)]
pub extern "C" fn gamhilon_cite(
    alloc: Global,
    style: GamhilonText<'_>,
    locales: GamhilonText<'_>,
    items: GamhilonText<'_>,
    citations: GamhilonText<'_>,
    options: GamhilonText<'_>,
    buffer: &mut [u8],
    needed: &mut usize,
) -> u32
    ensures text { HandsText result buffer.old buffer.new needed.new }
    ensures status { IsCiteStatus result }
{
    let texts = CallTexts {
        style: style.bytes(),
        locales: locales.bytes(),
        items: items.bytes(),
        citations: citations.bytes(),
        options: options.bytes(),
    };
    let text = cite(alloc, texts);
    hand_out_of_texts(&text, buffer, needed)
}

/// Puts what is wrong and odd in these texts, as JSON, into the buffer, and reports how many bytes
/// that takes. Gives the status.
#[unsafe(no_mangle)]
pub extern "C" fn gamhilon_find_cite_fault(
    alloc: Global,
    style: GamhilonText<'_>,
    locales: GamhilonText<'_>,
    items: GamhilonText<'_>,
    citations: GamhilonText<'_>,
    options: GamhilonText<'_>,
    buffer: &mut [u8],
    needed: &mut usize,
) -> u32
    ensures text { HandsText result buffer.old buffer.new needed.new }
    ensures status { IsFaultStatus result }
{
    let texts = CallTexts {
        style: style.bytes(),
        locales: locales.bytes(),
        items: items.bytes(),
        citations: citations.bytes(),
        options: options.bytes(),
    };
    let text = find_fault(alloc, texts);
    hand_out_of_texts(&text, buffer, needed)
}

/// Puts the items of references as CSL-JSON, and what was lost of them, as JSON, into the buffer,
/// and reports how many bytes that takes. Gives the status.
#[unsafe(no_mangle)]
pub extern "C" fn gamhilon_read_references(
    alloc: Global,
    references: GamhilonText<'_>,
    options: GamhilonText<'_>,
    buffer: &mut [u8],
    needed: &mut usize,
) -> u32
    ensures text { HandsText result buffer.old buffer.new needed.new }
    ensures status { IsFaultStatus result }
{
    let read = read_references(alloc, references.bytes(), options.bytes());
    hand_out_of_texts(&read, buffer, needed)
}
