//! Streams of pieces as HTML. Whatever the texts and the addresses of a stream are, what is written
//! has only tags of ours, which are nested and closed, and links lead only to web sites, to
//! letterboxes and to the same page. Read back without its tags, the HTML has the text of the
//! stream, with its quotation marks. Both are laws of [`html::html`].
#![tactic(auto)]

mod addresses;
pub mod html;
mod markup;
mod superscripts;
mod tag;
mod tags;
