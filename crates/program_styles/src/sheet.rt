//! The style sheet of citations and reference lists.

/// The file gamhilon.css of the Python package: lists are laid out by the classes that the program
/// and the package write.
pub const STYLE_SHEET: &str =
    r#"/* Citations and reference lists, by the classes that Gamhilon writes, and pandoc's --citeproc too.

   A list tells how far its lines and items are apart, as its style says: --csl-line-spacing and
   --csl-entry-spacing, in lines. (The rules stand above those of pandoc's own pages.) */

.csl-bib-body.references {
  margin-left: 0;
  line-height: calc(1.4 * var(--csl-line-spacing, 1));
  text-indent: 0;
}

.csl-bib-body .csl-entry {
  clear: both;
  margin: 0 0 calc(1em * var(--csl-entry-spacing, 1));
  break-inside: avoid;
}

.csl-bib-body .csl-entry p {
  margin: 0;
}

/* All lines of an item but the first are indented. */
.hanging-indent .csl-entry {
  padding-left: 2em;
  text-indent: -2em;
}

.hanging-indent .csl-entry div,
.hanging-indent .csl-entry span {
  text-indent: 0;
}

/* Parts of an item that stand apart. */
.csl-block {
  display: block;
}

.csl-entry .csl-indent {
  display: block;
  margin-left: 2em;
}

.csl-entry .csl-left-margin {
  float: left;
  min-width: 2em;
  padding-right: 0.5em;
}

.csl-entry .csl-right-inline {
  display: block;
  margin-left: 2.5em;
  padding-left: 0;
}

/* The first field of each item in a column of its own, as wide as the widest, ... */
.csl-bib-body.second-field-align-flush {
  display: table;
}

.second-field-align-flush .csl-entry {
  display: table-row;
}

.second-field-align-flush .csl-entry .csl-left-margin,
.second-field-align-flush .csl-entry .csl-right-inline {
  display: table-cell;
  float: none;
  min-width: 0;
  margin-left: 0;
  padding-bottom: calc(1em * var(--csl-entry-spacing, 1));
}

/* ... or in the margin. */
.second-field-align-margin .csl-entry {
  position: relative;
}

.second-field-align-margin .csl-entry .csl-left-margin {
  position: absolute;
  right: 100%;
  float: none;
  min-width: 0;
  white-space: nowrap;
}

.second-field-align-margin .csl-entry .csl-right-inline {
  margin-left: 0;
}

/* Links: of citations to the list, and in the list. */
.citation a {
  text-decoration: none;
}

.csl-entry a {
  overflow-wrap: anywhere;
}

.csl-bib-body .csl-entry:target {
  outline: 0.15em solid;
  outline-offset: 0.15em;
}

@media print {
  .citation a,
  .csl-entry a {
    color: inherit;
    text-decoration: none;
  }
}
"#;
