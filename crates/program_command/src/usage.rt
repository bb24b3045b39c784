//! What help says.

/// The version of the program.
pub(crate) const VERSION: &str = "0.3.0";

/// What the program does.
pub(crate) const ABOUT: &str = "Citations and bibliographies in styles of CSL 1.0.2";

/// What the help of the program ends with.
pub(crate) const PROGRAM_NOTES: &str = "\
The exit status is 0 where there is an answer, 1 where a file can't be read or the answer can't be
written, 2 where a file is wrong, 3 where macros of a document call each other in a ring, 4 where
there are too many items, 5 where memory is refused, 7 where a layout of a document nests deeper
than --depth, 8 where it has more elements than --elements, 10 where a style takes more steps or
writes more than --most-steps and --most-bytes let it, and 64 where the command line is wrong.

Example: with the references of books.json, in a style that is built in,

  gamhilon bibliography --style author-date --to html --standalone books.json > books.html";

/// What the help of a command that writes ends with.
pub(crate) const WRITING_NOTES: &str = "\
CITATIONS is a JSON list of citations, which are lists of cites: objects with id, and maybe locator,
label, prefix, suffix, suppress-author, author-only, hidden and note. The name - stands for the
standard input.

A style has --most-steps and --most-bytes once for each cite and once for each item, and forty times
for the whole; one cite or item may take twice as much. No published style comes near.

Example: with the references of books.json, in Debian's style apa,

  echo '[[{\"id\": \"smith2020\", \"locator\": \"12-14\"}]]' > cites.json
  gamhilon cite --style apa books.json cites.json
  gamhilon bibliography --style apa books.json cites.json";

/// What the help of the command that explains ends with.
pub(crate) const EXPLAIN_NOTES: &str = "\
Each text of a citation and of an item stands beside the element that wrote it: its name, its line
and column in the file, and the macros around it. As a page, what is under the pointer shows its
element, and an element shows its texts.

Without CITATIONS each reference is cited alone, in their order. Without REFERENCES a few works are
cited that are built in. The name - stands for the standard input.

Example: what mine.csl writes of them, as a page,

  gamhilon explain mine.csl --to html > mine.html";

/// What the help of the command that answers documents ends with.
pub(crate) const DOCUMENT_NOTES: &str = "\
The children of a macro count at each of its calls, both for --depth and for --elements. The name -
stands for the standard input.

Example: the answer to document.json as a page, and as JSON,

  gamhilon render --to html --standalone document.json > page.html
  gamhilon render --to json document.json";

/// What the help of the command of sessions ends with.
pub(crate) const SESSION_NOTES: &str = "\
Each line of the standard input is an object with one member:

  {\"open\": {\"style\": TEXT, \"locales\": [TEXT, ..], \"options\": {..}}}
  {\"style\": {..}}           another style, as in open
  {\"items\": [..]}           CSL-JSON; each is new, or stands in place of the one with its id
  {\"remove\": [ID, ..]}
  {\"citations\": [..]}       all citations, as they stand
  {\"answer\": true}          what changed since the last answer
  {\"whole\": true}           all that there is
  {\"warnings\": true}        what is odd

The line that answers it is {\"ok\": ..}, or {\"error\": TEXT}, where the session is as it was. It is
written at once.

Example: with the references of books.json, a list, in a style that is built in,

  (jq -cn --arg style \"$(gamhilon styles author-date)\" '{open: {style: $style}}'
   jq -c '{items: .}' books.json
   echo '{\"citations\": [[{\"id\": \"smith2020\"}]]}'
   echo '{\"answer\": true}') | gamhilon session";

/// What the help of the command that checks ends with.
pub(crate) const CHECK_NOTES: &str = "\
A line on standard output says what a file is, and lines on standard error what is wrong or odd in
it. As JSON, standard output has a list with an object for each file: its name as file, what it is as
kind, and a list of findings, objects with a severity, a message, and a line and a column, a pointer,
or an entry and a field. The exit status is the same. The name - stands for the standard input.

Example: what is wrong or odd in mine.csl, as text and for an editor,

  gamhilon check mine.csl
  gamhilon check --to json mine.csl";

/// What the help of the command of references ends with.
pub(crate) const ENTRIES_NOTES: &str = "\
The form of a file is that of --from, or else that of its ending (.json, .bib for BibLaTeX, .bibtex,
.ris), or else that of its beginning. Standard error says what was lost, by entry and field. The
name - stands for the standard input.

Example: the entries of library.bib as CSL-JSON,

  gamhilon entries library.bib > library.json";

/// What the help of the command of styles ends with.
pub(crate) const STYLES_NOTES: &str = "\
Example: a style of one's own begins as a copy,

  gamhilon styles author-date > mine.csl
  gamhilon bibliography --style mine.csl books.json";
