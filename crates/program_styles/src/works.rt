//! Works by which a style shows what it writes.

/// The file examples/styles/references.json.
pub const REFERENCES: &str = r#"[
  {"id": "darwin", "type": "book", "author": [{"family": "Darwin", "given": "Charles"}],
   "title": "On the Origin of Species", "publisher": "John Murray", "publisher-place": "London",
   "issued": {"date-parts": [[1859]]}},
  {"id": "einstein-light", "type": "article-journal", "author": [{"family": "Einstein", "given": "Albert"}],
   "title": "On a Heuristic Viewpoint Concerning the Production and Transformation of Light",
   "container-title": "Annalen der Physik", "volume": 17, "page": "132-148", "issued": {"date-parts": [[1905]]}},
  {"id": "einstein-motion", "type": "article-journal", "author": [{"family": "Einstein", "given": "Albert"}],
   "title": "On the Electrodynamics of Moving Bodies",
   "container-title": "Annalen der Physik", "volume": 17, "page": "891-921", "issued": {"date-parts": [[1905]]}},
  {"id": "watson", "type": "article-journal",
   "author": [{"family": "Watson", "given": "James D."}, {"family": "Crick", "given": "Francis H. C."}],
   "title": "Molecular Structure of Nucleic Acids", "container-title": "Nature", "volume": 171, "page": "737-738",
   "issued": {"date-parts": [[1953]]}, "DOI": "10.1038/171737a0"},
  {"id": "alvarez", "type": "article-journal",
   "author": [{"family": "Alvarez", "given": "Luis W."}, {"family": "Alvarez", "given": "Walter"},
              {"family": "Asaro", "given": "Frank"}, {"family": "Michel", "given": "Helen V."}],
   "title": "Extraterrestrial Cause for the Cretaceous-Tertiary Extinction", "container-title": "Science",
   "volume": 208, "page": "1095-1108", "issued": {"date-parts": [[1980]]}}
]
"#;

/// The file examples/styles/citations.json, which cites them.
pub const CITATIONS: &str = r#"[
  [{"id": "darwin", "locator": "84"}],
  [{"id": "einstein-light"}, {"id": "einstein-motion"}, {"id": "alvarez"}],
  [{"id": "watson"}],
  [{"id": "einstein-motion", "suppress-author": true}]
]
"#;
