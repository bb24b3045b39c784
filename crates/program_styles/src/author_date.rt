//! The style `author-date`.

/// The file of the style `author-date`, which cites by authors and years.
pub(crate) const AUTHOR_DATE: &str = r#"<?xml version="1.0" encoding="utf-8"?>
<style xmlns="http://purl.org/net/xbiblio/csl" class="in-text" version="1.0" default-locale="en-US"
       demote-non-dropping-particle="never" page-range-format="expanded">
  <info>
    <title>Gamhilon author-date</title>
    <title-short>author-date</title-short>
    <id>https://example.org/gamhilon/styles/author-date</id>
    <link href="https://example.org/gamhilon/styles/author-date" rel="self"/>
    <category citation-format="author-date"/>
    <summary>Authors and years in the text. The bibliography is sorted by family names.</summary>
    <updated>2026-11-27T00:00:00+00:00</updated>
    <rights
      license="https://creativecommons.org/publicdomain/zero/1.0/">No rights reserved.</rights>
  </info>
  <macro name="author">
    <names variable="author">
      <name and="text" delimiter-precedes-last="contextual" initialize-with=". "
            name-as-sort-order="first"/>
      <label form="short" prefix=", "/>
      <substitute>
        <names variable="editor"/>
        <names variable="translator"/>
        <text macro="title"/>
      </substitute>
    </names>
  </macro>
  <macro name="author-short">
    <names variable="author">
      <name form="short" and="text" delimiter-precedes-last="contextual"/>
      <substitute>
        <names variable="editor"/>
        <names variable="translator"/>
        <text macro="title-short"/>
      </substitute>
    </names>
  </macro>
  <macro name="year">
    <choose>
      <if variable="issued">
        <date variable="issued">
          <date-part name="year"/>
        </date>
        <text variable="year-suffix"/>
      </if>
      <else>
        <text term="no date" form="short"/>
        <text variable="year-suffix" prefix="-"/>
      </else>
    </choose>
  </macro>
  <macro name="title">
    <choose>
      <if type="article article-journal article-magazine article-newspaper chapter entry
                entry-dictionary entry-encyclopedia paper-conference post post-weblog speech
                webpage" match="any">
        <text variable="title" quotes="true"/>
      </if>
      <else>
        <text variable="title" font-style="italic"/>
      </else>
    </choose>
  </macro>
  <macro name="title-short">
    <choose>
      <if type="article article-journal article-magazine article-newspaper chapter entry
                entry-dictionary entry-encyclopedia paper-conference post post-weblog speech
                webpage" match="any">
        <text variable="title" form="short" quotes="true"/>
      </if>
      <else>
        <text variable="title" form="short" font-style="italic"/>
      </else>
    </choose>
  </macro>
  <macro name="editors">
    <names variable="editor translator" delimiter=", ">
      <label form="verb" suffix=" "/>
      <name and="text" delimiter-precedes-last="contextual" initialize-with=". "/>
    </names>
  </macro>
  <macro name="edition">
    <choose>
      <if is-numeric="edition">
        <group delimiter=" ">
          <number variable="edition" form="ordinal"/>
          <text term="edition" form="short"/>
        </group>
      </if>
      <else>
        <text variable="edition"/>
      </else>
    </choose>
  </macro>
  <macro name="volume">
    <group delimiter=" ">
      <label variable="volume" form="short"/>
      <number variable="volume" form="numeric"/>
    </group>
  </macro>
  <macro name="pages">
    <group delimiter=" ">
      <label variable="page" form="short"/>
      <text variable="page"/>
    </group>
  </macro>
  <macro name="work">
    <choose>
      <if type="article article-journal article-magazine article-newspaper chapter entry
                entry-dictionary entry-encyclopedia paper-conference" match="any">
        <text macro="title"/>
      </if>
      <else>
        <group delimiter=", ">
          <text macro="title"/>
          <text macro="edition"/>
          <text macro="volume"/>
        </group>
      </else>
    </choose>
  </macro>
  <macro name="source">
    <choose>
      <if type="article article-journal article-magazine article-newspaper" match="any">
        <group delimiter=", ">
          <text variable="container-title" font-style="italic"/>
          <group>
            <text variable="volume"/>
            <text variable="issue" prefix="(" suffix=")"/>
          </group>
          <text variable="page"/>
        </group>
      </if>
      <else-if type="chapter entry entry-dictionary entry-encyclopedia paper-conference"
               match="any">
        <group delimiter=", ">
          <group delimiter=" ">
            <text term="in" text-case="capitalize-first"/>
            <text variable="container-title" font-style="italic"/>
          </group>
          <text macro="editors"/>
          <text macro="edition"/>
          <text macro="volume"/>
          <text macro="pages"/>
        </group>
      </else-if>
      <else>
        <group delimiter=". ">
          <text variable="container-title" font-style="italic"/>
          <text variable="genre" text-case="capitalize-first"/>
          <names variable="editor translator" delimiter=", ">
            <label form="verb" text-case="capitalize-first" suffix=" "/>
            <name and="text" delimiter-precedes-last="contextual" initialize-with=". "/>
          </names>
        </group>
      </else>
    </choose>
  </macro>
  <macro name="publisher">
    <group delimiter=": ">
      <text variable="publisher-place"/>
      <text variable="publisher"/>
    </group>
  </macro>
  <macro name="access">
    <choose>
      <if variable="DOI">
        <text variable="DOI" prefix="https://doi.org/"/>
      </if>
      <else-if variable="URL">
        <group delimiter=", ">
          <text variable="URL"/>
          <group delimiter=" ">
            <text term="accessed"/>
            <date variable="accessed" form="text"/>
          </group>
        </group>
      </else-if>
    </choose>
  </macro>
  <citation et-al-min="3" et-al-use-first="1" disambiguate-add-names="true"
            disambiguate-add-givenname="true" givenname-disambiguation-rule="primary-name"
            disambiguate-add-year-suffix="true" collapse="year" after-collapse-delimiter="; ">
    <sort>
      <key macro="author-short"/>
      <key variable="issued"/>
      <key variable="title"/>
    </sort>
    <layout prefix="(" suffix=")" delimiter="; ">
      <group delimiter=", ">
        <group delimiter=" ">
          <text macro="author-short"/>
          <text macro="year"/>
        </group>
        <group delimiter=" ">
          <label variable="locator" form="short"/>
          <text variable="locator"/>
        </group>
      </group>
    </layout>
  </citation>
  <bibliography hanging-indent="true" et-al-min="8" et-al-use-first="7">
    <sort>
      <key macro="author"/>
      <key variable="issued"/>
      <key variable="title"/>
    </sort>
    <layout suffix=".">
      <group delimiter=". ">
        <text macro="author"/>
        <text macro="year"/>
        <text macro="work"/>
        <text macro="source"/>
        <text macro="publisher"/>
        <text macro="access"/>
      </group>
    </layout>
  </bibliography>
</style>
"#;
