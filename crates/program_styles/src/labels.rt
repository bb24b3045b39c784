//! The style `labels`.

/// The file of the style `labels`, which cites by labels.
pub(crate) const LABELS: &str = r#"<?xml version="1.0" encoding="utf-8"?>
<style xmlns="http://purl.org/net/xbiblio/csl" class="in-text" version="1.0" default-locale="en-US"
       demote-non-dropping-particle="never" page-range-format="expanded">
  <info>
    <title>Gamhilon labels</title>
    <title-short>labels</title-short>
    <id>https://example.org/gamhilon/styles/labels</id>
    <link href="https://example.org/gamhilon/styles/labels" rel="self"/>
    <category citation-format="label"/>
    <summary>Labels in brackets, of names and years. The bibliography is sorted by family
      names.</summary>
    <updated>2026-11-27T00:00:00+00:00</updated>
    <rights
      license="https://creativecommons.org/publicdomain/zero/1.0/">No rights reserved.</rights>
  </info>
  <macro name="author">
    <names variable="author">
      <name and="text" name-as-sort-order="all" delimiter-precedes-last="contextual"/>
      <label form="short" prefix=" (" suffix=")"/>
      <substitute>
        <names variable="editor"/>
        <names variable="translator"/>
        <text macro="title"/>
      </substitute>
    </names>
  </macro>
  <macro name="label">
    <choose>
      <if variable="citation-label author editor translator issued" match="any">
        <text variable="citation-label"/>
      </if>
      <else>
        <text variable="title" form="short"/>
      </else>
    </choose>
  </macro>
  <macro name="title">
    <choose>
      <if type="article article-journal article-magazine article-newspaper chapter entry
                entry-dictionary entry-encyclopedia paper-conference post post-weblog speech
                webpage" match="any">
        <text variable="title"/>
      </if>
      <else>
        <text variable="title" font-style="italic"/>
      </else>
    </choose>
  </macro>
  <macro name="year">
    <choose>
      <if variable="issued">
        <date variable="issued">
          <date-part name="year"/>
        </date>
      </if>
      <else>
        <text term="no date" form="short"/>
      </else>
    </choose>
  </macro>
  <macro name="editors">
    <names variable="editor translator" delimiter=", ">
      <name and="text" name-as-sort-order="all" delimiter-precedes-last="contextual"/>
      <label form="short" prefix=" (" suffix=")"/>
    </names>
  </macro>
  <macro name="edition">
    <choose>
      <if is-numeric="edition">
        <group delimiter=" ">
          <number variable="edition" form="ordinal"/>
          <text term="edition" form="short"/>
        </group>
      </if>
      <else>
        <text variable="edition"/>
      </else>
    </choose>
  </macro>
  <macro name="volume">
    <group delimiter=" ">
      <label variable="volume" form="short"/>
      <number variable="volume" form="numeric"/>
    </group>
  </macro>
  <macro name="work">
    <choose>
      <if type="article article-journal article-magazine article-newspaper chapter entry
                entry-dictionary entry-encyclopedia paper-conference" match="any">
        <text macro="title"/>
      </if>
      <else>
        <group delimiter=", ">
          <text macro="title"/>
          <text macro="edition"/>
          <text macro="volume"/>
        </group>
      </else>
    </choose>
  </macro>
  <macro name="publisher">
    <group delimiter=", ">
      <group delimiter=": ">
        <text variable="publisher-place"/>
        <text variable="publisher"/>
      </group>
      <text macro="year"/>
    </group>
  </macro>
  <macro name="source">
    <choose>
      <if type="article article-journal article-magazine article-newspaper" match="any">
        <group delimiter=" ">
          <text variable="container-title" form="short" font-style="italic" strip-periods="true"/>
          <group delimiter=";">
            <text macro="year"/>
            <group delimiter=":">
              <group>
                <text variable="volume" font-weight="bold"/>
                <text variable="issue" prefix="(" suffix=")"/>
              </group>
              <text variable="page"/>
            </group>
          </group>
        </group>
      </if>
      <else-if type="chapter entry entry-dictionary entry-encyclopedia paper-conference"
               match="any">
        <group delimiter=". ">
          <group delimiter=": ">
            <text term="in" text-case="capitalize-first"/>
            <group delimiter=", ">
              <text macro="editors"/>
              <text variable="container-title" font-style="italic"/>
              <text macro="edition"/>
              <text macro="volume"/>
            </group>
          </group>
          <text macro="publisher"/>
          <group delimiter=" ">
            <label variable="page" form="short"/>
            <text variable="page"/>
          </group>
        </group>
      </else-if>
      <else>
        <group delimiter=". ">
          <text variable="container-title" font-style="italic"/>
          <text variable="genre" text-case="capitalize-first"/>
          <text macro="editors"/>
          <text macro="publisher"/>
        </group>
      </else>
    </choose>
  </macro>
  <macro name="access">
    <choose>
      <if variable="DOI">
        <text variable="DOI" prefix="doi:"/>
      </if>
      <else-if variable="URL">
        <group delimiter=" ">
          <text variable="URL"/>
          <group prefix="[" suffix="]" delimiter=" ">
            <text term="accessed"/>
            <date variable="accessed">
              <date-part name="year" suffix="-"/>
              <date-part name="month" form="numeric-leading-zeros" suffix="-"/>
              <date-part name="day" form="numeric-leading-zeros"/>
            </date>
          </group>
        </group>
      </else-if>
    </choose>
  </macro>
  <citation disambiguate-add-year-suffix="true">
    <sort>
      <key macro="author"/>
      <key variable="issued"/>
      <key variable="title"/>
    </sort>
    <layout prefix="[" suffix="]" delimiter="; ">
      <group delimiter=", ">
        <text macro="label"/>
        <group delimiter=" ">
          <label variable="locator" form="short"/>
          <text variable="locator"/>
        </group>
      </group>
    </layout>
  </citation>
  <bibliography et-al-min="7" et-al-use-first="6">
    <sort>
      <key macro="author"/>
      <key variable="issued"/>
      <key variable="title"/>
    </sort>
    <layout>
      <choose>
        <if variable="citation-label author editor translator issued" match="any">
          <text variable="citation-label" prefix="[" suffix="] " display="left-margin"/>
        </if>
        <else>
          <text variable="title" form="short" prefix="[" suffix="] " display="left-margin"/>
        </else>
      </choose>
      <group delimiter=". " suffix="." display="right-inline">
        <text macro="author"/>
        <text macro="work"/>
        <text macro="source"/>
        <text macro="access"/>
      </group>
    </layout>
  </bibliography>
</style>
"#;
