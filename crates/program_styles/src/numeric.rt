//! The style `numeric`.

/// The file of the style `numeric`, which cites by numbers.
pub(crate) const NUMERIC: &str = r#"<?xml version="1.0" encoding="utf-8"?>
<style xmlns="http://purl.org/net/xbiblio/csl" class="in-text" version="1.0" default-locale="en-US"
       demote-non-dropping-particle="never" page-range-format="minimal">
  <info>
    <title>Gamhilon numeric</title>
    <title-short>numeric</title-short>
    <id>https://example.org/gamhilon/styles/numeric</id>
    <link href="https://example.org/gamhilon/styles/numeric" rel="self"/>
    <category citation-format="numeric"/>
    <summary>Numbers in brackets, in the order of the first cites.</summary>
    <updated>2026-11-27T00:00:00+00:00</updated>
    <rights
      license="https://creativecommons.org/publicdomain/zero/1.0/">No rights reserved.</rights>
  </info>
  <macro name="author">
    <names variable="author">
      <name initialize-with="" name-as-sort-order="all" sort-separator=" "
            delimiter-precedes-last="always"/>
      <label form="short" prefix=" (" suffix=")"/>
      <substitute>
        <names variable="editor"/>
        <names variable="translator"/>
        <text macro="title"/>
      </substitute>
    </names>
  </macro>
  <macro name="title">
    <choose>
      <if type="article article-journal article-magazine article-newspaper chapter entry
                entry-dictionary entry-encyclopedia paper-conference post post-weblog speech
                webpage" match="any">
        <text variable="title"/>
      </if>
      <else>
        <text variable="title" font-style="italic"/>
      </else>
    </choose>
  </macro>
  <macro name="year">
    <choose>
      <if variable="issued">
        <date variable="issued">
          <date-part name="year"/>
        </date>
      </if>
      <else>
        <text term="no date" form="short"/>
      </else>
    </choose>
  </macro>
  <macro name="editors">
    <names variable="editor translator" delimiter=", ">
      <name initialize-with="" name-as-sort-order="all" sort-separator=" "
            delimiter-precedes-last="always"/>
      <label form="short" prefix=" (" suffix=")"/>
    </names>
  </macro>
  <macro name="edition">
    <choose>
      <if is-numeric="edition">
        <group delimiter=" ">
          <number variable="edition" form="ordinal"/>
          <text term="edition" form="short"/>
        </group>
      </if>
      <else>
        <text variable="edition"/>
      </else>
    </choose>
  </macro>
  <macro name="volume">
    <group delimiter=" ">
      <label variable="volume" form="short"/>
      <number variable="volume" form="numeric"/>
    </group>
  </macro>
  <macro name="work">
    <choose>
      <if type="article article-journal article-magazine article-newspaper chapter entry
                entry-dictionary entry-encyclopedia paper-conference" match="any">
        <text macro="title"/>
      </if>
      <else>
        <group delimiter=", ">
          <text macro="title"/>
          <text macro="edition"/>
          <text macro="volume"/>
        </group>
      </else>
    </choose>
  </macro>
  <macro name="publisher">
    <group delimiter=", ">
      <group delimiter=": ">
        <text variable="publisher-place"/>
        <text variable="publisher"/>
      </group>
      <text macro="year"/>
    </group>
  </macro>
  <macro name="source">
    <choose>
      <if type="article article-journal article-magazine article-newspaper" match="any">
        <group delimiter=" ">
          <text variable="container-title" form="short" font-style="italic" strip-periods="true"/>
          <group delimiter=";">
            <text macro="year"/>
            <group delimiter=":">
              <group>
                <text variable="volume" font-weight="bold"/>
                <text variable="issue" prefix="(" suffix=")"/>
              </group>
              <text variable="page"/>
            </group>
          </group>
        </group>
      </if>
      <else-if type="chapter entry entry-dictionary entry-encyclopedia paper-conference"
               match="any">
        <group delimiter=". ">
          <group delimiter=": ">
            <text term="in" text-case="capitalize-first"/>
            <group delimiter=", ">
              <text macro="editors"/>
              <text variable="container-title" font-style="italic"/>
              <text macro="edition"/>
              <text macro="volume"/>
            </group>
          </group>
          <text macro="publisher"/>
          <group delimiter=" ">
            <label variable="page" form="short"/>
            <text variable="page"/>
          </group>
        </group>
      </else-if>
      <else>
        <group delimiter=". ">
          <text variable="container-title" font-style="italic"/>
          <text variable="genre" text-case="capitalize-first"/>
          <text macro="editors"/>
          <text macro="publisher"/>
        </group>
      </else>
    </choose>
  </macro>
  <macro name="access">
    <choose>
      <if variable="DOI">
        <text variable="DOI" prefix="doi:"/>
      </if>
      <else-if variable="URL">
        <group delimiter=" ">
          <text variable="URL"/>
          <group prefix="[" suffix="]" delimiter=" ">
            <text term="accessed"/>
            <date variable="accessed">
              <date-part name="year" suffix="-"/>
              <date-part name="month" form="numeric-leading-zeros" suffix="-"/>
              <date-part name="day" form="numeric-leading-zeros"/>
            </date>
          </group>
        </group>
      </else-if>
    </choose>
  </macro>
  <citation collapse="citation-number">
    <sort>
      <key variable="citation-number"/>
    </sort>
    <layout prefix="[" suffix="]" delimiter=", ">
      <text variable="citation-number"/>
      <group delimiter=" " prefix=" (" suffix=")">
        <label variable="locator" form="short"/>
        <text variable="locator"/>
      </group>
    </layout>
  </citation>
  <bibliography et-al-min="7" et-al-use-first="6" second-field-align="flush">
    <layout>
      <text variable="citation-number" prefix="[" suffix="] "/>
      <group delimiter=". " suffix=".">
        <text macro="author"/>
        <text macro="work"/>
        <text macro="source"/>
        <text macro="access"/>
      </group>
    </layout>
  </bibliography>
</style>
"#;
