//! The style `notes`.

/// The file of the style `notes`, which cites by notes.
pub(crate) const NOTES: &str = r#"<?xml version="1.0" encoding="utf-8"?>
<style xmlns="http://purl.org/net/xbiblio/csl" class="note" version="1.0" default-locale="en-US"
       demote-non-dropping-particle="never" page-range-format="chicago">
  <info>
    <title>Gamhilon notes</title>
    <title-short>notes</title-short>
    <id>https://example.org/gamhilon/styles/notes</id>
    <link href="https://example.org/gamhilon/styles/notes" rel="self"/>
    <category citation-format="note"/>
    <summary>Full citations in notes, short ones from the second on, and ibid. The bibliography is
      sorted by family names.</summary>
    <updated>2026-11-27T00:00:00+00:00</updated>
    <rights
      license="https://creativecommons.org/publicdomain/zero/1.0/">No rights reserved.</rights>
  </info>
  <macro name="author">
    <names variable="author">
      <name and="text" delimiter-precedes-last="contextual"/>
      <label form="short" prefix=", "/>
      <substitute>
        <names variable="editor"/>
        <names variable="translator"/>
      </substitute>
    </names>
  </macro>
  <macro name="author-sorted">
    <names variable="author">
      <name and="text" delimiter-precedes-last="contextual" name-as-sort-order="first"/>
      <label form="short" prefix=", "/>
      <substitute>
        <names variable="editor"/>
        <names variable="translator"/>
        <text macro="title"/>
      </substitute>
    </names>
  </macro>
  <macro name="author-short">
    <names variable="author">
      <name form="short" and="text" delimiter-precedes-last="contextual"/>
      <substitute>
        <names variable="editor"/>
        <names variable="translator"/>
      </substitute>
    </names>
  </macro>
  <macro name="title">
    <choose>
      <if type="article article-journal article-magazine article-newspaper chapter entry
                entry-dictionary entry-encyclopedia paper-conference post post-weblog speech
                webpage" match="any">
        <text variable="title" quotes="true"/>
      </if>
      <else>
        <text variable="title" font-style="italic"/>
      </else>
    </choose>
  </macro>
  <macro name="title-short">
    <choose>
      <if type="article article-journal article-magazine article-newspaper chapter entry
                entry-dictionary entry-encyclopedia paper-conference post post-weblog speech
                webpage" match="any">
        <text variable="title" form="short" quotes="true"/>
      </if>
      <else>
        <text variable="title" form="short" font-style="italic"/>
      </else>
    </choose>
  </macro>
  <macro name="editors">
    <names variable="editor translator" delimiter=", ">
      <label form="verb-short" suffix=" "/>
      <name and="text" delimiter-precedes-last="contextual"/>
    </names>
  </macro>
  <macro name="edition">
    <choose>
      <if is-numeric="edition">
        <group delimiter=" ">
          <number variable="edition" form="ordinal"/>
          <text term="edition" form="short"/>
        </group>
      </if>
      <else>
        <text variable="edition"/>
      </else>
    </choose>
  </macro>
  <macro name="volume">
    <group delimiter=" ">
      <label variable="volume" form="short"/>
      <number variable="volume" form="numeric"/>
    </group>
  </macro>
  <macro name="container">
    <choose>
      <if type="chapter entry entry-dictionary entry-encyclopedia paper-conference" match="any">
        <group delimiter=" ">
          <text term="in"/>
          <text variable="container-title" font-style="italic"/>
        </group>
      </if>
      <else>
        <text variable="container-title" font-style="italic"/>
      </else>
    </choose>
  </macro>
  <macro name="year">
    <choose>
      <if variable="issued">
        <date variable="issued">
          <date-part name="year"/>
        </date>
      </if>
      <else>
        <text term="no date" form="short"/>
      </else>
    </choose>
  </macro>
  <macro name="publisher">
    <group delimiter=", ">
      <group delimiter=": ">
        <text variable="publisher-place"/>
        <text variable="publisher"/>
      </group>
      <text macro="year"/>
    </group>
  </macro>
  <macro name="details">
    <choose>
      <if type="article article-journal article-magazine article-newspaper" match="any">
        <group delimiter=" ">
          <text macro="container"/>
          <group delimiter=", ">
            <text variable="volume"/>
            <group delimiter=" ">
              <label variable="issue" form="short"/>
              <text variable="issue"/>
            </group>
          </group>
        </group>
      </if>
      <else>
        <group delimiter=", ">
          <text macro="container"/>
          <text variable="genre"/>
          <text macro="editors"/>
          <text macro="edition"/>
          <text macro="volume"/>
        </group>
      </else>
    </choose>
  </macro>
  <macro name="imprint">
    <choose>
      <if type="article article-journal article-magazine article-newspaper" match="any">
        <text macro="year" prefix="(" suffix=")"/>
      </if>
      <else>
        <text macro="publisher" prefix="(" suffix=")"/>
      </else>
    </choose>
  </macro>
  <macro name="access">
    <choose>
      <if variable="DOI">
        <text variable="DOI" prefix="https://doi.org/"/>
      </if>
      <else>
        <text variable="URL"/>
      </else>
    </choose>
  </macro>
  <macro name="locator">
    <choose>
      <if locator="page">
        <text variable="locator"/>
      </if>
      <else>
        <group delimiter=" ">
          <label variable="locator" form="short"/>
          <text variable="locator"/>
        </group>
      </else>
    </choose>
  </macro>
  <citation et-al-min="4" et-al-use-first="1">
    <layout suffix="." delimiter="; ">
      <choose>
        <if position="ibid-with-locator">
          <group delimiter=", ">
            <text term="ibid"/>
            <text macro="locator"/>
          </group>
        </if>
        <else-if position="ibid">
          <text term="ibid"/>
        </else-if>
        <else-if position="subsequent">
          <group delimiter=", ">
            <text macro="author-short"/>
            <text macro="title-short"/>
            <text macro="locator"/>
          </group>
        </else-if>
        <else>
          <group delimiter=", ">
            <group delimiter=" ">
              <group delimiter=", ">
                <text macro="author"/>
                <text macro="title"/>
                <text macro="details"/>
              </group>
              <text macro="imprint"/>
            </group>
            <choose>
              <if variable="locator">
                <text macro="locator"/>
              </if>
              <else>
                <text variable="page"/>
              </else>
            </choose>
            <text macro="access"/>
          </group>
        </else>
      </choose>
    </layout>
  </citation>
  <bibliography hanging-indent="true" subsequent-author-substitute="———" et-al-min="11"
                et-al-use-first="7">
    <sort>
      <key macro="author-sorted"/>
      <key variable="title"/>
    </sort>
    <layout suffix=".">
      <group delimiter=". ">
        <text macro="author-sorted"/>
        <group delimiter=", ">
          <group delimiter=" ">
            <group delimiter=", ">
              <text macro="title"/>
              <text macro="details"/>
            </group>
            <text macro="imprint"/>
          </group>
          <text variable="page"/>
        </group>
        <text macro="access"/>
      </group>
    </layout>
  </bibliography>
</style>
"#;
