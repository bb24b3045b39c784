//! The style sheet and the script of pages.

/// The style sheet.
pub(crate) const SHEET: &str = "\
body { margin: 0; font: 16px/1.5 system-ui, sans-serif; color: #1a1a1a; background: #fff; }
main { display: grid; grid-template-columns: 1fr 1fr; height: 100vh; }
section { overflow: auto; padding: 0 1rem 1rem; }
.answer { font-family: serif; border-right: 1px solid #ccc; }
h2 { font: 600 1rem system-ui, sans-serif; position: sticky; top: 0; margin: 0; padding: .5rem 0;
  background: #fff; }
li { margin: .4rem 0; }
.file { display: flex; font: 13px/1.5 ui-monospace, monospace; }
pre { margin: 0; font: inherit; }
.numbers { color: #767676; text-align: right; padding-right: 1rem; user-select: none; }
.text, .tag { cursor: pointer; border-radius: 2px; }
.tag { background: #f0f0f0; }
.is-written { background: #ffe08a; }
.is-around { background: #cfe6ff; }
@media (max-width: 50rem) { main { display: block; height: auto; } }
@media (prefers-color-scheme: dark) {
  body, h2 { color: #e6e6e6; background: #1b1b1b; }
  .tag { background: #2c2c2c; }
  .is-written { color: #000; background: #ffd24d; }
  .is-around { color: #000; background: #8fc3ff; }
}
";

/// The script: what is under the pointer, or has the focus, shows what belongs to it. An element
/// shows the texts that it wrote, a macro and its calls what is written in it.
pub(crate) const SCRIPT: &str = "\
(() => {
  const texts = [...document.querySelectorAll('.text')];
  const tags = new Map([...document.querySelectorAll('.tag')].map(it => [it.dataset.at, it]));
  const around = text => text.dataset.in.split(' ').filter(it => it);
  const clear = () => {
    for (const it of document.querySelectorAll('.is-written, .is-around')) {
      it.classList.remove('is-written', 'is-around');
    }
  };
  const set = (it, name) => { if (it) { it.classList.add(name); } };
  const showText = text => {
    clear();
    around(text).forEach(at => set(tags.get(at), 'is-around'));
    const tag = tags.get(text.dataset.by);
    set(text, 'is-written');
    set(tag, 'is-written');
    if (tag) { tag.scrollIntoView({block: 'nearest'}); }
  };
  const showTag = tag => {
    clear();
    const at = tag.dataset.at;
    const inside = texts.filter(it => around(it).includes(at));
    const own = texts.filter(it => it.dataset.by === at);
    inside.forEach(it => set(it, 'is-around'));
    own.forEach(it => set(it, 'is-written'));
    set(tag, 'is-written');
    const first = own[0] || inside[0];
    if (first) { first.scrollIntoView({block: 'nearest'}); }
  };
  const show = event => {
    const text = event.target.closest('.text');
    const tag = event.target.closest('.tag');
    if (text) { showText(text); } else if (tag) { showTag(tag); }
  };
  document.addEventListener('mouseover', show);
  document.addEventListener('focusin', show);
})();
";
