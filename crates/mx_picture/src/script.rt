//! The style and the script of each page: docs/page.css and docs/page.js, written here by docs/page_script.

pub(crate) const STYLE: &str = r##"* { box-sizing: border-box; }
html { font: 16px/1.45 "DejaVu Sans", "Liberation Sans", Arial, sans-serif; color: #111; background: #fff; }
body { margin: 0; padding: 0 16px 16px; display: flex; flex-direction: column; gap: 10px; }
header { display: flex; flex-wrap: wrap; align-items: baseline; gap: 0 24px; padding-top: 8px; }
h1 { font-size: 1.35rem; margin: 0; }
header p, #accesses p { margin: 0; }
header ol { margin: 0; padding: 0; list-style-position: inside; display: flex; flex-wrap: wrap; gap: 0 20px; }
section { border: 1px solid #767676; border-radius: 4px; overflow: auto; }
#drawing { max-height: 60vh; }
#drawing svg { display: block; max-width: none !important; }
#drawing .fits { max-width: 100% !important; height: auto; }
main { display: flex; flex-direction: column; gap: 10px; }
#accesses { padding: 8px 12px; }
#entry { width: 100%; height: 26px; margin: 2px 0; accent-color: #0b4a8f; }
#accesses label { font-weight: bold; }
#stacks { width: 18px; height: 18px; margin: 0 4px 0 0; vertical-align: -3px; accent-color: #0b4a8f; }
#accesses #told { min-height: 4.4em; white-space: pre-wrap; font-family: "DejaVu Sans Mono", "Liberation Mono", monospace; font-size: 0.9rem; overflow-wrap: anywhere; }
table { border-collapse: collapse; width: 100%; }
th, td { text-align: left; vertical-align: top; padding: 3px 6px; border-bottom: 1px solid #ccc; }
thead th { border-bottom: 2px solid #111; font-size: 0.9rem; white-space: nowrap; }
tbody th { background: #e8eef6; }
td { font-family: "DejaVu Sans Mono", "Liberation Mono", monospace; font-size: 0.85rem; overflow-wrap: break-word; }
td:nth-child(4) { white-space: nowrap; }
ins { color: #064e1b; background: #d3f2dc; text-decoration: underline; font-weight: bold; }
del { color: #8f0d0d; background: #fde0e0; text-decoration: line-through; }
s { color: #444; }
#lines { padding: 8px 12px; }
#lines h2 { font-size: 1rem; margin: 14px 0 4px; }
#lines h2:first-child { margin-top: 0; }
#lines p { margin: 0; padding: 2px 6px 2px 10px; border-left: 5px solid transparent; white-space: pre-wrap; overflow-wrap: anywhere;
  text-indent: 8ch hanging each-line; font: 0.85rem/1.45 "DejaVu Sans Mono", "Liberation Mono", monospace; }
#lines .line::first-line { font-weight: bold; }
#lines .left { font-style: italic; }
#lines .now { border-left-color: #0b4a8f; }
#lines .marked { background: #fff0c2; border-left-color: #a34700; }
.line, .box, .entry { cursor: pointer; }
.box.marked rect { stroke: #a34700; stroke-width: 5px; fill: #fff0c2; }
.entry.now circle { stroke: #a34700; stroke-width: 5px; }
.box:focus { outline: none; }
:focus-visible, .box:focus-visible { outline: 3px solid #0b4a8f; outline-offset: 1px; }
#lines :focus-visible { outline-offset: -3px; }
@media (min-width: 1000px) {
  body { height: 100vh; }
  #drawing { flex: 0 1 auto; max-height: 52vh; }
  main { flex: 1 1 0; min-height: 260px; flex-direction: row; }
  #accesses { order: 2; flex: 0 0 50%; }
  #lines { flex: 1 1 0; }
}
"##;

pub(crate) const SCRIPT: &str = r##""use strict";
(() => {
  const run = JSON.parse(document.getElementById("run").textContent);
  const drawing = document.getElementById("drawing");
  const slider = document.getElementById("entry");
  const stacks = document.getElementById("stacks");
  const lines = [...document.querySelectorAll("#lines .line")];
  const boxes = [...drawing.querySelectorAll(".box")];

  // What each entry changes, behind what stands before the first. What a number stood for before a change is known from the
  // change before it, so that there is a way back.
  const steps = [run.start, ...run.entries.map((entry) => entry.changes)];
  const paths = new Map();
  for (const change of steps.flat()) {
    change.key = `${change.process} ${change.number}`;
    change.was = paths.get(change.key) ?? change.path;
    change.path ||= change.was;
    paths.set(change.key, change.path);
  }

  // The rows after the entry `at`: what each number of a process stands for, and gives.
  const rows = new Map();
  let at = -1;

  function put(change, path, access) {
    const { key, process, number } = change;
    rows.set(key, { key, process, number: parseInt(number, 8), path, access });
  }

  function move(to) {
    const entry = Math.max(0, Math.min(run.entries.length, to));
    while (at < entry) {
      at += 1;
      for (const change of steps[at]) put(change, change.path, change.after);
    }
    while (at > entry) {
      for (const change of [...steps[at]].reverse()) put(change, change.was, change.before);
      at -= 1;
    }
  }

  // The rows that the entry changed, as they were.
  function earlier() {
    const found = new Map();
    if (at === 0) return found;
    for (const change of steps[at]) {
      if (!found.has(change.key)) found.set(change.key, { path: change.was, access: change.before });
    }
    return found;
  }

  function add(parent, tag, text) {
    const made = document.createElement(tag);
    made.textContent = text;
    parent.append(made);
    return made;
  }

  // Adds words as they are, with what they were where that is another: neither a gain nor a loss, if there are both.
  function addWords(cell, was, is) {
    if (was === is) cell.append(is);
    else if (!was) add(cell, "ins", is);
    else if (!is) add(cell, "del", was);
    else {
      add(cell, "s", was);
      cell.append(" ");
      add(cell, "b", is);
    }
  }

  // Adds modes letter by letter.
  function addModes(cell, was, is) {
    const letters = (word) => (/^[rew]+$/.test(word) ? word : "");
    for (const letter of "rew") {
      const [had, has] = [letters(was).includes(letter), letters(is).includes(letter)];
      if (had || has) add(cell, had === has ? "span" : has ? "ins" : "del", letter);
    }
    if (letters(is) === "" && is) cell.append(cell.childNodes.length ? " " : "", is);
  }

  function addRow(body, row, before) {
    const none = { modes: "", brackets: "", size: "", by: "" };
    const was = (before ? before.access : row.access) ?? none;
    const is = row.access ?? none;
    const line = add(body, "tr", "");
    const cell = () => add(line, "td", "");
    const number = row.number.toString(8);
    addWords(cell(), was === none ? "" : number, is === none ? "" : number);
    addWords(cell(), was === none ? "" : before ? before.path : row.path, is === none ? "" : row.path);
    addModes(cell(), was.modes, is.modes);
    addWords(cell(), was.brackets, is.brackets);
    addWords(cell(), was.size, is.size);
    addWords(cell(), was.by, is.by);
  }

  function showRows() {
    const body = document.getElementById("rows");
    body.replaceChildren();
    const changed = earlier();
    const order = [...rows.values()].sort((a, b) => a.process - b.process || a.number - b.number);
    let process = 0;
    for (const row of order) {
      const before = changed.get(row.key);
      if (row.access === null && !before?.access) continue;
      if (row.number < 8 && !stacks.checked) continue;
      if (row.process !== process) {
        process = row.process;
        const head = add(add(body, "tr", ""), "th", `process ${process}: ${run.processes[process - 1]}`);
        head.colSpan = 6;
        head.scope = "rowgroup";
      }
      addRow(body, row, before);
    }
    if (process === 0) add(add(body, "tr", ""), "td", "no process has a segment number yet").colSpan = 6;
  }

  // The mark of an entry in the drawing, where several may have one, which is named by the first.
  function markOf(entry) {
    for (let first = entry; first > 0; first -= 1) {
      const mark = document.getElementById(`e${first}`);
      if (mark) return mark;
    }
    return null;
  }

  // Goes to an entry: the slider, the table, the entry in the drawing, and the line that made it.
  function go(to, scroll) {
    move(to);
    slider.value = at;
    document.getElementById("number").textContent = at;
    const entry = run.entries[at - 1];
    const told = entry ? `process ${entry.process} in ring ${entry.ring}: ${entry.request}\n${entry.reply}` : "before the first entry";
    document.getElementById("told").textContent = told;
    slider.setAttribute("aria-valuetext", `entry ${at}: ${told}`);
    showRows();
    for (const mark of document.querySelectorAll(".now")) mark.classList.remove("now");
    const here = [markOf(at), lines.find((line) => Number(line.dataset.entry) === at)];
    for (const mark of here) {
      mark?.classList.add("now");
      if (scroll) mark?.scrollIntoView({ block: "nearest", inline: "nearest" });
    }
  }

  // Marks a line and its boxes, scrolls to the other kind, and goes to the entry on which it stood.
  function choose(mark) {
    for (const marked of document.querySelectorAll(".marked")) {
      marked.classList.remove("marked");
      marked.removeAttribute("aria-current");
    }
    const id = mark.dataset.line;
    const line = lines.find((other) => other.dataset.line === id);
    const own = boxes.filter((box) => box.dataset.line === id);
    for (const marked of own.concat(line ?? [])) {
      marked.classList.add("marked");
      marked.setAttribute("aria-current", "true");
    }
    const place = line?.dataset.entry ?? line?.dataset.point;
    if (place !== undefined) go(Number(place), false);
    if (mark === line) own[0]?.scrollIntoView({ block: "nearest", inline: "center" });
    else line?.scrollIntoView({ block: "center" });
  }

  for (const mark of [...lines, ...boxes]) {
    mark.setAttribute("tabindex", "0");
    mark.setAttribute("role", "button");
    mark.addEventListener("click", () => choose(mark));
  }
  for (const box of boxes) {
    const name = box.querySelector("title")?.textContent ?? "";
    box.setAttribute("aria-label", `line ${box.dataset.line}: ${name}`);
  }
  for (const mark of drawing.querySelectorAll(".entry")) {
    mark.addEventListener("click", () => go(Number(mark.id.slice(1)), true));
  }
  document.addEventListener("keydown", (event) => {
    if (event.altKey || event.ctrlKey || event.metaKey || event.shiftKey) return;
    const by = { ArrowLeft: -1, ArrowRight: 1 }[event.key];
    const mark = event.target.closest(".line, .box");
    if (by && event.target !== slider) go(at + by, true);
    else if (mark && (event.key === "Enter" || event.key === " ")) choose(mark);
    else return;
    event.preventDefault();
  });

  // A drawing that is a little wider than its frame is drawn smaller.
  const picture = drawing.querySelector("svg");
  const fit = () => picture?.classList.toggle("fits", picture.width.baseVal.value <= drawing.clientWidth * 1.1);
  addEventListener("resize", fit);
  fit();
  slider.max = run.entries.length;
  slider.addEventListener("input", () => go(Number(slider.value), true));
  stacks.addEventListener("change", showRows);
  go(0, false);
})();
"##;
