//! A piece of the page, which `page/embed` puts here.

/// The piece.
pub(crate) const PIECE: &[u8] =
    br###"  const path = put(lanes, "path", { class: `arrow arrow-${arrow.kind}`, d: `M${at} ${y1}C${at + bend} ${y1} ${at} ${y2 + (isDown ? -12 : 12)} ${at} ${y2}`, "marker-end": `url(#head-${arrow.kind}${view.end})`, "data-kind": arrow.kind, "data-from": arrow.from, "data-to": arrow.to });
  put(path, "title", {}, `${arrow.kind}: from request ${arrow.from} to request ${arrow.to}\n${tellLine(view.run.lines[arrow.place])}`);
}

function arrowHeads(view) {
  return ["group", "drain", "cancel", "doom", "link"].map(kind => {
    const marker = make("marker", { id: `head-${kind}${view.end}`, viewBox: "0 0 8 8", refX: 7, refY: 4, markerWidth: 6, markerHeight: 6, orient: "auto" });
    put(marker, "path", { class: `arrow arrow-${kind}`, style: "stroke-dasharray: none", d: "M0 0L8 4L0 8" });
    return marker;
  });
}

function drawRings(view) {
  const { run, step, rings, here } = view;
  const seen = sight(view), high = 96;
  rings.replaceChildren();
  if (!run.size) return;
  const first = Math.max(0, Math.floor(seen.left / step)), last = Math.min(run.size, Math.ceil((seen.left + seen.width) / step) + 1);
  const x = place => LABEL + place * step - seen.left;
  put(rings, "rect", { class: "here-line", x: x(here), y: 0, width: step, height: high });
  ["sq", "cq"].forEach((ring, at) => {
    const [head, tail] = [run.words[`${ring}_head`], run.words[`${ring}_tail`]];
    const low = head[first], most = Math.max(tail[last - 1], low + 1);
    const y = word => at * 48 + 42 - (word - low) / (most - low) * 34;
    drawWord(rings, "tail", tail, first, last, x, y);
    drawWord(rings, "head", head, first, last, x, y);
  });
  put(rings, "rect", { class: "panel", x: 0, y: 0, width: LABEL - 4, height: high });
  const word = name => run.words[name][here] % 2 ** 32;
  ["sq", "cq"].forEach((ring, at) => {
    put(rings, "text", { x: 6, y: at * 48 + 20 }, `${ring === "sq" ? "submission" : "completion"} ring`);
    put(rings, "text", { class: "soft", x: 6, y: at * 48 + 36, "data-ring": ring }, `head ${word(`${ring}_head`)} (- - -), tail ${word(`${ring}_tail`)} (\u2014)`);
  });
}

function drawWord(rings, name, words, first, last, x, y) {
  let path = `M${x(first)} ${y(words[first])}`;
  for (let place = first + 1; place < last; place += 1) if (words[place] !== words[place - 1]) path += `H${x(place)}V${y(words[place])}`;
  put(rings, "path", { class: name, d: `${path}H${x(last)}` });
}
const get = id => document.getElementById(id);
const panes = [];
let view;

function clean(parent, ...children) {
  parent.replaceChildren(...children);
}

function node(name, text, className) {
  const element = document.createElement(name);
  if (text !== undefined) element.textContent = text;
  if (className) element.className = className;
  return element;
}

function paneOf(run, at) {
  const end = at ? `_${at}` : "";
  const pane = { run, end, here: 0, step: 16, rows: [], rowOf: new Map(), hasArrows: true, isPrinted: false, rings: get("rings") };
  pane.section = node("section", undefined, "pane");
  pane.chart = node("div", undefined, "chart");
  pane.space = node("div", undefined, "space");
  pane.lanes = make("svg", { id: `lanes${end}`, class: "lanes", role: "img", "aria-labelledby": "title summary" });
  pane.chart.id = `chart${end}`;
  pane.chart.tabIndex = 0;
  pane.chart.setAttribute("role", "application");
  pane.chart.setAttribute("aria-label", `Lanes of requests${run.name ? ` of ${run.name}` : ""}; Left and Right step through the lines`);
  pane.space.append(pane.lanes);
  pane.chart.append(pane.space);
  if (run.name) pane.section.append(headOf(pane));
  pane.section.append(pane.chart);
  pane.chart.addEventListener("scroll", drawSoon);
  pane.chart.addEventListener("focus", () => turn(pane));
  pane.lanes.addEventListener("click", event => pick(pane, event));
  return pane;
}

function headOf(pane) {
  const { run } = pane;
  const head = node("header");
  head.append(node("h2", run.name));
  if (run.told) head.append(node("p", run.told, run.wrong >= 0 ? "told wrong" : "told"));
  const choices = run.choices.filter(one => one.way);
  if (choices.length) {
    const list = node("p", undefined, "choices");
    for (const choice of choices.slice(0, 12)) {
      const button = node("button", tellChoice(choice));
      button.type = "button";
      button.addEventListener("click", () => { turn(pane); choose(choice.place); });
      list.append(button);
    }
    if (choices.length > 12) list.append(`and ${choices.length - 12} more`);
    head.append(list);
  }
  return head;
}

function turn(pane, isFocused) {
  if (isFocused) pane.chart.focus();
  if (view === pane) return;
  view = pane;
  for (const one of panes) one.section.classList.toggle("is-chosen", one === pane);
  get("line").max = pane.run.size;
  get("line").value = pane.run.size ? pane.run.lines[pane.here].line : 0;
  draw();
  tell();
}

function arrange(pane) {
  const words = get("filter").value.split(/[\s,]+/).filter(word => word);
  pane.run.last = undefined;
  pane.rows = rowsOf(pane.run, words.length ? new Set(words) : null, get("fold").checked, pane.here);
  pane.rowOf = new Map();
  pane.rows.forEach((row, at) => { if (row.kind === "request") pane.rowOf.set(row.request.request, at); });
}

function arrangeAll() {
  panes.forEach(arrange);
  choose(view.here);
}

function draw() {
  panes.forEach(drawLanes);
  drawRings(view);
}

let isAwaited = false;
function drawSoon() {
  if (isAwaited) return;
  isAwaited = true;
  requestAnimationFrame(() => { isAwaited = false; draw(); });
}

function choose(place, row) {
  move(view, place, row);
  const beside = view.run.size ? view.run.besides[view.here] : -1;
  for (const pane of panes) {
    if (pane === view || beside < 0) continue;
    move(pane, beside);
    if (pane.run.parts >= 0 && pane.rows.length === view.rows.length) alongside(pane);
  }
  get("line").value = view.run.size ? view.run.lines[view.here].line : 0;
  draw();
  tell();
}

function alongside(pane) {
  pane.chart.scrollTop = view.chart.scrollTop;
  pane.chart.scrollLeft = view.chart.scrollLeft;
  show(pane);
}

function move(pane, place, row) {
  pane.here = Math.max(0, Math.min(pane.run.size - 1, place));
  if (get("fold").checked) arrange(pane);
  show(pane, row);
}

function firstFrom(list, number) {
  let [low, high] = [0, list.length];
  while (low < high) {
    const middle = (low + high) >> 1;
    if (list[middle] < number) low = middle + 1; else high = middle;
  }
  return low;
}

function show(pane, row) {
  const { chart, step, here, run } = pane;
  const x = here * step, wide = chart.clientWidth - LABEL;
  if (x < chart.scrollLeft || x + step > chart.scrollLeft + wide) chart.scrollLeft = Math.max(0, x - wide / 2);
  const near = run.changed[firstFrom(run.changed, here)] ?? run.changed[run.changed.length - 1];
  const wanted = row ?? (near === undefined ? undefined : pane.rowOf.get(run.lines[near].changes[0].request));
  if (wanted === undefined) return;
  const y = wanted * ROW;
  if (y < chart.scrollTop || y + ROW > chart.scrollTop + chart.clientHeight) chart.scrollTop = Math.max(0, Math.floor((y - chart.clientHeight / 2) / ROW) * ROW);
}

function tell() {
  const { run, here } = view;
  const line = run.lines[here];
  if (!line) return clean(get("now"), node("h2", "No line"));
  clean(get("now"), node("h2", `Line ${line.line}`), ...toldOf(line));
  const counts = COUNTS.map(name => [name, run.counts[name][here]]);
  counts.splice(1, 0, ["outstanding", run.counts.accepted[here] - run.counts.ended[here]]);
  pairs("counts", hasRings(run) ? [...counts, ["submission ring", ends("sq")], ["completion ring", ends("cq")]] : [["begun", run.counts.accepted[here]], ["ended", run.counts.ended[here]]]);
  pairs("files", filesAt(run, here).map(file => [`file ${file.file}`, `${file.length} bytes, ${file.writes} writes, ${file.synced} of them synced${safeOf(file.file)}`]));
  standing();
  lines();
}

function hasRings(run) {
  return run.setup.sq > 0;
}

function ends(ring) {
  const word = name => view.run.words[`${ring}_${name}`][view.here] % 2 ** 32;
  return `head ${word("head")}, tail ${word("tail")}`;
}

function safeOf(file) {
  const { run, here } = view;
  const writes = run.requests.filter(one => one.operation === "write" && one.file === file && one.until <= here && one.result > 0);
  const isSafe = one => one.marks.some(mark => mark.is === "safe" && mark.place <= here);
  const named = some => some.slice(-8).map(one => one.request).join(", ");
  const safe = writes.filter(isSafe), others = writes.filter(one => !isSafe(one));
  return `${safe.length ? `; safe: ${named(safe)}` : ""}${others.length ? `; not safe: ${named(others)}` : ""}`;
}

function pairs(id, all) {
  clean(get(id), ...all.flatMap(([name, value]) => [node("dt", name), node("dd", String(value))]));
}

function toldOf(line) {
  const told = [];
  const step = node("p");
  step.append(node("code", line.text === "" ? "(empty)" : line.text));
  if (line.answer !== undefined) step.append(" = ", node("code", line.answer, line.wrong === undefined ? "answer" : "wrong"));
  told.push(step);
  if (line.reason) told.push(node("p", line.reason, "reason"));
  for (const note of line.notes || []) told.push(node("p", note, "note"));
  for (const choice of line.choices || []) told.push(node("p", tellChoice(choice), "note"));
  if (line.bad) told.push(node("p", line.bad.replace(/^uring: line \d+: /, ""), "bad"));
  if (line.wrong !== undefined) told.push(node("p", `wrong: ${line.wrong}`, "wrong"));
  const list = node("ul");
  for (const change of (line.changes || []).slice(0, 50)) list.append(node("li", tellChange(change)));
  told.push(list);
  return told;
}

function tellChange(change) {
  const request = view.run.requests[change.request];
  const name = `request ${change.request} (${request ? request.user_data : "?"})`;
  switch (change.is) {
    case "accepted": return `${name} is accepted`;
    case "ended": return `${name} ended with ${change.result}`;
    case "ring": return `${name}: its completion is in the ring`;
    case "overflow": return `${name}: its completion waits in the overflow list`;
    case "reaped": return `${name}: its completion is reaped`;
    case "safe": return `${name}: what it wrote is safe`;
    case "lost":
    case "torn": return `${name} is ${change.is}: ${change.why}`;
    case "left": return `${name} is left, though it needn't be: ${change.why}`;
    default: return `${name}: ${change.why}`;
  }
}

function standing() {
  const { run, here } = view;
  const items = [];
  for (const request of run.requests) {
    if (request.from > here || request.done <= here) continue;
    if (items.length === 40) { items.push(node("li", "and more")); break; }
    const state = stateAt(request, here);
    const words = (STATES.find(([name]) => name === state.is) || [0, state.is])[1];
    const item = node("li", `${request.request} (${request.user_data}): ${state.why || words}`);
    item.dataset.request = request.request;
    items.push(item);
  }
  clean(get("standing"), ...items);
}

function lines() {
  const { run, here } = view;
  const items = [];
  for (let place = Math.max(0, here - 6); place < Math.min(run.size, here + 10); place += 1) {
    const line = run.lines[place];
    const item = node("li", `${String(line.line).padStart(6)}  ${line.text}${line.answer === undefined ? "" : ` = ${line.answer}`}`);
    if (line.reason) item.append(node("span", `  # ${line.reason}`, "reason"));
    if (line.wrong !== undefined || line.bad) item.classList.add("wrong");
    if (place === here) { item.classList.add("here"); item.setAttribute("aria-current", "true"); }
    item.addEventListener("click", () => choose(place));
    items.push(item);
  }
  clean(get("lines"), ...items);
}

function nearest(isOn) {
  const { changed } = view.run;
  const found = isOn ? changed[firstFrom(changed, view.here + 1)] : changed[firstFrom(changed, view.here) - 1];
  return found ?? view.here;
}

function zoom(factor) {
  const step = Math.max(2, Math.min(64, view.step * factor));
  const kept = panes.map(pane => pane.here * step - (pane.here * pane.step - pane.chart.scrollLeft));
  for (const pane of panes) pane.step = step;
  draw();
  panes.forEach((pane, at) => { pane.chart.scrollLeft = kept[at]; });
  draw();
}

function nextChoice() {
  const choices = view.run.choices.filter(one => one.way);
  return (choices.find(one => one.place > view.here) || choices[0] || { place: view.here }).place;
}

const KEYS = {
  ArrowLeft: () => choose(view.here - 1), ArrowRight: () => choose(view.here + 1), Home: () => choose(0), End: () => choose(view.run.size - 1),
  n: () => choose(nearest(true)), p: () => choose(nearest(false)), w: () => view.run.wrong >= 0 && choose(view.run.wrong),
  "+": () => zoom(1.5), "=": () => zoom(1.5), "-": () => zoom(1 / 1.5),
  j: () => get("line").select(), "/": () => get("filter").select(), f: () => { get("fold").checked = !get("fold").checked; arrangeAll(); },
  o: () => turn(panes[(panes.indexOf(view) + 1) % panes.length], true), d: () => view.run.parts >= 0 && choose(view.run.parts), c: () => choose(nextChoice()),
};

document.addEventListener("keydown", event => {
  const isTyped = event.target.matches("input[type=text], input[type=number], select");
  if (isTyped && event.key === "Escape") return view.chart.focus();
  const act = KEYS[event.key] || KEYS[event.key.toLowerCase()];
  if (isTyped || event.ctrlKey || event.metaKey || event.altKey || !act) return;
  event.preventDefault();
  act();
});

function pick(pane, event) {
  turn(pane);
  const box = pane.lanes.getBoundingClientRect();
  const x = event.clientX - box.left, row = Math.floor((event.clientY - box.top + pane.chart.scrollTop) / ROW);
  const picked = pane.rows[row];
  if (x < LABEL) return picked && picked.kind === "request" && choose(picked.request.from, row);
  choose(Math.floor((x - LABEL + pane.chart.scrollLeft) / pane.step), row);
}

get("back").addEventListener("click", KEYS.ArrowLeft);
get("on").addEventListener("click", KEYS.ArrowRight);
get("tools").addEventListener("submit", event => event.preventDefault());
get("line").addEventListener("change", event => choose(Number(event.target.value) - 1));
get("filter").addEventListener("input", arrangeAll);
get("fold").addEventListener("change", arrangeAll);
get("arrows").addEventListener("change", event => { for (const pane of panes) pane.hasArrows = event.target.checked; draw(); });
get("group").addEventListener("change", event => openGroup(event.target.value));
addEventListener("resize", drawSoon);
addEventListener("beforeprint", () => { for (const pane of panes) pane.isPrinted = true; draw(); });
addEventListener("afterprint", () => { for (const pane of panes) pane.isPrinted = false; draw(); });

function legend() {
  const isSeen = name => panes.some(pane => pane.run.requests.some(request => request.spans.some(span => span.is === name)));
  const items = STATES.filter(([name]) => isSeen(name)).map(([name, words]) => {
    const item = node("li"), picture = make("svg", { width: 26, height: 12, "aria-hidden": "true" });
    put(picture, "rect", { class: name, width: 26, height: 12 });
    put(picture, "text", { class: "in", x: 8, y: 10 }, LETTERS[name]);
    item.append(picture, words);
    return item;
  });
  const isMarked = names => panes.some(pane => pane.run.requests.some(request => request.marks.some(mark => names.includes(mark.is))));
  const others = ["| end, with its result"];
  if (isMarked(["safe"])) others.push("\u2713 what was written is safe");
  if (isMarked(["reaped"])) others.push("\u25cf reaped");
  const kinds = new Set(panes.flatMap(pane => pane.run.arrows.map(arrow => arrow.kind)));
  const arrows = ARROWS.filter(([kind]) => kinds.has(kind)).map(([, words]) => words);
  if (arrows.length) others.push(`arrows: ${arrows.join(", ")}`);
  if (isMarked(["lost", "torn", "left"])) others.push("\u2715 lost, \u2571 torn, \u2014 left, though it needn't be");
"###;
