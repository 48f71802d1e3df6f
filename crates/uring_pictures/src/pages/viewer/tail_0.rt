//! A piece of the page, which `page/embed` puts here.

/// The piece.
pub(crate) const PIECE: &[u8] = br###"</script>
<script>
"use strict";
const data = JSON.parse(document.getElementById("data").textContent);
const DATA_RUNS = data.runs || [data];
const COUNTS = ["accepted", "ended", "running", "posted", "reaped", "overflow"];

function arrowOf(change) {
  const why = change.why || "";
  if (why.includes("drains")) return "drain";
  if (why.includes("a member of its group")) return "group";
  if (why.includes("a cancel chose it")) return "cancel";
  return "doom";
}

function readRun(run) {
  const size = run.lines.length;
  const requests = run.requests.map(one => ({ ...one, spans: [], marks: [], from: size, until: size, state: "", done: size }));
  const counts = Object.fromEntries(COUNTS.map(name => [name, new Int32Array(size)]));
  const rings = ["sq_head", "sq_tail", "cq_head", "cq_tail"];
  const words = Object.fromEntries(rings.map(name => [name, new Float64Array(size)]));
  const now = Object.fromEntries(COUNTS.map(name => [name, 0]));
  const at = Object.fromEntries(rings.map(name => [name, run.setup.start]));
  const files = [], arrows = [], changed = [], choices = [], besides = new Int32Array(size);
  const turn = 2 ** 32;
  let wrong = -1, beside = -1;

  const enter = (request, place, change) => {
    const last = request.spans[request.spans.length - 1];
    if (last && last.until === size) last.until = place;
    if (change) request.spans.push({ is: change.is, from: place, until: size, of: change.of, why: change.why || "" });
    request.state = change ? change.is : "";
  };
  const take = (change, place) => {
    const request = requests[change.request];
    switch (change.is) {
      case "accepted":
        request.from = place;
        now.accepted += 1;
        if (request.chain !== request.request) arrows.push({ kind: "link", from: request.request - 1, to: request.request, place });
        return;
      case "ended":
        if (request.state === "runs") now.running -= 1;
        now.ended += 1;
        enter(request, place, null);
        request.until = place;
        request.done = place;
        request.result = change.result;
        if (change.of !== undefined) arrows.push({ kind: "cancel", from: request.request, to: change.of, place });
        return;
      case "overflow":
        now.overflow += 1;
        now.posted += 1;
        enter(request, place, change);
        request.done = size;
        return;
      case "ring":
        if (request.state === "overflow") now.overflow -= 1; else now.posted += 1;
        enter(request, place, change);
        request.done = size;
        return;
      case "reaped":
        now.reaped += 1;
        enter(request, place, null);
        request.marks.push({ is: "reaped", place });
        request.done = place;
        return;
      case "safe":
      case "lost":
      case "torn":
      case "left":
        request.marks.push({ is: change.is, place, why: change.why });
        return;
      default:
        if (change.is === "runs") now.running += 1;
        enter(request, place, change);
        if (change.of !== undefined) arrows.push({ kind: arrowOf(change), from: change.of, to: change.request, place });
    }
  };
  run.lines.forEach((line, place) => {
    for (const change of line.changes || []) take(change, place);
    if (line.changes) changed.push(place);
    if (line.file) files.push({ place, ...line.file });
    if (line.wrong !== undefined) wrong = place;
    for (const choice of line.choices || []) choices.push({ place, ...choice });
    if (line.beside !== undefined) beside = line.beside - 1;
    besides[place] = beside;
    for (const name of rings) {
      if (line[name] !== undefined) {
        const step = ((line[name] - at[name]) % turn + turn) % turn;
        at[name] += step;
      }
      words[name][place] = at[name];
    }
    for (const name of COUNTS) counts[name][place] = now[name];
  });
  for (const arrow of arrows) {
    const [from, to] = [requests[arrow.from], requests[arrow.to]];
    if (!from || !to) continue;
    (to.arrows ||= []).push(arrow);
    (from.arrows ||= []).push(arrow);
  }
  const parts = run.parts === undefined ? -1 : run.parts - 1;
  return { ...run, size, requests, counts, words, files, arrows, changed, choices, choicePlaces: choices.map(one => one.place), besides, parts, wrong };
}

function rowsOf(run, wanted, folded, here) {
  const rows = [];
  let call = -1, kept = 0;
  const end = () => { if (kept) rows.push({ kind: "folded", count: kept, call }); kept = 0; };
  for (const request of run.requests) {
    if (wanted && !wanted.has(request.user_data)) continue;
    if (request.call !== call) {
      end();
      call = request.call;
      if (!folded || isLive(run, call, here, wanted)) rows.push({ kind: "call", call });
    }
    if (folded && request.done <= here) kept += 1;
    else rows.push({ kind: "request", request });
  }
  end();
  return folded ? joinFolds(rows) : rows;
}

function isLive(run, call, here, wanted) {
  if (!run.last) run.last = lastOfCalls(run, wanted);
  return run.last.get(call) > here;
}

function lastOfCalls(run, wanted) {
  const last = new Map();
  for (const request of run.requests) {
    if (wanted && !wanted.has(request.user_data)) continue;
    last.set(request.call, Math.max(last.get(request.call) ?? -1, request.done));
  }
  return last;
}

function joinFolds(rows) {
  const joined = [];
  for (const row of rows) {
    const last = joined[joined.length - 1];
    if (row.kind === "folded" && last && last.kind === "folded") last.count += row.count;
    else joined.push(row);
  }
  return joined;
}

function wordsOf(request) {
  if (request.told) return request.told;
  const parts = [request.operation];
  if (request.target !== undefined) parts.push(`of ${request.target}`);
  if (request.file !== undefined) parts.push(`file ${request.file}`);
  if (request.length !== undefined) parts.push(`${request.length} at ${request.offset}`);
  return parts.join(" ");
}

function filesAt(run, here) {
  const found = new Map();
  for (const file of run.files) {
    if (file.place > here) break;
    found.set(file.file, file);
  }
  return [...found.values()].sort((one, other) => one.file - other.file);
}

function stateAt(request, here) {
  if (here < request.from) return null;
  const span = request.spans.findLast(span => span.from <= here);
  if (span && here < span.until) return span;
  if (request.done <= here) return { is: request.marks.some(mark => mark.is === "reaped" && mark.place <= here) ? "reaped" : "ended", why: "" };
  return { is: here >= request.until ? "ended" : "accepted", why: "" };
}
const ROW = 24, LABEL = innerWidth < 560 ? 150 : 232, SVG = "http://www.w3.org/2000/svg";
const STATES = [["waits", "waits"], ["ready", "may start"], ["doomed", "doomed"], ["runs", "runs"], ["ring", "completion in the ring"], ["overflow", "completion in the overflow list"], ["hidden", "on its way, unseen"]];
const MARKS = { safe: "m-4 4l3 4l6 -9", lost: "m-5 -5l10 10m0 -10l-10 10", torn: "m-5 5l10 -10", left: "m-5 0h10" };
const LETTERS = { waits: "W", ready: "M", doomed: "X", runs: "R", ring: "C", overflow: "O", hidden: "?" };

function make(name, marks, text) {
  const element = document.createElementNS(SVG, name);
  for (const key in marks) element.setAttribute(key, marks[key]);
  if (text !== undefined) element.textContent = text;
  return element;
}

function put(parent, name, marks, text) {
  return parent.appendChild(make(name, marks, text));
}

function sight(view) {
  const box = view.chart;
  if (view.isPrinted) return { left: 0, top: 0, width: Math.min(LABEL + view.run.size * view.step + 20, 8000), height: Math.min(view.rows.length, 400) * ROW };
  return { left: box.scrollLeft, top: box.scrollTop, width: box.clientWidth, height: box.clientHeight };
}

function drawLanes(view) {
  const { run, rows, step, here, lanes } = view;
  view.chart.style.height = `${rows.length * ROW + 24}px`;
  const seen = sight(view);
  view.space.style.width = `${LABEL + run.size * step + 20}px`;
  view.space.style.height = `${rows.length * ROW}px`;
  lanes.setAttribute("width", seen.width);
  lanes.setAttribute("height", seen.height);
  lanes.replaceChildren(...arrowHeads(view));
  const x = place => LABEL + place * step - seen.left;
  const y = row => row * ROW - seen.top;
  const first = Math.max(0, Math.floor(seen.left / step)), last = Math.min(run.size, Math.ceil((seen.left + seen.width) / step) + 1);
  const top = Math.max(0, Math.floor(seen.top / ROW)), bottom = Math.min(rows.length, Math.ceil((seen.top + seen.height) / ROW));
  drawLines(view, lanes, x, first, last, seen);
  const arrows = new Set();
  for (let row = top; row < bottom; row += 1) drawRow(view, lanes, rows[row], y(row), x, first, last, arrows);
  if (view.hasArrows) for (const arrow of arrows) drawArrow(view, lanes, arrow, x, y, first, last);
  drawChoices(view, lanes, x, first, last);
  put(lanes, "rect", { class: "panel", x: 0, y: 0, width: LABEL - 4, height: seen.height });
  for (let row = top; row < bottom; row += 1) drawLabel(view, lanes, rows[row], y(row));
  if (here >= first && here < last) put(lanes, "rect", { class: "chosen", x: Math.max(x(here), LABEL - 4), y: 1, width: step, height: seen.height - 2, "pointer-events": "none" });
}

function drawLines(view, lanes, x, first, last, seen) {
  const { run, step, here } = view;
  put(lanes, "rect", { class: "here-line", x: x(here), y: 0, width: step, height: seen.height });
  const gap = Math.max(1, Math.ceil(60 / step));
  for (let place = first; place < last; place += 1) {
    const line = run.lines[place];
    if (line.wrong !== undefined) put(lanes, "rect", { class: "wrong-line", x: x(place), y: 0, width: step, height: seen.height });
    if (line.bad !== undefined) put(lanes, "rect", { class: "bad-line", x: x(place), y: 0, width: step, height: seen.height });
    if (place % gap === 0) put(lanes, "line", { class: "grid", x1: x(place), x2: x(place), y1: 0, y2: seen.height });
  }
}

function drawChoices(view, lanes, x, first, last) {
  const { run, step } = view;
  const high = sight(view).height;
  if (run.parts >= first && run.parts < last) put(lanes, "line", { class: "parts", x1: x(run.parts), x2: x(run.parts), y1: 0, y2: high });
  for (let at = firstFrom(run.choicePlaces, first); at < run.choices.length && run.choices[at].place < last; at += 1) {
    const choice = run.choices[at], middle = x(choice.place) + step / 2;
    const mark = put(lanes, "path", { class: choice.way ? "choice" : "plain", d: `M${middle - 4} 0h8l-4 7z`, "data-choice": choice.choice });
    put(mark, "title", {}, tellChoice(choice));
  }
}

function tellChoice(choice) {
  return `choice ${choice.choice}: ${choice.what}, way ${choice.way} of 0 to ${choice.of - 1}`;
}

function drawRow(view, lanes, row, y, x, first, last, arrows) {
  if (row.kind === "call") put(lanes, "rect", { class: "call", x: 0, y: y + 3, width: sight(view).width, height: ROW - 6 });
  if (row.kind !== "request") return;
  const { request } = row;
  const lane = put(lanes, "g", { class: "lane", "data-request": request.request });
  for (const span of request.spans) {
    if (span.until <= first || span.from >= last) continue;
    drawSpan(view, lane, request, span, y, x);
  }
  if (request.until >= first && request.until < last) drawEnd(view, lane, request, y, x);
  for (const mark of request.marks) if (mark.place >= first && mark.place < last) drawMark(view, lane, mark, y, x);
  for (const arrow of request.arrows || []) if (arrow.place >= first && arrow.place < last) arrows.add(arrow);
}

function drawSpan(view, lane, request, span, y, x) {
  const isBelow = span.is === "ring" || span.is === "overflow";
  const from = Math.max(x(span.from), -10), width = Math.min(x(span.until), sight(view).width + 10) - from;
  const [top, height] = isBelow ? [y + 13, 8] : [y + 3, 14];
  const piece = put(lane, "rect", { class: `state ${span.is}`, x: from, y: top, width: Math.max(width, 1), height, "data-from": span.from, "data-until": span.until, "data-is": span.is });
  put(piece, "title", {}, tellSpan(view.run, request, span));
  const room = Math.min(width, x(span.until) - Math.max(from, LABEL));
  if (room > 14 && !isBelow) put(lane, "text", { class: "in", x: Math.max(from, LABEL) + 3, y: y + 14 }, room > 110 && span.why ? short(span.why, room) : LETTERS[span.is]);
}

function short(text, room) {
  const most = Math.floor(room / 6.4);
  return text.length <= most ? text : `${text.slice(0, Math.max(0, most - 1))}\u2026`;
}

function shortened(text, room) {
  const most = Math.floor(room / 6.4), end = text.lastIndexOf(" at ");
  if (text.length <= most || end < 0 || text.length - end > most - 4) return short(text, room);
  return `${text.slice(0, most - (text.length - end) - 1)}\u2026${text.slice(end)}`;
}

function drawEnd(view, lane, request, y, x) {
  const { run, step } = view;
  const at = x(request.until) + Math.min(step, 6) / 2;
  const end = put(lane, "line", { class: "end", x1: at, x2: at, y1: y + 2, y2: y + 22, "data-place": request.until });
  put(end, "title", {}, `request ${request.request} ended with ${request.result}\n${tellLine(run.lines[request.until])}`);
  if (step >= 8) put(lane, "text", { x: at + 3, y: y + 11 }, String(request.result));
}

function drawMark(view, lane, mark, y, x) {
  const at = x(mark.place) + view.step / 2;
  const path = MARKS[mark.is];
  const drawn = path ? put(lane, "path", { class: mark.is, d: `M${at} ${y + 12}${path}`, "data-is": mark.is }) : put(lane, "circle", { class: "reaped", cx: at, cy: y + 17, r: 3, "data-is": "reaped" });
  put(drawn, "title", {}, `${mark.is}${mark.why ? `: ${mark.why}` : ""}\n${tellLine(view.run.lines[mark.place])}`);
}

function tellLine(line) {
  return `line ${line.line}: ${line.text}${line.answer === undefined ? "" : ` = ${line.answer}`}${line.reason ? `  # ${line.reason}` : ""}`;
}

function tellSpan(run, request, span) {
  const until = span.until < run.size ? `to line ${run.lines[span.until].line}` : "to the end";
  return `request ${request.request}, user data ${request.user_data}: ${span.why || (STATES.find(state => state[0] === span.is) || [0, span.is])[1]}\nfrom ${tellLine(run.lines[span.from])}\n${until}`;
}

function drawLabel(view, lanes, row, y) {
  if (row.kind === "call") return put(lanes, "text", { class: "soft", x: 6, y: y + 16, "data-call": row.call }, (view.run.headings || [])[row.call] ?? `call ${row.call}`);
  if (row.kind === "folded") return put(lanes, "text", { class: "soft folded", x: 22, y: y + 16 }, `${row.count} that ended`);
  const { request } = row;
  const next = view.run.requests[request.request + 1];
  const isHead = request.chain === request.request, goesOn = next && next.chain === request.chain;
  if (!isHead || goesOn) put(lanes, "path", { class: "chain", "data-chain": request.chain, d: `M14 ${isHead ? y + 12 : y}H10V${goesOn ? y + ROW : y + 12}H14` });
  const name = `${request.request}: ${short(request.user_data, 110)}`;
  const words = shortened(wordsOf(request), LABEL - 38 - name.length * 6.4 - request.flags.length * 8);
  const label = put(lanes, "text", { class: "label", x: 20, y: y + 16, "data-request": request.request }, `${name} ${words} ${request.flags}`);
  put(label, "title", {}, `request ${request.request} of call ${request.call}, chain of ${request.chain}: user data ${request.user_data}, ${wordsOf(request)}, flags ${request.flags || "none"}`);
  return label;
}

function drawArrow(view, lanes, arrow, x, y, first, last) {
  if (arrow.place < first || arrow.place >= last) return;
  const from = view.rowOf.get(arrow.from), to = view.rowOf.get(arrow.to);
  if (from === undefined || to === undefined) return;
  const at = x(arrow.place) + Math.min(view.step / 2, 8), isDown = to > from;
  const y1 = y(from) + (isDown ? 22 : 2), y2 = y(to) + (isDown ? 2 : 22), bend = arrow.kind === "link" ? 0 : 10;
"###;
