//! A piece of the page, which `page/embed` puts here.

/// The piece.
pub(crate) const PIECE: &[u8] =
    br###"  if (panes.some(pane => pane.run.choices.length)) others.push("\u25bc a choice: pale where it is the one in order");
  if (panes.some(pane => pane.run.parts >= 0)) others.push("a dashed line from top to bottom: where the runs part");
  clean(get("legend"), ...items, ...others.map(words => node("li", words)));
}

function told(run) {
  const verdict = run.wrong >= 0 ? `, line ${run.lines[run.wrong].line} is wrong` : "";
  const files = run.setup.files === undefined ? "" : `, ${run.setup.files} files`;
  return { counts: `${run.size} lines, ${run.requests.length} requests`, rings: `submission ring ${run.setup.sq}, completion ring ${run.setup.cq}${files}${verdict}`, verdict };
}

const ARROWS = [["group", "solid orange a member of its group"], ["drain", "long dashes a drain"], ["cancel", "short dashes a cancel"], ["doom", "solid red what dooms"], ["link", "grey a link"]];

const KEYS_TOLD = get("keys").textContent;

const GROUPS = [...new Set(DATA_RUNS.map(run => run.group || ""))];

function openGroup(group) {
  panes.length = 0;
  const runs = DATA_RUNS.filter(run => (run.group || "") === group).map(readRun);
  panes.push(...runs.map(paneOf));
  clean(get("panes"), ...panes.map(pane => pane.section));
  get("panes").classList.toggle("several", panes.length > 1);
  const more = [[panes.length > 1, "O the other run"], [runs.some(run => run.parts >= 0), "D where they part"], [runs.some(run => run.choices.length), "C the next choice"], [runs.some(run => run.wrong >= 0), "W the wrong line"]];
  get("keys").textContent = [KEYS_TOLD, ...more.filter(([isThere]) => isThere).map(([, words]) => words)].join(", ");
  const { counts, rings, verdict } = told(runs[0]);
  get("rings").style.display = hasRings(runs[0]) ? "" : "none";
  get("counted").textContent = hasRings(runs[0]) ? "Rings" : "Operations";
  get("summary").textContent = data.told || `${counts}; ${rings}`;
  get("title").textContent = data.title || `A run of ${runs[0].requests.length} requests, line by line`;
  document.title = `uring: ${data.title || `${counts}${verdict}`}`;
  legend();
  panes.forEach(arrange);
  const first = fit(runs);
  view = undefined;
  turn(panes[0]);
  for (const pane of panes) pane.chart.scrollLeft = first * pane.step;
  const { run } = view, bad = run.lines.findIndex(line => line.bad !== undefined);
  choose([run.wrong, bad, run.parts].find(place => place >= 0) ?? Math.max(0, run.size - 1));
}

function fit(runs) {
  const first = Math.max(0, Math.min(...runs.map(run => run.changed[0] ?? 0)) - 1);
  const shown = Math.max(...runs.map(run => run.size)) - first;
  for (const pane of panes) {
    const wide = pane.chart.clientWidth - LABEL - 24;
    if (shown > 0 && shown * pane.step < wide) pane.step = Math.min(160, wide / shown);
  }
  return first;
}

function start() {
  get("group_label").hidden = GROUPS.length < 2;
  clean(get("group"), ...GROUPS.map(group => node("option", group)));
  openGroup(GROUPS[0]);
}
start();
</script>
</body>
</html>
"###;
