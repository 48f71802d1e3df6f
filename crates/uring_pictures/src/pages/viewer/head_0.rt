//! A piece of the page, which `page/embed` puts here.

/// The piece.
pub(crate) const PIECE: &[u8] = br###"<!doctype html>
<html lang="en">
<head>
<meta charset="utf-8">
<meta name="viewport" content="width=device-width, initial-scale=1">
<title>uring: a run</title>
<link rel="icon" href="data:,">
<style>
:root {
  color-scheme: light dark;
  --back: #ffffff; --ink: #1b1b1b; --faint: #d8d8d8; --soft: #6a6a6a; --here: #fff3b0;
  --waits: #e69f00; --ready: #56b4e9; --doomed: #d55e00; --runs: #009e73; --ring: #0072b2; --overflow: #cc79a7; --wrong: #c00000;
}
@media (prefers-color-scheme: dark) {
  :root { --back: #16181b; --ink: #ececec; --faint: #3a3d41; --soft: #a5a9ae; --here: #4b4320; --ring: #2a7fc0; --wrong: #ff6b6b; }
}
* { box-sizing: border-box; }
body { margin: 0; padding: .6rem 1rem; background: var(--back); color: var(--ink); font: 14px/1.4 system-ui, sans-serif; display: flex; flex-direction: column; height: 100vh; gap: .35rem; }
h1 { font-size: 1.15rem; margin: 0; display: inline-block; }
h2 { font-size: .9rem; margin: .2rem 0; color: var(--soft); }
header p { display: inline-block; margin: 0 0 0 .8rem; color: var(--soft); }
#tools { display: flex; flex-wrap: wrap; gap: .7rem; align-items: center; }
#tools input[type=number] { width: 6.5rem; } #tools input[type=text] { width: 8rem; }
#keys { color: var(--soft); font-size: .8rem; }
#legend { display: flex; flex-wrap: wrap; gap: .3rem 1rem; list-style: none; margin: 0; padding: 0; font-size: .8rem; }
#legend svg { width: 26px; height: 12px; vertical-align: -1px; margin-right: .3rem; }
#panes { flex: none; display: flex; flex-direction: column; gap: .35rem; }
#panes .chart { position: relative; overflow: auto; flex: none; min-height: 100px; max-height: 55vh; border: 1px solid var(--faint); }
#panes .chart:focus { outline: 2px solid var(--ring); }
#panes .space { position: relative; }
#panes .lanes { position: sticky; left: 0; top: 0; display: block; }
#panes.several .chart { max-height: 25vh; }
#panes.several .pane { border-left: 4px solid transparent; padding-left: .4rem; } #panes.several .pane.is-chosen { border-left-color: var(--ring); }
#panes h2 { display: inline-block; margin: 0 .8rem 0 0; color: var(--ink); }
#panes header p { margin: 0 .8rem 0 0; overflow-wrap: anywhere; } #panes .told { white-space: pre-wrap; } #panes .choices { max-height: 3.2rem; overflow: auto; vertical-align: middle; }
#panes button { font: inherit; font-size: .8rem; padding: 0 .4rem; margin: 0 .4rem .15rem 0; color: var(--ink); background: var(--back); border: 1px solid var(--soft); border-radius: 3px; cursor: pointer; }
#panes.several ~ #rings { margin-left: calc(4px + .4rem); width: calc(100% - 4px - .4rem); }
#rings { border: 1px solid var(--faint); height: 96px; width: 100%; flex: none; }
#told { display: grid; grid-template-columns: 1.3fr .9fr 1.1fr 1.7fr; grid-auto-rows: min-content; gap: 1rem; flex: 1 1 30%; overflow: auto; min-height: 150px; }
#told p { margin: .2rem 0; }
#told ul, #told ol { margin: 0; padding: 0; list-style: none; }
#told dl { display: grid; grid-template-columns: auto 1fr; gap: 0 .7rem; margin: 0; } #told dd { margin: 0; }
#lines li { white-space: pre; cursor: pointer; font: 12px/1.45 ui-monospace, monospace; overflow: hidden; text-overflow: ellipsis; }
#lines li.here { background: var(--here); } #lines .reason { color: var(--soft); }
code { font: 12px ui-monospace, monospace; overflow-wrap: anywhere; }
.wrong, .bad { color: var(--wrong); font-weight: 600; white-space: pre-wrap; }
.unseen { position: absolute; width: 1px; height: 1px; overflow: hidden; clip-path: inset(50%); }
svg text { fill: var(--ink); font: 11px system-ui, sans-serif; } svg text.soft { fill: var(--soft); } svg text.in { fill: #000; pointer-events: none; }
.state { stroke: var(--back); stroke-width: .5; }
.waits { fill: var(--waits); } .ready { fill: var(--ready); } .doomed { fill: var(--doomed); } .runs { fill: var(--runs); } .ring { fill: var(--ring); } .overflow { fill: var(--overflow); }
.hidden { fill: var(--faint); stroke: var(--soft); stroke-dasharray: 3 3; } .choice { fill: var(--overflow); } .plain { fill: var(--faint); } .parts { stroke: var(--overflow); stroke-width: 1.5; stroke-dasharray: 6 3; }
.reaped { fill: var(--soft); } .safe, .left { fill: none; stroke: var(--ink); stroke-width: 1.8; } .lost, .torn { fill: none; stroke: var(--wrong); stroke-width: 2.4; } .end { stroke: var(--ink); stroke-width: 2; }
.call { fill: var(--faint); opacity: .45; } .chain { fill: none; stroke: var(--soft); stroke-width: 2; }
.grid { stroke: var(--faint); stroke-width: .5; } .chosen { fill: none; stroke: var(--ink); stroke-width: 1.2; }
.here-line { fill: var(--here); opacity: .8; } .wrong-line { fill: var(--wrong); opacity: .35; } .bad-line { fill: var(--wrong); opacity: .2; }
.arrow { fill: none; stroke-width: 1.8; } .arrow-group { stroke: var(--waits); } .arrow-drain { stroke: var(--ring); stroke-dasharray: 5 2; } .arrow-cancel { stroke: var(--doomed); stroke-dasharray: 2 2; } .arrow-doom { stroke: var(--doomed); } .arrow-link { stroke: var(--soft); }
.tail { fill: none; stroke: var(--ring); stroke-width: 1.6; } .head { fill: none; stroke: var(--waits); stroke-width: 1.6; stroke-dasharray: 4 2; }
.panel { fill: var(--back); }
@media (max-width: 800px), (max-height: 600px) {
  body { height: auto; gap: .2rem; } #keys { display: none; } #tools { gap: .4rem; } #told { flex: none; grid-template-columns: 1fr 1fr; }
}
@media (max-width: 560px) { #told { grid-template-columns: 1fr; } }
@media print {
  body { height: auto; display: block; } #tools, #keys { display: none; } #panes .chart { overflow: visible; border: 0; height: auto !important; max-height: none; } #panes .lanes { position: static; } #told { display: block; overflow: visible; }
  :root { --back: #ffffff; --ink: #000000; } #panes .choices { max-height: none; }
}
</style>
</head>
<body>
<header>
<h1 id="title">A run</h1>
<p id="summary"></p>
</header>
<form id="tools" aria-label="Tools">
<button type="button" id="back" title="one line back (Left)">&#9664;</button>
<label>line <input id="line" type="number" min="1" value="1"></label>
<button type="button" id="on" title="one line on (Right)">&#9654;</button>
<label id="group_label" hidden>show <select id="group"></select></label>
<label>user data <input id="filter" type="text" placeholder="all" aria-describedby="filter_help"></label>
<span id="filter_help" class="unseen">Numbers, with blanks between them. Nothing: all requests.</span>
<label><input id="fold" type="checkbox"> fold what has ended</label>
<label><input id="arrows" type="checkbox" checked> arrows</label>
<span id="keys">Left and Right step, Home and End, N and P to the next and previous change, + and - zoom, J line, / user data, F fold</span>
</form>
<ul id="legend" aria-label="What the colours mean"></ul>
<main id="panes"></main>
<svg id="rings" role="img" aria-label="Heads and tails of both rings, line by line"></svg>
<section id="told">
<div id="now" aria-live="polite"></div>
<div><h2 id="counted">Rings</h2><dl id="counts"></dl><h2>Files</h2><dl id="files"></dl></div>
<div><h2>Requests on their way</h2><ul id="standing"></ul></div>
<div><h2>Lines</h2><ol id="lines"></ol></div>
</section>
<script type="application/json" id="data">
"###;
