//! The page that people look at.

// It loads nothing, asks this node for `/status.json` once a second, and writes what it is told as text alone.
const HOME: &str = r##"<!doctype html>
<html lang="en">
<head>
<meta charset="utf-8">
<meta name="viewport" content="width=device-width, initial-scale=1">
<link rel="icon" href="data:,">
<title>ccnode</title>
<style>
:root {
  color-scheme: light dark;
  --paper: #fcfcfa; --panel: #ffffff; --ink: #1c1f23; --soft: #5f666e; --line: #e3e4e0; --hair: #eeefeb;
  --good: #17705b; --warn: #8a5a00; --bad: #b02a24; --gone: #777d84; --on: #ffffff;
}
@media (prefers-color-scheme: dark) {
  :root {
    --paper: #131517; --panel: #1a1d20; --ink: #e9eae7; --soft: #9aa1a8; --line: #2e3236; --hair: #24282b;
    --good: #58c3a5; --warn: #e0aa4e; --bad: #f2837a; --gone: #858c93; --on: #10201b;
  }
}
* { box-sizing: border-box; }
body {
  margin: 0; background: var(--paper); color: var(--ink);
  font: 15px/1.5 system-ui, -apple-system, "Segoe UI", Roboto, "Helvetica Neue", Arial, sans-serif;
  font-variant-numeric: tabular-nums; -webkit-text-size-adjust: 100%;
}
main { max-width: 1200px; margin: 0 auto; padding: 28px 24px 56px; transition: opacity .3s, filter .3s; }
main.is-stale { opacity: .5; filter: grayscale(1); }
main.is-blank { visibility: hidden; }
#banner {
  position: sticky; top: 0; z-index: 1; margin: 0; padding: 12px 24px; text-align: center; font-weight: 600;
  background: var(--bad); color: var(--paper);
}
h1 { margin: 0; font-size: 30px; line-height: 1.2; font-weight: 650; letter-spacing: -.02em; }
h2 { margin: 0; font-size: 13px; font-weight: 600; color: var(--soft); }
header { display: flex; flex-wrap: wrap; gap: 16px 48px; align-items: flex-end; justify-content: space-between; }
#readiness { margin: 4px 0 0; font-size: 17px; }
#readiness strong { font-weight: 600; color: var(--good); }
#readiness.is-waiting strong { color: var(--warn); }
dl { margin: 0; }
dt { font-size: 13px; color: var(--soft); }
dd { margin: 0; overflow-wrap: anywhere; }
.summary { display: grid; grid-template-columns: repeat(4, auto); gap: 8px 32px; }
.grid { display: grid; gap: 16px; margin-top: 24px; grid-template-columns: minmax(0, 1fr); }
section { background: var(--panel); border: 1px solid var(--line); border-radius: 10px; padding: 16px 18px; min-width: 0; }
.head { display: flex; flex-wrap: wrap; gap: 2px 16px; justify-content: space-between; align-items: baseline; }
.head p { margin: 0; font-size: 13px; color: var(--soft); }
.head b { color: var(--ink); font-size: 15px; font-weight: 600; }
svg { display: block; width: 100%; height: auto; }
svg text { fill: var(--ink); font-size: 13px; }
#cluster { max-width: 460px; margin: 4px auto 8px; }
#legend { display: flex; flex-wrap: wrap; gap: 4px 18px; margin: 4px 0 0; padding: 0; list-style: none; font-size: 13px; color: var(--soft); justify-content: center; }
#legend li { display: flex; align-items: center; gap: 6px; }
#legend svg { width: 18px; height: 18px; }
#legend svg * { stroke-width: 4; }
.link { stroke: var(--soft); stroke-width: 1; opacity: .55; }
.link.is-away { stroke: var(--bad); stroke-dasharray: 5 4; opacity: 1; }
.link.is-apart { stroke-dasharray: 1 4; stroke-linecap: round; opacity: 1; }
text.behind { fill: var(--soft); font-size: 12px; paint-order: stroke; stroke: var(--panel); stroke-width: 6px; }
text.behind.is-late { fill: var(--ink); font-weight: 650; font-size: 14px; }
.node circle { stroke-width: 2; fill: var(--panel); }
.node text { font-size: 15px; font-weight: 600; }
.node text.word { font-size: 12px; font-weight: 500; paint-order: stroke; stroke: var(--panel); stroke-width: 5px; }
.joined circle { fill: var(--good); stroke: var(--good); }
.joined text.number { fill: var(--on); }
.entering circle { stroke: var(--warn); stroke-dasharray: 4 3; }
.entering text { fill: var(--warn); }
.absent circle, .silent circle { stroke: var(--bad); }
.absent text, .silent text { fill: var(--bad); }
.absent path, .silent path { stroke: var(--bad); stroke-width: 2; stroke-linecap: round; }
.left circle { stroke: var(--gone); stroke-width: 1; }
.left text { fill: var(--gone); }
.left text.number { text-decoration: line-through; }
.node circle.ring { fill: none; stroke: var(--ink); stroke-width: 1.5; stroke-dasharray: none; }
.node text.this { fill: var(--ink); font-size: 12px; font-weight: 600; }
.steps { display: inline-flex; gap: 3px; margin-right: 8px; vertical-align: 1px; }
.steps i { width: 9px; height: 9px; border: 1.5px solid var(--good); border-radius: 50%; }
.steps i.is-done { background: var(--good); }
#round { margin: 6px 0 0; font-size: 17px; min-height: 1.5em; }
#round small { font-size: 14px; color: var(--soft); }
.facts { display: grid; grid-template-columns: repeat(auto-fill, minmax(142px, 1fr)); gap: 14px 20px; margin-top: 14px; padding-top: 14px; border-top: 1px solid var(--hair); }
.bar { display: block; height: 3px; margin-top: 4px; max-width: 130px; background: var(--line); border-radius: 2px; overflow: hidden; }
.bar i { display: block; height: 100%; background: var(--good); }
.bar.is-full i { background: var(--warn); }
.charts .head { display: block; }
.chart { margin-top: 8px; }
.chart text { fill: var(--soft); font-size: 11px; }
.chart .axis { stroke: var(--line); stroke-width: 1; }
.chart polyline { fill: none; stroke: var(--good); stroke-width: 1.6; stroke-linejoin: round; stroke-linecap: round; }
.chart polyline.second, .key.second { stroke: var(--warn); stroke-dasharray: 4 3; }
.chart polygon { fill: var(--good); opacity: .12; }
.key { display: inline-block; width: 20px; height: 8px; vertical-align: 1px; margin-right: 5px; stroke: var(--good); stroke-width: 2; }
.table[hidden] { display: none; }
.table { overflow-x: auto; margin: 8px -18px -16px; padding: 0 18px 12px; }
table { width: 100%; border-collapse: collapse; font-size: 14px; }
th { text-align: left; font-weight: 500; font-size: 13px; color: var(--soft); padding: 6px 28px 6px 0; border-bottom: 1px solid var(--line); white-space: nowrap; }
td { padding: 6px 28px 6px 0; border-bottom: 1px solid var(--hair); vertical-align: baseline; }
tbody th { vertical-align: baseline; color: var(--ink); font-weight: 600; font-size: 14px; border-color: var(--hair); }
tr:last-child > * { border-bottom: 0; }
tr > :last-child { padding-right: 0; }
.slim { width: 1%; }
.wide-cell { width: 34%; }
.number { text-align: right; white-space: nowrap; }
.text { overflow-wrap: anywhere; min-width: 6.5em; }
.whole { white-space: nowrap; }
.soft { color: var(--soft); }
td.is-bad { color: var(--bad); font-weight: 600; }
tr.is-new > * { animation: fresh 1.6s ease-out; }
@keyframes fresh { from { background: color-mix(in srgb, var(--good) 20%, transparent); } }
@media (prefers-reduced-motion: reduce) { tr.is-new > * { animation: none; } main { transition: none; } }
@media (min-width: 640px) { .charts { grid-column: 1 / -1; display: grid; gap: 16px; grid-template-columns: 1fr 1fr; } }
@media (max-width: 639px) { .summary { grid-template-columns: auto auto; } main { padding: 20px 14px 40px; } .charts { display: grid; gap: 16px; } .facts { grid-template-columns: 1fr 1fr; } table, tbody th { font-size: 13px; } td, th { padding-right: 10px; } .text { min-width: 7.4em; } }
@media (min-width: 960px) {
  .grid { grid-template-columns: minmax(0, 5fr) minmax(0, 7fr); }
  #cluster-panel { grid-row: span 2; display: flex; flex-direction: column; }
  #cluster { margin: auto; }
  .charts { grid-column: auto; }
  .wide { grid-column: 1 / -1; }
}
</style>
</head>
<body>
<p id="banner" role="alert" hidden></p>
<main id="page" class="is-blank">
<header>
  <div>
    <h1 id="name">Node</h1>
    <p id="readiness" role="status"><strong id="ready"></strong> <span id="reason"></span></p>
  </div>
  <dl class="summary">
    <div><dt>Standing</dt><dd id="standing"></dd></div>
    <div><dt>Quorum</dt><dd id="quorum"></dd></div>
    <div><dt>Running for</dt><dd id="uptime"></dd></div>
    <div><dt>Version</dt><dd id="version"></dd></div>
  </dl>
</header>
<div class="grid">
  <section id="cluster-panel" aria-labelledby="cluster-title">
    <div class="head"><h2 id="cluster-title">Cluster, as this node sees it</h2></div>
    <svg id="cluster" viewBox="0 0 420 372" role="img"></svg>
    <ul id="legend"></ul>
  </section>
  <section aria-labelledby="round-title">
    <div class="head"><h2 id="round-title">Round under way</h2><p id="waiting"></p></div>
    <p id="round"></p>
    <dl class="facts" id="facts"></dl>
  </section>
  <div class="charts">
    <section aria-labelledby="operations-title">
      <div class="head"><h2 id="operations-title">Operations a second</h2><p><b id="operations-now"></b></p></div>
      <svg class="chart" id="operations" viewBox="0 0 340 124" role="img"></svg>
    </section>
    <section aria-labelledby="syncs-title">
      <div class="head">
        <h2 id="syncs-title">Disk sync</h2>
        <p><svg class="key" viewBox="0 0 20 8" aria-hidden="true"><path d="M0 4H20"/></svg>p50 <b id="half-now"></b>
        &ensp;<svg class="key second" viewBox="0 0 20 8" aria-hidden="true"><path d="M0 4H20"/></svg>p99 <b id="most-now"></b></p>
      </div>
      <svg class="chart" id="syncs" viewBox="0 0 340 124" role="img"></svg>
    </section>
  </div>
  <section class="wide" aria-labelledby="view-title">
    <div class="head"><h2 id="view-title">Values</h2><p id="view-count"></p></div>
    <div class="table" tabindex="0" role="region" aria-labelledby="view-title">
      <table>
        <thead><tr><th scope="col" class="slim">Node</th><th scope="col" class="number slim">Number</th><th scope="col">Text</th><th scope="col" class="number slim">Max</th><th scope="col" class="slim">Flag</th><th scope="col" class="wide-cell">Set</th></tr></thead>
        <tbody id="view"></tbody>
      </table>
    </div>
  </section>
  <section class="wide" aria-labelledby="peers-title">
    <div class="head"><h2 id="peers-title">Links</h2><p id="peers-count"></p></div>
    <div class="table" tabindex="0" role="region" aria-labelledby="peers-title">
      <table>
        <thead><tr><th scope="col" class="slim">Node</th><th scope="col">State</th><th scope="col" class="number slim">Behind</th><th scope="col">Last heard</th><th scope="col">Connected</th><th scope="col">Address</th></tr></thead>
        <tbody id="peers"></tbody>
      </table>
    </div>
  </section>
</div>
</main>
<script>
"use strict";
const EACH = 1000, PATIENCE = 3000, SPANS = [1, 2, 5];
const STATES = ["joined", "entering", "silent", "absent", "left"];
const at = id => document.getElementById(id);
const samples = [];
let last = null, heard = 0, misses = 0;

// Text goes in by textContent alone, and only where it changed.
function say(element, text) {
  text = String(text);
  if (element.textContent !== text) element.textContent = text;
}
function make(name, className, text) {
  const element = document.createElement(name);
  if (className) element.className = className;
  if (text !== undefined) element.textContent = text;
  return element;
}
function draw(name, attributes, text) {
  const element = document.createElementNS("http://www.w3.org/2000/svg", name);
  for (const [key, value] of Object.entries(attributes)) element.setAttribute(key, value);
  if (text !== undefined) element.textContent = text;
  return element;
}
const count = (number, word, words = word + "s") => number.toLocaleString("en") + " " + (number == 1 ? word : words);
// A number that comes as a string of digits, since it may exceed 2^53.
const wide = digits => BigInt(digits).toLocaleString("en");
const total = named => Object.values(named).reduce((sum, number) => sum + number, 0);
function lasting(ms) {
  const s = Math.max(0, Math.floor(ms / 1000)), m = Math.floor(s / 60), h = Math.floor(m / 60), d = Math.floor(h / 24);
  if (d) return d + " d " + h % 24 + " h";
  if (h) return h + " h " + m % 60 + " min";
  return m ? m + " min " + s % 60 + " s" : s + " s";
}
const ago = (now, then) => then === null ? "never" : now - then < 1500 ? "now" : lasting(now - then) + " ago";
function bytes(number) {
  if (number < 1000) return count(number, "byte");
  return number < 1e6 ? (number / 1000).toFixed(1) + " kB" : (number / 1e6).toFixed(1) + " MB";
}
const milliseconds = us => (us / 1000).toFixed(us < 10000 ? 2 : us < 100000 ? 1 : 0) + " ms";

// Which nodes there are, and how each one stands, as this node sees it.
function nodesOf(status) {
  const links = new Map(status.peers.map(peer => [peer.id, peer]));
  const ids = new Set([status.id, ...status.members, ...status.present, ...status.left, ...links.keys()]);
  const sorted = [...ids].sort((a, b) => a - b), first = sorted.indexOf(status.id);
  return [...sorted.slice(first), ...sorted.slice(0, first)].map(id => {
    const link = links.get(id);
    return { id, link, isThis: id === status.id, state: stateOf(status, id, link) };
  });
}
function stateOf(status, id, link) {
  if (status.left.includes(id)) return "left";
  if (link && link.absent_since !== null) return "absent";
  if (link && link.is_silent) return "silent";
  return status.members.includes(id) ? "joined" : "entering";
}
function told(node, now) {
  if (node.isThis) return "node " + node.id + ", this one, " + node.state;
  if (!node.link || node.state === "left") return "node " + node.id + " " + node.state;
  const since = node.state === "absent" ? " for " + lasting(now - node.link.absent_since) : "";
  const posts = BigInt(node.link.behind), behind = posts ? count(posts, "post") + " behind" : "in step";
  return "node " + node.id + " " + node.state + since + ", " + behind;
}

// The cluster as a picture: this node on top, and a line to each peer.
function place(index, total) {
  if (total === 1) return [210, 180];
  const angle = -Math.PI / 2 + 2 * Math.PI * index / total;
  return [210 + 138 * Math.cos(angle), 186 + 130 * Math.sin(angle)];
}
// A silent node is marked by a dash, an absent one by a cross.
const isAway = state => state === "silent" || state === "absent";
const dash = (x, y, e) => `M${x - e} ${y}h${2 * e}`;
const cross = (x, y, e) => `M${x - e} ${y - e}l${2 * e} ${2 * e}m0 ${-2 * e}l${-2 * e} ${2 * e}`;
const markOf = state => state === "silent" ? dash : cross;
function shape(state, x, y, r) {
  const group = draw("g", { class: "node " + state });
  group.append(draw("circle", { cx: x, cy: y, r }));
  if (isAway(state)) {
    const d = r * .72, e = Math.max(2.5, r / 5);
    group.append(draw("circle", { cx: x + d, cy: y - d, r: e * 1.9 }));
    group.append(draw("path", { d: markOf(state)(x + d, y - d, e) }));
  }
  return group;
}
function nodeShape(node, x, y, r) {
  const group = shape(node.state, x, y, r);
  if (node.isThis) group.append(draw("circle", { class: "ring", cx: x, cy: y, r: r + 5 }));
  const size = r > 14 ? {} : { style: "font-size:11px" };
  group.append(draw("text", { class: "number", x, y, dy: ".35em", "text-anchor": "middle", ...size }, node.id));
  const words = [node.isThis ? "this node" : "", node.state === "joined" ? "" : node.state].filter(word => word).join(", ");
  const below = node.isThis && y < 180 ? -r - 12 : r + 17;
  group.append(draw("text", { class: node.isThis ? "this" : "word", x, y: y + below, "text-anchor": "middle" }, words));
  return group;
}
function linkShape(node, from, to) {
  const group = draw("g", {}), link = node.link;
  const kind = isAway(node.state) ? " is-away" : link.connected_since === null ? " is-apart" : "";
  group.append(draw("line", { class: "link" + kind, x1: from[0], y1: from[1], x2: to[0], y2: to[1] }));
  const [x, y] = [from[0] + .6 * (to[0] - from[0]), from[1] + .6 * (to[1] - from[1])];
  const late = BigInt(link.behind) ? " is-late" : "";
  group.append(draw("text", { class: "behind" + late, x, y, dy: ".35em", "text-anchor": "middle" }, link.behind));
  return group;
}
function showCluster(status) {
  const nodes = nodesOf(status), svg = at("cluster");
  const places = nodes.map((_, index) => place(index, nodes.length));
  const r = nodes.length <= 9 ? 23 : nodes.length <= 16 ? 17 : nodes.length <= 28 ? 12 : 8;
  svg.setAttribute("aria-label", nodes.map(node => told(node, status.now)).join("; "));
  const [xs, ys] = [0, 1].map(axis => places.map(it => it[axis]));
  const half = Math.max(150, Math.max(...xs) - 210 + r + 36);
  svg.setAttribute("viewBox", `${210 - half} ${Math.min(...ys) - r - 30} ${2 * half} ${Math.max(...ys) - Math.min(...ys) + 2 * r + 58}`);
  svg.replaceChildren(
    ...nodes.flatMap((node, i) => node.link && node.state !== "left" ? [linkShape(node, places[0], places[i])] : []),
    ...nodes.map((node, i) => nodeShape(node, ...places[i], r)),
  );
}
function showLegend() {
  at("legend").replaceChildren(...STATES.map(state => {
    const item = make("li"), svg = draw("svg", { viewBox: "0 0 40 40", "aria-hidden": "true" });
    svg.append(draw("circle", { cx: 20, cy: 20, r: 15 }));
    if (isAway(state)) svg.append(draw("path", { d: markOf(state)(20, 20, 6) }));
    svg.setAttribute("class", "node " + state);
    item.append(svg, state);
    return item;
  }));
}

function showHeader(status) {
  const quorum = status.quorum, most = quorum.may_be_away, away = quorum.away ? `, ${quorum.away} ${quorum.away === 1 ? "is" : "are"}` : "";
  say(at("name"), "Node " + status.id);
  say(at("ready"), status.is_ready ? "✓ Ready" : "▲ Not ready");
  say(at("reason"), status.is_ready ? "" : status.reason);
  at("readiness").classList.toggle("is-waiting", !status.is_ready);
  say(at("standing"), status.standing);
  say(at("quorum"), `${quorum.need} of ${quorum.members} must answer; ${most || "none"} may be away${away}`);
  say(at("uptime"), lasting(status.now - status.started));
  say(at("version"), status.version);
  document.title = `Node ${status.id}: ${status.is_ready ? "ready" : "not ready"}`;
}
function showRound(status) {
  const round = status.round, parts = [];
  say(at("waiting"), status.waiting ? count(status.waiting, "ask") + " waiting" : "");
  if (!round) {
    parts.push(make("span", "soft", "None"));
  } else {
    const steps = make("span", "steps");
    for (let i = 0; i < round.need && round.need <= 12; i++) steps.append(make("i", i < round.answers ? "is-done" : ""));
    const others = round.others ? ", and " + count(round.others, "other") : "";
    const since = ` for ${(Math.max(0, status.now - round.since) / 1000).toFixed(1)} s · session ${round.session}, request ${round.request}${others}`;
    parts.push(steps, `${round.phase}: ${round.answers} of ${round.need} answered`, make("small", "", since));
  }
  at("round").replaceChildren(...parts);
}
function fact(name, value, used, limit) {
  const group = make("div"), cell = make("dd", "", value);
  if (limit) {
    const bar = make("span", "bar" + (used >= .8 * limit ? " is-full" : "")), fill = make("i");
    fill.style.width = 100 * Math.min(1, used / limit) + "%";
    bar.append(fill);
    cell.append(bar);
  }
  group.append(make("dt", "", name), cell);
  return group;
}
// Up to how many events half of the batches have, and nine of ten.
function batches(counts) {
  if (!counts.commits) return "–";
  const [half, most] = [.5, .9].map(part => counts.batches.find(([, seen]) => seen >= part * counts.commits)[0]);
  return `half up to ${half}, 9 of 10 up to ${most}`;
}
function showFacts(status) {
  const { sessions, posts, disk, counts, syncs } = status, limit = status.session_limit;
  const list = named => Object.entries(named).map(([name, number]) => name + " " + number.toLocaleString("en")).join(", ") || "none";
  at("facts").replaceChildren(
    fact("Sessions", `${sessions.length} of ${limit}`, sessions.length, limit),
    fact("Posts kept", `${posts.kept} of ${posts.limit}`, posts.kept, posts.limit),
    fact("Connections", counts.connections),
    fact("Begin together", "up to " + count(status.share, "ask")),
    fact("Operations", list(counts.asks)),
    fact("Events", `${counts.events.toLocaleString("en")} in ${count(counts.commits, "batch", "batches")}`),
    fact("Events of a batch", batches(counts)),
    fact("Slowest sync", milliseconds(syncs.worst_us)),
    fact("Refused", list(counts.refusals)),
    fact("Disk", `${bytes(disk.bytes)} on side ${disk.side}, generation ${wide(disk.generation)}`),
    fact("Records", disk.records.toLocaleString("en")),
    fact("Checkpoints", counts.checkpoints.toLocaleString("en")),
    fact("Nodes that left", status.left.join(", ") || "none"),
  );
}

// Tables keep their rows. Where a row of a node changed, it is written anew, and shown so for a moment if that is news.
function fill(body, rows, cells, isNews) {
  while (body.rows.length > rows.length) body.deleteRow(-1);
  rows.forEach((row, i) => {
    const line = body.rows[i] || body.insertRow(), written = cells(row);
    const [node, mark] = [String(written[0][0]), JSON.stringify(written)];
    if (line.dataset.mark === mark) return;
    line.classList.toggle("is-new", isNews && line.dataset.node === node);
    Object.assign(line.dataset, { node, mark });
    line.replaceChildren(...written.map(([text, className], place) => {
      const cell = make(place ? "td" : "th", className, text);
      if (!place) cell.scope = "row";
      return cell;
    }));
  });
  body.closest(".table").hidden = !rows.length;
}
// A text that isn’t UTF-8 comes as base64, and is shown by its bytes.
function textCell(row) {
  if (row.text !== undefined) return [row.text, "text"];
  const codes = [...atob(row.text_base64)].map(byte => byte.charCodeAt(0).toString(16).padStart(2, "0"));
  return ["not UTF-8: bytes " + codes.join(" "), "text soft"];
}
function showView(status) {
  const rows = status.view;
  say(at("view-count"), rows.length ? count(rows.length, "row") : "none yet");
  fill(at("view"), rows, row => [
    [row.node], [wide(row.number), "number"], textCell(row), [wide(row.max), "number"],
    [row.flag ? "yes" : "no", row.flag ? "" : "soft"], [row.set.join(", ") || "–", row.set.length ? "text" : "soft"],
  ], true);
}
function showPeers(status) {
  const now = status.now, nodes = nodesOf(status).filter(node => node.link).sort((a, b) => a.id - b.id);
  say(at("peers-count"), nodes.length ? "behind: posts that aren’t acknowledged" : "none");
  fill(at("peers"), nodes, ({ id, link, state }) => [
    [id],
    state === "absent" ? ["absent for " + lasting(now - link.absent_since), "is-bad whole"] : [state, isAway(state) ? "is-bad" : ""],
    [wide(link.behind), "number"], [ago(now, link.last_heard), "whole"],
    link.connected_since === null ? ["no", "soft"] : ["for " + lasting(now - link.connected_since), "whole"],
    link.trouble ? [`${link.address}: ${link.trouble}`, "is-bad"]
      : link.address === null ? ["not among the peers", "soft"] : [link.address, "whole"],
  ], false);
}

// Samples of the last five minutes, and charts of them, as wide as there are minutes.
function sample(status) {
  const before = samples[samples.length - 1], seconds = before && (status.now - before.now) / 1000;
  const operations = total(status.counts.asks);
  if (before && before.started === status.started && seconds <= 0) return;
  const isNext = before && before.started === status.started && operations >= before.operations && seconds < 30;
  samples.push({
    now: status.now, started: status.started, operations, rate: isNext ? (operations - before.operations) / seconds : null,
    half: status.syncs.count ? status.syncs.p50_us / 1000 : null, most: status.syncs.count ? status.syncs.p99_us / 1000 : null,
  });
  while (samples[0].now < status.now - 60000 * SPANS[SPANS.length - 1]) samples.shift();
}
function ceiling(value) {
  const power = 10 ** Math.floor(Math.log10(Math.max(value, .1)));
  return [1, 2, 3, 5, 7, 10].map(it => it * power).find(it => it >= value);
}
const CHART_LEFT = 0, CHART_RIGHT = 340, CHART_TOP = 18, CHART_BOTTOM = 104;
function runs(name, top, now, span) {
  const found = [[]];
  for (const it of samples) {
    if (it[name] === null) found.push([]);
    else found[found.length - 1].push([CHART_RIGHT - (now - it.now) / span * (CHART_RIGHT - CHART_LEFT), CHART_BOTTOM - it[name] / top * (CHART_BOTTOM - CHART_TOP)]);
  }
  return found.filter(run => run.length > 1);
}
function showChart(svg, names, unit, label) {
  const now = samples[samples.length - 1].now, age = now - samples[0].now;
  const minutes = SPANS.find(it => 60000 * it >= age) || SPANS[SPANS.length - 1], values = names.flatMap(name => samples.map(it => it[name]));
  const top = ceiling(Math.max(...values.filter(value => value !== null), 0)), parts = [];
  const path = points => points.map(([x, y]) => x.toFixed(1) + "," + y.toFixed(1)).join(" ");
  for (const y of [CHART_TOP, CHART_BOTTOM]) parts.push(draw("line", { class: "axis", x1: CHART_LEFT, x2: CHART_RIGHT, y1: y, y2: y }));
  parts.push(draw("text", { x: CHART_LEFT, y: CHART_TOP - 5 }, top.toLocaleString("en") + unit));
  parts.push(draw("text", { x: CHART_LEFT, y: CHART_BOTTOM + 15 }, minutes + " min ago"), draw("text", { x: CHART_RIGHT, y: CHART_BOTTOM + 15, "text-anchor": "end" }, "now"));
  names.forEach((name, i) => runs(name, top, now, 60000 * minutes).forEach(run => {
    if (!i) parts.push(draw("polygon", { points: path([[run[0][0], CHART_BOTTOM], ...run, [run[run.length - 1][0], CHART_BOTTOM]]) }));
    parts.push(draw("polyline", { class: i ? "second" : "", points: path(run) }));
  }));
  svg.setAttribute("aria-label", label);
  svg.replaceChildren(...parts);
}
function showCharts(status) {
  const newest = samples[samples.length - 1], hasSyncs = status.syncs.count > 0;
  const rate = newest.rate === null ? "–" : newest.rate < 10 ? newest.rate.toFixed(1) : Math.round(newest.rate).toLocaleString("en");
  const [half, most] = [status.syncs.p50_us, status.syncs.p99_us].map(us => hasSyncs ? milliseconds(us) : "–");
  say(at("operations-now"), rate);
  say(at("half-now"), half);
  say(at("most-now"), most);
  showChart(at("operations"), ["rate"], "", `Operations a second over the last minutes, now ${rate}`);
  showChart(at("syncs"), ["half", "most"], " ms", `Disk sync over the last minutes: half take at most ${half}, 99 of 100 at most ${most}`);
}

function show(status) {
  sample(status);
  for (const part of [showHeader, showCluster, showRound, showFacts, showView, showPeers, showCharts]) part(status);
  last = status;
}
function warn(text) {
  at("banner").hidden = !text;
  say(at("banner"), text);
  at("page").classList.toggle("is-stale", !!text);
}
function missed() {
  misses += 1;
  if (misses < 2) return;
  const name = last ? "Node " + last.id : "This node";
  const since = last ? ` since ${new Date(heard).toLocaleTimeString()}. Its last state is shown, ${lasting(Date.now() - heard)} old.` : ".";
  warn(`${name} can’t be reached${since}`);
}
async function ask() {
  const answer = await fetch("/status.json", { cache: "no-store", signal: AbortSignal.timeout(PATIENCE) });
  if (!answer.ok) throw new Error(answer.status);
  return answer.json();
}
async function turn() {
  let status = null;
  try { status = await ask(); } catch (_) { missed(); }
  if (status) {
    misses = 0;
    heard = Date.now();
    try {
      show(status);
      at("page").classList.remove("is-blank");
      warn("");
    } catch (why) {
      warn(`What the node tells can’t be shown: ${why.message}`);
    }
  }
  setTimeout(turn, EACH);
}
showLegend();
turn();
</script>
</body>
</html>
"##;

/// The page, as HTML.
pub fn home() -> &'static str {
    HOME
}
