//! Text of `html/play.html`. Written by `tools/pages`: change the page, and run that.

/// The page of a run, up to its run.
pub(crate) const PLAY_BEFORE: &str = "<!DOCTYPE html>\n\
<html lang=\"en\">\n\
<head>\n\
<meta charset=\"utf-8\">\n\
<meta name=\"viewport\" content=\"width=device-width, initial-scale=1\">\n\
<meta name=\"color-scheme\" content=\"light dark\">\n\
<meta http-equiv=\"Content-Security-Policy\" content=\"default-src 'none'; script-src 'sha256-sj4nblQF3wPgXB831KXTfJ1pxKtDdEeFSgbmGt4C3og='; style-src 'sha256-eFsXTWaYH5DzHB0qRukrzErsNjzIgyQnw+bWq8X1dQM='; base-uri 'none'; form-action 'none'; require-trusted-types-for 'script'; trusted-types 'none'\">\n\
<title>A simulated run</title>\n\
<style>\n\
:root {\n\
\x20\x20--bg: #f4f6f8; --card: #ffffff; --ink: #1a1f26; --soft: #55606c; --line: #cfd6de; --hair: #e6eaef;\n\
\x20\x20--zero: #0067a8; --zero-ink: #ffffff; --one: #f0a81c; --one-ink: #1a1f26; --unsure: #6b7280; --unsure-ink: #ffffff;\n\
\x20\x20--lie: #c4122f; --good: #1a7a3c; --said: #3a48c4; --focus: #3a48c4; --pick: #e9ecff;\n\
}\n\
@media (prefers-color-scheme: dark) {\n\
\x20\x20:root {\n\
\x20\x20\x20\x20--bg: #101418; --card: #191f26; --ink: #e8ecf1; --soft: #a2adb9; --line: #3a444f; --hair: #28303a;\n\
\x20\x20\x20\x20--zero: #5db6f0; --zero-ink: #0b1116; --one: #f2b63c; --one-ink: #0b1116; --unsure: #9aa4b0; --unsure-ink: #0b1116;\n\
\x20\x20\x20\x20--lie: #ff7186; --good: #56c97c; --said: #a4b0ff; --focus: #a4b0ff; --pick: #262e4d;\n\
\x20\x20}\n\
}\n\
* { box-sizing: border-box; }\n\
html { -webkit-text-size-adjust: 100%; }\n\
body { margin: 0; background: var(--bg); color: var(--ink); font: 15px/1.45 system-ui, -apple-system, \"Segoe UI\", \"DejaVu Sans\", sans-serif; }\n\
h1 { font-size: 1.2rem; margin: 0; overflow-wrap: anywhere; }\n\
h2 { font-size: 1rem; margin: 0 0 .4rem; }\n\
h3 { font-size: .9rem; margin: .9rem 0 .3rem; }\n\
p { margin: .3rem 0; }\n\
button, select, input { font: inherit; color: inherit; }\n\
button, select, input[type=number] { min-height: 34px; border: 1px solid var(--line); border-radius: 6px; background: var(--card); padding: .15rem .6rem; }\n\
button { cursor: pointer; }\n\
button:hover { border-color: var(--soft); }\n\
button:disabled { opacity: .45; cursor: default; }\n\
button[aria-pressed=true] { background: var(--pick); border-color: var(--focus); }\n\
button.main { background: var(--focus); border-color: var(--focus); color: var(--card); font-weight: 600; min-width: 6.2em; }\n\
:focus-visible { outline: 3px solid var(--focus); outline-offset: 2px; }\n\
header, main, footer { max-width: 1880px; margin: 0 auto; padding: .7rem .9rem; }\n\
header { padding-bottom: 0; }\n\
.soft { color: var(--soft); }\n\
.card { background: var(--card); border: 1px solid var(--line); border-radius: 10px; padding: .75rem .85rem; min-width: 0; }\n\
.note { border-left: 4px solid var(--one); padding: .3rem .7rem; margin: .5rem 0 0; background: var(--card); }\n\
main { display: grid; gap: .75rem; grid-template-columns: minmax(0, 1fr); }\n\
@media (min-height: 820px) { .bar { position: sticky; top: 0; z-index: 5; } }\n\
.row { display: flex; flex-wrap: wrap; gap: .4rem; align-items: center; }\n\
div.row + div.row { margin-top: .5rem; }\n\
.row label { display: inline-flex; gap: .35rem; align-items: center; color: var(--soft); }\n\
.row label select, .row label input { color: var(--ink); }\n\
.ribbon { position: relative; margin-top: .5rem; }\n\
.ribbon canvas { display: block; width: 100%; height: 16px; }\n\
.ribbon input { display: block; width: 100%; margin: 0; height: 26px; accent-color: var(--focus); }\n\
#jumprow { flex-wrap: nowrap; min-width: 0; max-width: 100%; } #jumprow label { min-width: 0; flex: 1 1 auto; } #kind { max-width: 11.5rem; min-width: 0; width: 100%; flex: 1 1 auto; }\n\
#now { min-height: 1.5em; margin-top: .4rem; overflow-wrap: anywhere; }\n\
#now b { font-variant-numeric: tabular-nums; }\n\
.lie { color: var(--lie); font-weight: 600; }\n\
.said { color: var(--said); font-weight: 600; }\n\
#stage { overflow-x: auto; }\n\
#stage svg { display: block; margin: 0 auto; }\n\
svg text { font-family: inherit; fill: var(--ink); }\n\
.glyph, .meter i { forced-color-adjust: none; }\n\
.glyph { display: inline-flex; align-items: center; justify-content: center; min-width: 1.9em; padding: 0 .28em; height: 1.45em; border-radius: 3px; font-size: .82rem; font-weight: 700; font-variant-numeric: tabular-nums; border: 2px solid transparent; vertical-align: baseline; line-height: 1; }\n\
.v0, .v2 { background: var(--zero); color: var(--zero-ink); }\n\
.v1, .v3 { background: var(--one); color: var(--one-ink); }\n\
.v4 { background: var(--unsure); color: var(--unsure-ink); }\n\
.glyph.v2, .glyph.v3 { border-color: var(--ink); }\n\
.k0 { border-radius: 1em; } .k2 { border-radius: 0; padding: 0 .5em; clip-path: polygon(.4em 0, calc(100% - .4em) 0, 100% 50%, calc(100% - .4em) 100%, .4em 100%, 0 50%); }\n\
.word.gap::before { content: \" \"; white-space: pre; }\n\
.scroll { position: relative; overflow: auto; max-height: 26rem; }\n\
table { border-collapse: collapse; width: 100%; font-size: .86rem; font-variant-numeric: tabular-nums; }\n\
th, td { text-align: left; padding: .22rem .5rem .22rem 0; border-bottom: 1px solid var(--hair); vertical-align: top; white-space: nowrap; }\n\
th { color: var(--soft); font-weight: 600; }\n\
td button { min-height: 26px; padding: 0 .5rem; }\n\
thead th { position: sticky; top: 0; background: var(--card); z-index: 1; }\n\
.count { display: grid; grid-template-columns: max-content max-content; justify-content: start; gap: 1px .4em; align-items: center; margin-bottom: 3px; }\n\
.count .glyph { grid-row: 1 / 3; justify-self: start; }\n\
.count .said { grid-column: 2; font-weight: 400; color: var(--ink); line-height: 1.15; }\n\
.meter { position: relative; height: 7px; background: var(--line); border-radius: 2px; overflow: hidden; min-width: 3.4em; }\n\
.meter i { position: absolute; left: 0; top: 0; bottom: 0; }\n\
.meter i.tick { width: 2px; background: var(--ink); }\n\
.facts { display: grid; grid-template-columns: repeat(auto-fill, minmax(7.4rem, 1fr)); gap: .3rem .6rem; margin: .4rem 0; }\n\
.facts div { border-bottom: 1px solid var(--hair); }\n\
.facts dt { color: var(--soft); font-size: .78rem; } .facts dd { margin: 0; font-weight: 600; font-variant-numeric: tabular-nums; }\n\
dl { margin: 0; }\n\
td.its { white-space: normal; min-width: 4.6em; }\n\
td.its .glyph { margin-bottom: 2px; }\n\
.steps { display: grid; grid-template-columns: repeat(3, minmax(0, 1fr)); gap: .4rem; }\n\
.steps button { text-align: left; padding: .3rem .45rem; line-height: 1.3; font-size: .82rem; height: auto; }\n\
ol.events { list-style: none; margin: 0; padding: 0; font-size: .86rem; }\n\
ol.events li { padding: .12rem .35rem; border-bottom: 1px solid var(--hair); overflow-wrap: anywhere; }\n\
ol.events li[aria-current] { background: var(--pick); }\n\
ol.events .no { display: inline-block; min-width: 4.2em; color: var(--soft); font-variant-numeric: tabular-nums; }\n\
ol.events .later { opacity: .7; }\n\
details summary { cursor: pointer; }\n\
kbd { border: 1px solid var(--line); border-radius: 4px; padding: 0 .3em; font-size: .85em; }\n\
.vh { position: absolute; width: 1px; height: 1px; overflow: hidden; clip-path: inset(50%); white-space: nowrap; }\n\
@media (min-width: 1080px) {\n\
\x20\x20main { grid-template-columns: minmax(0, 1fr) minmax(24rem, 36rem); }\n\
\x20\x20.bar { grid-column: 1 / -1; }\n\
}\n\
@media (min-width: 1560px) {\n\
\x20\x20main { grid-template-columns: minmax(0, 1fr) minmax(30rem, 38rem) minmax(20rem, 25rem); }\n\
\x20\x20#side { grid-column: 3; grid-row: 2; }\n\
}\n\
@media (max-width: 640px) {\n\
\x20\x20.bar { position: static; }\n\
\x20\x20.word { position: absolute; width: 1px; height: 1px; overflow: hidden; clip-path: inset(50%); }\n\
\x20\x20.meter { min-width: 2.2em; }\n\
\x20\x20.count { grid-template-columns: max-content; }\n\
\x20\x20.count .glyph { grid-row: auto; }\n\
\x20\x20.count .said { grid-column: 1; }\n\
\x20\x20table { font-size: .8rem; }\n\
\x20\x20td, th { padding-right: .35rem; }\n\
\x20\x20tbody th { white-space: normal; }\n\
\x20\x20.more { display: none; }\n\
\x20\x20header, main, footer { padding-left: .55rem; padding-right: .55rem; }\n\
}\n\
</style>\n\
</head>\n\
<body>\n\
<header>\n\
\x20\x20<h1 id=\"title\">A simulated run</h1>\n\
\x20\x20<p id=\"what\" class=\"soft\"></p>\n\
\x20\x20<p id=\"out\" class=\"note\" hidden></p>\n\
</header>\n\
<main>\n\
\x20\x20<section class=\"card bar\" aria-label=\"Playing\">\n\
\x20\x20\x20\x20<div class=\"row\">\n\
\x20\x20\x20\x20\x20\x20<button id=\"first\" aria-label=\"To the start\">|&lt;</button>\n\
\x20\x20\x20\x20\x20\x20<button id=\"back\" aria-label=\"One event back\">&lt;</button>\n\
\x20\x20\x20\x20\x20\x20<button id=\"play\" class=\"main\">Play</button>\n\
\x20\x20\x20\x20\x20\x20<button id=\"next\" aria-label=\"One event on\">&gt;</button>\n\
\x20\x20\x20\x20\x20\x20<button id=\"last\" aria-label=\"To the end\">&gt;|</button>\n\
\x20\x20\x20\x20\x20\x20<label>Speed <select id=\"speed\"></select></label>\n\
\x20\x20\x20\x20\x20\x20<label>Event <input id=\"number\" type=\"number\" min=\"0\" step=\"1\"></label>\n\
\x20\x20\x20\x20\x20\x20<label>Question <select id=\"only\"></select></label>\n\
\x20\x20\x20\x20\x20\x20<span class=\"row\" id=\"jumprow\"><label>Jump <select id=\"kind\" aria-label=\"Jump to\">\n\
\x20\x20\x20\x20\x20\x20\x20\x20<option value=\"decision\">decision</option><option value=\"lie\">lie</option>\n\
\x20\x20\x20\x20\x20\x20\x20\x20<option value=\"trouble\">crash or failure</option><option value=\"accept\">accepted value</option>\n\
\x20\x20\x20\x20\x20\x20\x20\x20<option value=\"said\">Initial said</option><option value=\"me\">event of the chosen member</option>\n\
\x20\x20\x20\x20\x20\x20</select></label>\n\
\x20\x20\x20\x20\x20\x20<button id=\"jumpback\" aria-label=\"The one before\">Earlier</button>\n\
\x20\x20\x20\x20\x20\x20<button id=\"jump\" aria-label=\"The next one\">Later</button></span>\n\
\x20\x20\x20\x20</div>\n\
\x20\x20\x20\x20<div class=\"ribbon\">\n\
\x20\x20\x20\x20\x20\x20<canvas id=\"ribbon\" aria-hidden=\"true\"></canvas>\n\
\x20\x20\x20\x20\x20\x20<input id=\"slide\" type=\"range\" min=\"0\" value=\"0\" step=\"1\" aria-label=\"Place in the run\">\n\
\x20\x20\x20\x20</div>\n\
\x20\x20\x20\x20<p id=\"now\" aria-live=\"polite\"></p>\n\
\x20\x20</section>\n\
\x20\x20<section class=\"card\" aria-label=\"Members\">\n\
\x20\x20\x20\x20<div class=\"row\">\n\
\x20\x20\x20\x20\x20\x20<h2>Members</h2>\n\
\x20\x20\x20\x20\x20\x20<button id=\"circle\" aria-pressed=\"true\">Circle</button>\n\
\x20\x20\x20\x20\x20\x20<button id=\"chart\" aria-pressed=\"false\">Columns</button>\n\
\x20\x20\x20\x20</div>\n\
\x20\x20\x20\x20<div id=\"stage\" tabindex=\"0\" role=\"group\" aria-label=\"Picture of the run\"></div>\n\
\x20\x20\x20\x20<details>\n\
\x20\x20\x20\x20\x20\x20<summary>What the signs mean</summary>\n\
\x20\x20\x20\x20\x20\x20<p><span class=\"glyph k0 v0\">I<b>0</b></span> Initial, <span class=\"glyph k1 v1\">E<b>1</b></span> Echo, <span class=\"glyph k2 v1\">R<b>1</b></span> Ready:\n\
\x20\x20\x20\x20\x20\x20\x20\x20the letter and the shape are the kind, the digit and the colour the value.\n\
\x20\x20\x20\x20\x20\x20\x20\x20<span class=\"glyph k1 v2\">E!0</span> <span class=\"glyph k1 v3\">E!1</span> are sure of 0 or 1, <span class=\"glyph k1 v4\">E?</span> is unsure.</p>\n\
\x20\x20\x20\x20\x20\x20<p>A solid arrow is a statement that comes to a member; a <span class=\"lie\">red dashed one with a cross is a lie</span>.\n\
\x20\x20\x20\x20\x20\x20\x20\x20The thick arc around a member is its journal: full is the longest one in the events shown. A dashed ring and\n\
\x20\x20\x20\x20\x20\x20\x20\x20<b>down</b> is a member that crashed, <b>stopped</b> one whose disk failed, a six-sided one with <b>L</b> a liar.\n\
\x20\x20\x20\x20\x20\x20\x20\x20<b>=0</b> or <b>=1</b> is decided.</p>\n\
\x20\x20\x20\x20</details>\n\
\x20\x20</section>\n\
\x20\x20<section class=\"card\" aria-label=\"The chosen member\">\n\
\x20\x20\x20\x20<div class=\"row\"><h2>Member</h2> <label><span class=\"vh\">Member</span><select id=\"me\"></select></label> <span id=\"mestate\"></span></div>\n\
\x20\x20\x20\x20<dl class=\"facts\" id=\"facts\"></dl>\n\
\x20\x20\x20\x20<div class=\"row\">\n\
\x20\x20\x20\x20\x20\x20<label>Question <select id=\"askq\"></select></label>\n\
\x20\x20\x20\x20\x20\x20<label>Round <select id=\"askr\"></select></label>\n\
\x20\x20\x20\x20</div>\n\
\x20\x20\x20\x20<h3>The steps of the round</h3>\n\
\x20\x20\x20\x20<div class=\"steps\" id=\"steps\"></div>\n\
\x20\x20\x20\x20<h3 id=\"placesname\">Broadcasts</h3>\n\
\x20\x20\x20\x20<p class=\"soft\" id=\"limits\"></p>\n\
\x20\x20\x20\x20<div class=\"scroll\" tabindex=\"0\" role=\"region\" aria-labelledby=\"placesname\"><table aria-labelledby=\"placesname\"><thead><tr><th scope=\"col\">Origin</th><th scope=\"col\">Initial</th><th scope=\"col\">Echo<span class=\"word gap\">heard</span></th><th scope=\"col\">Ready<span class=\"word gap\">heard</span></th><th scope=\"col\">Acc<span class=\"more\">epted</span></th><th scope=\"col\">It said</th></tr></thead><tbody id=\"places\"></tbody></table></div>\n\
\x20\x20</section>\n\
\x20\x20<section id=\"side\" aria-label=\"Events and decisions\" class=\"card\">\n\
\x20\x20\x20\x20<h2>Events around</h2>\n\
\x20\x20\x20\x20<ol class=\"events\" id=\"around\"></ol>\n\
\x20\x20\x20\x20<h3>Heard last by the chosen member</h3>\n\
\x20\x20\x20\x20<ol class=\"events\" id=\"heardlast\"></ol>\n\
\x20\x20\x20\x20<h3 id=\"decname\">Decisions</h3>\n\
\x20\x20\x20\x20<div class=\"scroll\" tabindex=\"0\" role=\"region\" aria-labelledby=\"decname\"><table aria-labelledby=\"decname\"><thead><tr><th scope=\"col\">Question</th><th scope=\"col\">Bit</th><th scope=\"col\">Member</th><th scope=\"col\">Round</th><th scope=\"col\">Event</th></tr></thead><tbody id=\"decisions\"></tbody></table></div>\n\
\x20\x20\x20\x20<p class=\"soft\" id=\"decmore\"></p>\n\
\x20\x20\x20\x20<details><summary>Keys</summary>\n\
\x20\x20\x20\x20\x20\x20<p><kbd>Space</kbd> play or pause, <kbd>Left</kbd> <kbd>Right</kbd> one event, <kbd>Page up</kbd> <kbd>Page down</kbd> a hundred,\n\
\x20\x20\x20\x20\x20\x20<kbd>Home</kbd> <kbd>End</kbd> start and end, <kbd>d</kbd> next decision, <kbd>l</kbd> next lie, <kbd>c</kbd> next crash or failure,\n\
\x20\x20\x20\x20\x20\x20<kbd>0</kbd> to <kbd>9</kbd> choose a member (when no field has the focus).</p></details>\n\
\x20\x20</section>\n\
</main>\n\
<script type=\"application/json\" id=\"run\">\n\
";

/// The page of a run, from the end of its run on.
pub(crate) const PLAY_AFTER: &str = "</script>\n\
<script>\n\
\"use strict\";\n\
(() => {\n\
const $ = (id) => document.getElementById(id);\n\
const SVG = \"http://www.w3.org/2000/svg\";\n\
// Text of a run is only ever put in as text; nothing is read as HTML.\n\
function el(name, props, ...children) {\n\
\x20\x20const e = document.createElement(name);\n\
\x20\x20for (const key in props || {}) {\n\
\x20\x20\x20\x20if (key === \"class\") e.className = props[key];\n\
\x20\x20\x20\x20else if (key.startsWith(\"on\")) e.addEventListener(key.slice(2), props[key]);\n\
\x20\x20\x20\x20else e.setAttribute(key, props[key]);\n\
\x20\x20}\n\
\x20\x20e.append(...children);\n\
\x20\x20return e;\n\
}\n\
function sv(name, props, ...children) {\n\
\x20\x20const e = document.createElementNS(SVG, name);\n\
\x20\x20for (const key in props || {}) e.setAttribute(key, props[key]);\n\
\x20\x20e.append(...children);\n\
\x20\x20return e;\n\
}\n\
\n\
// ---- the run -------------------------------------------------------------------------------------------------\n\
let R = null;\n\
try { R = JSON.parse($(\"run\").textContent); } catch (fault) { R = null; }\n\
if (!R || R.format !== \"bracha-run-1\") {\n\
\x20\x20$(\"what\").textContent = \"There is no run in this file. It is made by: bracha simulate --page FILE SCRIPT\";\n\
\x20\x20document.querySelector(\"main\").hidden = true;\n\
\x20\x20document.documentElement.dataset.ready = \"none\";\n\
\x20\x20return;\n\
}\n\
const n = R.n, t = R.t;\n\
const ECHO = Math.floor((n + t) / 2) + 1, HELP = t + 1, ACCEPT = 2 * t + 1, WAIT = n - t;\n\
const isLiar = new Uint8Array(n); R.liars.forEach((m) => { isLiar[m] = 1; });\n\
const KIND = [\"Initial\", \"Echo\", \"Ready\"], LETTER = [\"I\", \"E\", \"R\"];\n\
const VALUE = [\"Zero\", \"One\", \"SureZero\", \"SureOne\", \"Unsure\"], SHORT = [\"0\", \"1\", \"!0\", \"!1\", \"?\"];\n\
// A statement is a number, as the file has it: its place, its kind (of 3) and its value (of 5). A place is a number too.\n\
const valueOf = (c) => c % 5, kindOf = (c) => Math.floor(c / 5) % 3, placeOf = (c) => Math.floor(c / 15);\n\
const stepOf = (p) => p % 4, roundOf = (p) => Math.floor(p / 4) % 64, originOf = (p) => Math.floor(p / 256) % 64, questionOf = (p) => Math.floor(p / 16384);\n\
const placeAt = (q, o, r, s) => ((q * 64 + o) * 64 + r) * 4 + s;\n\
const short = (c) => LETTER[kindOf(c)] + SHORT[valueOf(c)];\n\
// A decision is a number below zero.\n\
const decisionOf = (c) => ({ q: Math.floor(-c / 128), r: Math.floor(-c / 2) % 64, bit: -c % 2 });\n\
const num = (x) => String(x).replace(/\\B(?=(\\d{3})+(?!\\d))/g, \"\\u202f\");\n\
const many = (x, one, more) => num(x) + \" \" + (x === 1 ? one : more || one + \"s\");\n\
\n\
// ---- the events ----------------------------------------------------------------------------------------------\n\
// A row of the file is [event, line of the script, records] and \"failed\" if a disk failed. Here it becomes [event, letter, .., records]:\n\
// p propose, d deliver next, i deliver by number, g group, l lie, f fuse, c crash, r restart, s reset. Of d, g and l the part that\n\
// depends on what came before is filled in as the run is read: the number of the first statement, how many come, what the bytes complete.\n\
function eventOf([number, line, saved]) {\n\
\x20\x20const w = line.split(\" \"), m = Number(w[1]), b = Number(w[2]);\n\
\x20\x20if (w[0] === \"propose\") return [number, \"p\", m, b, Number(w[3]), saved];\n\
\x20\x20if (w[0] === \"deliver\") return w[3] === \"next\" ? [number, \"d\", m, b, 0, saved] : [number, \"i\", m, b, Number(w[3]), saved];\n\
\x20\x20if (w[0] === \"group\") return [number, \"g\", m, b, 0, Number(w[3]), saved];\n\
\x20\x20if (w[0] === \"lie\") return [number, \"l\", m, b, [], w[3] || \"\", saved];\n\
\x20\x20if (w[0] === \"fuse\") return [number, \"f\", m, w[2], saved];\n\
\x20\x20if (w[0] === \"crash\") return [number, \"c\", m, w.slice(2).join(\" \"), saved];\n\
\x20\x20return w[0] === \"restart\" ? [number, \"r\", m, saved] : [number, \"s\", m, b, saved];\n\
}\n\
const rows = R.rows.slice(1);                   // the first row has the names of the columns\n\
const failed = new Set(rows.filter((row) => row[3] === \"failed\").map((row) => row[0]));\n\
R.events = rows.map(eventOf);\n\
const MOST_IN_GROUP = 256, MOST_HEARD = 2000000;\n\
\n\
// A liar's bytes on a link: frames, of which only statements matter here. After a byte that no frame has there nothing more comes.\n\
const streams = new Map();                      // link -> { bytes, broken }\n\
function statementIn(b, i) {\n\
\x20\x20const kind = b[i] - 1, q = b[i + 1] * 256 + b[i + 2], o = b[i + 3], r = b[i + 4], s = b[i + 5], v = b[i + 6];\n\
\x20\x20const lawful = kind >= 0 && kind < 3 && q < R.questions && o < n && r >= 1 && r <= 32 && s >= 1 && s <= 3 && (s < 3 ? v < 2 : v > 1 && v < 5);\n\
\x20\x20return lawful ? (placeAt(q, o, r, s) * 3 + kind) * 5 + v : -1;\n\
}\n\
function bodyIn(b) {                            // the statements of a body, or null if it is none\n\
\x20\x20if (b[0] === 0) return b.length === 1 ? [] : null;\n\
\x20\x20if (b[0] === 1) return b.length === 16 && (b[1] === 1 || b[1] === 2) && b[10] === n && b[11] === t && b[12] * 256 + b[13] === R.questions && b[14] < n && b[15] < n ? [] : null;\n\
\x20\x20if (b[0] === 2) return b.length === 9 ? [] : null;\n\
\x20\x20const many = b[0] === 3 ? 1 : b[0] === 4 && b[1] > 1 && b[1] < 100 ? b[1] : 0, from = b[0] === 3 ? 1 : 2, found = [];\n\
\x20\x20if (!many || b.length !== from + 7 * many) return null;\n\
\x20\x20for (let i = from; i < b.length; i += 7) found.push(statementIn(b, i));\n\
\x20\x20return found.includes(-1) ? null : found;\n\
}\n\
function completed(key, digits) {\n\
\x20\x20let stream = streams.get(key);\n\
\x20\x20if (!stream) streams.set(key, stream = { bytes: [], broken: false });\n\
\x20\x20for (let i = 0; i + 1 < digits.length; i += 2) stream.bytes.push(parseInt(digits.slice(i, i + 2), 16));\n\
\x20\x20const found = [];\n\
\x20\x20let at = 0;\n\
\x20\x20while (!stream.broken && stream.bytes.length - at >= 2) {\n\
\x20\x20\x20\x20const length = stream.bytes[at] * 256 + stream.bytes[at + 1];\n\
\x20\x20\x20\x20if (length !== 1 && length !== 8 && length !== 9 && !(length >= 16 && length <= 695 && length % 7 === 2)) { stream.broken = true; break; }\n\
\x20\x20\x20\x20if (stream.bytes.length - at < 2 + length) break;\n\
\x20\x20\x20\x20const body = bodyIn(stream.bytes.slice(at + 2, at + 2 + length));\n\
\x20\x20\x20\x20if (body === null) stream.broken = true; else found.push(...body);\n\
\x20\x20\x20\x20at += 2 + length;\n\
\x20\x20}\n\
\x20\x20stream.bytes = stream.broken ? [] : stream.bytes.slice(at);\n\
\x20\x20return found;\n\
}\n\
\n\
// Timelines: each is a list that only grows, with the index of the event (from 1) at which each entry came, so that\n\
// the state after event e is the front of each list. Nothing else is kept of earlier moments.\n\
const M = Array.from({ length: n }, () => ({\n\
\x20\x20out: [], outAt: [], heard: [], from: [], heardAt: [], how: [], recAt: [], dec: [], decAt: [],\n\
\x20\x20stateAt: [0], state: [\"up\"], lifeAt: [0], lifeHeard: [0], acc: [], accAt: [], wait: null,\n\
}));\n\
const linkAt = new Map();                       // link -> [events], [places]\n\
const kinds = { decision: [], lie: [], trouble: [], accept: [], said: [] };\n\
const memberEvents = Array.from({ length: n }, () => []);\n\
const heardBy = (ev) => {\n\
\x20\x20if (ev[1] === \"d\" || ev[1] === \"i\") return M[ev[2]].out.slice(ev[4], ev[4] + 1);\n\
\x20\x20if (ev[1] === \"g\") return M[ev[2]].out.slice(ev[4], ev[4] + ev[5]);\n\
\x20\x20return ev[1] === \"l\" ? ev[4] : [];\n\
};\n\
const actorOf = (ev) => \"digl\".includes(ev[1]) ? ev[3] : ev[1] === \"s\" ? ev[3] : ev[2];\n\
const savedBy = (ev) => ev[ev.length - 1];\n\
const fuse = (ev) => ev[3] === \"off\" ? \"fuse off\" : \"fuse\";\n\
function link(a, b, e, place) {\n\
\x20\x20const key = a * 64 + b;\n\
\x20\x20let at = linkAt.get(key);\n\
\x20\x20if (!at) linkAt.set(key, at = [[], []]);\n\
\x20\x20at[0].push(e); at[1].push(place);\n\
}\n\
let E = R.events.length;                        // how many events are shown\n\
(function read() {\n\
\x20\x20let told = 0;\n\
\x20\x20const got = Array.from({ length: n }, () => new Map()), count = Array.from({ length: n }, () => new Map());\n\
\x20\x20for (let e = 1; e <= E; e++) {\n\
\x20\x20\x20\x20const ev = R.events[e - 1], k = ev[1], b = actorOf(ev), me = M[b], bad = failed.has(ev[0]);\n\
\x20\x20\x20\x20if (k === \"d\" || k === \"g\") ev[4] = linkPlace(ev[2], b, e);\n\
\x20\x20\x20\x20if (k === \"g\") ev[5] = Math.min(ev[5], MOST_IN_GROUP, M[ev[2]].out.length - ev[4]);\n\
\x20\x20\x20\x20if (k === \"l\") ev[4] = completed(ev[2] * 64 + b, ev[5]);\n\
\x20\x20\x20\x20if (k === \"s\") streams.delete(ev[2] * 64 + b);\n\
\x20\x20\x20\x20if (k === \"r\") for (let a = 0; a < n; a++) streams.delete(a * 64 + b);\n\
\x20\x20\x20\x20told += k === \"g\" ? ev[5] : k === \"l\" ? ev[4].length : 1;\n\
\x20\x20\x20\x20if (told > MOST_HEARD) { R.left_out += E - e + 1; E = e - 1; R.events.length = E; break; }\n\
\x20\x20\x20\x20memberEvents[b].push(e);\n\
\x20\x20\x20\x20if (k === \"d\") link(ev[2], b, e, ev[4] + 1);\n\
\x20\x20\x20\x20if (k === \"g\") link(ev[2], b, e, ev[4] + ev[5]);\n\
\x20\x20\x20\x20if (k === \"s\") link(ev[2], b, e, 0);\n\
\x20\x20\x20\x20if (k === \"l\") kinds.lie.push(e);\n\
\x20\x20\x20\x20if (k === \"c\" || bad) kinds.trouble.push(e);\n\
\x20\x20\x20\x20if (k === \"c\") { me.stateAt.push(e); me.state.push(\"down\"); }\n\
\x20\x20\x20\x20if (k === \"r\" && !bad) {\n\
\x20\x20\x20\x20\x20\x20me.stateAt.push(e); me.state.push(\"up\"); me.lifeAt.push(e); me.lifeHeard.push(me.heard.length);\n\
\x20\x20\x20\x20\x20\x20got[b].clear(); count[b].clear();\n\
\x20\x20\x20\x20\x20\x20for (let a = 0; a < n; a++) if (linkAt.has(a * 64 + b)) link(a, b, e, 0);\n\
\x20\x20\x20\x20}\n\
\x20\x20\x20\x20if (bad && k !== \"r\") { me.stateAt.push(e); me.state.push(\"stopped\"); }\n\
\x20\x20\x20\x20let accepted = false;\n\
\x20\x20\x20\x20for (const c of heardBy(ev)) {\n\
\x20\x20\x20\x20\x20\x20const from = ev[2], key = Math.floor(c / 5) * 64 + from, place = placeOf(c);\n\
\x20\x20\x20\x20\x20\x20let how = \"news\";\n\
\x20\x20\x20\x20\x20\x20if (kindOf(c) === 0 && originOf(place) !== from) how = \"foreign\";\n\
\x20\x20\x20\x20\x20\x20else if (got[b].has(key)) how = \"repeat\";\n\
\x20\x20\x20\x20\x20\x20else {\n\
\x20\x20\x20\x20\x20\x20\x20\x20got[b].set(key, valueOf(c));\n\
\x20\x20\x20\x20\x20\x20\x20\x20if (kindOf(c) === 2) {\n\
\x20\x20\x20\x20\x20\x20\x20\x20\x20\x20const had = (count[b].get(c) || 0) + 1;\n\
\x20\x20\x20\x20\x20\x20\x20\x20\x20\x20count[b].set(c, had);\n\
\x20\x20\x20\x20\x20\x20\x20\x20\x20\x20if (had === ACCEPT && !count[b].has(-place - 1)) {\n\
\x20\x20\x20\x20\x20\x20\x20\x20\x20\x20\x20\x20count[b].set(-place - 1, 1);\n\
\x20\x20\x20\x20\x20\x20\x20\x20\x20\x20\x20\x20me.acc.push(c); me.accAt.push(e); accepted = true;\n\
\x20\x20\x20\x20\x20\x20\x20\x20\x20\x20}\n\
\x20\x20\x20\x20\x20\x20\x20\x20}\n\
\x20\x20\x20\x20\x20\x20}\n\
\x20\x20\x20\x20\x20\x20me.heard.push(c); me.from.push(from); me.heardAt.push(e); me.how.push(how);\n\
\x20\x20\x20\x20}\n\
\x20\x20\x20\x20if (accepted) kinds.accept.push(e);\n\
\x20\x20\x20\x20let initial = false, decided = false;\n\
\x20\x20\x20\x20for (const c of savedBy(ev)) {\n\
\x20\x20\x20\x20\x20\x20me.recAt.push(e);\n\
\x20\x20\x20\x20\x20\x20if (c >= 0) { me.out.push(c); me.outAt.push(e); if (kindOf(c) === 0) initial = true; }\n\
\x20\x20\x20\x20\x20\x20else { me.dec.push(decisionOf(c)); me.decAt.push(e); decided = true; }\n\
\x20\x20\x20\x20}\n\
\x20\x20\x20\x20if (initial) kinds.said.push(e);\n\
\x20\x20\x20\x20if (decided) kinds.decision.push(e);\n\
\x20\x20}\n\
})();\n\
// The decisions of the whole run, [member, question, round, bit] in the file: each with its event, -1 if that is left out.\n\
R.decided = (() => {\n\
\x20\x20const at = M.map((m) => new Map(m.dec.map((d, i) => [d.q, m.decAt[i]])));\n\
\x20\x20const all = R.decided.slice(1).map(([m, q, r, b]) => [m, q, r, b, at[m].has(q) ? R.events[at[m].get(q) - 1][0] : -1]);\n\
\x20\x20return all.sort((x, y) => (x[4] < 0) - (y[4] < 0) || x[4] - y[4]);\n\
})();\n\
const longest = Math.max(1, ...M.map((m) => m.recAt.length));\n\
// how many entries of an ascending list are at most e\n\
function upTo(list, e) {\n\
\x20\x20let low = 0, high = list.length;\n\
\x20\x20while (low < high) { const mid = (low + high) >> 1; if (list[mid] <= e) low = mid + 1; else high = mid; }\n\
\x20\x20return low;\n\
}\n\
const stateAt = (m, e) => isLiar[m] ? \"liar\" : M[m].state[upTo(M[m].stateAt, e) - 1];\n\
function linkPlace(a, b, e) { const at = linkAt.get(a * 64 + b); if (!at) return 0; const i = upTo(at[0], e); return i ? at[1][i - 1] : 0; }\n\
function touches(ev, q) {\n\
\x20\x20if (ev[1] === \"p\") return ev[3] === q;\n\
\x20\x20for (const c of heardBy(ev)) if (questionOf(placeOf(c)) === q) return true;\n\
\x20\x20for (const c of savedBy(ev)) if ((c >= 0 ? questionOf(placeOf(c)) : decisionOf(c).q) === q) return true;\n\
\x20\x20return \"cr\".includes(ev[1]);                 // a crash and a restart touch every question\n\
}\n\
\n\
// ---- what is shown -------------------------------------------------------------------------------------------\n\
let at = 0, me = 0, only = -1, askQ = 0, askR = 0, askS = 0, view = \"circle\", playing = false, carry = 0, then = 0, flight = 1;\n\
let follow = true;                             // round and step follow the run\n\
let steps = null;                              // the events of the filter, or null for all\n\
const still = matchMedia(\"(prefers-reduced-motion: reduce)\");\n\
const SPEEDS = [1, 2, 5, 10, 50, 200, 1000, 5000];\n\
const stepsEnd = () => steps ? steps.length : E;\n\
const stepOfEvent = (e) => steps ? upTo(steps, e) : e;\n\
const eventOfStep = (s) => steps ? (s ? steps[s - 1] : 0) : s;\n\
\n\
function glyph(c, extra) {\n\
\x20\x20return el(\"span\", { class: \"glyph k\" + kindOf(c) + \" v\" + valueOf(c) + (extra || \"\"), title: nameOf(c), role: \"img\", \"aria-label\": nameOf(c) }, short(c));\n\
}\n\
function nameOf(c) {\n\
\x20\x20const p = placeOf(c);\n\
\x20\x20return KIND[kindOf(c)] + \" \" + VALUE[valueOf(c)] + \" of origin \" + originOf(p) + \", round \" + roundOf(p) + \" step \" + stepOf(p) +\n\
\x20\x20\x20\x20(R.questions > 1 ? \", question \" + questionOf(p) : \"\");\n\
}\n\
function tell(e, brief) {\n\
\x20\x20const ev = R.events[e - 1], k = ev[1], parts = [];\n\
\x20\x20const list = (cs, most) => {\n\
\x20\x20\x20\x20const shown = cs.slice(0, most).map((c) => c >= 0 ? nameOf(c) : \"decided \" + decisionOf(c).bit + \" on question \" + decisionOf(c).q + \" in round \" + decisionOf(c).r);\n\
\x20\x20\x20\x20return shown.join(\"; \") + (cs.length > most ? \"; and \" + num(cs.length - most) + \" more\" : \"\");\n\
\x20\x20};\n\
\x20\x20const b = actorOf(ev);\n\
\x20\x20if (k === \"p\") parts.push(\"Bit \" + ev[4] + \" is proposed to member \" + b + (R.questions > 1 ? \" for question \" + ev[3] : \"\") + \".\");\n\
\x20\x20if (k === \"d\" || k === \"i\") parts.push(\"From member \" + ev[2] + \" to \" + b + \": \" + list(heardBy(ev), 1) + (k === \"i\" ? \" (statement \" + ev[4] + \")\" : \"\") + \".\");\n\
\x20\x20if (k === \"g\") parts.push(\"A group of \" + ev[5] + \" from member \" + ev[2] + \" to \" + b + \": \" + list(heardBy(ev), brief ? 1 : 3) + \".\");\n\
\x20\x20if (k === \"l\") parts.push([\"lie\", \"Lie\"], \" of member \" + ev[2] + \" to \" + b + \": \" + (ev[4].length ? list(ev[4], brief ? 1 : 3) : \"bytes \" + ev[5].slice(0, 24) + (ev[5].length > 24 ? \"..\" : \"\") + \" that complete no statement\") + \".\");\n\
\x20\x20if (k === \"f\") parts.push(ev[3] === \"off\" ? \"The disk of member \" + b + \" is whole again.\" : \"The disk of member \" + b + \" will fail after \" + num(ev[3]) + (ev[3] === \"1\" ? \" call.\" : \" calls.\"));\n\
\x20\x20if (k === \"c\") parts.push([\"lie\", \"Crash\"], \" of member \" + b + \"; its disk: \" + ev[3] + \".\");\n\
\x20\x20if (k === \"r\") parts.push(failed.has(ev[0]) ? [\"lie\", \"Member \" + b + \" can't be opened: its disk fails.\"] : \"Member \" + b + \" is opened again; it has its journal, and has heard nothing.\");\n\
\x20\x20if (k === \"s\") parts.push(\"The link from \" + ev[2] + \" to \" + b + \" starts anew.\");\n\
\x20\x20if (failed.has(ev[0]) && k !== \"r\") parts.push([\"lie\", \" Its disk fails: it is stopped.\"]);\n\
\x20\x20const saved = savedBy(ev);\n\
\x20\x20if (saved.length) parts.push([\"said\", k === \"r\" ? \" In its journal: \" : \" It says: \"], list(saved, brief ? 2 : 4) + \".\");\n\
\x20\x20return parts.map((p) => typeof p === \"string\" ? p : el(\"span\", { class: p[0] }, p[1]));\n\
}\n\
\n\
// The same in signs, for the list.\n\
function brief(e) {\n\
\x20\x20const ev = R.events[e - 1], k = ev[1], b = actorOf(ev), parts = [], q = (p) => R.questions > 1 && only < 0 ? \"q\" + questionOf(p) + \" \" : \"\";\n\
\x20\x20const where = (c) => \" \" + q(placeOf(c)) + \"of \" + originOf(placeOf(c)) + \", \" + roundOf(placeOf(c)) + \".\" + stepOf(placeOf(c));\n\
\x20\x20const list = (cs, most) => {\n\
\x20\x20\x20\x20cs.slice(0, most).forEach((c, i) => { if (i) parts.push(\", \"); if (c >= 0) parts.push(glyph(c), where(c)); else parts.push(el(\"b\", {}, \"decides \" + decisionOf(c).bit), R.questions > 1 ? \" on question \" + decisionOf(c).q : \"\"); });\n\
\x20\x20\x20\x20if (cs.length > most) parts.push(\" and \" + num(cs.length - most) + \" more\");\n\
\x20\x20};\n\
\x20\x20if (\"digl\".includes(k)) {\n\
\x20\x20\x20\x20const heard = heardBy(ev);\n\
\x20\x20\x20\x20parts.push(ev[2] + \" \\u2192 \" + b + \" \");\n\
\x20\x20\x20\x20if (k === \"l\") parts.push(el(\"span\", { class: \"lie\" }, \"lie \"));\n\
\x20\x20\x20\x20if (heard.length) list(heard, 1); else parts.push(\"bytes that complete nothing\");\n\
\x20\x20} else if (k === \"p\") parts.push(\"propose \" + ev[4] + \" to \" + b + (R.questions > 1 && only < 0 ? \" for q\" + ev[3] : \"\"));\n\
\x20\x20else return tell(e, true);\n\
\x20\x20if (failed.has(ev[0])) parts.push(el(\"span\", { class: \"lie\" }, \" its disk fails\"));\n\
\x20\x20if (savedBy(ev).length) { parts.push(el(\"span\", { class: \"said\" }, \" says \")); list(savedBy(ev), 2); }\n\
\x20\x20return parts;\n\
}\n\
\n\
// ---- the circle ----------------------------------------------------------------------------------------------\n\
let box = null;\n\
function layCircle() {\n\
\x20\x20const W = Math.max(280, $(\"stage\").clientWidth - 4), small = W < 520, foot = small ? 106 : 0;\n\
\x20\x20const C = Math.max(300, Math.min(W, 640, small ? 640 : Math.max(420, innerHeight - 340))), H = C + foot;\n\
\x20\x20const pad = n > 24 ? 40 : small ? 56 : 58, rad = Math.min(W, C) / 2 - pad;\n\
\x20\x20const r = Math.max(5, Math.min(24, Math.PI * rad / n * 0.62, rad * 0.3));\n\
\x20\x20const svg = sv(\"svg\", { width: W, height: H, viewBox: `0 0 ${W} ${H}`, \"aria-hidden\": \"true\" });\n\
\x20\x20const nodes = [], trail = sv(\"g\"), top = sv(\"g\");\n\
\x20\x20svg.append(trail);\n\
\x20\x20for (let m = 0; m < n; m++) {\n\
\x20\x20\x20\x20const a = -Math.PI / 2 + 2 * Math.PI * m / n, x = W / 2 + rad * Math.cos(a), y = C / 2 + rad * Math.sin(a);\n\
\x20\x20\x20\x20const g = sv(\"g\", { \"data-m\": m });\n\
\x20\x20\x20\x20g.style.cursor = \"pointer\";\n\
\x20\x20\x20\x20const halo = sv(\"circle\", { cx: x, cy: y, r: r + 8, fill: \"none\" });\n\
\x20\x20\x20\x20const track = sv(\"circle\", { cx: x, cy: y, r: r + 3, fill: \"none\", stroke: \"var(--hair)\", \"stroke-width\": r > 9 ? 5 : 3 });\n\
\x20\x20\x20\x20const arc = sv(\"circle\", { cx: x, cy: y, r: r + 3, fill: \"none\", stroke: \"var(--good)\", \"stroke-width\": r > 9 ? 5 : 3, transform: `rotate(-90 ${x} ${y})` });\n\
\x20\x20\x20\x20const hex = [];\n\
\x20\x20\x20\x20for (let i = 0; i < 6; i++) hex.push((x + r * Math.cos(i * Math.PI / 3)).toFixed(1) + \",\" + (y + r * Math.sin(i * Math.PI / 3)).toFixed(1));\n\
\x20\x20\x20\x20const body = isLiar[m] ? sv(\"polygon\", { points: hex.join(\" \") }) : sv(\"circle\", { cx: x, cy: y, r: r });\n\
\x20\x20\x20\x20g.append(halo, track, arc, body);\n\
\x20\x20\x20\x20const label = sv(\"text\", { \"text-anchor\": \"middle\", \"font-weight\": 700 });\n\
\x20\x20\x20\x20const inside = r >= 8;\n\
\x20\x20\x20\x20label.setAttribute(\"font-size\", inside ? Math.min(15, r * 1.05) : 9);\n\
\x20\x20\x20\x20const off = inside ? 0 : r + 11;\n\
\x20\x20\x20\x20label.setAttribute(\"x\", x + off * Math.cos(a)); label.setAttribute(\"y\", y + off * Math.sin(a) + (inside ? Math.min(15, r * 1.05) : 9) * 0.35);\n\
\x20\x20\x20\x20label.textContent = (isLiar[m] && inside && r > 13 ? \"L\" : \"\") + m;\n\
\x20\x20\x20\x20const under = sv(\"text\", { x: x + (r + 14) * Math.cos(a), y: y + (r + 14) * Math.sin(a) + 4, \"font-size\": n > 24 ? 10 : 12.5, \"font-weight\": 700, \"text-anchor\": Math.cos(a) > 0.3 ? \"start\" : Math.cos(a) < -0.3 ? \"end\" : \"middle\" });\n\
\x20\x20\x20\x20if (Math.abs(Math.cos(a)) <= 0.3) under.setAttribute(\"y\", y + (r + 16) * Math.sign(Math.sin(a)) + (Math.sin(a) > 0 ? 9 : -1));\n\
\x20\x20\x20\x20if (!inside) under.setAttribute(\"visibility\", \"hidden\");\n\
\x20\x20\x20\x20g.append(label, under);\n\
\x20\x20\x20\x20g.addEventListener(\"click\", () => { me = m; $(\"me\").value = m; show(true); });\n\
\x20\x20\x20\x20svg.append(g);\n\
\x20\x20\x20\x20nodes.push({ x, y, a, halo, arc, body, label, under, inside, len: 2 * Math.PI * (r + 3) });\n\
\x20\x20}\n\
\x20\x20svg.append(top);\n\
\x20\x20box = { svg, nodes, trail, top, W, H, C, r, rad, small };\n\
\x20\x20$(\"stage\").replaceChildren(svg);\n\
}\n\
function curve(a, b) {\n\
\x20\x20const p = box.nodes[a], q = box.nodes[b];\n\
\x20\x20if (a === b) {\n\
\x20\x20\x20\x20const ox = Math.cos(p.a), oy = Math.sin(p.a), s = box.r + 24;\n\
\x20\x20\x20\x20return `M ${p.x - oy * 6 - ox * box.r} ${p.y + ox * 6 - oy * box.r} C ${p.x - ox * s * 2 - oy * s} ${p.y - oy * s * 2 + ox * s}, ${p.x - ox * s * 2 + oy * s} ${p.y - oy * s * 2 - ox * s}, ${p.x + oy * 6 - ox * box.r} ${p.y - ox * 6 - oy * box.r}`;\n\
\x20\x20}\n\
\x20\x20const dx = q.x - p.x, dy = q.y - p.y, d = Math.hypot(dx, dy), ux = dx / d, uy = dy / d, gap = box.r + 7;\n\
\x20\x20const sx = p.x + ux * gap, sy = p.y + uy * gap, ex = q.x - ux * gap, ey = q.y - uy * gap, bend = Math.min(26, d * 0.1);\n\
\x20\x20return `M ${sx} ${sy} Q ${(sx + ex) / 2 - uy * bend} ${(sy + ey) / 2 + ux * bend}, ${ex} ${ey}`;\n\
}\n\
function head(path, colour) {\n\
\x20\x20const L = path.getTotalLength(), p = path.getPointAtLength(L), q = path.getPointAtLength(Math.max(0, L - 9));\n\
\x20\x20const a = Math.atan2(p.y - q.y, p.x - q.x), w = 0.45, s = 11;\n\
\x20\x20return sv(\"polygon\", { points: `${p.x},${p.y} ${p.x - s * Math.cos(a - w)},${p.y - s * Math.sin(a - w)} ${p.x - s * Math.cos(a + w)},${p.y - s * Math.sin(a + w)}`, fill: colour });\n\
}\n\
function sign(c, x, y, lie, count) {\n\
\x20\x20const k = c === null ? 1 : kindOf(c), v = c === null ? 4 : valueOf(c), fill = [\"var(--zero)\", \"var(--one)\", \"var(--zero)\", \"var(--one)\", \"var(--unsure)\"][v];\n\
\x20\x20const ink = [\"var(--zero-ink)\", \"var(--one-ink)\", \"var(--zero-ink)\", \"var(--one-ink)\", \"var(--unsure-ink)\"][v];\n\
\x20\x20const words = (c === null ? \"bytes\" : short(c)) + (count > 1 ? \" +\" + (count - 1) : \"\");\n\
\x20\x20const w = Math.max(26, words.length * 8.2 + 10), h = 21;\n\
\x20\x20const g = sv(\"g\", { transform: `translate(${x} ${y})` });\n\
\x20\x20const stroke = lie ? \"var(--lie)\" : v === 2 || v === 3 ? \"var(--ink)\" : \"var(--card)\";\n\
\x20\x20const common = { fill, stroke, \"stroke-width\": lie ? 3 : 2 };\n\
\x20\x20if (k === 2) g.append(sv(\"polygon\", { points: `${-w / 2 - 7},0 ${-w / 2 + 3},${-h / 2} ${w / 2 - 3},${-h / 2} ${w / 2 + 7},0 ${w / 2 - 3},${h / 2} ${-w / 2 + 3},${h / 2}`, ...common }));\n\
\x20\x20else g.append(sv(\"rect\", { x: -w / 2, y: -h / 2, width: w, height: h, rx: k === 0 ? h / 2 : 2, ...common }));\n\
\x20\x20const text = sv(\"text\", { \"text-anchor\": \"middle\", y: 4.8, \"font-size\": 13.5, \"font-weight\": 700 });\n\
\x20\x20text.style.fill = ink;\n\
\x20\x20text.textContent = words;\n\
\x20\x20g.append(text);\n\
\x20\x20return g;\n\
}\n\
function decidedAt(m, e) {\n\
\x20\x20const L = upTo(M[m].decAt, e), q = only >= 0 ? only : R.questions === 1 ? 0 : -1;\n\
\x20\x20if (q < 0) return L ? \"\\u2713\" + num(L) : \"\";\n\
\x20\x20for (let i = 0; i < L; i++) if (M[m].dec[i].q === q) return \"=\" + M[m].dec[i].bit;\n\
\x20\x20return \"\";\n\
}\n\
function drawCircle(fraction) {\n\
\x20\x20const trail = [], top = [], e = at;\n\
\x20\x20for (let m = 0; m < n; m++) {\n\
\x20\x20\x20\x20const node = box.nodes[m], s = stateAt(m, e), recs = upTo(M[m].recAt, e);\n\
\x20\x20\x20\x20node.arc.setAttribute(\"stroke-dasharray\", (node.len * recs / longest).toFixed(1) + \" \" + node.len.toFixed(1));\n\
\x20\x20\x20\x20node.body.setAttribute(\"fill\", s === \"liar\" ? \"var(--card)\" : s === \"up\" ? \"var(--card)\" : \"var(--hair)\");\n\
\x20\x20\x20\x20node.body.setAttribute(\"stroke\", s === \"liar\" ? \"var(--lie)\" : s === \"up\" ? \"var(--ink)\" : \"var(--soft)\");\n\
\x20\x20\x20\x20node.body.setAttribute(\"stroke-width\", 2.5);\n\
\x20\x20\x20\x20node.body.setAttribute(\"stroke-dasharray\", s === \"up\" || s === \"liar\" ? \"none\" : \"4 3\");\n\
\x20\x20\x20\x20node.halo.setAttribute(\"stroke\", m === me ? \"var(--focus)\" : \"none\");\n\
\x20\x20\x20\x20node.halo.setAttribute(\"stroke-width\", 3);\n\
\x20\x20\x20\x20const d = decidedAt(m, e);\n\
\x20\x20\x20\x20node.under.textContent = s === \"down\" ? \"down\" : s === \"stopped\" ? \"stopped\" : d;\n\
\x20\x20\x20\x20node.under.style.fill = s === \"up\" ? \"var(--good)\" : \"var(--lie)\";\n\
\x20\x20\x20\x20if (s === \"liar\") node.under.textContent = n <= 24 && !box.small ? \"liar\" : \"\";\n\
\x20\x20\x20\x20if (!node.inside) node.label.setAttribute(\"visibility\", m % 4 === 0 || m === me || (e && m === actorOf(R.events[e - 1])) ? \"visible\" : \"hidden\");\n\
\x20\x20}\n\
\x20\x20const cur = stepOfEvent(e);\n\
\x20\x20for (let back = 7; back >= 0; back--) {\n\
\x20\x20\x20\x20const x = eventOfStep(cur - back);\n\
\x20\x20\x20\x20if (!x || cur - back < 1) continue;\n\
\x20\x20\x20\x20const ev = R.events[x - 1], k = ev[1];\n\
\x20\x20\x20\x20if (!\"digl\".includes(k)) continue;\n\
\x20\x20\x20\x20const lie = k === \"l\", colour = lie ? \"var(--lie)\" : \"var(--ink)\";\n\
\x20\x20\x20\x20const path = sv(\"path\", { d: curve(ev[2], ev[3]), fill: \"none\", stroke: colour, \"stroke-width\": back ? 1.2 : 2.6, opacity: back ? (0.4 - back * 0.045).toFixed(2) : 1 });\n\
\x20\x20\x20\x20if (lie) path.setAttribute(\"stroke-dasharray\", \"7 5\");\n\
\x20\x20\x20\x20trail.push(path);\n\
\x20\x20\x20\x20if (!back) {\n\
\x20\x20\x20\x20\x20\x20top.push(head(path, colour));\n\
\x20\x20\x20\x20\x20\x20const L = path.getTotalLength(), p = path.getPointAtLength(L * (fraction < 1 ? fraction : 0.5));\n\
\x20\x20\x20\x20\x20\x20if (L < 80 && ev[2] !== ev[3]) { p.x += (box.W / 2 - p.x) * 0.22; p.y += (box.C / 2 - p.y) * 0.22; }\n\
\x20\x20\x20\x20\x20\x20const heard = heardBy(ev), g = sign(heard.length ? heard[0] : null, p.x, p.y, lie, heard.length);\n\
\x20\x20\x20\x20\x20\x20if (lie) { const x1 = sv(\"text\", { y: -15, \"text-anchor\": \"middle\", \"font-size\": 13, \"font-weight\": 700 }); x1.style.fill = \"var(--lie)\"; x1.textContent = \"\\u2715 lie\"; g.append(x1); }\n\
\x20\x20\x20\x20\x20\x20top.push(g);\n\
\x20\x20\x20\x20}\n\
\x20\x20}\n\
\x20\x20if (e && eventOfStep(cur) === e) {\n\
\x20\x20\x20\x20const ev = R.events[e - 1], node = box.nodes[actorOf(ev)], k = ev[1], saved = savedBy(ev);\n\
\x20\x20\x20\x20if (\"pcrfs\".includes(k)) {\n\
\x20\x20\x20\x20\x20\x20const words = k === \"p\" ? \"propose \" + ev[4] : k === \"c\" ? \"\\u2715 crash\" : k === \"r\" ? (failed.has(ev[0]) ? \"\\u2715 restart fails\" : \"\\u25b2 restart\") : k === \"f\" ? fuse(ev) : \"link anew\";\n\
\x20\x20\x20\x20\x20\x20const x = sv(\"text\", { x: node.x - Math.cos(node.a) * (box.r + 16), y: node.y - Math.sin(node.a) * (box.r + 26) + 5, \"text-anchor\": Math.cos(node.a) > 0.3 ? \"end\" : Math.cos(node.a) < -0.3 ? \"start\" : \"middle\", \"font-size\": 14, \"font-weight\": 700 });\n\
\x20\x20\x20\x20\x20\x20x.style.fill = k === \"c\" || failed.has(ev[0]) ? \"var(--lie)\" : \"var(--ink)\";\n\
\x20\x20\x20\x20\x20\x20x.textContent = words;\n\
\x20\x20\x20\x20\x20\x20top.push(x);\n\
\x20\x20\x20\x20}\n\
\x20\x20\x20\x20if (saved.length && fraction >= 1) {\n\
\x20\x20\x20\x20\x20\x20const shown = saved.slice(0, box.small && saved.length > 3 ? 2 : 3), ax = box.W / 2, ay = box.small ? box.C + 22 : box.C / 2 - (shown.length + (saved.length > 3 ? 1 : 0)) * 13;\n\
\x20\x20\x20\x20\x20\x20const note = sv(\"text\", { x: ax, y: ay - 8, \"text-anchor\": \"middle\", \"font-size\": 13 });\n\
\x20\x20\x20\x20\x20\x20note.style.fill = \"var(--said)\";\n\
\x20\x20\x20\x20\x20\x20note.textContent = \"member \" + actorOf(ev) + (k === \"r\" ? \" has in its journal\" : \" says\");\n\
\x20\x20\x20\x20\x20\x20const back = sv(\"rect\", { x: ax - 82, y: ay - 26, width: 164, height: 32 + (shown.length + (saved.length > 3 ? 1 : 0)) * 26, rx: 8, fill: \"var(--card)\", stroke: \"var(--line)\", opacity: 0.94 });\n\
\x20\x20\x20\x20\x20\x20top.push(back, note);\n\
\x20\x20\x20\x20\x20\x20shown.forEach((c, i) => {\n\
\x20\x20\x20\x20\x20\x20\x20\x20if (c >= 0) {\n\
\x20\x20\x20\x20\x20\x20\x20\x20\x20\x20top.push(sign(c, ax - 42, ay + 14 + i * 26, false, 1));\n\
\x20\x20\x20\x20\x20\x20\x20\x20\x20\x20const p = placeOf(c), words = sv(\"text\", { x: ax - 16, y: ay + 19 + i * 26, \"font-size\": 12 });\n\
\x20\x20\x20\x20\x20\x20\x20\x20\x20\x20words.textContent = \"of \" + originOf(p) + \", \" + roundOf(p) + \".\" + stepOf(p);\n\
\x20\x20\x20\x20\x20\x20\x20\x20\x20\x20top.push(words);\n\
\x20\x20\x20\x20\x20\x20\x20\x20} else {\n\
\x20\x20\x20\x20\x20\x20\x20\x20\x20\x20const words = sv(\"text\", { x: ax, y: ay + 19 + i * 26, \"text-anchor\": \"middle\", \"font-size\": 15, \"font-weight\": 700 });\n\
\x20\x20\x20\x20\x20\x20\x20\x20\x20\x20words.style.fill = \"var(--good)\";\n\
\x20\x20\x20\x20\x20\x20\x20\x20\x20\x20words.textContent = \"\\u2713 decides \" + decisionOf(c).bit;\n\
\x20\x20\x20\x20\x20\x20\x20\x20\x20\x20top.push(words);\n\
\x20\x20\x20\x20\x20\x20\x20\x20}\n\
\x20\x20\x20\x20\x20\x20});\n\
\x20\x20\x20\x20\x20\x20if (saved.length > 3) { const x = sv(\"text\", { x: ax, y: ay + 19 + shown.length * 26, \"text-anchor\": \"middle\", \"font-size\": 12 }); x.textContent = \"and \" + (saved.length - shown.length) + \" more\"; top.push(x); }\n\
\x20\x20\x20\x20}\n\
\x20\x20}\n\
\x20\x20box.trail.replaceChildren(...trail);\n\
\x20\x20box.top.replaceChildren(...top);\n\
}\n\
\n\
// ---- the columns: a window of the chart ----------------------------------------------------------------------\n\
const ROWS = 20;\n\
function drawChart() {\n\
\x20\x20const W0 = Math.max(280, $(\"stage\").clientWidth - 4), small = W0 < 520, left = small ? 50 : 62, tail = small ? 26 : 60, col = Math.max(n > 12 ? 26 : 40, (W0 - left - tail) / Math.max(1, n)), W = left + col * n + tail;\n\
\x20\x20const row = 27, H = 44 + ROWS * row + 12, cur = stepOfEvent(at), first = Math.max(1, Math.min(cur - ROWS + 6, stepsEnd() - ROWS + 1));\n\
\x20\x20const svg = sv(\"svg\", { width: W, height: H, viewBox: `0 0 ${W} ${H}`, \"aria-hidden\": \"true\" });\n\
\x20\x20const X = (m) => left + col * (m + 0.5), y0 = 40;\n\
\x20\x20const e0 = Math.max(0, eventOfStep(first) - 1);\n\
\x20\x20for (let m = 0; m < n; m++) {\n\
\x20\x20\x20\x20const name = sv(\"text\", { x: X(m), y: 16, \"text-anchor\": \"middle\", \"font-size\": n > 24 ? 11 : 13, \"font-weight\": 700 });\n\
\x20\x20\x20\x20name.textContent = (isLiar[m] ? (n > 12 || small ? \"L\" : \"liar \") : \"\") + m;\n\
\x20\x20\x20\x20if (isLiar[m]) name.style.fill = \"var(--lie)\";\n\
\x20\x20\x20\x20name.addEventListener(\"click\", () => { me = m; $(\"me\").value = m; show(true); });\n\
\x20\x20\x20\x20name.style.cursor = \"pointer\";\n\
\x20\x20\x20\x20svg.append(name);\n\
\x20\x20\x20\x20if (m === me) svg.append(sv(\"rect\", { x: X(m) - Math.min(30, col / 2 - 1), y: 22, width: Math.min(60, col - 2), height: 4, fill: \"var(--focus)\" }));\n\
\x20\x20\x20\x20// the lifeline, in pieces by state\n\
\x20\x20\x20\x20let y = y0 - 10, s = stateAt(m, e0);\n\
\x20\x20\x20\x20for (let i = 0; i <= ROWS; i++) {\n\
\x20\x20\x20\x20\x20\x20const step = first + i, e = step <= stepsEnd() && i < ROWS ? eventOfStep(step) : -1, s2 = e > 0 ? stateAt(m, e) : null;\n\
\x20\x20\x20\x20\x20\x20if (s2 !== s) {\n\
\x20\x20\x20\x20\x20\x20\x20\x20const y2 = i < ROWS && e > 0 ? y0 + i * row + 12 : y0 + Math.min(ROWS, stepsEnd() - first + 1) * row;\n\
\x20\x20\x20\x20\x20\x20\x20\x20svg.append(sv(\"line\", { x1: X(m), x2: X(m), y1: y, y2: y2, stroke: s === \"liar\" ? \"var(--lie)\" : \"var(--soft)\", \"stroke-width\": 1.6, \"stroke-dasharray\": s === \"up\" ? \"none\" : s === \"liar\" ? \"1 5\" : \"5 4\" }));\n\
\x20\x20\x20\x20\x20\x20\x20\x20y = y2; s = s2;\n\
\x20\x20\x20\x20\x20\x20\x20\x20if (s === null) break;\n\
\x20\x20\x20\x20\x20\x20}\n\
\x20\x20\x20\x20}\n\
\x20\x20}\n\
\x20\x20for (let i = 0; i < ROWS; i++) {\n\
\x20\x20\x20\x20const step = first + i;\n\
\x20\x20\x20\x20if (step < 1 || step > stepsEnd()) continue;\n\
\x20\x20\x20\x20const e = eventOfStep(step), ev = R.events[e - 1], k = ev[1], y = y0 + i * row + 12, b = actorOf(ev), lie = k === \"l\";\n\
\x20\x20\x20\x20const g = sv(\"g\", { opacity: e <= at ? 1 : 0.4 });\n\
\x20\x20\x20\x20if (e === at) svg.append(sv(\"rect\", { x: 0, y: y - row / 2, width: W, height: row, fill: \"var(--pick)\" }));\n\
\x20\x20\x20\x20const no = sv(\"text\", { x: 4, y: y + 4.5, \"font-size\": 12 }); no.textContent = ev[0];\n\
\x20\x20\x20\x20no.style.fill = \"var(--soft)\";\n\
\x20\x20\x20\x20g.append(no);\n\
\x20\x20\x20\x20if (\"digl\".includes(k)) {\n\
\x20\x20\x20\x20\x20\x20const x1 = X(ev[2]), colour = lie ? \"var(--lie)\" : \"var(--ink)\", heard = heardBy(ev);\n\
\x20\x20\x20\x20\x20\x20if (ev[2] === b) {\n\
\x20\x20\x20\x20\x20\x20\x20\x20const p = sv(\"path\", { d: `M ${x1} ${y - 9} C ${x1 + 22} ${y - 9}, ${x1 + 22} ${y + 7}, ${x1 + 3} ${y + 6}`, fill: \"none\", stroke: colour, \"stroke-width\": 1.8 });\n\
\x20\x20\x20\x20\x20\x20\x20\x20g.append(p, sv(\"polygon\", { points: `${x1},${y + 6} ${x1 + 9},${y + 1.5} ${x1 + 9},${y + 10.5}`, fill: colour }), sign(heard[0] ?? null, x1 - Math.min(30, col * 0.42), y, lie, heard.length));\n\
\x20\x20\x20\x20\x20\x20} else {\n\
\x20\x20\x20\x20\x20\x20\x20\x20const x2 = X(b), d = Math.sign(x2 - x1);\n\
\x20\x20\x20\x20\x20\x20\x20\x20g.append(sv(\"line\", { x1, x2: x2 - d * 4, y1: y, y2: y, stroke: colour, \"stroke-width\": 1.8, \"stroke-dasharray\": lie ? \"7 4\" : \"none\" }),\n\
\x20\x20\x20\x20\x20\x20\x20\x20\x20\x20sv(\"polygon\", { points: `${x2},${y} ${x2 - d * 10},${y - 5} ${x2 - d * 10},${y + 5}`, fill: colour }), sign(heard[0] ?? null, (x1 + x2) / 2, y, lie, heard.length));\n\
\x20\x20\x20\x20\x20\x20}\n\
\x20\x20\x20\x20} else if (k === \"p\") { g.append(sv(\"circle\", { cx: X(b), cy: y, r: 6, fill: \"var(--ink)\" })); word(g, X(b) + 10, y, \"propose \" + ev[4]); }\n\
\x20\x20\x20\x20else if (k === \"c\") { g.append(sv(\"path\", { d: `M ${X(b) - 7} ${y - 7} l 14 14 m 0 -14 l -14 14`, stroke: \"var(--lie)\", \"stroke-width\": 3 })); word(g, X(b) + 12, y, \"crash\", \"var(--lie)\"); }\n\
\x20\x20\x20\x20else if (k === \"r\") { g.append(sv(\"polygon\", { points: `${X(b)},${y - 8} ${X(b) + 8},${y + 6} ${X(b) - 8},${y + 6}`, fill: \"var(--good)\" })); word(g, X(b) + 12, y, failed.has(ev[0]) ? \"restart fails\" : \"restart\", failed.has(ev[0]) ? \"var(--lie)\" : \"var(--good)\"); }\n\
\x20\x20\x20\x20else word(g, X(b) + 8, y, k === \"f\" ? fuse(ev) : \"link anew\");\n\
\x20\x20\x20\x20if (failed.has(ev[0])) { g.append(sv(\"circle\", { cx: X(b), cy: y, r: 9, fill: \"none\", stroke: \"var(--lie)\", \"stroke-width\": 2.5 })); if (k !== \"r\") word(g, X(b) + 12, y + 10, \"disk fails\", \"var(--lie)\"); }\n\
\x20\x20\x20\x20const saved = savedBy(ev);\n\
\x20\x20\x20\x20if (saved.length && k !== \"r\") {\n\
\x20\x20\x20\x20\x20\x20const dec = saved.find((c) => c < 0), words = saved.filter((c) => c >= 0).map(short);\n\
\x20\x20\x20\x20\x20\x20const text = (words.length > 3 ? words.slice(0, 2).join(\" \") + \" +\" + (words.length - 2) : words.join(\" \")) + (dec !== undefined ? \" =\" + decisionOf(dec).bit : \"\");\n\
\x20\x20\x20\x20\x20\x20const x = sv(\"text\", { x: Math.min(X(b) + (\"digl\".includes(k) && ev[2] === b ? 24 : 6), W - 8 - text.length * 7), y: y + 12, \"font-size\": 11.5, \"font-weight\": 700 });\n\
\x20\x20\x20\x20\x20\x20x.style.fill = dec !== undefined ? \"var(--good)\" : \"var(--said)\"; x.textContent = text;\n\
\x20\x20\x20\x20\x20\x20x.style.stroke = \"var(--card)\"; x.style.strokeWidth = \"3px\"; x.style.paintOrder = \"stroke\";\n\
\x20\x20\x20\x20\x20\x20g.append(x);\n\
\x20\x20\x20\x20}\n\
\x20\x20\x20\x20svg.append(g);\n\
\x20\x20}\n\
\x20\x20function word(g, x, y, text, colour) {\n\
\x20\x20\x20\x20const w = sv(\"text\", { x, y: y + 4.5, \"font-size\": 12.5, \"font-weight\": 600 });\n\
\x20\x20\x20\x20w.style.fill = colour || \"var(--ink)\"; w.textContent = text;\n\
\x20\x20\x20\x20w.style.stroke = \"var(--card)\"; w.style.strokeWidth = \"3px\"; w.style.paintOrder = \"stroke\";\n\
\x20\x20\x20\x20g.append(w);\n\
\x20\x20}\n\
\x20\x20const stage = $(\"stage\"), keep = stage.scrollLeft;\n\
\x20\x20stage.replaceChildren(svg);\n\
\x20\x20stage.scrollLeft = keep;\n\
\x20\x20if (at && W > W0 + 4) {                        // where it is too wide the columns of the event stay in sight\n\
\x20\x20\x20\x20const ev = R.events[at - 1], xs = [X(actorOf(ev)), \"digl\".includes(ev[1]) ? X(ev[2]) : X(actorOf(ev))], low = Math.min(...xs) - 60, high = Math.max(...xs) + 60;\n\
\x20\x20\x20\x20if (low < stage.scrollLeft || high > stage.scrollLeft + W0) stage.scrollLeft = high - low > W0 ? X(actorOf(ev)) - W0 / 2 : low < stage.scrollLeft ? low : high - W0;\n\
\x20\x20}\n\
}\n\
\n\
// ---- the chosen member ---------------------------------------------------------------------------------------\n\
// What member m heard and accepted on question q in its life, up to event e. Going on costs only what is new.\n\
let known = null;\n\
function know(m, q, e) {\n\
\x20\x20const mm = M[m], life = upTo(mm.lifeAt, e) - 1, end = upTo(mm.heardAt, e);\n\
\x20\x20if (!known || known.m !== m || known.q !== q || known.life !== life || known.end > end)\n\
\x20\x20\x20\x20known = { m, q, life, end: mm.lifeHeard[life], places: new Map(), got: new Set(), rounds: new Set() };\n\
\x20\x20for (let i = known.end; i < end; i++) {\n\
\x20\x20\x20\x20const c = mm.heard[i], p = placeOf(c);\n\
\x20\x20\x20\x20if (questionOf(p) !== q || mm.how[i] !== \"news\") continue;\n\
\x20\x20\x20\x20let at = known.places.get(p);\n\
\x20\x20\x20\x20if (!at) known.places.set(p, at = { initial: -1, echo: [0, 0, 0, 0, 0], ready: [0, 0, 0, 0, 0], accepted: -1 });\n\
\x20\x20\x20\x20const v = valueOf(c), k = kindOf(c);\n\
\x20\x20\x20\x20known.rounds.add(roundOf(p));\n\
\x20\x20\x20\x20if (k === 0) at.initial = v;\n\
\x20\x20\x20\x20if (k === 1) at.echo[v]++;\n\
\x20\x20\x20\x20if (k === 2 && ++at.ready[v] === ACCEPT && at.accepted < 0) at.accepted = v;\n\
\x20\x20}\n\
\x20\x20known.end = end;\n\
\x20\x20return known;\n\
}\n\
// May some set of exactly n - t of these valid messages (z, o, u of each value) have m as its next value?\n\
function gives(step, tally, m) {\n\
\x20\x20const [z, o, u] = tally;\n\
\x20\x20if (z + o + u < WAIT) return false;\n\
\x20\x20if (step === 1) return m === 1 ? (() => { const a = Math.min(o, WAIT); return a > WAIT - a; })() : (() => { const a = Math.min(z, WAIT); return a >= WAIT - a; })();\n\
\x20\x20if (step === 2) {\n\
\x20\x20\x20\x20if (m === 4) return Math.min(z, n >> 1) + Math.min(o, n >> 1) >= WAIT;\n\
\x20\x20\x20\x20return 2 * Math.min(m === 2 ? z : o, WAIT) > n;\n\
\x20\x20}\n\
\x20\x20return (m === 0 ? z : o) >= HELP || Math.min(z, t) + Math.min(o, t) + u >= WAIT;\n\
}\n\
// The valid messages of question q as `known` has them, by round and step, up to that round.\n\
function validOf(k, upToRound) {\n\
\x20\x20const steps = [];\n\
\x20\x20let before = null;\n\
\x20\x20for (let r = 1; r <= upToRound; r++) for (let s = 1; s <= 3; s++) {\n\
\x20\x20\x20\x20const tally = [0, 0, 0], valid = new Map();\n\
\x20\x20\x20\x20let accepted = 0;\n\
\x20\x20\x20\x20for (let o = 0; o < n; o++) {\n\
\x20\x20\x20\x20\x20\x20const at = k.places.get(placeAt(k.q, o, r, s));\n\
\x20\x20\x20\x20\x20\x20if (!at || at.accepted < 0) continue;\n\
\x20\x20\x20\x20\x20\x20accepted++;\n\
\x20\x20\x20\x20\x20\x20const ok = before === null || gives(before.s, before.tally, at.accepted);\n\
\x20\x20\x20\x20\x20\x20valid.set(o, ok);\n\
\x20\x20\x20\x20\x20\x20if (ok) tally[s === 3 ? at.accepted - 2 : at.accepted]++;\n\
\x20\x20\x20\x20}\n\
\x20\x20\x20\x20before = { r, s, tally, valid, accepted };\n\
\x20\x20\x20\x20steps.push(before);\n\
\x20\x20}\n\
\x20\x20return steps;\n\
}\n\
function saidOf(m, q, e) {\n\
\x20\x20const mm = M[m], end = upTo(mm.outAt, e), said = new Map();\n\
\x20\x20for (let i = 0; i < end; i++) { const c = mm.out[i]; if (questionOf(placeOf(c)) === q) { const k = Math.floor(c / 5); if (!said.has(k)) said.set(k, valueOf(c)); } }\n\
\x20\x20return said;\n\
}\n\
const bit = (kind, v) => el(\"span\", { class: \"glyph k\" + kind + \" v\" + v, title: KIND[kind] + \" \" + VALUE[v], role: \"img\", \"aria-label\": KIND[kind] + \" \" + VALUE[v] }, LETTER[kind] + SHORT[v]);\n\
function counts(list, kind) {\n\
\x20\x20const cell = el(\"td\");\n\
\x20\x20let any = false;\n\
\x20\x20list.forEach((c, v) => {\n\
\x20\x20\x20\x20if (!c) return;\n\
\x20\x20\x20\x20any = true;\n\
\x20\x20\x20\x20const bar = el(\"span\", { class: \"meter\", role: \"img\" });\n\
\x20\x20\x20\x20const fill = el(\"i\", { class: \"v\" + v }); fill.style.width = Math.min(100, 100 * c / n) + \"%\";\n\
\x20\x20\x20\x20bar.append(fill);\n\
\x20\x20\x20\x20const limits = kind === 1 ? [ECHO] : [HELP, ACCEPT];\n\
\x20\x20\x20\x20for (const l of limits) { const tick = el(\"i\", { class: \"tick\" }); tick.style.left = \"calc(\" + 100 * l / n + \"% - 2px)\"; bar.append(tick); }\n\
\x20\x20\x20\x20const reached = kind === 1 ? (c >= ECHO ? \"quorum\" : \"\") : c >= ACCEPT ? \"accept\" : c >= HELP ? \"help\" : \"\";\n\
\x20\x20\x20\x20bar.setAttribute(\"aria-label\", c + \" of \" + n);\n\
\x20\x20\x20\x20cell.append(el(\"div\", { class: \"count\" }, bit(kind, v), bar, el(\"span\", { class: \"said\" }, c + (reached === \"accept\" ? \" \\u2713\\u2713\" : reached ? \" \\u2713\" : \"\"), reached ? el(\"span\", { class: \"word gap\" }, reached) : \"\")));\n\
\x20\x20});\n\
\x20\x20if (!any) cell.append(\"\\u2013\");\n\
\x20\x20return cell;\n\
}\n\
function fact(name, value) { return el(\"div\", {}, el(\"dt\", {}, name), el(\"dd\", {}, value)); }\n\
function panel() {\n\
\x20\x20const mm = M[me], s = stateAt(me, at), ev = at ? R.events[at - 1] : null;\n\
\x20\x20if (follow && ev) {\n\
\x20\x20\x20\x20const c = [...heardBy(ev), ...savedBy(ev).filter((x) => x >= 0)];\n\
\x20\x20\x20\x20const here = actorOf(ev) === me && c.find((x) => only < 0 || questionOf(placeOf(x)) === only);\n\
\x20\x20\x20\x20if (here !== undefined && here !== false) { const p = placeOf(here); askQ = questionOf(p); askR = roundOf(p); askS = stepOf(p); }\n\
\x20\x20}\n\
\x20\x20if (!askR) { askR = 1; askS = 1; }\n\
\x20\x20$(\"mestate\").textContent = s === \"liar\" ? \"lies: nothing is known of what it heard\" : s === \"up\" ? \"runs\" : s === \"down\" ? \"is down\" : \"is stopped: its disk failed\";\n\
\x20\x20const life = upTo(mm.lifeAt, at) - 1, heardEnd = upTo(mm.heardAt, at);\n\
\x20\x20let waiting = 0;\n\
\x20\x20for (let a = 0; a < n; a++) if (!isLiar[a]) waiting += Math.max(0, upTo(M[a].outAt, at) - linkPlace(a, me, at));\n\
\x20\x20const facts = [fact(\"Records in its journal\", num(upTo(mm.recAt, at)) + \" of \" + num(mm.recAt.length) + (R.left_out ? \" in the events shown\" : \"\")), fact(\"Statements said\", num(upTo(mm.outAt, at))),\n\
\x20\x20\x20\x20fact(\"Decided\", num(upTo(mm.decAt, at))), fact(\"Lives\", num(life + 1)), fact(\"Heard in this life\", num(heardEnd - mm.lifeHeard[life])), fact(\"Under way to it\", num(waiting))];\n\
\x20\x20$(\"facts\").replaceChildren(...(isLiar[me] ? [fact(\"Lies told so far\", num(upTo(liesOf(me), at)))] : facts));\n\
\x20\x20$(\"askq\").value = askQ;\n\
\x20\x20const k = know(me, askQ, at), said = saidOf(me, askQ, at);\n\
\x20\x20const rounds = Math.max(askR, 1, ...k.rounds), options = $(\"askr\");\n\
\x20\x20if (options.children.length !== rounds + 1) {\n\
\x20\x20\x20\x20options.replaceChildren(el(\"option\", { value: 0 }, \"as it plays\"), ...Array.from({ length: rounds }, (_, i) => el(\"option\", { value: i + 1 }, String(i + 1))));\n\
\x20\x20}\n\
\x20\x20options.value = follow ? 0 : askR;\n\
\x20\x20const valid = validOf(k, askR);\n\
\x20\x20const buttons = [1, 2, 3].map((step) => {\n\
\x20\x20\x20\x20const v = valid[(askR - 1) * 3 + step - 1], ok = v.tally[0] + v.tally[1] + v.tally[2], own = said.get(placeAt(askQ, me, askR, step) * 3);\n\
\x20\x20\x20\x20const b = el(\"button\", { type: \"button\", \"aria-pressed\": step === askS, \"aria-label\": `Round ${askR} step ${step}: ${v.accepted} accepted, ${ok} valid of ${WAIT}` },\n\
\x20\x20\x20\x20\x20\x20el(\"b\", {}, `${askR}.${step}`), ` ${v.accepted} accepted`, el(\"br\"), `valid ${ok} of ${WAIT}${ok >= WAIT ? \" \\u2713\" : \"\"}`, el(\"br\"), own === undefined ? \"own: \\u2013\" : \"own: \");\n\
\x20\x20\x20\x20if (own !== undefined) b.append(bit(0, own));\n\
\x20\x20\x20\x20b.addEventListener(\"click\", () => { askS = step; follow = false; show(false); });\n\
\x20\x20\x20\x20return b;\n\
\x20\x20});\n\
\x20\x20$(\"steps\").replaceChildren(...buttons);\n\
\x20\x20$(\"placesname\").textContent = `Broadcasts of round ${askR} step ${askS}${R.questions > 1 ? \", question \" + askQ : \"\"}`;\n\
\x20\x20$(\"limits\").textContent = `Of ${n} members: echo quorum ${ECHO}, help ${HELP}, accept ${ACCEPT}, wait ${WAIT}. The ticks are these.`;\n\
\x20\x20const v = valid[(askR - 1) * 3 + askS - 1], rows = [];\n\
\x20\x20for (let o = 0; o < n; o++) {\n\
\x20\x20\x20\x20const p = placeAt(askQ, o, askR, askS), got = k.places.get(p), sayings = [0, 1, 2].map((x) => [x, said.get(p * 3 + x)]).filter((x) => x[1] !== undefined);\n\
\x20\x20\x20\x20if (!got && !sayings.length) continue;\n\
\x20\x20\x20\x20const acc = el(\"td\"), it = el(\"td\", { class: \"its\" });\n\
\x20\x20\x20\x20if (got && got.accepted >= 0) acc.append(el(\"span\", { class: \"glyph v\" + got.accepted }, SHORT[got.accepted]), v.valid.get(o) ? \" \\u2713\" : \" \\u2026\", el(\"span\", { class: \"word gap\" }, v.valid.get(o) ? \"valid\" : \"not yet valid\")); else acc.append(\"\\u2013\");\n\
\x20\x20\x20\x20sayings.forEach(([x, y]) => it.append(bit(x, y), \" \"));\n\
\x20\x20\x20\x20rows.push(el(\"tr\", {}, el(\"th\", { scope: \"row\" }, String(o), isLiar[o] ? el(\"span\", { class: \"lie\" }, \" liar\") : \"\"),\n\
\x20\x20\x20\x20\x20\x20el(\"td\", {}, got && got.initial >= 0 ? bit(0, got.initial) : \"\\u2013\"), counts(got ? got.echo : [], 1), counts(got ? got.ready : [], 2), acc, it));\n\
\x20\x20}\n\
\x20\x20if (!rows.length) rows.push(el(\"tr\", {}, el(\"td\", { colspan: 6, class: \"soft\" }, isLiar[me] ? \"A liar has no journal here.\" : \"Nothing heard or said of this step yet.\")));\n\
\x20\x20$(\"places\").replaceChildren(...rows);\n\
\x20\x20const last = [];\n\
\x20\x20for (let i = heardEnd - 1; i >= mm.lifeHeard[life] && last.length < 8; i--) {\n\
\x20\x20\x20\x20const c = mm.heard[i];\n\
\x20\x20\x20\x20if (only >= 0 && questionOf(placeOf(c)) !== only) continue;\n\
\x20\x20\x20\x20last.push(el(\"li\", {}, el(\"span\", { class: \"no\" }, num(R.events[mm.heardAt[i] - 1][0])), \"from \" + mm.from[i] + \" \", glyph(c), \" of \" + originOf(placeOf(c)) + \", \" + roundOf(placeOf(c)) + \".\" + stepOf(placeOf(c)) + \" \",\n\
\x20\x20\x20\x20\x20\x20isLiar[mm.from[i]] ? el(\"span\", { class: \"lie\" }, \"lie \") : \"\", mm.how[i] === \"news\" ? \"\" : mm.how[i]));\n\
\x20\x20}\n\
\x20\x20$(\"heardlast\").replaceChildren(...(last.length ? last : [el(\"li\", { class: \"soft\" }, \"Nothing yet.\")]));\n\
}\n\
const liesBy = new Map();\n\
function liesOf(m) { if (!liesBy.has(m)) liesBy.set(m, kinds.lie.filter((e) => R.events[e - 1][2] === m)); return liesBy.get(m); }\n\
\n\
// ---- lists ---------------------------------------------------------------------------------------------------\n\
function around() {\n\
\x20\x20const cur = stepOfEvent(at), list = [];\n\
\x20\x20for (let s = Math.max(1, cur - 7); s <= Math.min(stepsEnd(), Math.max(cur, 1) + 4); s++) {\n\
\x20\x20\x20\x20const e = eventOfStep(s), item = el(\"li\", s > cur ? { class: \"later\" } : {}, el(\"span\", { class: \"no\" }, num(R.events[e - 1][0])), ...brief(e));\n\
\x20\x20\x20\x20if (e === at) item.setAttribute(\"aria-current\", \"step\");\n\
\x20\x20\x20\x20list.push(item);\n\
\x20\x20}\n\
\x20\x20$(\"around\").replaceChildren(...list);\n\
}\n\
function decisionsTable() {\n\
\x20\x20const all = only < 0 ? R.decided : R.decided.filter((d) => d[1] === only), most = 200;\n\
\x20\x20$(\"decisions\").replaceChildren(...all.slice(0, most).map(([m, q, r, b, no]) => {\n\
\x20\x20\x20\x20if (no < 0) return el(\"tr\", {}, ...[q, el(\"span\", { class: \"glyph v\" + b }, String(b)), m, r, \"later\"].map((x) => el(\"td\", {}, typeof x === \"number\" ? String(x) : x)));\n\
\x20\x20\x20\x20const button = el(\"button\", { type: \"button\", \"aria-label\": \"Go to event \" + no }, num(no));\n\
\x20\x20\x20\x20button.addEventListener(\"click\", () => go(eventOfNumber(no)));\n\
\x20\x20\x20\x20return el(\"tr\", {}, el(\"td\", {}, String(q)), el(\"td\", {}, el(\"span\", { class: \"glyph v\" + b }, String(b))), el(\"td\", {}, String(m)), el(\"td\", {}, String(r)), el(\"td\", {}, button));\n\
\x20\x20}));\n\
\x20\x20const total = all.length;\n\
\x20\x20$(\"decmore\").textContent = total > most ? \"The first \" + num(most) + \" of \" + num(total) + \". Choose a question to see its own.\" : total ? \"\" : \"Nothing is decided in this run\" + (only < 0 ? \".\" : \" on this question.\");\n\
}\n\
function eventOfNumber(no) {\n\
\x20\x20let low = 0, high = E;\n\
\x20\x20while (low < high) { const mid = (low + high) >> 1; if (R.events[mid][0] <= no) low = mid + 1; else high = mid; }\n\
\x20\x20return low;\n\
}\n\
\n\
// ---- the ribbon: where the decisions, lies and crashes are ---------------------------------------------------\n\
function ribbon() {\n\
\x20\x20const c = $(\"ribbon\"), W = c.clientWidth, H = 16, ratio = window.devicePixelRatio || 1;\n\
\x20\x20if (!W) return;\n\
\x20\x20c.width = W * ratio; c.height = H * ratio;\n\
\x20\x20const g = c.getContext(\"2d\"), css = getComputedStyle(document.documentElement), inner = W - 16;\n\
\x20\x20g.scale(ratio, ratio);\n\
\x20\x20const seen = new Set(), end = Math.max(1, stepsEnd());\n\
\x20\x20const put = (list, colour, shape) => {\n\
\x20\x20\x20\x20g.fillStyle = g.strokeStyle = css.getPropertyValue(colour).trim();\n\
\x20\x20\x20\x20for (const e of list) {\n\
\x20\x20\x20\x20\x20\x20const s = stepOfEvent(e);\n\
\x20\x20\x20\x20\x20\x20if (steps && steps[s - 1] !== e) continue;\n\
\x20\x20\x20\x20\x20\x20const x = 8 + Math.round(inner * s / end), key = shape + x;\n\
\x20\x20\x20\x20\x20\x20if (seen.has(key)) continue;\n\
\x20\x20\x20\x20\x20\x20seen.add(key);\n\
\x20\x20\x20\x20\x20\x20if (shape === \"d\") { g.beginPath(); g.moveTo(x, 0); g.lineTo(x + 4.5, 4.5); g.lineTo(x, 9); g.lineTo(x - 4.5, 4.5); g.fill(); }\n\
\x20\x20\x20\x20\x20\x20if (shape === \"l\") { g.fillRect(x - 0.75, 10, 1.5, 6); }\n\
\x20\x20\x20\x20\x20\x20if (shape === \"x\") { g.lineWidth = 1.4; g.beginPath(); g.moveTo(x - 3, 1); g.lineTo(x + 3, 7); g.moveTo(x + 3, 1); g.lineTo(x - 3, 7); g.stroke(); }\n\
\x20\x20\x20\x20}\n\
\x20\x20};\n\
\x20\x20put(kinds.lie, \"--lie\", \"l\");\n\
\x20\x20put(kinds.trouble, \"--lie\", \"x\");\n\
\x20\x20put(kinds.decision, \"--good\", \"d\");\n\
}\n\
\n\
// ---- moving --------------------------------------------------------------------------------------------------\n\
let heavy = 0;\n\
function show(all) {\n\
\x20\x20const cur = stepOfEvent(at);\n\
\x20\x20$(\"slide\").value = cur;\n\
\x20\x20$(\"slide\").setAttribute(\"aria-valuetext\", at ? \"event \" + R.events[at - 1][0] + \", \" + cur + \" of \" + stepsEnd() : \"start\");\n\
\x20\x20if (document.activeElement !== $(\"number\")) $(\"number\").value = at ? R.events[at - 1][0] : 0;\n\
\x20\x20if (view === \"circle\") { if (!box) layCircle(); drawCircle(playing && !still.matches && flight < 1 ? flight : 1); } else drawChart();\n\
\x20\x20const now = performance.now();\n\
\x20\x20if (!all && playing && now - heavy < 120) return;\n\
\x20\x20heavy = now;\n\
\x20\x20$(\"now\").setAttribute(\"aria-live\", playing ? \"off\" : \"polite\");\n\
\x20\x20if (at) $(\"now\").replaceChildren(el(\"b\", {}, num(R.events[at - 1][0]) + \" \"), ...tell(at, false));\n\
\x20\x20else $(\"now\").textContent = \"Before the first event. \" + (stepsEnd() ? \"Press Play, or step with the arrow keys.\" : \"No event is about this question.\");\n\
\x20\x20panel(); around();\n\
}\n\
function go(e) { at = Math.max(0, Math.min(E, e)); flight = 1; show(true); }\n\
function goStep(s) { go(eventOfStep(Math.max(0, Math.min(stepsEnd(), s)))); }\n\
function pause() { playing = false; $(\"play\").textContent = \"Play\"; show(true); }\n\
function start() {\n\
\x20\x20if (stepOfEvent(at) >= stepsEnd()) at = 0;\n\
\x20\x20playing = true; $(\"play\").textContent = \"Pause\"; then = performance.now(); carry = 0; flight = 0;\n\
\x20\x20requestAnimationFrame(frame);\n\
}\n\
function frame(now) {\n\
\x20\x20if (!playing) return;\n\
\x20\x20const speed = Number($(\"speed\").value), passed = Math.min(0.25, (now - then) / 1000);\n\
\x20\x20then = now;\n\
\x20\x20carry += passed * speed;\n\
\x20\x20const on = Math.floor(carry);\n\
\x20\x20if (on > 0) {\n\
\x20\x20\x20\x20carry -= on;\n\
\x20\x20\x20\x20const s = Math.min(stepsEnd(), stepOfEvent(at) + on);\n\
\x20\x20\x20\x20at = eventOfStep(s);\n\
\x20\x20\x20\x20if (s >= stepsEnd()) { flight = 1; pause(); return; }\n\
\x20\x20}\n\
\x20\x20const flies = speed <= 5 && !still.matches && view === \"circle\";\n\
\x20\x20flight = flies ? Math.min(1, carry / 0.6) : 1;\n\
\x20\x20if (on > 0) show(false); else if (flies) drawCircle(flight);\n\
\x20\x20requestAnimationFrame(frame);\n\
}\n\
function jump(what, back) {\n\
\x20\x20const list = what === \"me\" ? memberEvents[me] : kinds[what];\n\
\x20\x20let i = back ? upTo(list, at - 1) - 1 : upTo(list, at);\n\
\x20\x20while (steps && i >= 0 && i < list.length && steps[upTo(steps, list[i]) - 1] !== list[i]) i += back ? -1 : 1;\n\
\x20\x20if (i >= 0 && i < list.length) { if (playing) pause(); const e = list[i]; if (what !== \"me\") { me = actorOf(R.events[e - 1]); $(\"me\").value = me; } go(e); return true; }\n\
\x20\x20$(\"now\").textContent = \"There is no \" + (back ? \"earlier\" : \"later\") + \" one.\";\n\
\x20\x20return false;\n\
}\n\
function filter(q) {\n\
\x20\x20only = q; steps = null;\n\
\x20\x20if (q >= 0) {\n\
\x20\x20\x20\x20const list = [];\n\
\x20\x20\x20\x20for (let e = 1; e <= E; e++) if (touches(R.events[e - 1], q)) list.push(e);\n\
\x20\x20\x20\x20steps = list; askQ = q;\n\
\x20\x20\x20\x20at = eventOfStep(stepOfEvent(at));\n\
\x20\x20}\n\
\x20\x20$(\"slide\").max = stepsEnd();\n\
\x20\x20ribbon(); decisionsTable(); show(true);\n\
}\n\
\n\
// ---- the start -----------------------------------------------------------------------------------------------\n\
$(\"title\").textContent = \"Run of \" + R.name;\n\
document.title = \"Run of \" + R.name;\n\
const skippedTotal = Object.values(R.skipped).reduce((a, b) => a + b, 0);\n\
$(\"what\").textContent = `${many(n, \"member\")}, at most ${t} ${t === 1 ? \"lies\" : \"lie\"}${R.liars.length ? \" (here \" + (R.liars.length === 1 ? \"member \" : \"members \") + R.liars.join(\", \") + \")\" : \" (here none)\"}; ${many(R.questions, \"question\")}; ${many(R.total, \"event\")}, ${num(E)} shown.`;\n\
const WHY = { nothing: \"with nothing to deliver or a broken link\", \"not-up\": \"for a member that is down or stopped\", running: \"to open a member that runs\",\n\
\x20\x20\"wrong-side\": \"with a liar in a correct member's place or the reverse\", \"no-such\": \"for a member or question that isn't there\" };\n\
const outs = [];\n\
if (skippedTotal) outs.push(\"Not shown: \" + many(skippedTotal, \"skipped event\") + \", which changed nothing (\" + Object.entries(R.skipped).filter(([, v]) => v).map(([k, v]) => num(v) + \" \" + (WHY[k] || k)).join(\", \") + \").\");\n\
if (R.left_out) outs.push(\"Shown are the first \" + many(E, \"event\") + \" that did something; \" + num(R.left_out) + (R.left_out === 1 ? \" later one is\" : \" later ones are\") + \" left out. The decisions are those of the whole run. bracha simulate --trace FILE has all events.\");\n\
$(\"out\").textContent = outs.join(\" \");\n\
$(\"out\").hidden = !outs.length;\n\
if (!R.left_out) $(\"out\").style.borderLeftColor = \"var(--line)\";\n\
SPEEDS.forEach((s) => $(\"speed\").append(el(\"option\", { value: s }, num(s) + \" a second\")));\n\
$(\"speed\").value = 2;\n\
for (let m = 0; m < n; m++) $(\"me\").append(el(\"option\", { value: m }, m + (isLiar[m] ? \" (liar)\" : \"\")));\n\
while (isLiar[me] && me < n - 1) me++;\n\
$(\"me\").value = me;\n\
$(\"only\").append(el(\"option\", { value: -1 }, \"all\"));\n\
for (let q = 0; q < R.questions; q++) { $(\"only\").append(el(\"option\", { value: q }, String(q))); $(\"askq\").append(el(\"option\", { value: q }, String(q))); }\n\
$(\"number\").max = E ? R.events[E - 1][0] : 0;\n\
$(\"first\").onclick = () => { if (playing) pause(); goStep(0); };\n\
$(\"last\").onclick = () => { if (playing) pause(); goStep(stepsEnd()); };\n\
$(\"back\").onclick = () => { if (playing) pause(); goStep(stepOfEvent(at) - 1); };\n\
$(\"next\").onclick = () => { if (playing) pause(); goStep(stepOfEvent(at) + 1); };\n\
$(\"play\").onclick = () => playing ? pause() : start();\n\
$(\"slide\").oninput = () => { if (playing) pause(); goStep(Number($(\"slide\").value)); };\n\
$(\"number\").onchange = () => { if (playing) pause(); const e = eventOfNumber(Number($(\"number\").value)); go(steps ? eventOfStep(stepOfEvent(e)) : e); };\n\
$(\"only\").onchange = () => filter(Number($(\"only\").value));\n\
$(\"jump\").onclick = () => jump($(\"kind\").value, false);\n\
$(\"jumpback\").onclick = () => jump($(\"kind\").value, true);\n\
$(\"me\").onchange = () => { me = Number($(\"me\").value); show(true); };\n\
$(\"askq\").onchange = () => { askQ = Number($(\"askq\").value); follow = false; askR = 1; askS = 1; show(true); };\n\
$(\"askr\").onchange = () => { const r = Number($(\"askr\").value); follow = r === 0; if (r) { askR = r; askS = askS || 1; } show(true); };\n\
const views = { circle: \"Circle\", chart: \"Columns\" };\n\
Object.keys(views).forEach((v) => { $(v).onclick = () => { view = v; for (const w in views) $(w).setAttribute(\"aria-pressed\", w === v); box = null; show(true); }; });\n\
document.addEventListener(\"keydown\", (k) => {\n\
\x20\x20if (k.ctrlKey || k.metaKey || k.altKey) return;\n\
\x20\x20const on = k.target, field = /^(INPUT|SELECT|TEXTAREA)$/.test(on.tagName);\n\
\x20\x20if (field || (on.tagName === \"BUTTON\" && (k.key === \" \" || k.key === \"Enter\")) || on.tagName === \"SUMMARY\") return;\n\
\x20\x20const keys = {\n\
\x20\x20\x20\x20\" \": () => playing ? pause() : start(), ArrowLeft: () => $(\"back\").onclick(), ArrowRight: () => $(\"next\").onclick(),\n\
\x20\x20\x20\x20Home: () => $(\"first\").onclick(), End: () => $(\"last\").onclick(),\n\
\x20\x20\x20\x20PageUp: () => { if (playing) pause(); goStep(stepOfEvent(at) - 100); }, PageDown: () => { if (playing) pause(); goStep(stepOfEvent(at) + 100); },\n\
\x20\x20\x20\x20d: () => jump(\"decision\", k.shiftKey), l: () => jump(\"lie\", k.shiftKey), c: () => jump(\"trouble\", k.shiftKey),\n\
\x20\x20};\n\
\x20\x20const act = keys[k.key] || keys[k.key.toLowerCase()];\n\
\x20\x20if (act) { k.preventDefault(); act(); return; }\n\
\x20\x20if (/^[0-9]$/.test(k.key) && Number(k.key) < n) { me = Number(k.key); $(\"me\").value = me; show(true); }\n\
});\n\
let sized = 0;\n\
new ResizeObserver(() => { const w = $(\"stage\").clientWidth; if (w !== sized) { sized = w; box = null; ribbon(); show(true); } }).observe($(\"stage\"));\n\
matchMedia(\"(prefers-color-scheme: dark)\").addEventListener(\"change\", () => { ribbon(); show(true); });\n\
filter(-1);\n\
// #event=17&member=2&view=chart&question=0 in the address leads to a moment of the run\n\
const want = new URLSearchParams(location.hash.slice(1));\n\
if (want.has(\"member\") && Number(want.get(\"member\")) < n) { me = Math.max(0, Math.floor(Number(want.get(\"member\")) || 0)); $(\"me\").value = me; }\n\
if (want.has(\"question\")) { const q = Number(want.get(\"question\")); if (q >= 0 && q < R.questions) { $(\"only\").value = q; filter(q); } }\n\
if (want.get(\"view\") === \"chart\") $(\"chart\").click();\n\
if (want.has(\"event\")) go(eventOfNumber(Number(want.get(\"event\")) || 0));\n\
document.documentElement.dataset.ready = \"yes\";\n\
document.documentElement.dataset.events = E;\n\
// For tests: reads, and the same moves as the buttons.\n\
window.brachaRun = { at: () => at, go, goStep, jump, filter, know, validOf, M, R, gives, kinds, decisionOf, touches, upTo, stateAt };\n\
})();\n\
</script>\n\
</body>\n\
</html>\n\
";
