//! Text of `html/live.html`. Written by `tools/pages`: change the page, and run that.

/// The page of a cluster.
pub(crate) const LIVE: &str = "<!DOCTYPE html>\n\
<html lang=\"en\">\n\
<head>\n\
<meta charset=\"utf-8\">\n\
<meta name=\"viewport\" content=\"width=device-width, initial-scale=1\">\n\
<meta name=\"color-scheme\" content=\"light dark\">\n\
<meta name=\"referrer\" content=\"no-referrer\">\n\
<meta http-equiv=\"Content-Security-Policy\" content=\"default-src 'none'; connect-src 'self'; script-src 'sha256-hFKZ+Xyy5zDAqu3jgo2avE6TXrEDxfmaRAvJjSoEluU='; style-src 'sha256-XVniBvl1O6+WLDxC9FTeWsTryPkTksJimd839yo/5Fs='; img-src data:; base-uri 'none'; form-action 'none'; require-trusted-types-for 'script'; trusted-types 'none'\">\n\
<link rel=\"icon\" href=\"data:,\">\n\
<title>bracha cluster</title>\n\
<style>\n\
:root {\n\
\x20\x20--bg: #f4f6f8; --card: #ffffff; --ink: #1a1f26; --soft: #55606c; --line: #cfd6de; --hair: #e6eaef; --cell: #b9c3cd;\n\
\x20\x20--zero: #0067a8; --zero-ink: #ffffff; --one: #f0a81c; --one-ink: #1a1f26; --open: #6b4fc0; --spent: #5f6672;\n\
\x20\x20--bad: #c4122f; --bad-bg: #fdecee; --warn-bg: #fff4dc; --good: #1a7a3c; --focus: #3a48c4; --pick: #e9ecff;\n\
}\n\
@media (prefers-color-scheme: dark) {\n\
\x20\x20:root {\n\
\x20\x20\x20\x20--bg: #101418; --card: #191f26; --ink: #e8ecf1; --soft: #a2adb9; --line: #3a444f; --hair: #28303a; --cell: #46515d;\n\
\x20\x20\x20\x20--zero: #5db6f0; --zero-ink: #0b1116; --one: #f2b63c; --one-ink: #0b1116; --open: #b7a2ff; --spent: #9aa4b0;\n\
\x20\x20\x20\x20--bad: #ff7186; --bad-bg: #3a171d; --warn-bg: #372b10; --good: #56c97c; --focus: #a4b0ff; --pick: #262e4d;\n\
\x20\x20}\n\
}\n\
* { box-sizing: border-box; }\n\
[hidden] { display: none !important; }\n\
html { -webkit-text-size-adjust: 100%; }\n\
body { margin: 0; background: var(--bg); color: var(--ink); font: 15px/1.45 system-ui, -apple-system, \"Segoe UI\", \"DejaVu Sans\", sans-serif; }\n\
h1 { font-size: 1.2rem; margin: 0; }\n\
h2 { font-size: 1rem; margin: 0 0 .45rem; }\n\
p { margin: .3rem 0; }\n\
button, input { font: inherit; color: inherit; min-height: 34px; border: 1px solid var(--line); border-radius: 6px; background: var(--card); padding: .15rem .6rem; }\n\
input[type=radio], input[type=checkbox] { min-height: 0; width: 1.1em; height: 1.1em; margin: 0; accent-color: var(--focus); }\n\
button { cursor: pointer; }\n\
button:hover { border-color: var(--soft); }\n\
button:disabled { opacity: .45; cursor: default; }\n\
button.main { background: var(--focus); border-color: var(--focus); color: var(--card); font-weight: 600; }\n\
:focus-visible { outline: 3px solid var(--focus); outline-offset: 2px; }\n\
header, main { max-width: 1880px; margin: 0 auto; padding: .7rem .9rem; }\n\
header { padding-bottom: 0; }\n\
.soft { color: var(--soft); }\n\
.bad { color: var(--bad); font-weight: 600; }\n\
.card { background: var(--card); border: 1px solid var(--line); border-radius: 10px; padding: .75rem .85rem; min-width: 0; }\n\
.banner { border-radius: 8px; padding: .55rem .8rem; margin: .6rem 0 0; border: 2px solid var(--bad); background: var(--bad-bg); font-weight: 600; }\n\
.banner.warn { border-color: var(--one); background: var(--warn-bg); }\n\
.title { display: flex; flex-wrap: wrap; gap: .3rem .8rem; align-items: baseline; }\n\
.pill { border: 2px solid var(--good); color: var(--good); border-radius: 1em; padding: 0 .6em; font-weight: 600; font-size: .86rem; white-space: nowrap; }\n\
.pill.off { border-color: var(--bad); color: var(--bad); }\n\
.tiles { display: flex; flex-wrap: wrap; gap: .6rem; margin-top: .7rem; }\n\
.tile { background: var(--card); border: 1px solid var(--line); border-radius: 10px; padding: .45rem .7rem; min-width: 0; flex: 1 1 6.4rem; }\n\
.tile .name { color: var(--soft); font-size: .82rem; }\n\
.tile b { display: block; white-space: nowrap; font-size: 1.25rem; font-variant-numeric: tabular-nums; line-height: 1.25; }\n\
.tile.wide { flex: 3 1 17rem; }\n\
.tile canvas { display: block; width: 100%; height: 38px; }\n\
main { display: grid; gap: .75rem; grid-template-columns: minmax(0, 1fr); }\n\
body.gone main, body.gone .tiles { opacity: .55; }\n\
#ring svg { display: block; margin: 0 auto; }\n\
svg text { fill: var(--ink); font-family: inherit; }\n\
.scroll { position: relative; overflow: auto; max-height: 23rem; }\n\
table { border-collapse: collapse; width: 100%; font-size: .88rem; font-variant-numeric: tabular-nums; }\n\
th, td { text-align: right; padding: .24rem .45rem; border-bottom: 1px solid var(--hair); white-space: nowrap; }\n\
th:first-child, td:first-child, th:nth-child(2), td:nth-child(2) { text-align: left; }\n\
th { color: var(--soft); font-weight: 600; }\n\
thead th { position: sticky; top: 0; background: var(--card); z-index: 1; }\n\
tbody th { color: var(--ink); }\n\
tr.picked > * { background: var(--pick); }\n\
.key { display: flex; flex-wrap: wrap; gap: .25rem .9rem; margin: 0 0 .5rem; padding: 0; list-style: none; font-size: .86rem; }\n\
.key li { display: inline-flex; gap: .4em; align-items: center; }\n\
.key canvas { width: 16px; height: 16px; }\n\
#squares { overflow-y: auto; overflow-x: hidden; max-height: 34rem; border-radius: 4px; }\n\
#grid { display: block; cursor: crosshair; }\n\
#read { min-height: 3em; margin-top: .5rem; }\n\
.row { display: flex; flex-wrap: wrap; gap: .5rem; align-items: center; }\n\
.row h2 { margin: 0; }\n\
form .row + .row { margin-top: .5rem; }\n\
form label { display: inline-flex; gap: .4rem; align-items: center; }\n\
form .wide { width: 100%; }\n\
form input[type=number] { width: 6.5em; }\n\
form input[type=password] { flex: 1 1 8em; min-width: 6em; width: 100%; }\n\
fieldset { border: 0; margin: 0; padding: 0; display: inline-flex; gap: .9rem; align-items: center; }\n\
fieldset legend { float: left; padding: 0; margin-right: .4rem; }\n\
#feed { list-style: none; margin: 0; padding: 0; font-size: .88rem; height: 20rem; overflow-y: auto; }\n\
#feed li { padding: .13rem .1rem; border-bottom: 1px solid var(--hair); overflow-wrap: anywhere; display: grid; grid-template-columns: 4.9em 1.9em minmax(0, 1fr); gap: .3em; align-items: baseline; }\n\
#feed:empty::before { content: \"Nothing yet.\"; color: var(--soft); }\n\
#feed time { color: var(--soft); font-variant-numeric: tabular-nums; }\n\
.sign { display: inline-block; min-width: 1.55em; text-align: center; border-radius: 3px; font-weight: 700; line-height: 1.4; border: 1px solid transparent; }\n\
.sign { forced-color-adjust: none; }\n\
.sign.s0 { background: var(--zero); color: var(--zero-ink); border-radius: 1em; }\n\
.sign.s1 { background: var(--one); color: var(--one-ink); }\n\
.sign.sp { border: 1px solid var(--open); color: var(--open); }\n\
.sign.sx { border: 1px dashed var(--spent); color: var(--spent); }\n\
.sign.sb { background: var(--bad-bg); color: var(--bad); border-color: var(--bad); }\n\
.sign.sg { color: var(--good); border-color: var(--good); }\n\
abbr { text-decoration: none; }\n\
@media (min-width: 641px) and (max-width: 899px), (min-width: 1200px) { .nar { display: none; } }\n\
@media (min-width: 900px) and (max-width: 1199px) { .den { display: none; } th, td { padding-left: .3rem; padding-right: .3rem; } }\n\
@media (max-width: 1599px) { .more { display: none; } }\n\
.vh { position: absolute; width: 1px; height: 1px; overflow: hidden; clip-path: inset(50%); white-space: nowrap; }\n\
@media (min-width: 900px) {\n\
\x20\x20main { grid-template-columns: minmax(0, 1fr) minmax(0, 1fr); }\n\
}\n\
@media (min-width: 1400px) {\n\
\x20\x20main { grid-template-columns: minmax(25rem, 34rem) minmax(0, 1fr) minmax(20rem, 25rem); }\n\
\x20\x20#right { display: flex; flex-direction: column; gap: .75rem; }\n\
\x20\x20#feed { height: 30rem; }\n\
\x20\x20#squares { max-height: 48rem; }\n\
}\n\
@media (max-width: 899px) { #right { display: contents; } }\n\
@media (min-width: 900px) and (max-width: 1399px) { #right { grid-column: 1 / -1; display: grid; grid-template-columns: 1fr 1fr; gap: .75rem; } }\n\
@media (max-width: 640px) {\n\
\x20\x20header, main { padding-left: .55rem; padding-right: .55rem; }\n\
\x20\x20.card { padding: .6rem .6rem; }\n\
\x20\x20#squares { max-height: 24rem; }\n\
\x20\x20th, td { padding-left: .2rem; padding-right: .2rem; }\n\
\x20\x20table { font-size: .82rem; }\n\
\x20\x20.den { display: none; }\n\
\x20\x20.word { position: absolute; width: 1px; height: 1px; overflow: hidden; clip-path: inset(50%); }\n\
\x20\x20.tile { padding: .35rem .5rem; }\n\
\x20\x20.tiles { gap: .4rem; }\n\
\x20\x20#feed { height: 15rem; }\n\
}\n\
</style>\n\
</head>\n\
<body>\n\
<header>\n\
\x20\x20<div class=\"title\"><h1 id=\"name\">bracha cluster</h1><span class=\"pill off\" id=\"pill\">connecting</span> <span class=\"soft\" id=\"size\"></span></div>\n\
\x20\x20<div id=\"gone\" class=\"banner\" role=\"alert\" hidden></div>\n\
\x20\x20<div id=\"short\" class=\"banner warn\" role=\"status\" hidden></div>\n\
\x20\x20<div class=\"tiles\">\n\
\x20\x20\x20\x20<div class=\"tile\"><span class=\"name\">Members up</span><b id=\"nup\">–</b></div>\n\
\x20\x20\x20\x20<div class=\"tile\"><span class=\"name\">Decided</span><b id=\"ndec\">–</b></div>\n\
\x20\x20\x20\x20<div class=\"tile\"><span class=\"name\">Proposed, open</span><b id=\"nopen\">–</b></div>\n\
\x20\x20\x20\x20<div class=\"tile\"><span class=\"name\">Unproposed</span><b id=\"nfree\">–</b></div>\n\
\x20\x20\x20\x20<div class=\"tile\"><span class=\"name\">Spent</span><b id=\"nspent\">–</b></div>\n\
\x20\x20\x20\x20<div class=\"tile wide\"><span class=\"name\">Decisions a second, last minute: <span id=\"rate\">–</span></span><canvas id=\"spark\" role=\"img\" aria-label=\"Decisions in each second of the last minute\"></canvas></div>\n\
\x20\x20</div>\n\
</header>\n\
<main>\n\
\x20\x20<section class=\"card\" aria-labelledby=\"mname\">\n\
\x20\x20\x20\x20<h2 id=\"mname\">Members</h2>\n\
\x20\x20\x20\x20<div id=\"ring\" aria-hidden=\"true\"></div>\n\
\x20\x20\x20\x20<p class=\"soft\" id=\"ringsays\"></p>\n\
\x20\x20\x20\x20<div class=\"scroll\" tabindex=\"0\" role=\"region\" aria-label=\"Table of the members\"><table aria-label=\"Members\">\n\
\x20\x20\x20\x20\x20\x20<thead><tr><th scope=\"col\"><abbr title=\"Member\">No.</abbr></th><th scope=\"col\">State</th><th scope=\"col\">In</th><th scope=\"col\">Out</th><th scope=\"col\"><abbr id=\"saidby\" title=\"Statements that it said\">State<span class=\"den\">ments</span><span class=\"nar\">m.</span></abbr></th><th scope=\"col\"><abbr id=\"decidedby\" title=\"Questions that it decided\">Dec<span class=\"den\">ided</span><span class=\"nar\">.</span></abbr></th><th scope=\"col\"><abbr title=\"Questions on which it says otherwise than t + 1 others\">Contra<span class=\"more\">dicts</span></abbr></th></tr></thead>\n\
\x20\x20\x20\x20\x20\x20<tbody id=\"members\"></tbody></table></div>\n\
\x20\x20</section>\n\
\x20\x20<section class=\"card\" aria-labelledby=\"qname\">\n\
\x20\x20\x20\x20<h2 id=\"qname\">Questions</h2>\n\
\x20\x20\x20\x20<ul class=\"key\" id=\"key\"></ul>\n\
\x20\x20\x20\x20<div id=\"squares\"><canvas id=\"grid\" tabindex=\"0\" role=\"slider\" aria-label=\"Question\" aria-valuemin=\"0\" aria-valuemax=\"0\" aria-valuenow=\"0\" aria-describedby=\"how\"></canvas></div>\n\
\x20\x20\x20\x20<p id=\"how\" class=\"vh\">Arrow keys go from question to question, Page up and Page down a row of ten, Home and End to the first and the last; Enter asks the members about it.</p>\n\
\x20\x20\x20\x20<div class=\"row\" id=\"read\"><span id=\"what\">Choose a square.</span> <button id=\"ask\" type=\"button\" disabled>What members say</button></div>\n\
\x20\x20\x20\x20<p id=\"says\" class=\"soft\" aria-live=\"polite\"></p>\n\
\x20\x20</section>\n\
\x20\x20<div id=\"right\">\n\
\x20\x20\x20\x20<section class=\"card\" aria-labelledby=\"pname\">\n\
\x20\x20\x20\x20\x20\x20<h2 id=\"pname\">Propose</h2>\n\
\x20\x20\x20\x20\x20\x20<form id=\"form\" autocomplete=\"off\">\n\
\x20\x20\x20\x20\x20\x20\x20\x20<div class=\"row\"><label>Question <input id=\"pq\" type=\"number\" min=\"0\" step=\"1\" required></label> <button id=\"free\" type=\"button\">First unproposed</button></div>\n\
\x20\x20\x20\x20\x20\x20\x20\x20<div class=\"row\"><fieldset><legend>Bit</legend><label><input type=\"radio\" name=\"bit\" value=\"0\" required> 0</label><label><input type=\"radio\" name=\"bit\" value=\"1\"> 1</label></fieldset></div>\n\
\x20\x20\x20\x20\x20\x20\x20\x20<div class=\"row\" id=\"tokenrow\"><label class=\"wide\">Token <input id=\"token\" type=\"password\" autocomplete=\"off\" spellcheck=\"false\"></label></div>\n\
\x20\x20\x20\x20\x20\x20\x20\x20<div class=\"row\"><button class=\"main\" id=\"send\" type=\"submit\">Propose to all members</button></div>\n\
\x20\x20\x20\x20\x20\x20</form>\n\
\x20\x20\x20\x20\x20\x20<p id=\"said\" role=\"status\"></p>\n\
\x20\x20\x20\x20</section>\n\
\x20\x20\x20\x20<section class=\"card\" aria-labelledby=\"fname\">\n\
\x20\x20\x20\x20\x20\x20<div class=\"row\"><h2 id=\"fname\">Events</h2> <label class=\"soft\"><input type=\"checkbox\" id=\"hold\"> hold still</label> <span class=\"soft\" id=\"held\"></span></div>\n\
\x20\x20\x20\x20\x20\x20<ol id=\"feed\" tabindex=\"0\" aria-labelledby=\"fname\"></ol>\n\
\x20\x20\x20\x20</section>\n\
\x20\x20</div>\n\
</main>\n\
<script>\n\
\"use strict\";\n\
(() => {\n\
const $ = (id) => document.getElementById(id);\n\
const SVG = \"http://www.w3.org/2000/svg\";\n\
// What the gateway sends is only ever put in as text; nothing is read as HTML.\n\
function el(name, props, ...children) {\n\
\x20\x20const e = document.createElement(name);\n\
\x20\x20for (const key in props || {}) if (key === \"class\") e.className = props[key]; else e.setAttribute(key, props[key]);\n\
\x20\x20e.append(...children);\n\
\x20\x20return e;\n\
}\n\
function sv(name, props, ...children) {\n\
\x20\x20const e = document.createElementNS(SVG, name);\n\
\x20\x20for (const key in props || {}) e.setAttribute(key, props[key]);\n\
\x20\x20e.append(...children);\n\
\x20\x20return e;\n\
}\n\
const num = (x) => String(x).replace(/\\B(?=(\\d{3})+(?!\\d))/g, \"\\u202f\");\n\
const css = (name) => getComputedStyle(document.documentElement).getPropertyValue(name).trim();\n\
const still = matchMedia(\"(prefers-reduced-motion: reduce)\"), dark = matchMedia(\"(prefers-color-scheme: dark)\");\n\
const whole = (x, most) => Number.isInteger(x) && x >= 0 && x <= most;   // numbers from the gateway are looked at\n\
const MOST = Number.MAX_SAFE_INTEGER;\n\
const clock = (ms) => new Date(ms).toTimeString().slice(0, 8);\n\
\n\
const STATES = { \"-\": \"unproposed\", p: \"proposed\", 0: \"decided 0\", 1: \"decided 1\", x: \"spent\" };\n\
// The questions that are shown are Q from F on: all of a cluster; of a chain, whose epochs have E each, those that the gateway knows.\n\
let F = 0, Q = 0, E = 0, chain = false, n = 0, t = 0, states = [], tally = { \"-\": 0, p: 0, 0: 0, 1: 0, x: 0 }, members = [], life = \"\", after = 0;\n\
let cursor = 0, picked = -1, heardAt = 0, goneAt = 0, tries = 0, source = null;\n\
const fresh = new Map();                        // question -> when it was decided, for a short mark\n\
const perSecond = new Map();                    // second -> decisions\n\
const feed = { queue: [], dropped: 0 };\n\
\n\
// ---- the gateway ---------------------------------------------------------------------------------------------\n\
async function get(path) {\n\
\x20\x20const answer = await fetch(path, { headers: { Accept: \"application/json\" }, cache: \"no-store\", signal: AbortSignal.timeout(8000) });\n\
\x20\x20if (!answer.ok) throw new Error(\"status \" + answer.status);\n\
\x20\x20// A cluster's number may be above 2^53, so it is kept as text.\n\
\x20\x20return JSON.parse((await answer.text()).replace(/^\\{\"cluster\":(\\d+)/, '{\"cluster\":\"$1\"'));\n\
}\n\
function alive() {\n\
\x20\x20heardAt = Date.now(); tries = 0;\n\
\x20\x20if (goneAt) { line(\"g\", \"\\u2713\", \"the gateway is back\"); goneAt = 0; }\n\
\x20\x20document.body.classList.remove(\"gone\");\n\
\x20\x20$(\"gone\").hidden = true;\n\
\x20\x20$(\"pill\").textContent = \"live\"; $(\"pill\").className = \"pill\";\n\
}\n\
function gone(why) {\n\
\x20\x20tries++;\n\
\x20\x20if (!goneAt) { goneAt = heardAt || Date.now(); line(\"b\", \"!\", \"the gateway is gone: \" + why); }\n\
\x20\x20document.body.classList.add(\"gone\");\n\
\x20\x20$(\"pill\").textContent = \"gone\"; $(\"pill\").className = \"pill off\";\n\
\x20\x20const banner = $(\"gone\"), words = \"The gateway is gone since \" + clock(goneAt) + \". What is shown is from then. The cluster itself may well go on.\";\n\
\x20\x20if (banner.hidden || banner.firstChild.textContent !== words) banner.replaceChildren(el(\"span\", {}, words), \" \", el(\"span\", { class: \"soft\", \"aria-hidden\": \"true\" }));\n\
\x20\x20banner.lastChild.textContent = \"Tried \" + num(tries) + (tries === 1 ? \" time.\" : \" times.\");\n\
\x20\x20banner.hidden = false;\n\
\x20\x20title();\n\
}\n\
async function pollMembers() {\n\
\x20\x20try {\n\
\x20\x20\x20\x20const r = await get(\"v1/members\");\n\
\x20\x20\x20\x20if (!whole(r.n, 64) || !whole(r.t, 21) || !whole(r.questions, 4096) || !Array.isArray(r.members)) throw new Error(\"not the members of a cluster\");\n\
\x20\x20\x20\x20const other = r.n !== n || r.questions !== E || r.cluster !== cluster || chain !== (r.chain === true);\n\
\x20\x20\x20\x20cluster = r.cluster; n = r.n; t = r.t; propose = r.propose; E = r.questions; chain = r.chain === true;\n\
\x20\x20\x20\x20members = r.members.filter((m) => whole(m.member, n - 1)).slice(0, 64);\n\
\x20\x20\x20\x20const silent = source && Date.now() - told > 15000;      // a stream that is open has a beat every five seconds\n\
\x20\x20\x20\x20if (silent) { source.close(); source = null; }\n\
\x20\x20\x20\x20if (other || silent) await load();\n\
\x20\x20\x20\x20if (lost && Date.now() - lost > 6000) gone(\"its stream doesn't come back\"); else alive();\n\
\x20\x20\x20\x20showMembers();\n\
\x20\x20\x20\x20if (!source && !resting) follow();\n\
\x20\x20} catch (fault) { gone(reason(fault)); }\n\
\x20\x20clearTimeout(pollAt);\n\
\x20\x20pollAt = setTimeout(pollMembers, goneAt ? Math.min(10000, 1000 * 1.6 ** Math.min(6, tries)) : 2000);\n\
}\n\
let cluster = null, propose = \"token\", pollAt = 0;\n\
// When the stream went away, when it was opened or told something last, and how far our clock is ahead of the gateway's.\n\
let lost = 0, told = 0, skew = Infinity;\n\
function reason(fault) { return fault.name === \"TimeoutError\" ? \"no answer in time\" : fault instanceof TypeError ? \"no connection\" : String(fault.message).slice(0, 80); }\n\
async function load() {\n\
\x20\x20const r = await get(\"v1/questions\" + (chain ? \"\" : \"?from=0&to=\" + E)), before = F;\n\
\x20\x20if (!whole(r.from, MOST) || !whole(r.to, MOST) || typeof r.states !== \"string\" || r.states.length > 65536 || r.states.length !== r.to - r.from || /[^\\-p01x]/.test(r.states)) throw new Error(\"not the states of the questions\");\n\
\x20\x20F = r.from; Q = r.states.length; states = Array.from(r.states); life = String(r.life); after = r.after;\n\
\x20\x20fresh.clear(); dirty.clear(); skew = Infinity;\n\
\x20\x20tally = { \"-\": 0, p: 0, 0: 0, 1: 0, x: 0 };\n\
\x20\x20for (const s of states) tally[s]++;\n\
\x20\x20if (Array.isArray(r.lately)) { const now = Math.floor(Date.now() / 1000); r.lately.slice(-60).forEach((c, i, all) => { if (whole(c, 1e6)) perSecond.set(now - all.length + i, c); }); }\n\
\x20\x20cursor = Math.max(0, Math.min(cursor + before - F, Q - 1));\n\
\x20\x20$(\"grid\").setAttribute(\"aria-valuemin\", F); $(\"grid\").setAttribute(\"aria-valuemax\", F + Q - 1); $(\"pq\").min = F; $(\"pq\").max = F + Q - 1;\n\
\x20\x20layGrid(); showCounts(); readOut();\n\
}\n\
async function again() {\n\
\x20\x20if (source) source.close();\n\
\x20\x20source = null;\n\
\x20\x20try { await load(); if (!source && !resting) follow(); } catch (fault) { gone(reason(fault)); }\n\
}\n\
// The place of an event's question among those that are shown, if it has one. All is loaded anew where a chain has come past them.\n\
function placed(d) {\n\
\x20\x20if (!whole(d.question, MOST)) return -1;\n\
\x20\x20if (chain && source && d.question >= F + Q) again();\n\
\x20\x20return d.question >= F && d.question < F + Q ? d.question - F : -1;\n\
}\n\
function follow() {\n\
\x20\x20if (source) source.close();\n\
\x20\x20source = new EventSource(\"v1/decisions?after=\" + encodeURIComponent(life + \".\" + after));\n\
\x20\x20told = Date.now();\n\
\x20\x20const on = (name, act) => source.addEventListener(name, (e) => {\n\
\x20\x20\x20\x20let d;\n\
\x20\x20\x20\x20try { d = JSON.parse(e.data); } catch (fault) { return; }\n\
\x20\x20\x20\x20const k = Number(String(e.lastEventId).split(\".\")[1]);      // events of all kinds are numbered, so one that comes back misses none\n\
\x20\x20\x20\x20if (Number.isInteger(k)) after = k;\n\
\x20\x20\x20\x20alive();\n\
\x20\x20\x20\x20told = Date.now();\n\
\x20\x20\x20\x20act(d);\n\
\x20\x20});\n\
\x20\x20on(\"decision\", (d) => {\n\
\x20\x20\x20\x20const q = placed(d);\n\
\x20\x20\x20\x20if (q < 0 || (d.bit !== 0 && d.bit !== 1)) return;\n\
\x20\x20\x20\x20const now = Date.now(), timed = whole(d.time, 1e14), at = timed ? d.time : now;\n\
\x20\x20\x20\x20if (timed) skew = Math.min(skew, now - at);              // one that comes late is counted in the second in which it was decided\n\
\x20\x20\x20\x20const second = Math.floor((timed ? at + skew : now) / 1000);\n\
\x20\x20\x20\x20perSecond.set(second, (perSecond.get(second) || 0) + 1);\n\
\x20\x20\x20\x20set(q, String(d.bit)); fresh.set(q, performance.now());\n\
\x20\x20\x20\x20line(String(d.bit), String(d.bit), \"question \" + d.question + \" is decided: \" + d.bit + (whole(d.ms, 1e9) ? \", after \" + num(d.ms) + \" ms\" : \"\"), at);\n\
\x20\x20});\n\
\x20\x20on(\"proposed\", (d) => { const q = placed(d); if (q >= 0 && states[q] === \"-\") { set(q, \"p\"); line(\"p\", \"p\", \"question \" + d.question + \" is proposed\"); } });\n\
\x20\x20on(\"spent\", (d) => { const q = placed(d); if (q >= 0 && \"-p\".includes(states[q])) { set(q, \"x\"); line(\"x\", \"\\u2715\", \"question \" + d.question + \" is spent: it has no round left\"); } });\n\
\x20\x20on(\"member\", (d) => { if (whole(d.member, n - 1)) { clearTimeout(pollAt); pollAt = setTimeout(pollMembers, 150); line(d.state === \"up\" ? \"g\" : \"b\", d.state === \"up\" ? \"\\u2713\" : \"\\u2715\", \"member \" + d.member + \" is \" + stateWord(d.state)); } });\n\
\x20\x20on(\"contradiction\", (d) => { if (whole(d.member, n - 1) && whole(d.question, MOST) && (d.says === 0 || d.says === 1)) line(\"b\", \"!\", \"member \" + d.member + \" says \" + (d.says === 0 ? 0 : 1) + \" on question \" + d.question + \", more than \" + others() + \" say \" + (d.says === 0 ? 1 : 0)); });\n\
\x20\x20on(\"restarted\", async () => { line(\"g\", \"\\u21bb\", \"the gateway was started anew\"); await again(); });\n\
\x20\x20on(\"beat\", (d) => { if (whole(d.time, 1e14)) skew = Date.now() - d.time; });\n\
\x20\x20source.onopen = () => { lost = 0; };\n\
\x20\x20source.onerror = () => { lost = lost || Date.now(); if (source && source.readyState === EventSource.CLOSED) source = null; };\n\
}\n\
// A tab that nobody sees gives its connection back after a minute, since browsers open six to an origin.\n\
let resting = false, restAt = 0;\n\
document.addEventListener(\"visibilitychange\", () => {\n\
\x20\x20clearTimeout(restAt);\n\
\x20\x20if (document.hidden) restAt = setTimeout(() => { resting = true; if (source) source.close(); source = null; lost = 0; }, 60000);\n\
\x20\x20else if (resting) { resting = false; pollMembers(); }\n\
});\n\
setInterval(() => { if (!goneAt && heardAt && Date.now() - heardAt > 15000) gone(\"nothing came for 15 seconds\"); }, 2500);\n\
\n\
// ---- questions -----------------------------------------------------------------------------------------------\n\
function set(q, s) { if (states[q] === s) return; tally[states[q]]--; tally[s]++; states[q] = s; dirty.add(q); soon(); }\n\
const dirty = new Set();\n\
let waiting = false, grid = { cols: 1, size: 12, gap: 2, rows: 1 };\n\
function soon() {\n\
\x20\x20if (waiting) return;\n\
\x20\x20waiting = true;\n\
\x20\x20const act = () => {\n\
\x20\x20\x20\x20waiting = false;\n\
\x20\x20\x20\x20for (const q of dirty) cell(q);\n\
\x20\x20\x20\x20if (dirty.has(cursor)) readOut();\n\
\x20\x20\x20\x20dirty.clear(); showCounts(); flush();\n\
\x20\x20\x20\x20for (const [q, at] of fresh) if (performance.now() - at > 900) { fresh.delete(q); dirty.add(q); }\n\
\x20\x20\x20\x20if (fresh.size || dirty.size) setTimeout(soon, 300);\n\
\x20\x20};\n\
\x20\x20document.hidden ? setTimeout(act, 500) : setTimeout(() => requestAnimationFrame(act), 60);\n\
}\n\
let ink = {};\n\
function inks() { for (const k of [\"card\", \"cell\", \"ink\", \"zero\", \"zero-ink\", \"one\", \"one-ink\", \"open\", \"spent\", \"focus\"]) ink[k] = css(\"--\" + k); }\n\
// Each state has a form of its own besides its colour: empty, half, ring, bar, cross.\n\
function paint(g, s, x, y, w) {\n\
\x20\x20g.clearRect(x, y, w, w);\n\
\x20\x20const thin = Math.max(1, w / 12);\n\
\x20\x20if (s === \"-\") { g.strokeStyle = ink.cell; g.lineWidth = 1; g.strokeRect(x + 1, y + 1, w - 2, w - 2); }\n\
\x20\x20if (s === \"p\") {\n\
\x20\x20\x20\x20g.strokeStyle = g.fillStyle = ink.open; g.lineWidth = 1; g.strokeRect(x + 1, y + 1, w - 2, w - 2);\n\
\x20\x20\x20\x20g.beginPath(); g.moveTo(x + 1, y + w - 1); g.lineTo(x + w - 1, y + w - 1); g.lineTo(x + 1, y + 1); g.fill();\n\
\x20\x20}\n\
\x20\x20if (s === \"0\") {\n\
\x20\x20\x20\x20g.fillStyle = ink.zero; g.fillRect(x, y, w, w);\n\
\x20\x20\x20\x20g.strokeStyle = ink[\"zero-ink\"]; g.lineWidth = Math.max(1.4, w / 9);\n\
\x20\x20\x20\x20g.beginPath(); g.ellipse(x + w / 2, y + w / 2, w * 0.2, w * 0.29, 0, 0, 7); g.stroke();\n\
\x20\x20}\n\
\x20\x20if (s === \"1\") { g.fillStyle = ink.one; g.fillRect(x, y, w, w); g.fillStyle = ink[\"one-ink\"]; const b = Math.max(1.8, w / 6); g.fillRect(x + w / 2 - b / 2, y + w * 0.2, b, w * 0.6); }\n\
\x20\x20if (s === \"x\") {\n\
\x20\x20\x20\x20g.strokeStyle = ink.spent; g.lineWidth = Math.max(1.3, thin); g.strokeRect(x + 1, y + 1, w - 2, w - 2);\n\
\x20\x20\x20\x20g.beginPath(); g.moveTo(x + 2, y + 2); g.lineTo(x + w - 2, y + w - 2); g.moveTo(x + w - 2, y + 2); g.lineTo(x + 2, y + w - 2); g.stroke();\n\
\x20\x20}\n\
}\n\
function layGrid() {\n\
\x20\x20inks();\n\
\x20\x20const c = $(\"grid\"), wide = $(\"squares\").clientWidth, ratio = window.devicePixelRatio || 1;\n\
\x20\x20if (!wide || !Q) return;\n\
\x20\x20const high = innerWidth >= 1400 ? 740 : innerWidth > 640 ? 530 : 370, gapOf = (w) => w > 16 ? 4 : 2;\n\
\x20\x20let size = 30;\n\
\x20\x20while (size > 10 && Math.ceil(Q / Math.max(1, Math.floor((wide - 4) / (size + gapOf(size))))) * (size + gapOf(size)) + 4 > high) size--;\n\
\x20\x20const gap = gapOf(size), cols = Math.max(1, Math.floor((wide - 4) / (size + gap))), rows = Math.ceil(Q / cols);\n\
\x20\x20grid = { cols, size, gap, rows };\n\
\x20\x20const W = 4 + cols * (size + gap), H = 4 + rows * (size + gap);\n\
\x20\x20c.width = W * ratio; c.height = H * ratio; c.style.width = W + \"px\"; c.style.height = H + \"px\";\n\
\x20\x20grid.g = c.getContext(\"2d\"); grid.g.scale(ratio, ratio);\n\
\x20\x20for (let q = 0; q < Q; q++) cell(q);\n\
}\n\
const placeOf = (q) => [3 + (q % grid.cols) * (grid.size + grid.gap), 3 + Math.floor(q / grid.cols) * (grid.size + grid.gap)];\n\
function cell(q) {\n\
\x20\x20if (!grid.g) return;\n\
\x20\x20const g = grid.g, [x, y] = placeOf(q), s = grid.size;\n\
\x20\x20g.clearRect(x - 2, y - 2, s + 4, s + 4);\n\
\x20\x20paint(g, states[q], x, y, s);\n\
\x20\x20if (fresh.has(q) && !still.matches) { g.strokeStyle = ink.ink; g.lineWidth = 2; g.strokeRect(x - 1, y - 1, s + 2, s + 2); }\n\
\x20\x20if (q === cursor) { g.strokeStyle = ink.focus; g.lineWidth = 2.4; g.strokeRect(x - 1, y - 1, s + 2, s + 2); }\n\
}\n\
function move(q) {\n\
\x20\x20const old = cursor;\n\
\x20\x20cursor = Math.max(0, Math.min(Q - 1, q));\n\
\x20\x20cell(old); cell(cursor); readOut();\n\
\x20\x20const [, y] = placeOf(cursor), box = $(\"squares\");\n\
\x20\x20if (y < box.scrollTop) box.scrollTop = y - 4;\n\
\x20\x20if (y + grid.size > box.scrollTop + box.clientHeight) box.scrollTop = y + grid.size - box.clientHeight + 4;\n\
}\n\
function readOut() {\n\
\x20\x20if (!Q) return;\n\
\x20\x20const words = \"Question \" + (F + cursor) + \": \" + STATES[states[cursor]];\n\
\x20\x20$(\"what\").textContent = words + \".\";\n\
\x20\x20$(\"grid\").setAttribute(\"aria-valuenow\", F + cursor);\n\
\x20\x20$(\"grid\").setAttribute(\"aria-valuetext\", words);\n\
\x20\x20$(\"ask\").disabled = false;\n\
}\n\
$(\"grid\").addEventListener(\"keydown\", (k) => {\n\
\x20\x20const step = { ArrowRight: 1, ArrowLeft: -1, ArrowDown: grid.cols, ArrowUp: -grid.cols, PageDown: 10 * grid.cols, PageUp: -10 * grid.cols }[k.key];\n\
\x20\x20if (step) { k.preventDefault(); if (cursor + step >= 0 && cursor + step < Q) move(cursor + step); }\n\
\x20\x20if (k.key === \"Home\") { k.preventDefault(); move(0); }\n\
\x20\x20if (k.key === \"End\") { k.preventDefault(); move(Q - 1); }\n\
\x20\x20if (k.key === \"Enter\") { k.preventDefault(); ask(); }\n\
});\n\
function under(e) {\n\
\x20\x20const box = $(\"grid\").getBoundingClientRect(), x = Math.floor((e.clientX - box.left - 2) / (grid.size + grid.gap)), y = Math.floor((e.clientY - box.top - 2) / (grid.size + grid.gap));\n\
\x20\x20const q = y * grid.cols + x;\n\
\x20\x20return x >= 0 && x < grid.cols && y >= 0 && q < Q ? q : -1;\n\
}\n\
$(\"grid\").addEventListener(\"click\", (e) => { const q = under(e); if (q >= 0) { move(q); $(\"pq\").value = F + q; $(\"says\").textContent = \"\"; } });\n\
$(\"grid\").addEventListener(\"mousemove\", (e) => { const q = under(e); $(\"grid\").title = q < 0 ? \"\" : F + q + \": \" + STATES[states[q]]; });\n\
async function ask() {\n\
\x20\x20const q = F + cursor;\n\
\x20\x20$(\"says\").textContent = \"Asking ..\";\n\
\x20\x20try {\n\
\x20\x20\x20\x20const r = await get(\"v1/questions/\" + q), by = new Map();\n\
\x20\x20\x20\x20for (const m of Array.isArray(r.members) ? r.members.slice(0, 64) : []) {\n\
\x20\x20\x20\x20\x20\x20if (!whole(m.member, n - 1)) continue;\n\
\x20\x20\x20\x20\x20\x20const key = m.says === 0 || m.says === 1 ? \"say \" + m.says : \"don't say\";\n\
\x20\x20\x20\x20\x20\x20if (!by.has(key)) by.set(key, []);\n\
\x20\x20\x20\x20\x20\x20by.get(key).push(m.member);\n\
\x20\x20\x20\x20}\n\
\x20\x20\x20\x20const state = String(r.state).slice(0, 20) + (r.bit === 0 || r.bit === 1 ? \" \" + r.bit : \"\");\n\
\x20\x20\x20\x20const parts = [...by].sort().map(([key, who]) => ranges(who) + \" \" + (who.length === 1 ? key.replace(\"don't\", \"doesn't\").replace(\"say \", \"says \") : key));\n\
\x20\x20\x20\x20$(\"says\").textContent = \"Question \" + q + \" is \" + state + (r.state === \"decided\" ? \", as more than \" + t + (t === 1 ? \" member says. \" : \" members say. \") : \". \") + (parts.length ? \"Members: \" + parts.join(\"; \") + \".\" : \"\");\n\
\x20\x20} catch (fault) { $(\"says\").textContent = \"No answer: \" + reason(fault) + \".\"; }\n\
}\n\
$(\"ask\").onclick = ask;\n\
function ranges(list) {\n\
\x20\x20const out = [];\n\
\x20\x20for (let i = 0; i < list.length; i++) {\n\
\x20\x20\x20\x20let j = i;\n\
\x20\x20\x20\x20while (j + 1 < list.length && list[j + 1] === list[j] + 1) j++;\n\
\x20\x20\x20\x20out.push(j > i + 1 ? list[i] + \" to \" + list[j] : list.slice(i, j + 1).join(\", \"));\n\
\x20\x20\x20\x20i = j;\n\
\x20\x20}\n\
\x20\x20return out.join(\", \");\n\
}\n\
function showCounts() {\n\
\x20\x20$(\"ndec\").textContent = num(tally[0] + tally[1]); $(\"nopen\").textContent = num(tally.p); $(\"nfree\").textContent = num(tally[\"-\"]); $(\"nspent\").textContent = num(tally.x);\n\
\x20\x20for (const s in STATES) { const c = $(\"count\" + s); if (c) c.textContent = num(tally[s]); }\n\
}\n\
function layKey() {\n\
\x20\x20inks();\n\
\x20\x20$(\"key\").replaceChildren(...[\"-\", \"p\", \"0\", \"1\", \"x\"].map((s) => {\n\
\x20\x20\x20\x20const c = el(\"canvas\", { \"aria-hidden\": \"true\", width: 32, height: 32 }), g = c.getContext(\"2d\");\n\
\x20\x20\x20\x20g.scale(2, 2); paint(g, s, 0.5, 0.5, 15);\n\
\x20\x20\x20\x20return el(\"li\", {}, c, STATES[s], el(\"b\", { id: \"count\" + s }, \"\\u2013\"));\n\
\x20\x20}));\n\
}\n\
\n\
// ---- members -------------------------------------------------------------------------------------------------\n\
const others = () => t === 1 ? \"1 other\" : t + \" others\";\n\
function stateWord(s) { return { up: \"up\", silent: \"not reachable\", stopped: \"stopped\" }[s] || \"unknown\"; }\n\
function showMembers() {\n\
\x20\x20const up = members.filter((m) => m.state === \"up\").length, want = n - t;\n\
\x20\x20$(\"nup\").textContent = up + \" of \" + n;\n\
\x20\x20$(\"name\").textContent = \"bracha cluster\" + (cluster === null || cluster === undefined ? \"\" : \" \" + String(cluster).slice(0, 20));\n\
\x20\x20$(\"size\").textContent = n + \" members, at most \" + t + (t === 1 ? \" lies, \" : \" lie, \") + (chain ? \"a chain: questions \" + num(F) + \" to \" + num(F + Q - 1) : num(Q) + \" questions\");\n\
\x20\x20const newest = chain ? \" in the newest epoch\" : \"\";\n\
\x20\x20$(\"saidby\").title = \"Statements that it said\" + newest; $(\"decidedby\").title = \"Questions that it decided\" + newest;\n\
\x20\x20$(\"short\").hidden = up >= want;\n\
\x20\x20if (up < want) $(\"short\").textContent = \"Only \" + up + \" of \" + n + \" members are up and reachable from the gateway; \" + want + \" are needed. Nothing new may be decided until more are.\";\n\
\x20\x20const liars = members.filter((m) => Array.isArray(m.contradicts) ? m.contradicts.length : m.contradicts > 0);\n\
\x20\x20const rows = members.map((m) => {\n\
\x20\x20\x20\x20const c = Array.isArray(m.contradicts) ? m.contradicts.length : whole(m.contradicts, 4096) ? m.contradicts : 0, s = m.state;\n\
\x20\x20\x20\x20const mark = s === \"up\" ? el(\"span\", { class: \"sign sg\", \"aria-hidden\": \"true\" }, \"\\u2713\") : el(\"span\", { class: \"sign sb\", \"aria-hidden\": \"true\" }, s === \"stopped\" ? \"\\u25a0\" : \"\\u2715\");\n\
\x20\x20\x20\x20const links = (v) => el(\"td\", s === \"up\" && whole(v, 64) && v < want ? { class: \"bad\" } : {}, ...(whole(v, 64) && s === \"up\" ? [String(v), el(\"span\", { class: \"den\" }, \"/\" + n)] : [\"\\u2013\"]));\n\
\x20\x20\x20\x20const row = el(\"tr\", { \"data-m\": m.member, class: m.member === picked ? \"picked\" : \"\" }, el(\"th\", { scope: \"row\" }, String(m.member)), el(\"td\", {}, mark, \" \", el(\"span\", { class: \"word\" }, s === \"silent\" ? \"gone\" : stateWord(s))),\n\
\x20\x20\x20\x20\x20\x20links(m.in), links(m.out), el(\"td\", {}, whole(m.statements, 2 ** 40) ? num(m.statements) : \"\\u2013\"), el(\"td\", {}, whole(m.decided, 4096) ? num(m.decided) : \"\\u2013\"), el(\"td\", c ? { class: \"bad\" } : {}, c ? \"! \" + num(c) : \"0\"));\n\
\x20\x20\x20\x20row.addEventListener(\"click\", () => { picked = picked === m.member ? -1 : m.member; showMembers(); });\n\
\x20\x20\x20\x20return row;\n\
\x20\x20});\n\
\x20\x20$(\"members\").replaceChildren(...rows);\n\
\x20\x20$(\"ringsays\").replaceChildren(liars.length ? el(\"span\", { class: \"bad\" }, \"Contradicted by more than \" + others() + \": member \" + ranges(liars.map((m) => m.member)) + \". \") : \"No member contradicts the others. \",\n\
\x20\x20\x20\x20\"Left arc: links in; right arc: links out; full is \" + n + \".\");\n\
\x20\x20ring(); title();\n\
}\n\
function title() { document.title = (goneAt ? \"\\u2715 gone\" : (members.filter((m) => m.state === \"up\").length + \"/\" + n)) + \" \\u2013 bracha cluster \" + (cluster ?? \"\"); }\n\
function ring() {\n\
\x20\x20const W = Math.max(260, $(\"ring\").clientWidth), H = n > 16 ? Math.min(W, 460) : Math.min(W, 300);\n\
\x20\x20const R = Math.min(W, H) / 2 - (n > 24 ? 26 : 34), r = Math.max(4.5, Math.min(22, Math.PI * R / n * 0.6)), label = r > 7;\n\
\x20\x20const svg = sv(\"svg\", { width: W, height: H, viewBox: `0 0 ${W} ${H}` }), at = (m) => { const a = -Math.PI / 2 + 2 * Math.PI * m / n; return [W / 2 + R * Math.cos(a), H / 2 + R * Math.sin(a), a]; };\n\
\x20\x20for (const m of members) {\n\
\x20\x20\x20\x20const [x, y, a] = at(m.member), up = m.state === \"up\", lies = Array.isArray(m.contradicts) ? m.contradicts.length : m.contradicts > 0;\n\
\x20\x20\x20\x20const half = (v, side) => {\n\
\x20\x20\x20\x20\x20\x20const share = up && whole(v, 64) ? v / n : 0, rr = r + 4.5, sweep = Math.PI * share, w = r > 9 ? 4 : 2.5;\n\
\x20\x20\x20\x20\x20\x20const p = (b) => [x + side * rr * Math.sin(b), y + rr * Math.cos(b)];\n\
\x20\x20\x20\x20\x20\x20const arc = (len, colour) => { if (len <= 0) return; const [ax, ay] = p(0.12), [bx, by] = p(Math.max(0.13, len - 0.12)); svg.append(sv(\"path\", { d: `M ${ax} ${ay} A ${rr} ${rr} 0 0 ${side > 0 ? 0 : 1} ${bx} ${by}`, fill: \"none\", stroke: colour, \"stroke-width\": w })); };\n\
\x20\x20\x20\x20\x20\x20arc(Math.PI, \"var(--line)\");\n\
\x20\x20\x20\x20\x20\x20arc(sweep, v >= n - t ? \"var(--good)\" : \"var(--bad)\");\n\
\x20\x20\x20\x20};\n\
\x20\x20\x20\x20half(m.in, -1); half(m.out, 1);\n\
\x20\x20\x20\x20if (m.member === picked) svg.append(sv(\"circle\", { cx: x, cy: y, r: r + 9, fill: \"none\", stroke: \"var(--focus)\", \"stroke-width\": 2.5 }));\n\
\x20\x20\x20\x20const common = { fill: up ? \"var(--card)\" : \"var(--hair)\", stroke: lies ? \"var(--bad)\" : up ? \"var(--ink)\" : \"var(--soft)\", \"stroke-width\": lies ? 2.6 : 2, \"stroke-dasharray\": up ? \"none\" : \"3 3\" };\n\
\x20\x20\x20\x20const hex = [0, 1, 2, 3, 4, 5].map((i) => (x + r * Math.cos(i * Math.PI / 3)).toFixed(1) + \",\" + (y + r * Math.sin(i * Math.PI / 3)).toFixed(1)).join(\" \");\n\
\x20\x20\x20\x20const body = lies ? sv(\"polygon\", { points: hex, ...common }) : m.state === \"stopped\" ? sv(\"rect\", { x: x - r * 0.85, y: y - r * 0.85, width: r * 1.7, height: r * 1.7, ...common }) : sv(\"circle\", { cx: x, cy: y, r, ...common });\n\
\x20\x20\x20\x20const g = sv(\"g\", {}, body), size = Math.min(14, r * 1.05);\n\
\x20\x20\x20\x20if (label) { const w = sv(\"text\", { x, y: y + size * 0.36, \"text-anchor\": \"middle\", \"font-size\": size, \"font-weight\": 700 }); w.textContent = m.member; g.append(w); }\n\
\x20\x20\x20\x20else if (m.member % 4 === 0) { const w = sv(\"text\", { x: x + (r + 13) * Math.cos(a), y: y + (r + 13) * Math.sin(a) + 3, \"text-anchor\": \"middle\", \"font-size\": 9 }); w.textContent = m.member; g.append(w); }\n\
\x20\x20\x20\x20if (!up || lies) { const o = r + (r > 9 ? 15 : 12), w = sv(\"text\", { x: x - o * Math.cos(a), y: y - o * Math.sin(a) + 5, \"text-anchor\": \"middle\", \"font-size\": r > 9 ? 15 : 12, \"font-weight\": 800 }); w.style.fill = \"var(--bad)\"; w.textContent = lies ? \"!\" : m.state === \"stopped\" ? \"\\u25a0\" : \"\\u2715\"; g.append(w); }\n\
\x20\x20\x20\x20g.style.cursor = \"pointer\";\n\
\x20\x20\x20\x20g.addEventListener(\"click\", () => { picked = picked === m.member ? -1 : m.member; showMembers(); const row = document.querySelector('tr[data-m=\"' + m.member + '\"]'); if (row) row.scrollIntoView({ block: \"nearest\" }); });\n\
\x20\x20\x20\x20svg.append(g);\n\
\x20\x20}\n\
\x20\x20const mid = sv(\"text\", { x: W / 2, y: H / 2 - 1, \"text-anchor\": \"middle\", \"font-size\": 22, \"font-weight\": 700 }), low = sv(\"text\", { x: W / 2, y: H / 2 + 18, \"text-anchor\": \"middle\", \"font-size\": 12.5 });\n\
\x20\x20mid.textContent = members.filter((m) => m.state === \"up\").length + \" / \" + n; low.textContent = \"up\";\n\
\x20\x20low.style.fill = \"var(--soft)\";\n\
\x20\x20for (const w of [mid, low]) { w.style.stroke = \"var(--card)\"; w.style.strokeWidth = \"4px\"; w.style.paintOrder = \"stroke\"; }\n\
\x20\x20svg.append(mid, low);\n\
\x20\x20$(\"ring\").replaceChildren(svg);\n\
}\n\
\n\
// ---- the rate ------------------------------------------------------------------------------------------------\n\
function spark() {\n\
\x20\x20const now = Math.floor(Date.now() / 1000);\n\
\x20\x20for (const s of perSecond.keys()) if (s < now - 61) perSecond.delete(s);\n\
\x20\x20const bars = Array.from({ length: 60 }, (_, i) => perSecond.get(now - 60 + i) || 0), most = Math.max(1, ...bars), sum = bars.reduce((a, b) => a + b, 0);\n\
\x20\x20const mean = sum / 60, words = (mean >= 10 ? Math.round(mean) : mean.toFixed(1)) + \" on average, \" + num(Math.max(...bars)) + \" at most\";\n\
\x20\x20$(\"rate\").textContent = goneAt ? \"unknown\" : words;\n\
\x20\x20const c = $(\"spark\"), W = c.clientWidth, H = 38, ratio = window.devicePixelRatio || 1;\n\
\x20\x20c.setAttribute(\"aria-label\", \"Decisions in each second of the last minute: \" + words);\n\
\x20\x20if (!W) return;\n\
\x20\x20c.width = W * ratio; c.height = H * ratio;\n\
\x20\x20const g = c.getContext(\"2d\"); g.scale(ratio, ratio);\n\
\x20\x20g.fillStyle = css(\"--hair\"); g.fillRect(0, H - 1, W, 1);\n\
\x20\x20g.fillStyle = css(\"--focus\");\n\
\x20\x20bars.forEach((b, i) => { const h = b ? Math.max(2, (H - 4) * b / most) : 0; g.fillRect(i * W / 60, H - h, Math.max(1, W / 60 - 1), h); });\n\
}\n\
setInterval(spark, 1000);\n\
\n\
// ---- the feed ------------------------------------------------------------------------------------------------\n\
function line(kind, sign, text, at) { feed.queue.push([kind, sign, text, at || Date.now()]); if (feed.queue.length > 400) { feed.queue.shift(); feed.dropped++; } soon(); }\n\
function flush() {\n\
\x20\x20if ($(\"hold\").checked) { $(\"held\").textContent = feed.queue.length ? num(feed.queue.length + feed.dropped) + \" waiting\" : \"\"; return; }\n\
\x20\x20$(\"held\").textContent = \"\";\n\
\x20\x20if (!feed.queue.length) return;\n\
\x20\x20const list = $(\"feed\"), fragment = document.createDocumentFragment(), most = 200;\n\
\x20\x20if (feed.dropped) feed.queue.unshift([\"x\", \"\\u2026\", num(feed.dropped) + \" events are not listed\", feed.queue[0][3]]);\n\
\x20\x20for (const [kind, sign, text, at] of feed.queue.slice(-most).reverse())\n\
\x20\x20\x20\x20fragment.append(el(\"li\", {}, el(\"time\", {}, clock(at)), el(\"span\", { class: \"sign s\" + kind, \"aria-hidden\": \"true\" }, sign), el(\"span\", {}, text)));\n\
\x20\x20feed.queue = []; feed.dropped = 0;\n\
\x20\x20list.prepend(fragment);\n\
\x20\x20while (list.children.length > most) list.lastChild.remove();\n\
}\n\
$(\"hold\").onchange = flush;\n\
\n\
// ---- proposing -----------------------------------------------------------------------------------------------\n\
$(\"free\").onclick = () => { const q = states.indexOf(\"-\"); $(\"said\").textContent = q < 0 ? \"No question is unproposed.\" : \"\"; if (q >= 0) { $(\"pq\").value = F + q; move(q); } };\n\
$(\"form\").addEventListener(\"submit\", async (e) => {\n\
\x20\x20e.preventDefault();\n\
\x20\x20const q = Number($(\"pq\").value), bit = Number(new FormData($(\"form\")).get(\"bit\")), token = $(\"token\").value;\n\
\x20\x20if (!whole(q, MOST) || q < F || q >= F + Q) { $(\"said\").textContent = \"There is no such question.\"; return; }\n\
\x20\x20if (/[^\\x21-\\x7e]/.test(token)) { $(\"said\").textContent = \"A token has only letters, digits and signs.\"; return; }\n\
\x20\x20$(\"send\").disabled = true; $(\"said\").textContent = \"Proposing ..\";\n\
\x20\x20try {\n\
\x20\x20\x20\x20const headers = { \"Content-Type\": \"application/json\" };\n\
\x20\x20\x20\x20if (token) headers.Authorization = \"Bearer \" + token;\n\
\x20\x20\x20\x20const r = await fetch(\"v1/questions/\" + q, { method: \"POST\", headers, body: JSON.stringify({ bit }), credentials: \"omit\", cache: \"no-store\", signal: AbortSignal.timeout(15000) });\n\
\x20\x20\x20\x20const b = await r.json().catch(() => ({}));\n\
\x20\x20\x20\x20if (r.status === 202 || r.status === 200) {\n\
\x20\x20\x20\x20\x20\x20const took = whole(b.taken, n) ? \" \" + b.taken + \" of \" + n + \" members took it\" + (whole(b.have, n) && b.have ? \"; \" + b.have + \" had a proposal before\" : \"\") + \".\" : \"\";\n\
\x20\x20\x20\x20\x20\x20$(\"said\").textContent = (b.state === \"decided\" ? \"Question \" + q + \" is decided: \" + (b.bit === 0 ? 0 : 1) + \".\" : \"Proposed \" + bit + \" for question \" + q + \".\") + took;\n\
\x20\x20\x20\x20\x20\x20if (b.state !== \"decided\" && states[q - F] === \"-\") set(q - F, \"p\");\n\
\x20\x20\x20\x20} else $(\"said\").textContent = { 401: \"Refused: the token is missing or wrong.\", 403: \"Refused: this gateway takes no proposals from here.\", 404: \"There is no such question.\", 410: \"That was too long ago.\", 429: \"Too many at once: try again in a moment.\", 503: \"Too few members are reachable.\" }[r.status] || \"Refused with status \" + r.status + \".\";\n\
\x20\x20} catch (fault) { $(\"said\").textContent = \"It isn't known whether it was proposed: \" + reason(fault) + \". Proposing again does no harm.\"; }\n\
\x20\x20$(\"send\").disabled = shut;\n\
});\n\
let shut = false;\n\
setInterval(() => {\n\
\x20\x20$(\"tokenrow\").hidden = propose === \"open\";\n\
\x20\x20if (shut === (propose === \"never\")) return;\n\
\x20\x20shut = !shut;\n\
\x20\x20for (const x of $(\"form\").elements) x.disabled = shut;\n\
\x20\x20$(\"said\").textContent = shut ? \"This gateway takes no proposals: it has no token and isn't at a loopback address.\" : \"\";\n\
}, 500);\n\
\n\
// ---- the start -----------------------------------------------------------------------------------------------\n\
layKey();\n\
let sized = 0;\n\
new ResizeObserver(() => { const w = document.documentElement.clientWidth; if (w === sized) return; sized = w; layGrid(); spark(); if (n) ring(); }).observe(document.documentElement);\n\
dark.addEventListener(\"change\", () => { layKey(); layGrid(); spark(); showCounts(); });\n\
pollMembers(); spark();\n\
document.documentElement.dataset.ready = \"yes\";\n\
// For tests: what the page believes.\n\
window.brachaLive = { state: () => ({ n, t, F, Q, tally: { ...tally }, after, life, gone: !!goneAt, tries, members: members.length, cursor, states: states.join(\"\"), feed: $(\"feed\").children.length }), move, layGrid, grid: () => ({ ...grid, g: undefined }) };\n\
})();\n\
</script>\n\
</body>\n\
</html>\n\
";

/// The policy of this page, as a header.
pub(crate) const LIVE_POLICY: &str =
    "default-src 'none'; connect-src 'self'; script-src 'sha256-hFKZ+Xyy5zDAqu3jgo2avE6TXrEDxfmaRAvJjSoEluU='; style-src 'sha256-XVniBvl1O6+WLDxC9FTeWsTryPkTksJimd839yo/5Fs='; img-src data:; base-uri 'none'; form-action 'none'; require-trusted-types-for 'script'; trusted-types 'none'; frame-ancestors 'none'";
