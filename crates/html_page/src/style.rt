/// The style of each page, the content of its `style` element (CSS). It takes nothing from elsewhere.
///
/// Widths from 320 pixels on: only the table of tests scrolls sideways, and its head and the numbers of the tests stay
/// in view. Colours are light or dark as the reader prefers; each text has a contrast of at least 4.5 to what is
/// behind it, and lines of the picture have one of at least 3 (WCAG 2.2, level AA). What has the focus has an outline.
/// On paper nothing is cut off, and the head of the table stands on each sheet; a table of more than eight columns has
/// eight cells in a line, in its head and in each test.
pub const STYLE: &str = "
:root{color-scheme:light dark;--page:#fff;--ink:#1b1b1f;--quiet:#55565c;--edge:#c9cad1;--head:#e9ebf0;
--stripe:#f5f6f9;--line:#0b5cad;--good:#0b6b34;--good-page:#e7f6ec;--bad:#a3161b;--bad-page:#fdeaea;
--odd:#6b3d00;--odd-page:#fff1d6}
@media screen and (prefers-color-scheme:dark){:root{--page:#14161a;--ink:#e8e8ea;--quiet:#a9acb5;
--edge:#3b3f48;--head:#23262d;--stripe:#1b1e24;--line:#7ab8ff;--good:#7fdca0;--good-page:#12301f;
--bad:#ff9a9a;--bad-page:#3a1517;--odd:#ffd58a;--odd-page:#3b2c08}}
*{box-sizing:border-box}
body{margin:0;background:var(--page);color:var(--ink);font:1rem/1.5 system-ui,sans-serif}
main{max-width:80rem;margin:0 auto;padding:1rem}
h1{margin:0 0 .5rem;font-size:clamp(1.2rem,5vw,1.6rem);line-height:1.2;overflow-wrap:anywhere}
h2{margin:2rem 0 .5rem;font-size:1.25rem}
p,ul,figure{margin:.5rem 0}
ul{padding-left:1.25rem}
p,li,summary{overflow-wrap:anywhere}
.verdict{padding:.75rem 1rem;border:1px solid;border-left-width:.5rem;border-radius:.25rem}
.accepted{color:var(--good);background:var(--good-page)}
.refused{color:var(--bad);background:var(--bad-page)}
svg{display:block;width:100%;max-width:36rem;height:auto}
svg text{font-size:150px;fill:var(--ink)}
.axis{fill:none;stroke:var(--quiet);stroke-width:12}
.total{fill:none;stroke:var(--quiet);stroke-width:12;stroke-dasharray:60 40}
polyline{fill:none;stroke:var(--line);stroke-width:24;stroke-linejoin:round;stroke-linecap:round}
figcaption{color:var(--quiet)}
.scroll{width:fit-content;max-width:100%;max-height:80vh;overflow:auto;border:1px solid var(--edge)}
:focus-visible{outline:3px solid var(--line);outline-offset:2px}
table{width:max-content;border-collapse:separate;border-spacing:0;text-align:left}
caption{padding:.3rem .6rem;text-align:left;color:var(--quiet)}
th,td{min-width:6rem;max-width:16rem;padding:.3rem .6rem;vertical-align:top;
border-bottom:1px solid var(--edge);overflow-wrap:anywhere}
th{background:var(--head)}
thead th{position:sticky;top:0;z-index:1}
tbody th{position:sticky;left:0;font-weight:400}
tr>:first-child{min-width:0}
thead th:first-child{left:0;z-index:2}
tr:nth-child(even) td{background:var(--stripe)}
tr td.invalid{color:var(--odd);background:var(--odd-page)}
.mark{white-space:nowrap;padding:0 .3rem;border:1px solid;border-radius:.25rem;font-size:.8rem;
font-weight:700}
details{margin:.75rem 0;padding:.5rem 1rem;border:1px solid var(--edge);border-radius:.25rem}
summary{cursor:pointer;font-weight:600}
.constraints{padding:.5rem .75rem;background:var(--stripe);font-family:ui-monospace,monospace;
list-style:none}
@media (min-width:40rem){main{padding:1rem 2rem}svg text{font-size:100px}}
@media print{.scroll{width:auto;max-height:none;overflow:visible;border:0}
thead th,tbody th{position:static}table{width:auto}th,td{min-width:0}
tr,li,figure{break-inside:avoid}
table:has(th:nth-child(9)) :is(thead,tbody){display:block}
table:has(th:nth-child(9)) tr{display:flex;flex-wrap:wrap;border-bottom:1px solid}
table:has(th:nth-child(9)) :is(th,td){flex:0 0 12.5%;padding:.1rem .3rem;border:0;font-size:.7rem}}
";
