//! What is the same on each page: how shapes look, and the legend that says what they mean.

/// How shapes look. The colours are of those that M. Okabe and K. Ito chose for all kinds of colour vision (2008), and
/// each mode has a pattern of its own beside its colour.
pub const LOOKS: &str = "<defs>
<pattern id=\"mode-S\" width=\"6\" height=\"6\" patternUnits=\"userSpaceOnUse\"><rect width=\"6\" height=\"6\" fill=\"#a6d8f5\"/></pattern>
<pattern id=\"mode-X\" width=\"6\" height=\"6\" patternUnits=\"userSpaceOnUse\"><rect width=\"6\" height=\"6\" fill=\"#d55e00\"/></pattern>
<pattern id=\"mode-IS\" width=\"6\" height=\"6\" patternUnits=\"userSpaceOnUse\"><rect width=\"6\" height=\"6\" fill=\"#fff\"/><circle cx=\"3\" cy=\"3\" r=\"1.6\" fill=\"#009e73\"/></pattern>
<pattern id=\"mode-IX\" width=\"6\" height=\"6\" patternUnits=\"userSpaceOnUse\"><rect width=\"6\" height=\"6\" fill=\"#fff\"/><path d=\"M0 1.5H6M0 4.5H6\" stroke=\"#e69f00\" stroke-width=\"1.7\"/></pattern>
<pattern id=\"mode-SIX\" width=\"6\" height=\"6\" patternUnits=\"userSpaceOnUse\"><rect width=\"6\" height=\"6\" fill=\"#fff\"/><path d=\"M0 6L6 0M-1 1L1 -1M5 7L7 5\" stroke=\"#cc79a7\" stroke-width=\"2.4\"/></pattern>
<marker id=\"head-request\" viewBox=\"0 0 10 10\" refX=\"10\" refY=\"5\" markerWidth=\"9\" markerHeight=\"9\" markerUnits=\"userSpaceOnUse\" orient=\"auto\"><path d=\"M0 0L10 5L0 10z\" fill=\"#0072b2\"/></marker>
<marker id=\"head-reply\" viewBox=\"0 0 10 10\" refX=\"10\" refY=\"5\" markerWidth=\"9\" markerHeight=\"9\" markerUnits=\"userSpaceOnUse\" orient=\"auto\"><path d=\"M1 1L9 5L1 9\" fill=\"none\" stroke=\"#333\" stroke-width=\"1.5\"/></marker>
</defs>
<style>
text{font-family:sans-serif;font-size:11px;fill:#222}
.headline{font-size:17px;font-weight:bold}
.node{font-weight:bold;font-size:12px;text-anchor:middle}
.client{font-size:10px;fill:#555;text-anchor:middle}
.row{font-size:11px;fill:#555;text-anchor:end}
.label{font-size:10px;paint-order:stroke;stroke:#fff;stroke-width:3px;stroke-linejoin:round}
.bar-name{font-size:13px}
.to-right{text-anchor:start}.to-left{text-anchor:end}.centered{text-anchor:middle}
.of-request{fill:#0072b2}.of-reply{fill:#333}
.lane{stroke:#999;stroke-width:1.5}
.request{stroke:#0072b2;stroke-width:1.6;fill:none}
.reply{stroke:#333;stroke-width:1.2;stroke-dasharray:5 2.5;fill:none}
.arrow.request{marker-end:url(#head-request)}.arrow.reply{marker-end:url(#head-reply)}
.under-way{stroke-dasharray:1.5 4}
.hit{stroke:#000;stroke-opacity:0;stroke-width:12;fill:none;pointer-events:stroke}
.touch{fill:none;pointer-events:all}
.copies{stroke:#999;stroke-width:1;stroke-dasharray:1 5}
.deferral{stroke:#000;stroke-width:1;fill:none}.deferred{fill:#000}
.cross{stroke:#000;stroke-width:2.2;fill:none}
.loop{fill:#fff;stroke:#000;stroke-width:1.6;stroke-dasharray:none}
.ask{fill:#000}.leave{fill:#fff;stroke:#000;stroke-width:1.5}
.S{fill:url(#mode-S);stroke:#0072b2}.X{fill:url(#mode-X);stroke:#8a3c00}.IS{fill:url(#mode-IS);stroke:#009e73}
.IX{fill:url(#mode-IX);stroke:#b87f00}.SIX{fill:url(#mode-SIX);stroke:#a34f7d}
.name{font-weight:bold;font-size:13px}
.column{stroke:#bbb;stroke-width:1}.group{fill:#f4f4f4}
.end{font-size:12px}.heading{font-weight:bold}.stuck-text{fill:#c00}
.queued{fill:#fff;stroke-width:1}.waiting{fill-opacity:.3;stroke-dasharray:3 2;stroke-width:1.3}.inside{stroke-width:1.3}
.stuck{stroke:#c00;stroke-width:3}
</style>
";

/// What the shapes mean. A letter takes at most about seven pixels.
pub const LEGEND: &str = "<g>
<line x1=\"16\" y1=\"54\" x2=\"40\" y2=\"54\" class=\"arrow request\"/><text x=\"48\" y=\"58\">request: number, name, mode</text>
<line x1=\"256\" y1=\"54\" x2=\"280\" y2=\"54\" class=\"arrow reply\"/><text x=\"288\" y=\"58\">reply: number, name</text>
<line x1=\"440\" y1=\"54\" x2=\"464\" y2=\"54\" class=\"request under-way\"/><text x=\"472\" y=\"58\">still under way</text>
<path class=\"cross\" d=\"M604 54m-5 -5l10 10m0 -10l-10 10\"/><text x=\"617\" y=\"58\">lost</text>
<path class=\"loop\" d=\"M676 54m5 -3.6a6.2 6.2 0 1 0 1 3.6l-3.4 -2.2m3.4 2.2l2.6 -3\"/><text x=\"691\" y=\"58\">repeated: a copy</text>
<circle cx=\"25\" cy=\"76\" r=\"4\" class=\"ask\"/><text x=\"48\" y=\"80\">asks</text>
<circle cx=\"112\" cy=\"76\" r=\"4\" class=\"leave\"/><text x=\"124\" y=\"80\">leaves</text>
<path class=\"deferral\" d=\"M204 70h-8V82h8\"/><path class=\"deferred\" d=\"M196 70m-3 -3h6v6h-6z\"/><text x=\"214\" y=\"80\">deferred, until the reply is sent</text>
<rect x=\"456\" y=\"69\" width=\"4\" height=\"14\" class=\"queued X\"/><text x=\"472\" y=\"80\">is queued</text>
<rect x=\"571\" y=\"69\" width=\"10\" height=\"14\" class=\"waiting X\"/><text x=\"590\" y=\"80\">waits</text>
<rect x=\"664\" y=\"69\" width=\"18\" height=\"14\" class=\"inside X\"/><text x=\"691\" y=\"80\">holds</text>
<rect x=\"16\" y=\"95\" width=\"18\" height=\"14\" class=\"inside S\"/><text x=\"42\" y=\"106\">S, shared</text>
<rect x=\"124\" y=\"95\" width=\"18\" height=\"14\" class=\"inside X\"/><text x=\"150\" y=\"106\">X, exclusive</text>
<rect x=\"252\" y=\"95\" width=\"18\" height=\"14\" class=\"inside IS\"/><text x=\"278\" y=\"106\">IS, intent shared</text>
<rect x=\"410\" y=\"95\" width=\"18\" height=\"14\" class=\"inside IX\"/><text x=\"436\" y=\"106\">IX, intent exclusive</text>
<rect x=\"588\" y=\"95\" width=\"18\" height=\"14\" class=\"inside SIX\"/><text x=\"614\" y=\"106\">SIX, shared and intent exclusive</text>
</g>
";

/// What the shapes of a mark log mean.
pub const LEGEND_OF_LOG: &str = "<g>
<circle cx=\"25\" cy=\"54\" r=\"4\" class=\"ask\"/><text x=\"42\" y=\"58\">requests: mode, number</text>
<rect x=\"200\" y=\"47\" width=\"10\" height=\"14\" class=\"waiting X\"/><text x=\"219\" y=\"58\">waits</text>
<rect x=\"284\" y=\"47\" width=\"18\" height=\"14\" class=\"inside X\"/><text x=\"311\" y=\"58\">holds</text>
<circle cx=\"384\" cy=\"54\" r=\"4\" class=\"leave\"/><text x=\"397\" y=\"58\">leaves</text>
<path class=\"cross\" d=\"M480 54m-5 -5l10 10m0 -10l-10 10\"/><text x=\"495\" y=\"58\">gives up</text>
<text x=\"590\" y=\"58\">n1 c2: client 2 at node 1</text>
<rect x=\"16\" y=\"73\" width=\"18\" height=\"14\" class=\"inside S\"/><text x=\"42\" y=\"84\">S, shared</text>
<rect x=\"124\" y=\"73\" width=\"18\" height=\"14\" class=\"inside X\"/><text x=\"150\" y=\"84\">X, exclusive</text>
<rect x=\"252\" y=\"73\" width=\"18\" height=\"14\" class=\"inside IS\"/><text x=\"278\" y=\"84\">IS, intent shared</text>
<rect x=\"410\" y=\"73\" width=\"18\" height=\"14\" class=\"inside IX\"/><text x=\"436\" y=\"84\">IX, intent exclusive</text>
<rect x=\"588\" y=\"73\" width=\"18\" height=\"14\" class=\"inside SIX\"/><text x=\"614\" y=\"84\">SIX, shared and intent exclusive</text>
</g>
";
