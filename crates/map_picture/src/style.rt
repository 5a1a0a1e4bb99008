//! The style of the picture.

/// How the classes of the picture look, in a light and in a dark scheme, on a wide page and on a phone. It holds no
/// `<` and no `&`. On a map of 300 vertices or more, and on a phone, the dots and ticks have widths in map units, so
/// that they don't hide the lines; `:has` finds such a map, and a viewer that doesn't know it draws the wider ones.
pub const STYLE: &str = "<style type=\"text/css\">
svg{color-scheme:light dark}
.page{fill:#fff}
path{fill:none;stroke-width:2px;stroke-linecap:round;stroke-linejoin:round;vector-effect:non-scaling-stroke}
.one{stroke:#222}
.one path{stroke-width:3px}
.two{stroke:#888}
.special{stroke:#c2410c}
.one .tick,.two .tick{stroke-width:1.5px}
.vertex{stroke:#1d4ed8;stroke-width:6px}
[id^=sub] path{stroke-width:3px}
.sub0{stroke:#e11d48}
.sub1{stroke:#2563eb}
.sub2{stroke:#16a34a}
.sub3{stroke:#d97706}
.sub4{stroke:#9333ea}
.sub5{stroke:#0891b2}
.node path{stroke:#0f766e;stroke-width:1px;stroke-dasharray:6 4}
.lint path{stroke:#ef4444;stroke-width:14px;stroke-opacity:.5}
.player path{fill:#15803d;stroke:#14532d}
.deathmatch path{fill:#a855f7;stroke:#581c87}
.monster path{fill:#dc2626;stroke:#7f1d1d}
.item path{fill:#eab308;stroke:#854d0e}
.other path{fill:#9ca3af;stroke:#374151}
text{font-family:sans-serif;text-anchor:middle;dominant-baseline:central}
text{stroke:#fff;stroke-width:.2em;paint-order:stroke}
.of-vertex{fill:#1d4ed8}
.of-line{fill:#222}
.of-thing{fill:#7e22ce}
.of-sector{fill:#15803d;font-size:1.5em}
.left-out{fill:#222;text-anchor:start}
svg:has(#vertex299) .vertex{vector-effect:none;stroke-width:8px}
svg:has(#vertex299) .tick{vector-effect:none;stroke-width:2px}
@media (max-width:600px){
.vertex{vector-effect:none;stroke-width:8px}
.one path,[id^=sub] path{stroke-width:1.5px}
.two path{stroke-width:1px}
.one .tick,.two .tick{vector-effect:none;stroke-width:2px}
.lint path{stroke-width:10px}
}
@media (prefers-color-scheme:dark){
.page{fill:#111}
.one{stroke:#eee}
.two{stroke:#888}
.special{stroke:#fb923c}
.vertex{stroke:#60a5fa}
.sub0{stroke:#fb7185}
.sub1{stroke:#93c5fd}
.sub2{stroke:#86efac}
.sub3{stroke:#fcd34d}
.sub4{stroke:#d8b4fe}
.sub5{stroke:#67e8f9}
.node path{stroke:#2dd4bf}
.lint path{stroke:#f87171}
.player path{stroke:#4ade80}
.deathmatch path{stroke:#d8b4fe}
.monster path{stroke:#fca5a5}
.item path{stroke:#fde047}
.other path{stroke:#e5e7eb}
text{stroke:#111}
.of-vertex{fill:#93c5fd}
.of-line{fill:#eee}
.of-thing{fill:#d8b4fe}
.of-sector{fill:#4ade80}
.left-out{fill:#eee}
}
</style>
";

/// How the legend, the scale, the grid and the filled sectors look, in a light and in a dark scheme.
pub const SHEET_STYLE: &str = "<style type=\"text/css\">
.grid{stroke:#94a3b8;stroke-opacity:.35;stroke-linecap:butt;vector-effect:none}
.grid{stroke-width:65536px;stroke-dasharray:2 62;stroke-dashoffset:1}
[class^=floor]{fill-opacity:.55}
.floor0{fill:#2c5aa0}
.floor1{fill:#4a86c5}
.floor2{fill:#7db4dd}
.floor3{fill:#b5d8e8}
.floor4{fill:#f3dc8a}
.floor5{fill:#f2b357}
.floor6{fill:#e07b39}
.floor7{fill:#bf3b2b}
.bar{fill:#222}
svg #legend text{font-size:1em;text-anchor:start;stroke:none;fill:#222}
@media (prefers-color-scheme:dark){
.bar{fill:#eee}
svg #legend text{fill:#eee}
}
</style>
";
