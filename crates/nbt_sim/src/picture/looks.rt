//! How a picture looks: its colours on a light and on a dark background, and what stands before the shapes and after them.
//!
//! The six colours are those of Okabe and Ito, which people with a colour vision deficiency can tell apart; the names stand
//! beside the bars too. A picture loads no script and no other file.

/// How many colours there are: the seventh name has the first one's again.
pub const COLOURS: usize = 6;

/// What stands before the height, the height again, and the shapes.
pub const HEAD: &str = "\
<?xml version=\"1.0\" encoding=\"UTF-8\"?>
<svg xmlns=\"http://www.w3.org/2000/svg\" width=\"1200\" height=\"";

/// What stands between the height and the height again.
pub const VIEW: &str = "\" viewBox=\"0 0 1200 ";

/// What stands after it: the title, the looks of the classes, the hatches of groups, and the head of an arrow.
pub const LOOKS: &str = "\" font-family=\"sans-serif\" font-size=\"12\">
<title>A run of nbt sim</title>
<style>
.page{fill:#ffffff}
.band{fill:#eeeeee}
.time{fill:#444444;font-size:11px}
.silence{fill:#bbbbbb}
.column{stroke:#222222;stroke-width:1.5}
.arrow,.stray{stroke:#222222;stroke-width:1.2}
.arrow{marker-end:url(#head)}
.stray{stroke-dasharray:5 3}
.cross{stroke:#a00000;stroke-width:2}
.dot,.head{fill:#222222}
.words{fill:#111111;stroke:#ffffff;stroke-width:3px;paint-order:stroke}
.side{fill:#333333;font-size:10px;stroke:#ffffff;stroke-width:2px;paint-order:stroke}
.heading{fill:#111111;font-weight:bold}
.lease{stroke-width:3}
.dashed{stroke-dasharray:6 3}
.hold{stroke-width:1}
.hold.c0{fill:#0072b2}.hold.c1{fill:#d55e00}.hold.c2{fill:#009e73}.hold.c3{fill:#cc79a7}.hold.c4{fill:#e69f00}.hold.c5{fill:#56b4e9}
.lease.c0,.g0{stroke:#0072b2}.lease.c1,.g1{stroke:#d55e00}.lease.c2,.g2{stroke:#009e73}.lease.c3,.g3{stroke:#cc79a7}.lease.c4,.g4{stroke:#e69f00}.lease.c5,.g5{stroke:#56b4e9}
.g0{fill:url(#g0)}.g1{fill:url(#g1)}.g2{fill:url(#g2)}.g3{fill:url(#g3)}.g4{fill:url(#g4)}.g5{fill:url(#g5)}
@media (prefers-color-scheme: dark){
.page{fill:#16181c}
.band{fill:#272b31}
.time{fill:#c2c2c2}
.silence{fill:#5a5a5a}
.column,.arrow,.stray{stroke:#dddddd}
.cross{stroke:#ff7070}
.dot,.head{fill:#dddddd}
.words{fill:#f2f2f2;stroke:#16181c}
.side{fill:#d0d0d0;stroke:#16181c}
.heading{fill:#f2f2f2}
}
</style>
<defs>
<marker id=\"head\" viewBox=\"0 0 8 8\" refX=\"8\" refY=\"4\" markerWidth=\"8\" markerHeight=\"8\" markerUnits=\"userSpaceOnUse\" orient=\"auto\"><path class=\"head\" d=\"M0 0L8 4L0 8z\"/></marker>
<pattern id=\"g0\" width=\"5\" height=\"5\" patternUnits=\"userSpaceOnUse\" patternTransform=\"rotate(45)\"><rect width=\"2\" height=\"5\" fill=\"#0072b2\"/></pattern>
<pattern id=\"g1\" width=\"5\" height=\"5\" patternUnits=\"userSpaceOnUse\" patternTransform=\"rotate(45)\"><rect width=\"2\" height=\"5\" fill=\"#d55e00\"/></pattern>
<pattern id=\"g2\" width=\"5\" height=\"5\" patternUnits=\"userSpaceOnUse\" patternTransform=\"rotate(45)\"><rect width=\"2\" height=\"5\" fill=\"#009e73\"/></pattern>
<pattern id=\"g3\" width=\"5\" height=\"5\" patternUnits=\"userSpaceOnUse\" patternTransform=\"rotate(45)\"><rect width=\"2\" height=\"5\" fill=\"#cc79a7\"/></pattern>
<pattern id=\"g4\" width=\"5\" height=\"5\" patternUnits=\"userSpaceOnUse\" patternTransform=\"rotate(45)\"><rect width=\"2\" height=\"5\" fill=\"#e69f00\"/></pattern>
<pattern id=\"g5\" width=\"5\" height=\"5\" patternUnits=\"userSpaceOnUse\" patternTransform=\"rotate(45)\"><rect width=\"2\" height=\"5\" fill=\"#56b4e9\"/></pattern>
</defs>
";
