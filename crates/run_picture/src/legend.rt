//! The looks of the marks, and what they mean. Lengths are tenths of a pixel.

/// The looks, by classes; on a dark screen the paper is dark. Words differ from the paper by 4.5 to 1 at least, as the
/// guidelines for accessible pages (WCAG 2) ask.
pub(crate) const STYLE: &str = "<style>
path{fill:none}
.h{font-size:140px;font-weight:600}.n,.k,.o text{fill:#6b6b6b}.e,.i text,.o text{text-anchor:end}.m{text-anchor:middle}
.a{stroke:#e8e8e8;stroke-width:10}.b{stroke-width:25}.t path{fill:#fff;fill-opacity:0}
.delta{fill:#0072B2;font-weight:600}.phi{fill:#B84A00;font-weight:600}
.i path{stroke:#1a1a1a;stroke-width:12}.i text{font-weight:600}.o path{stroke:#bbb;stroke-width:8;stroke-dasharray:30 30}
.s path{stroke-width:70;stroke-dasharray:none}.s text{font-size:100px}.u path{stroke-width:40}.u text{font-size:65px}
.l{stroke:#9a9a9a;stroke-width:10}.d{stroke-dasharray:20 20}.w{stroke:#0072B2;stroke-width:22;stroke-dasharray:70 40}
.g{fill:#D55E00;fill-opacity:.22}.z{fill:#fff;stroke:#1a1a1a;stroke-width:13}.r{stroke:#1a1a1a;stroke-width:16}
@media screen and (prefers-color-scheme:dark){
svg{background:#17191c}svg,[fill=\"#1a1a1a\"]{fill:#e3e3e3}[fill=\"#fff\"]{fill:#17191c}[fill=\"#f3f1e7\"]{fill:#2b2a22}.n,.k,.o text{fill:#a3a3a3}
.a{stroke:#34373b}.i path,.r{stroke:#e3e3e3}.o path{stroke:#5a5d61}.l{stroke:#85888c}.z{fill:#17191c;stroke:#e3e3e3}
.delta{fill:#56b4e9}.w,[stroke=\"#0072B2\"]{stroke:#56b4e9}.phi,.g{fill:#f08a3c}.g{fill-opacity:.4}[stroke=\"#D55E00\"]{stroke:#f08a3c}
}
</style>
";

/// What each mark means, in two lines.
pub(crate) const LEGEND: &str =
    "<circle cx=\"50\" cy=\"-40\" r=\"45\" fill=\"#1a1a1a\"/><text x=\"180\">Send</text>
<rect x=\"700\" y=\"-85\" width=\"90\" height=\"90\" fill=\"#1a1a1a\"/><text x=\"880\">Receive</text>
<rect x=\"1600\" y=\"-85\" width=\"90\" height=\"90\" class=\"z\"/><text x=\"1780\">Receive of nothing</text>
<path d=\"M3200 -100v120\" class=\"r\"/><text x=\"3300\">ends the round</text>
<path d=\"M4500 -40h160\" class=\"l\"/><text x=\"4740\">message</text>
<path d=\"M5600 -40h160\" class=\"l d\"/><text x=\"5840\">message that nobody takes</text>
<path d=\"M0 150h200\" class=\"w\"/><text x=\"280\" y=\"190\">message not yet received: refutes each smaller Δ</text>
<rect x=\"4500\" y=\"90\" width=\"160\" height=\"120\" rx=\"40\" class=\"g\"/><text x=\"4740\" y=\"190\">processor without a step: refutes each smaller Φ</text>
";

/// What the marks of strips mean, at the end of the first line.
pub(crate) const STRIPS_LEGEND: &str =
    "<rect x=\"8300\" y=\"-75\" width=\"160\" height=\"70\" fill=\"#1a1a1a\"/><text x=\"8540\">steps of all ticks</text>
";
