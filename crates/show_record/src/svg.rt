//! A picture as the text of an SVG.

use crate::picture::{Form, LANE, Lane, Picture, Row, Slot, Step, Tone};
use std::fmt;
use std::fmt::Display;

/// How many colours there are for subscribers, which are given them in turn.
const COLOURS: usize = 6;

/// How much lower a mark is than its lane.
const MARGIN: u64 = 3;

/// The colours, in light and in dark.
const STYLE: &str = "<style>
svg{background:#fff;font:11px ui-monospace,SFMono-Regular,Menlo,Consolas,monospace}
text{fill:#1f2328}
path{fill:none;stroke:#d0d7de}
path.wait{stroke:#59636e}
.event text,.call text{text-anchor:middle}
rect{fill:currentColor;fill-opacity:.16;stroke:currentColor}
.call rect{fill:none}
.plain{color:#59636e}
.event.plain{color:#0969da}
.nobody{color:#8c959f}
.nobody text{fill:#59636e}
.refused{color:#cf222e}
.refused text,text.refused,text.parting{fill:#cf222e}
.refused rect{stroke-dasharray:3 2}
path.refused,path.parting{stroke:#cf222e}
path.parting{stroke-width:2;stroke-dasharray:6 3}
.o0{color:#0969da}
.o1{color:#bc4c00}
.o2{color:#1a7f37}
.o3{color:#8250df}
.o4{color:#9a6700}
.o5{color:#bf3989}
@media (prefers-color-scheme:dark){
svg{background:#0d1117}
text{fill:#f0f6fc}
path{stroke:#3d444d}
path.wait{stroke:#9198a1}
rect{fill-opacity:.25}
.plain{color:#9198a1}
.event.plain{color:#4493f8}
.nobody{color:#656c76}
.nobody text{fill:#9198a1}
.refused{color:#f85149}
.refused text,text.refused,text.parting{fill:#f85149}
path.refused,path.parting{stroke:#f85149}
.o0{color:#4493f8}
.o1{color:#db6d28}
.o2{color:#3fb950}
.o3{color:#ab7df8}
.o4{color:#d29922}
.o5{color:#db61a2}
}
</style>
";

/// Prints a text as XML has it; what XML can't have, as the replacement character.
#[derive(Clone, Copy)]
pub struct Escaped<'a>(pub &'a str);

impl Display for Escaped<'_> {
    fn fmt<W: fmt::Write>(&self, f: &mut fmt::Formatter<W>) -> fmt::Result {
        for character in self.0.chars() {
            match character {
                '&' => f.write_str("&amp;")?,
                '<' => f.write_str("&lt;")?,
                '>' => f.write_str("&gt;")?,
                '"' => f.write_str("&quot;")?,
                '\0'..='\u{1f}' | '\u{fffe}' | '\u{ffff}' => f.write_str("\u{fffd}")?,
                _ => f.write_char(character)?,
            }
        }
        Ok(())
    }
}

impl Display for Lane {
    fn fmt<W: fmt::Write>(&self, f: &mut fmt::Formatter<W>) -> fmt::Result {
        match self {
            Lane::Subscribers => f.write_str("subscribers"),
            Lane::Descriptor(fd) => write!(f, "fd {fd}"),
        }
    }
}

/// Prints the class of a tone.
impl Display for Tone {
    fn fmt<W: fmt::Write>(&self, f: &mut fmt::Formatter<W>) -> fmt::Result {
        match self {
            Tone::Plain => f.write_str("plain"),
            Tone::Refused => f.write_str("refused"),
            Tone::Nobody => f.write_str("nobody"),
            Tone::Owner(join) => write!(f, "o{}", join % COLOURS),
        }
    }
}

// Prints the words of a wait, and its line across the lanes of its row.
fn write_wait<W: fmt::Write>(
    step: &Step,
    slot: &Slot,
    row: &Row,
    f: &mut fmt::Formatter<W>,
) -> fmt::Result {
    let (tone, left, bottom) = (step.tone, slot.left, row.bottom());
    let words = left.saturating_add(5);
    let (first, second) = (Escaped(&step.first), Escaped(&step.second));
    write!(f, "<path class=\"wait {tone}\" d=\"M{left} 2V{bottom}\"/>")?;
    write!(
        f,
        "<text class=\"{tone}\" x=\"{words}\" y=\"12\">{first}</text>"
    )?;
    writeln!(
        f,
        "<text class=\"{tone}\" x=\"{words}\" y=\"26\">{second}</text>"
    )
}

// Prints the mark of an event or a call, of this class.
fn write_mark<W: fmt::Write>(
    class: &str,
    step: &Step,
    slot: &Slot,
    top: u64,
    f: &mut fmt::Formatter<W>,
) -> fmt::Result {
    let (tone, top) = (step.tone, top.saturating_add(MARGIN));
    let left = slot.left.saturating_add(MARGIN);
    let width = slot.width.saturating_sub(2 * MARGIN);
    let (height, middle) = (LANE - 2 * MARGIN, width / 2);
    let (first, second) = (Escaped(&step.first), Escaped(&step.second));
    write!(
        f,
        "<g class=\"{class} {tone}\" transform=\"translate({left} {top})\">"
    )?;
    write!(f, "<title>{}</title>", Escaped(&step.told))?;
    write!(f, "<rect width=\"{width}\" height=\"{height}\" rx=\"3\"/>")?;
    if step.second.is_empty() {
        writeln!(f, "<text x=\"{middle}\" y=\"18\">{first}</text></g>")
    } else {
        write!(f, "<text x=\"{middle}\" y=\"12\">{first}</text>")?;
        writeln!(f, "<text x=\"{middle}\" y=\"24\">{second}</text></g>")
    }
}

// Prints the lanes of a row.
fn write_lanes<W: fmt::Write>(row: &Row, f: &mut fmt::Formatter<W>) -> fmt::Result {
    let right = row.width;
    for lane in &row.lanes {
        let top = row.lane_top(*lane);
        let words = top.saturating_add(LANE / 2 + 4);
        write!(f, "<path d=\"M0 {top}H{right}\"/>")?;
        writeln!(f, "<text x=\"4\" y=\"{words}\">{lane}</text>")?;
    }
    Ok(())
}

impl Picture {
    // Prints the marks of a row, and which wait goes on in it.
    fn write_steps<W: fmt::Write>(&self, row: &Row, f: &mut fmt::Formatter<W>) -> fmt::Result {
        if let Some(placed) = row.wait.and_then(|wait| self.placed.get(wait)) {
            let words = Escaped(&placed.step.first);
            write!(f, "<text x=\"4\" y=\"12\">{words}</text>")?;
            writeln!(f, "<text x=\"4\" y=\"26\">goes on</text>")?;
        }
        for placed in self.placed.get(row.first..row.end).unwrap_or(&[]) {
            let Some(slot) = self.slots.get(placed.slot) else {
                continue;
            };
            let step = &placed.step;
            match step.form {
                Form::Wait => write_wait(step, slot, row, f)?,
                Form::Event(lane) => write_mark("event", step, slot, row.lane_top(lane), f)?,
                Form::Call(lane) => write_mark("call", step, slot, row.lane_top(lane), f)?,
            }
        }
        Ok(())
    }

    // Prints where a replay left the run, if that is in the row of this number.
    fn write_parting<W: fmt::Write>(
        &self,
        number: usize,
        row: &Row,
        f: &mut fmt::Formatter<W>,
    ) -> fmt::Result {
        let Some(parting) = self.parting else {
            return Ok(());
        };
        if parting.row != number {
            return Ok(());
        }
        let (left, bottom) = (parting.left, row.bottom().saturating_add(5));
        let words = bottom.saturating_add(11);
        let anchor = if left > self.width() / 2 {
            "end"
        } else {
            "start"
        };
        write!(f, "<path class=\"parting\" d=\"M{left} 2V{bottom}\"/>")?;
        write!(f, "<text class=\"parting\" x=\"{left}\" y=\"{words}\" ")?;
        writeln!(f, "text-anchor=\"{anchor}\">a replay left here</text>")
    }
}

impl Display for Picture {
    fn fmt<W: fmt::Write>(&self, f: &mut fmt::Formatter<W>) -> fmt::Result {
        let (width, height) = (self.width(), self.height());
        write!(
            f,
            "<svg xmlns=\"http://www.w3.org/2000/svg\" width=\"{width}\" "
        )?;
        writeln!(
            f,
            "height=\"{height}\" viewBox=\"0 0 {width} {height}\" role=\"img\">"
        )?;
        f.write_str(STYLE)?;
        for (number, row) in self.rows.iter().enumerate() {
            writeln!(f, "<g transform=\"translate(0 {})\">", row.top)?;
            write_lanes(row, f)?;
            self.write_steps(row, f)?;
            self.write_parting(number, row, f)?;
            writeln!(f, "</g>")?;
        }
        writeln!(f, "</svg>")
    }
}
