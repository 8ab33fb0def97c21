//! The parts before the lanes: the styles, the title and the axis.
ghost use Rattle.std.specs.Prelude.{◌≡◌, ◌++◌};
ghost use Rattle.std.specs.Result.{OnOk};
ghost use Rattle.lane_picture.specs.Sizes.{IsBounded, drawn_of};
ghost use Rattle.lane_picture.specs.Drawing.{axis_text, grid_line, grid_line_within, head_text, height, left_out_text, look_text, opening_text, scale_text, step};

use crate::parts::LanePicture;
use crate::sizes::{lanes_end, row_line, turn_left};
use crate::text::{push_decimal, push_escaped, push_text};
use std::alloc::AllocError;

/// The styles, the heads of arrows, the background, and what the colours mean.
const LOOK: &str =
    "<style>.bg{fill:#fff}.t{fill:#1a1a1a}.d{fill:#666}.g{stroke:#e4e4e4}.o{fill:#5b5b5b}.f{fill:#c1121f}.n{fill:#2a7f3f}\n.a0{fill:#0b5fa5}.a1{fill:#f6d27a}.a2{fill:#c8553d}.a3{fill:#b79ad6}.a4{fill:#e6e9ec}.a5{fill:#111}.a6{fill:#9aa0a6}\n.o,.f,.n,.a0,.a1,.a2,.a3,.a4,.a5,.a6{shape-rendering:crispEdges}\n.c,.r,.x{fill:none;stroke:#222;marker-end:url(#h)}.r{stroke-dasharray:3 2}.x{stroke:#c1121f;marker-end:url(#e)}.h{fill:#222}.e{fill:#c1121f}\ntext{font:11px ui-sans-serif,system-ui,sans-serif}.s{font-size:9px}.b{font-weight:600;font-size:13px}.m{text-anchor:middle}.q{text-anchor:end}\n@media(prefers-color-scheme:dark){.bg{fill:#14171a}.t{fill:#e8e8e8}.d{fill:#9aa0a6}.g{stroke:#2b3035}.o{fill:#aaa}.f{fill:#ff5964}.n{fill:#57c46d}\n.a0{fill:#4aa3ff}.a1{fill:#8a6d1f}.a2{fill:#ff7a5c}.a3{fill:#7d62a8}.a4{fill:#2a3036}.a5{fill:#f5f5f5}.a6{fill:#5c646c}\n.c,.r{stroke:#ddd}.x{stroke:#ff5964}.h{fill:#ddd}.e{fill:#ff5964}}</style>\n<defs><marker id=\"h\" viewBox=\"0 0 6 6\" refX=\"6\" refY=\"3\" markerWidth=\"6\" markerHeight=\"6\" orient=\"auto\"><path class=\"h\" d=\"M0 0L6 3L0 6z\"/></marker><marker id=\"e\" viewBox=\"0 0 6 6\" refX=\"6\" refY=\"3\" markerWidth=\"6\" markerHeight=\"6\" orient=\"auto\"><path class=\"e\" d=\"M0 0L6 3L0 6z\"/></marker></defs>\n<rect class=\"bg\" width=\"100%\" height=\"100%\"/>\n<rect class=\"a0\" x=\"176\" y=\"42\" width=\"10\" height=\"10\"/><text x=\"190\" y=\"51\" class=\"t s\">runs</text><rect class=\"a1\" x=\"256\" y=\"42\" width=\"10\" height=\"10\"/><text x=\"270\" y=\"51\" class=\"t s\">ready</text><rect class=\"a2\" x=\"336\" y=\"42\" width=\"10\" height=\"10\"/><text x=\"350\" y=\"51\" class=\"t s\">offers</text><rect class=\"a3\" x=\"416\" y=\"42\" width=\"10\" height=\"10\"/><text x=\"430\" y=\"51\" class=\"t s\">awaits</text><rect class=\"a4\" x=\"496\" y=\"42\" width=\"10\" height=\"10\"/><text x=\"510\" y=\"51\" class=\"t s\">listens</text><rect class=\"a5\" x=\"576\" y=\"42\" width=\"10\" height=\"10\"/><text x=\"590\" y=\"51\" class=\"t s\">faulted</text><rect class=\"a6\" x=\"656\" y=\"42\" width=\"10\" height=\"10\"/><text x=\"670\" y=\"51\" class=\"t s\">stopped</text><rect class=\"f\" x=\"740\" y=\"42\" width=\"2\" height=\"10\"/><text x=\"750\" y=\"51\" class=\"t s\">a fault</text><rect class=\"n\" x=\"820\" y=\"42\" width=\"2\" height=\"10\"/><text x=\"830\" y=\"51\" class=\"t s\">a birth</text>\n";

/// If there are more arrows than this, none is drawn.
pub const MOST_ARROWS: u64 = 300;

/// The steps that an axis may have, in turns.
const STEPS: [u32; 26] = [
    1, 2, 5, 10, 20, 50, 100, 200, 500, 1000, 2000, 5000, 10000, 20000, 50000, 100000, 200000,
    500000, 1000000, 2000000, 5000000, 10000000, 20000000, 50000000, 100000000, 200000000,
];

fn height(picture: &LanePicture<'_>) -> u64
    requires { IsBounded picture.now }
    ensures { result ≡ height (drawn_of picture.now) }
{
    row_line(picture, picture.events.len() as u32 + 2)
}

#[tactic(auto, unfolding(crate::specs::Drawing::opening_text))]
pub fn push_opening(picture: &LanePicture<'_>, out: &mut Vec<u8>) -> Result<(), AllocError>
    requires { IsBounded picture.now }
    ensures { OnOk result (out.new.items ≡ out.old.items ++ opening_text (drawn_of picture.now)) }
{
    let high = height(picture);
    push_text(
        "<svg xmlns=\"http://www.w3.org/2000/svg\" viewBox=\"0 0 1760 ",
        out,
    )?;
    push_decimal(high, out)?;
    push_text("\" width=\"1760\" height=\"", out)?;
    push_decimal(high, out)?;
    push_text("\">\n<title>", out)?;
    push_escaped(picture.title, out)?;
    push_text("</title>\n", out)
}

#[tactic(auto, unfolding(crate::specs::Drawing::look_text))]
pub fn push_look(out: &mut Vec<u8>) -> Result<(), AllocError>
    ensures { OnOk result (out.new.items ≡ out.old.items ++ look_text) }
{
    push_text(LOOK, out)
}

fn push_scale(column_turns: u32, out: &mut Vec<u8>) -> Result<(), AllocError>
    ensures { OnOk result (out.new.items ≡ out.old.items ++ scale_text column_turns) }
{
    if column_turns == 1 {
        push_text("a turn a column", out)
    } else {
        push_decimal(u64::from(column_turns), out)?;
        push_text(
            " turns a column, the height of a colour is its share of them",
            out,
        )
    }
}

fn push_left_out(arrows: u64, out: &mut Vec<u8>) -> Result<(), AllocError>
    ensures { OnOk result (out.new.items ≡ out.old.items ++ left_out_text arrows) }
{
    if arrows > MOST_ARROWS {
        push_text("; ", out)?;
        push_decimal(arrows, out)?;
        push_text(" arrows left out", out)
    } else {
        Ok(())
    }
}

#[tactic(auto, unfolding(crate::specs::Drawing::head_text))]
pub fn push_head(picture: &LanePicture<'_>, out: &mut Vec<u8>) -> Result<(), AllocError>
    ensures { OnOk result (out.new.items ≡ out.old.items ++ head_text (drawn_of picture.now)) }
{
    push_text("<text x=\"8\" y=\"20\" class=\"t b\">", out)?;
    push_escaped(picture.title, out)?;
    push_text("</text>\n<text x=\"8\" y=\"36\" class=\"d\">", out)?;
    push_decimal(u64::from(picture.turns), out)?;
    push_text(" turns, ", out)?;
    push_decimal(picture.ticks, out)?;
    push_text(" ticks, ends ", out)?;
    push_text(picture.ending, out)?;
    push_text("; ", out)?;
    push_scale(picture.column_turns, out)?;
    push_left_out(picture.all_arrows, out)?;
    push_text("</text>\n", out)
}

/// The smallest step with which ten steps cover all turns.
fn step(turns: u32) -> u32
    ensures { result ≡ step turns }
{
    STEPS
        .iter()
        .copied()
        .find(|step| u64::from(turns) <= 10 * u64::from(*step))
        .unwrap_or(500_000_000)
}

#[tactic(auto, unfolding(crate::specs::Drawing::grid_line))]
fn push_grid_line(picture: &LanePicture<'_>, turn: u32, out: &mut Vec<u8>) -> Result<(), AllocError>
    requires { IsBounded picture.now }
    ensures { OnOk result (out.new.items ≡ out.old.items ++ grid_line (drawn_of picture.now) turn) }
{
    let left = turn_left(picture, turn);
    push_text("<path class=\"g\" d=\"M", out)?;
    push_decimal(left, out)?;
    push_text(" 72V", out)?;
    push_decimal(lanes_end(picture), out)?;
    push_text("\"/><text x=\"", out)?;
    push_decimal(left, out)?;
    push_text("\" y=\"68\" class=\"d s m\">", out)?;
    push_decimal(u64::from(turn), out)?;
    push_text("</text>\n", out)
}

fn push_grid_line_within(
    picture: &LanePicture<'_>,
    turn: u64,
    out: &mut Vec<u8>,
) -> Result<(), AllocError>
    requires { IsBounded picture.now }
    ensures { OnOk result (out.new.items ≡ out.old.items
        ++ grid_line_within (drawn_of picture.now) turn) }
{
    if turn <= u64::from(picture.turns) {
        push_grid_line(picture, turn as u32, out)
    } else {
        Ok(())
    }
}

/// Pushes the axis, which has at most ten steps.
pub fn push_axis(picture: &LanePicture<'_>, out: &mut Vec<u8>) -> Result<(), AllocError>
    requires { IsBounded picture.now }
    ensures { OnOk result (out.new.items ≡ out.old.items ++ axis_text (drawn_of picture.now)) }
{
    let step = u64::from(step(picture.turns));
    for j in 0..11 {
        push_grid_line_within(picture, j * step, out)?;
    }
    Ok(())
}
