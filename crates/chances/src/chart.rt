//! The picture that `bracha rounds` draws: the share of questions that are open behind each round.

ghost use Rattle.std.specs.Prelude.{◌≡◌, IfOk, string_bytes};

use crate::ends::End;
use crate::lines::open_behind;
use std::alloc::{AllocError, Global};
use terms::LAST_ROUND;

/// The head of the picture: its size, its axes and their words.
const HEAD: &str =
    "<svg xmlns=\"http://www.w3.org/2000/svg\" viewBox=\"0 0 720 280\" font-family=\"sans-serif\" font-size=\"12\">\n<rect width=\"720\" height=\"280\" fill=\"white\"/>\n<text x=\"40\" y=\"18\">Share of questions that are open after each round</text>\n<path d=\"M40 30V230H700\" fill=\"none\" stroke=\"black\"/>\n<text x=\"34\" y=\"36\" text-anchor=\"end\">1</text>\n<text x=\"34\" y=\"234\" text-anchor=\"end\">0</text>\n<text x=\"370\" y=\"268\" text-anchor=\"middle\">round</text>\n";

/// The end of the picture.
const FOOT: &str = "</svg>\n";

/// Returns the picture of these ends in SVG.
pub fn chart_text(alloc: Global, ends: &[End]) -> Result<String, AllocError> {
    let mut text = String::from_str(alloc, HEAD)?;
    for before in 0..LAST_ROUND {
        let round = before + 1;
        let open = open_behind(ends, round);
        text.push_str(bar_text(alloc, round, open, ends.len())?.as_str())?;
    }
    text.push_str(FOOT)?;
    Ok(text)
}

/// Returns the bar of a round with its number and its exact counts as a title.
fn bar_text(alloc: Global, round: u8, open: usize, all: usize) -> Result<String, AllocError> {
    let left = 20 + 20 * u32::from(round);
    let high = height(open, all);
    let top = 230usize.saturating_sub(high);
    let middle = left + 8;
    format!(in alloc;
        "<rect x=\"{left}\" y=\"{top}\" width=\"16\" height=\"{high}\" fill=\"steelblue\"><title>round {round}: {open} of {all} open</title></rect>\n<text x=\"{middle}\" y=\"246\" text-anchor=\"middle\">{round}</text>\n"
    )
}

/// Returns the height of a bar, 0 to 200, for this part of all.
fn height(part: usize, all: usize) -> usize {
    match part.checked_mul(200) {
        Some(scaled) if all > 0 => scaled / all,
        _ => 0,
    }
}
