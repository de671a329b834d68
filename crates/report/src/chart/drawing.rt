//! An SVG picture that grows by elements. Lengths are pixels, counted from the upper left corner.

ghost use Rattle.std.specs.Prelude.{◌≡◌, ◌≤◌, IfOk, string_bytes};
ghost use Rattle.report.specs.Drawings.{arrow_class, arrow_head, half_badge, plate_text};

use std::alloc::{AllocError, Global};

/// The subject of words. It says how they look and where they stand, seen from a point of a
/// lifeline.
#[derive(Clone, Copy)]
pub(crate) enum Words {
    /// A column's name.
    Head,
    /// An event's number.
    Number,
    /// The load of an arrow to the right.
    Rightward,
    /// The load of an arrow to the left.
    Leftward,
    /// The bytes of a lie to the right.
    LieRightward,
    /// The bytes of a lie to the left.
    LieLeftward,
    /// The load of a delivery to oneself.
    Turn,
    /// A proposal.
    Proposal,
    /// A crash.
    Crash,
    /// An opening.
    Restart,
    /// An event that changes no member.
    Note,
    /// A record that a member said, or its disk has kept.
    Said,
    /// A disk that failed.
    Failure,
}

impl Words {
    ghost use Rattle.std.specs.Prelude.{◌≡◌};
    ghost use Rattle.report.specs.Drawings.{words_attributes};

    /// The attributes of such words.
    fn attributes(self) -> &'static str
        ensures { result.now ≡ words_attributes self }
    {
        match self {
            Words::Head => "class=\"head\"",
            Words::Number => "class=\"number\" dy=\"4\"",
            Words::Rightward => "class=\"middle\" dx=\"110\" dy=\"-5\"",
            Words::Leftward => "class=\"middle\" dx=\"-110\" dy=\"-5\"",
            Words::LieRightward => "class=\"middle lie\" dx=\"110\" dy=\"-5\"",
            Words::LieLeftward => "class=\"middle lie\" dx=\"-110\" dy=\"-5\"",
            Words::Turn => "dx=\"34\" dy=\"-3\"",
            Words::Proposal => "dx=\"12\" dy=\"-3\"",
            Words::Crash => "class=\"lie\" dx=\"12\" dy=\"4\"",
            Words::Restart => "class=\"opened\" dx=\"12\" dy=\"2\"",
            Words::Note => "class=\"note\" dx=\"12\" dy=\"4\"",
            Words::Said => "class=\"said\" dx=\"10\" dy=\"15\"",
            Words::Failure => "class=\"failure\" dx=\"-12\" dy=\"15\"",
        }
    }
}

/// A sign on a lifeline.
#[derive(Clone, Copy)]
pub(crate) enum Sign {
    /// A proposal.
    Dot,
    /// A crash.
    Cross,
    /// A disk that failed.
    Ring,
    /// An opening.
    Triangle,
}

impl Sign {
    ghost use Rattle.std.specs.Prelude.{◌≡◌};
    ghost use Rattle.report.specs.Drawings.{sign_class, sign_shape};

    /// The class of such a sign.
    fn class(self) -> &'static str
        ensures { result.now ≡ sign_class self }
    {
        match self {
            Sign::Dot => "dot",
            Sign::Cross => "cross",
            Sign::Ring => "ring",
            Sign::Triangle => "triangle",
        }
    }

    /// Its outline, seen from its point.
    fn shape(self) -> &'static str
        ensures { result.now ≡ sign_shape self }
    {
        match self {
            Sign::Dot => "m-5 0a5 5 0 1 0 10 0a5 5 0 1 0 -10 0z",
            Sign::Cross => "m-7 -7l14 14m0 -14l-14 14",
            Sign::Ring => "m-7 0a7 7 0 1 0 14 0a7 7 0 1 0 -14 0z",
            Sign::Triangle => "m0 -8l8 13h-16z",
        }
    }
}

/// The look of a piece of a lifeline.
#[derive(Clone, Copy)]
pub(crate) enum Lifeline {
    /// The member runs.
    Runs,
    /// The member is down or stopped.
    Down,
    /// The member is a liar.
    Lies,
}

impl Lifeline {
    ghost use Rattle.std.specs.Prelude.{◌≡◌};
    ghost use Rattle.report.specs.Drawings.{line_class};

    /// The class of such a piece.
    fn class(self) -> &'static str
        ensures { result.now ≡ line_class self }
    {
        match self {
            Lifeline::Runs => "runs",
            Lifeline::Down => "down",
            Lifeline::Lies => "lies",
        }
    }
}

/// The class of an arrow.
fn arrow_class(lies: bool) -> &'static str
    ensures { result.now ≡ arrow_class lies }
{
    if lies { "liar" } else { "arrow" }
}

/// The head of an arrow to the right, or else to the left.
fn arrow_head(is_rightward: bool) -> &'static str
    ensures { result.now ≡ arrow_head is_rightward }
{
    if is_rightward {
        "l-8 -4v8z"
    } else {
        "l8 -4v8z"
    }
}

/// Half the width of a badge with so many characters.
fn half_badge(count: usize) -> usize
    ensures value { result ≡ half_badge count }
    ensures bound { result ≤ 4008 }
{
    4 * count.min(1000) + 8
}

/// The plate of a badge that is so wide to each side of its point.
fn plate(alloc: Global, half: usize, x: u64, y: u64) -> Result<String, AllocError>
    requires { half ≤ 4008 }
    ensures { IfOk result (λ text. string_bytes text ≡ plate_text half x y) }
{
    let width = 2 * half;
    format!(in alloc;
        "<g transform=\"translate({x},{y})\"><rect class=\"badge\" x=\"-{half}\" y=\"5\" width=\"{width}\" height=\"17\" rx=\"8\"/>"
    )
}

/// Elements of a picture, in the order in which they are drawn.
#[derive(Drop)]
pub(crate) struct Drawing {
    alloc: Global,
    text: String,
}

impl Drawing {
    ghost use Rattle.std.specs.Prelude.{◌≡◌, [], ◌∷◌, ◌++◌, OnOk, string_bytes};
    ghost use Rattle.report.specs.Drawings.{Grows, words_at, SignAt, Arrow, Loop, BadgeAt, Piece};

    /// A picture of nothing.
    pub(crate) fn new(alloc: Global) -> Drawing
        ensures { string_bytes result.text ≡ [] }
    {
        Drawing {
            alloc,
            text: String::new(alloc),
        }
    }

    /// Forgets the elements, once they are written.
    pub(crate) fn clear(&mut self)
        ensures { string_bytes self.new.text ≡ [] }
    {
        self.text.clear();
    }

    /// The elements.
    pub(crate) fn as_str(&self) -> &str
        ensures { result.now ≡ string_bytes self.now.text }
    {
        self.text.as_str()
    }

    /// Adds the text of an element.
    fn add(&mut self, element: &str) -> Result<(), AllocError>
        ensures { OnOk result
            (string_bytes self.new.text ≡ string_bytes self.old.text ++ element.now) }
    {
        self.text.push_str(element)
    }

    /// Adds words at a point; none where they are empty.
    pub(crate) fn words(
        &mut self,
        what: Words,
        x: u64,
        y: u64,
        words: &str,
    ) -> Result<(), AllocError>
        ensures { OnOk result (Grows self.old self.new (words_at what x y words.now)) }
    {
        if words.is_empty() {
            return Ok(());
        }
        let attributes = what.attributes();
        let element = format!(in self.alloc;
            "<text x=\"{x}\" y=\"{y}\" {attributes}>{words}</text>\n"
        )?;
        self.add(element.as_str())
    }

    /// Adds an arrow from one lifeline to another.
    pub(crate) fn arrow(&mut self, lies: bool, from: u64, to: u64, y: u64) -> Result<(), AllocError>
        ensures { OnOk result (Grows self.old self.new (Arrow lies from to y ∷ [])) }
    {
        let class = arrow_class(lies);
        let head = arrow_head(from < to);
        let element = format!(in self.alloc;
            "<path class=\"{class}\" d=\"M{from} {y}H{to}m0 0{head}\"/>\n"
        )?;
        self.add(element.as_str())
    }

    /// Adds an arrow from a lifeline to itself.
    pub(crate) fn turn(&mut self, x: u64, y: u64) -> Result<(), AllocError>
        ensures { OnOk result (Grows self.old self.new (Loop x y ∷ [])) }
    {
        let element = format!(in self.alloc;
            "<path class=\"turn\" d=\"M{x} {y}m0 -12h26v10h-24\"/>\n<path class=\"arrow\" d=\"M{x} {y}m0 -2l8 -4v8z\"/>\n"
        )?;
        self.add(element.as_str())
    }

    /// Adds a sign on a lifeline.
    pub(crate) fn sign(&mut self, sign: Sign, x: u64, y: u64) -> Result<(), AllocError>
        ensures { OnOk result (Grows self.old self.new (SignAt sign x y ∷ [])) }
    {
        let (class, shape) = (sign.class(), sign.shape());
        let element = format!(in self.alloc; "<path class=\"{class}\" d=\"M{x} {y}{shape}\"/>\n")?;
        self.add(element.as_str())
    }

    /// Adds a badge on a lifeline, below the point, and words beside it.
    pub(crate) fn badge(
        &mut self,
        x: u64,
        y: u64,
        badge: &str,
        words: &str,
    ) -> Result<(), AllocError>
        ensures { OnOk result (Grows self.old self.new (BadgeAt x y badge.now words.now ∷ [])) }
    {
        let half = half_badge(badge.len());
        let plate = plate(self.alloc, half, x, y)?;
        let beside = half + 10;
        let element = format!(in self.alloc;
            "{plate}<text class=\"verdict\" y=\"17\">{badge}</text><text class=\"said\" x=\"{beside}\" y=\"17\">{words}</text></g>\n"
        )?;
        self.add(element.as_str())
    }

    /// Adds a piece of a lifeline.
    pub(crate) fn lifeline(
        &mut self,
        line: Lifeline,
        x: u64,
        from: u64,
        to: u64,
    ) -> Result<(), AllocError>
        ensures { OnOk result (Grows self.old self.new (Piece line x from to ∷ [])) }
    {
        let class = line.class();
        let element = format!(in self.alloc; "<path class=\"{class}\" d=\"M{x} {from}V{to}\"/>\n")?;
        self.add(element.as_str())
    }
}
