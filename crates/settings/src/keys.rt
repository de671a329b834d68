//! The keys of the settings.

ghost use Rattle.std.specs.Prelude.{◌≡◌};
ghost use Rattle.settings.specs.Keys.{key_text};

use std::fmt;

/// A key of a member's or a client's settings. The keys are looked at in this order.
#[derive(Clone, Copy, Debug, PartialEq, Eq)]
pub enum Key {
    /// The cluster's number, an integer that isn't negative.
    Cluster,
    /// The number of members.
    N,
    /// The most of them that may lie.
    T,
    /// The number of questions.
    Questions,
    /// The member, an integer below n.
    Me,
    /// The path of the member's journal, a text that isn't empty.
    Journal,
    /// The addresses at which the members listen to one another: an array of n texts `HOST:PORT`.
    Peers,
    /// The address at which the member listens to its clients: a text `HOST:PORT`.
    Desk,
    /// The secret from which the member tosses its coins: a text of 64 hexadecimal digits.
    Seed,
    /// The address at which the member listens to the others if not at its own entry of the peers:
    /// a text `HOST:PORT`. It may be left out.
    Listen,
    /// The path of a Unix socket at which the member answers clients too, a text that isn't empty.
    /// It may be left out.
    DeskSocket,
    /// The folder of the journals of a chain, a text that isn't empty. It may be left out: then the
    /// member is of one cluster alone.
    Epochs,
    /// The addresses at which the members listen to their clients, in a client's settings: an array
    /// of n texts `HOST:PORT`.
    Desks,
    /// Set if the members run a chain of epochs, in a client's settings: a boolean. It may be left
    /// out: then they run one cluster alone.
    Chain,
}

impl Key {
    /// The key as it stands in the text.
    pub fn text(self) -> &'static str
        ensures { result.now ≡ key_text self }
    {
        match self {
            Key::Cluster => "cluster",
            Key::N => "n",
            Key::T => "t",
            Key::Questions => "questions",
            Key::Me => "me",
            Key::Journal => "journal",
            Key::Peers => "peers",
            Key::Desk => "desk",
            Key::Seed => "seed",
            Key::Listen => "listen",
            Key::DeskSocket => "desk-socket",
            Key::Epochs => "epochs",
            Key::Desks => "desks",
            Key::Chain => "chain",
        }
    }
}

impl fmt::Display for Key {
    ghost use Rattle.std.specs.Prelude.{Some};
    ghost use Rattle.settings.specs.Keys.{key_text};

    ghost output = { λ key. Some (key_text key) };

    fn fmt<W: fmt::Write>(&self, f: &mut fmt::Formatter<W>) -> fmt::Result {
        f.write_str(self.text())
    }
}
