//! The seconds of a run, and which peers are dialled again within one.

ghost use Rattle.std.specs.Prelude.{◌≡◌, ◌+◌, ◌%◌, ◌^◌, ◌<◌, get_or};
ghost use Rattle.running.specs.Seconds.{after_answer, after_link, begun, changed, is_due, is_over};
ghost use Rattle.running.specs.declared.seconds.Call.TheVariants.{Silent};

/// The most members of a cluster.
const MEMBERS: usize = 64;

/// A link of a peer that has begun within the second: the peer is up then, and the pause of its
/// dialler is over.
#[derive(Clone, Copy, Debug, PartialEq, Eq)]
pub(crate) enum Call {
    /// None has.
    Silent,
    /// One has, and the dialler hasn't gone on yet.
    Due,
    /// One has, and the dialler has gone on. It does so once a second, whatever a liar begins.
    Answered,
}

impl Call {
    /// Returns the call once a link of the peer has begun.
    fn after_link(self) -> Call
        ensures { result ≡ after_link self }
    {
        match self {
            Call::Silent | Call::Due => Call::Due,
            Call::Answered => Call::Answered,
        }
    }

    /// Returns the call once the dialler has gone on.
    fn after_answer(self) -> Call
        ensures { result ≡ after_answer self }
    {
        match self {
            Call::Silent => Call::Silent,
            Call::Due | Call::Answered => Call::Answered,
        }
    }
}

impl Call {
    /// Says if the dialler is to go on.
    fn is_due(self) -> bool
        ensures { result ≡ is_due self }
    {
        matches!(self, Call::Due)
    }
}

/// The second that it is, counted from the start of the run, and the call of each peer within it.
#[derive(Clone, Copy, Debug, PartialEq, Eq)]
pub(crate) struct Seconds {
    second: u64,
    calls: [Call; MEMBERS],
}

impl Seconds {
    /// Begins with second 0.
    pub(crate) fn new() -> Seconds
        ensures { result ≡ begun 0 }
    {
        Seconds {
            second: 0,
            calls: [Call::Silent; MEMBERS],
        }
    }

    /// Returns the second that it is.
    pub(crate) fn second(&self) -> u64
        ensures { result ≡ self.now.second }
    {
        self.second
    }

    /// Begins the next second. Each peer may call in it.
    pub(crate) fn tick(&mut self)
        ensures { self.new ≡ begun ((self.old.second + 1) % 2 ^ 64) }
    {
        self.second = self.second.wrapping_add(1);
        self.calls = [Call::Silent; MEMBERS];
    }

    /// Notes that a link of the peer has begun.
    pub(crate) fn call(&mut self, peer: u8)
        ensures { peer < 64 → self.new ≡ changed self.old peer after_link }
    {
        let at = usize::from(peer);
        if at < MEMBERS {
            self.calls[at] = self.calls[at].after_link();
        }
    }

    /// Says if the pause behind a dialling of the peer in that second is over. A call of the peer
    /// ends it once.
    pub(crate) fn is_over(&mut self, peer: u8, dialled: u64) -> bool
        ensures over { peer < 64 → result ≡ is_over self.old peer dialled }
        ensures answered { peer < 64 → self.new ≡ changed self.old peer after_answer }
    {
        let is_due = self.answer(peer);
        self.second != dialled || is_due
    }

    /// Takes the call of the peer, if one is due.
    fn answer(&mut self, peer: u8) -> bool
        ensures due { peer < 64 → result ≡ is_due (get_or self.old.calls peer Silent) }
        ensures answered { peer < 64 → self.new ≡ changed self.old peer after_answer }
    {
        let at = usize::from(peer);
        if at >= MEMBERS {
            return false;
        }
        let call = self.calls[at];
        self.calls[at] = call.after_answer();
        call.is_due()
    }
}
