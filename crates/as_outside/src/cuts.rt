ghost use Rattle.std.specs.Prelude.{◌≡◌, ◌+◌, ◌-◌, ◌^◌, min};
ghost use Rattle.as_outside.specs.Script.{cut_at};

/// How many bytes the pulls of a test's input move.
#[derive(Debug, Drop)]
pub struct Cuts {
    /// For each pull in turn, the most bytes that it moves; 0 for as many as fit.
    pub cuts: Vec<usize>,
    /// How many pulls there were; it stays at its last value, 2^64 - 1.
    pub pulls: u64,
}

// How many bytes this pull may move into so much room.
fn cut_at(cuts: &[usize], pull: u64, room: usize) -> usize
    ensures { result ≡ cut_at cuts.now pull room }
{
    match cuts.get(pull as usize).copied().unwrap_or(0) {
        0 => room,
        most => most.min(room),
    }
}

impl Cuts {
    /// There was no pull.
    pub fn new(cuts: Vec<usize>) -> Cuts
        ensures { result ≡ record { cuts = cuts; pulls = 0 } }
    {
        Cuts { cuts, pulls: 0 }
    }

    /// Counts one more pull, and says how many bytes it may move into so much room: as many as fit where the cuts are
    /// used up.
    pub fn next(&mut self, room: usize) -> usize
        ensures most { result ≡ cut_at self.old.cuts.items self.old.pulls room }
        ensures counted { self.new ≡ record self.old { pulls = min (self.old.pulls + 1) (2 ^ 64 - 1) } }
    {
        let pull = self.pulls;
        self.pulls = pull.saturating_add(1);
        cut_at(&self.cuts, pull, room)
    }
}
