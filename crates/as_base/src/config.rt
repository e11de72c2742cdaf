ghost use Rattle.std.specs.Prelude.{◌≡◌};
ghost use Rattle.as_base.specs.Config.{fits};

/// What an engine is made for: how many streams it reads, the first of a to d; how many queries may live at once; over
/// how many parts its work is spread; and how many messages wait before each part at most.
#[derive(Clone, Copy, Debug, PartialEq, Eq)]
pub struct Config {
    /// From 2 to 4.
    pub streams: u8,
    /// From 1 to 512.
    pub slots: u16,
    /// From 1 to 64.
    pub parts: u16,
    /// From 1 to 65,536.
    pub lane: u32,
}

impl Config {
    /// Each number is in its range.
    pub fn fits(&self) -> bool
        ensures { result ≡ fits self.now }
    {
        (2..=4).contains(&self.streams)
            && (1..=512).contains(&self.slots)
            && (1..=64).contains(&self.parts)
            && (1..=65_536).contains(&self.lane)
    }
}
