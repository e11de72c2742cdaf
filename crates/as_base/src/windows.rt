ghost use Rattle.std.specs.Prelude.{◌≡◌, ◌≤◌, ◌^◌, true};
ghost use Rattle.as_base.specs.Windows.{fits, first_window, last_window, last_edge, in_window};
ghost use Rattle.as_base.specs.Range.{IsTime};

/// The windows of a query: the length of each, and the distance from one start to the next, both in ticks. Window k,
/// from 0, begins at `k * slide` and ends before `k * slide + size`.
#[derive(Clone, Copy, Debug, PartialEq, Eq)]
pub struct WinSpec {
    pub size: u64,
    pub slide: u64,
}

/// The greatest size of a window, in ticks: 2^32.
const SIZE_MAX: u64 = 4_294_967_296;

/// How many windows may hold one time.
const OVERLAP_MAX: u64 = 64;

impl WinSpec {
    /// The windows are within the limits: they move on, leave no gap, are at most 2^32 ticks long, and at most 64 of
    /// them hold one time.
    pub fn fits(&self) -> bool
        ensures { result ≡ fits self.now }
    {
        1 <= self.slide
            && self.slide <= self.size
            && self.size <= SIZE_MAX
            && self.size <= OVERLAP_MAX * self.slide
    }

    /// The first window that holds the time.
    pub fn first_window(&self, t: u64) -> u64
        requires fits { fits self.now ≡ true }
        requires time { IsTime t }
        ensures { result ≡ first_window self.now t }
    {
        if t < self.size {
            return 0;
        }
        (t - self.size) / self.slide + 1
    }

    /// The last window that holds the time.
    pub fn last_window(&self, t: u64) -> u64
        requires fits { fits self.now ≡ true }
        requires time { IsTime t }
        ensures { result ≡ last_window self.now t }
    {
        t / self.slide
    }

    /// The latest start or end of a window that is not after the time.
    pub fn last_edge(&self, t: u64) -> u64
        requires fits { fits self.now ≡ true }
        requires time { IsTime t }
        ensures { result ≡ last_edge self.now t }
    {
        let start = t - t % self.slide;
        if t < self.size {
            return start;
        }
        let end = t - (t - self.size) % self.slide;
        start.max(end)
    }

    /// Window `k` holds the time.
    pub fn in_window(&self, k: u64, t: u64) -> bool
        requires fits { fits self.now ≡ true }
        requires window { k ≤ 2 ^ 62 }
        requires time { IsTime t }
        ensures { result ≡ in_window self.now k t }
    {
        // A product of a window's number and a slide is below 2^95.
        let start = u128::from(k) * u128::from(self.slide);
        let time = u128::from(t);
        start <= time && time < start + u128::from(self.size)
    }
}
