ghost use Rattle.std.specs.Prelude.{◌≡◌, ◌≤◌, ◌<◌, ◌+◌, ◌++◌, [], ◌∷◌, length, vec_len, vec_capacity};
ghost use Rattle.weave_top.specs.Sources.{all_sources};

/// The sources of the five feeders, in their order.
#[derive(Drop)]
pub struct Sources<F> {
    pub one: F,
    pub two: F,
    pub three: F,
    pub four: F,
    pub five: F,
}

/// Takes the five sources out of their list, which keeps its room.
pub fn unpack<F: Drop>(feeds: &mut Vec<F>) -> Sources<F>
    requires { length feeds.old.items ≡ 5 }
    ensures all { feeds.old.items ≡ all_sources result }
    ensures none { vec_len feeds.new ≡ 0 }
    ensures room { 5 ≤ vec_capacity feeds.new }
{
    let (Some(five), Some(four), Some(three), Some(two), Some(one)) = (
        feeds.pop(),
        feeds.pop(),
        feeds.pop(),
        feeds.pop(),
        feeds.pop(),
    ) else {
        unreachable!()
    };
    Sources {
        one,
        two,
        three,
        four,
        five,
    }
}

/// Puts the five sources into the list, which has room for them.
pub fn pack<F: Drop>(feeds: &mut Vec<F>, sources: Sources<F>)
    requires none { vec_len feeds.old ≡ 0 }
    requires room { 5 ≤ vec_capacity feeds.old }
    ensures { feeds.new.items ≡ all_sources sources }
{
    let Sources {
        one,
        two,
        three,
        four,
        five,
    } = sources;
    keep(feeds, one);
    keep(feeds, two);
    keep(feeds, three);
    keep(feeds, four);
    keep(feeds, five);
}

// Appends a source to the list, which has room for it.
fn keep<F: Drop>(feeds: &mut Vec<F>, source: F)
    requires { vec_len feeds.old < vec_capacity feeds.old }
    ensures items { feeds.new.items ≡ feeds.old.items ++ source ∷ [] }
    ensures len { vec_len feeds.new ≡ vec_len feeds.old + 1 }
    ensures room { vec_capacity feeds.old ≤ vec_capacity feeds.new }
{
    let Ok(()) = feeds.push(source) else {
        unreachable!()
    };
}
