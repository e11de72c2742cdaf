ghost use Rattle.std.specs.Prelude.{◌≡◌, map, string_bytes, IfSome};
ghost use Rattle.weave_top.specs.Weaving.{weaving_of, IsWeaving};

use as_base::Config;
use options::{NumberOption, are_pairs, config_of, number};

/// The options of a weave.
const WEAVE_OPTIONS: [NumberOption; 4] = [
    NumberOption::Streams,
    NumberOption::Slots,
    NumberOption::MaxBytes,
    NumberOption::Inbox,
];

/// What the words of a call ask for.
#[derive(Clone, Copy, Debug)]
pub struct Weaving {
    pub config: Config,
    /// How many bytes are taken of each source at most.
    pub limit: u64,
    /// For how many loads the inbox has room.
    pub room: u32,
}

/// What the words ask for: options alone. `None` for any other words.
pub fn weaving_of(words: &[String]) -> Option<Weaving>
    ensures value { result ≡ weaving_of (map string_bytes words.now) }
    ensures sound { IfSome result IsWeaving }
{
    if !are_pairs(words, &WEAVE_OPTIONS) {
        return None;
    }
    let config = config_of(words)?;
    let limit = number(words, NumberOption::MaxBytes)?;
    let room = number(words, NumberOption::Inbox)?;
    Some(Weaving {
        config,
        limit,
        room: room as u32,
    })
}
