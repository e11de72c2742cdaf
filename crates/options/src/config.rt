ghost use Rattle.std.specs.Prelude.{◌≡◌, true, map, string_bytes, IfSome};
ghost use Rattle.as_base.specs.Config.{fits};
ghost use Rattle.options.specs.Options.{number, config_of};
ghost use Rattle.options.specs.declared.option.NumberOption.TheVariants.{Streams, Slots};

use crate::number;
use crate::option::NumberOption;
use as_base::Config;

/// Over how many parts the work is to be spread, once it is.
const PARTS: u16 = 4;

/// How many messages are to wait before each part at most.
const LANE: u32 = 1024;

/// The configuration that the words ask for, where they are pairs and the options of it are well given.
pub fn config_of(words: &[String]) -> Option<Config>
    ensures value { result ≡ config_of (number Streams (map string_bytes words.now)) (number Slots (map string_bytes words.now)) }
    ensures fits { IfSome result (λ c. fits c ≡ true) }
{
    let streams = number(words, NumberOption::Streams)?;
    let slots = number(words, NumberOption::Slots)?;
    Some(Config {
        streams: streams as u8,
        slots: slots as u16,
        parts: PARTS,
        lane: LANE,
    })
}
