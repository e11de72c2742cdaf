ghost use Rattle.std.specs.Prelude.{◌≡◌};
ghost use Rattle.options.specs.Options.{name_of, span_of};

/// An option that takes a number.
#[derive(Clone, Copy, Debug, PartialEq, Eq)]
pub enum NumberOption {
    /// `--streams`: how many streams are read, 2 to 4; 4 where it is not given.
    Streams,
    /// `--slots`: how many queries may live at once, 1 to 512; 64 where it is not given.
    Slots,
    /// `--max-bytes`: how many bytes of input are taken at most, 0 to 2^40; 2^40 where it is not given.
    MaxBytes,
    /// `--inbox`: for how many loads an inbox has room, 1 to 65,536; 256 where it is not given.
    Inbox,
    /// `--number`: what generated lines come of, 0 to 2^63 - 1. It has to be given.
    Number,
    /// `--lines`: how many lines are generated, 0 to 10,000,000. It has to be given.
    Lines,
}

/// Which numbers an option takes.
#[derive(Clone, Copy, Debug)]
pub struct Span {
    pub least: u64,
    pub greatest: u64,
    /// The number where the option is not given; `None` where it has to be.
    pub default: Option<u64>,
}

/// The name of the option.
pub fn name_of(option: NumberOption) -> &'static [u8]
    ensures { result.now ≡ name_of option }
{
    match option {
        NumberOption::Streams => b"--streams",
        NumberOption::Slots => b"--slots",
        NumberOption::MaxBytes => b"--max-bytes",
        NumberOption::Inbox => b"--inbox",
        NumberOption::Number => b"--number",
        NumberOption::Lines => b"--lines",
    }
}

/// Which numbers the option takes.
pub fn span_of(option: NumberOption) -> Span
    ensures { result ≡ span_of option }
{
    match option {
        NumberOption::Streams => Span {
            least: 2,
            greatest: 4,
            default: Some(4),
        },
        NumberOption::Slots => Span {
            least: 1,
            greatest: 512,
            default: Some(64),
        },
        NumberOption::MaxBytes => Span {
            least: 0,
            greatest: 1_099_511_627_776,
            default: Some(1_099_511_627_776),
        },
        NumberOption::Inbox => Span {
            least: 1,
            greatest: 65_536,
            default: Some(256),
        },
        NumberOption::Number => Span {
            least: 0,
            greatest: 9_223_372_036_854_775_807,
            default: None,
        },
        NumberOption::Lines => Span {
            least: 0,
            greatest: 10_000_000,
            default: None,
        },
    }
}
