ghost use Rattle.std.specs.Prelude.{◌≡◌};
ghost use Rattle.as_base.specs.Stream.{stream_name, stream_named};

/// One of the four input streams.
#[derive(Clone, Copy, Debug, PartialEq, Eq)]
pub enum StreamId {
    A,
    B,
    C,
    D,
}

/// The name of a stream, as lines and query texts have it.
pub fn stream_name(stream: StreamId) -> &'static [u8]
    ensures { result.now ≡ stream_name stream }
{
    match stream {
        StreamId::A => b"a".as_slice(),
        StreamId::B => b"b".as_slice(),
        StreamId::C => b"c".as_slice(),
        StreamId::D => b"d".as_slice(),
    }
}

/// The stream of this name.
pub fn stream_named(word: &[u8]) -> Option<StreamId>
    ensures { result ≡ stream_named word.now }
{
    match word {
        b"a" => Some(StreamId::A),
        b"b" => Some(StreamId::B),
        b"c" => Some(StreamId::C),
        b"d" => Some(StreamId::D),
        _ => None,
    }
}
