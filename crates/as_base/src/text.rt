ghost use Rattle.std.specs.Prelude.{◌≡◌, IsTrue};
ghost use Rattle.as_base.specs.Text.{is_text};

use as_words::is_words;
use std::marker::Model;

/// How many bytes a query text may have.
const TEXT_MAX: usize = 4089;

/// The bytes are a query text: none, or words with single spaces between them, at most 4,089 bytes.
pub fn is_text(bytes: &[u8]) -> bool
    ensures { result ≡ is_text bytes.now }
{
    match bytes {
        [] => true,
        _ => bytes.len() <= TEXT_MAX && is_words(bytes),
    }
}

/// A query text: words of bytes 33 to 126, separated by one space each, at most 4,089 bytes. It may be empty.
#[derive(Debug, Drop)]
pub struct Text {
    bytes: Vec<u8>,
}

impl Model for Text {
    ghost use Rattle.std.specs.Prelude.{List, ℕ, IsTrue};
    ghost use Rattle.as_base.specs.Text.{is_text};

    ghost Value = { List ℕ };

    ghost view = { λ t. t.bytes.items };

    ghost invariant = { λ t. IsTrue (is_text t.bytes.items) };
}

impl Text {
    /// Takes the bytes of a text as they are, without memory. `is_text` is the test for them.
    pub fn from_vec(v: Vec<u8>) -> Text
        requires { IsTrue (is_text v.items) }
        ensures { result ≡ v.items }
    {
        Text { bytes: v }
    }

    /// The bytes.
    pub fn as_slice(&self) -> &[u8]
        ensures value { result.now ≡ self.now }
        ensures text { IsTrue (is_text result.now) }
    {
        self.bytes.as_slice()
    }

    /// Gives the bytes back, without memory.
    pub fn into_vec(self) -> Vec<u8>
        ensures { result.items ≡ self }
    {
        let Text { bytes } = self;
        bytes
    }
}
