//! The plain types that every crate of the service speaks of: times, windows, records, items of the input, answers,
//! rows, and what the parts of an engine tell each other; each seen by contracts as the value that it stands for.
#![tactic(auto)]

mod answer;
mod config;
mod fragment;
mod item;
mod laws;
mod lists;
mod memory;
mod message;
mod query;
mod row;
mod stream;
mod text;
mod windows;

pub use answer::{Answer, Fed, Piece, Word};
pub use config::Config;
pub use fragment::{Body, Cell, Couple, Fragment, Held, Reply};
pub use item::{Cause, FOREVER, Given, Item, Record};
pub use laws::{last_edges_are_the_latest, windows_hold_their_times};
pub use lists::{Bytes, Cells, Couples, Fragments, Listed, Numbers, Pieces, Recs};
pub use memory::{EngineFault, NoMemory};
pub use message::{Change, Msg};
pub use query::{Bounds, Col, Group, Kind, Plan};
pub use row::Row;
pub use stream::{StreamId, stream_name, stream_named};
pub use text::{Text, is_text};
pub use windows::WinSpec;

#[cfg(test)]
mod tests {
    use super::*;
    use std::test::Fail;

    #[test]
    fn lists_keep_their_elements(rt: HostRuntime) -> Result<(), Fail> {
        let alloc = rt.alloc();
        let bytes = Bytes::from_vec(b"5 1\n".to_vec(alloc)?);
        assert_eq!(rt; bytes.as_slice(), b"5 1\n".as_slice());
        assert_eq!(rt; bytes.into_vec().as_slice(), b"5 1\n".as_slice());
        let numbers = Numbers::from_vec([1u64, 3].to_vec(alloc)?);
        assert_eq!(rt; numbers.as_slice(), [1, 3].as_slice());
        assert_eq!(rt; numbers.into_vec().as_slice(), [1, 3].as_slice());
        let text = Text::from_vec(b"select from a".to_vec(alloc)?);
        assert_eq!(rt; text.as_slice(), b"select from a".as_slice());
        assert_eq!(rt; text.into_vec().as_slice(), b"select from a".as_slice());
        Ok(())
    }

    /// Bytes, with whether they are a text.
    const TEXTS: [(&[u8], bool); 9] = [
        (b"", true),
        (b"a", true),
        (b"select from a", true),
        (b"! ~", true),
        (b" a", false),
        (b"a ", false),
        (b"a  b", false),
        (b"a\tb", false),
        (b"\x7f", false),
    ];

    #[test]
    fn texts_are_words_between_single_spaces(rt: HostRuntime) {
        for (bytes, text) in TEXTS {
            assert_eq!(rt; is_text(bytes), text, "{bytes:?}");
        }
        assert!(rt; is_text(&[b'x'; 4089]));
        assert!(rt; !is_text(&[b'x'; 4090]));
    }
}
