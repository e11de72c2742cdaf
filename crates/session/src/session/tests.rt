ghost use Rattle.as_base.specs.Range.{InRange, IsTime};

use super::*;
use as_base::is_text;
use std::test::Fail;

// The word that the session answers an item with, if it has one, and the slot of the change that it brings about.
fn decided(session: &mut Session, item: &Item) -> (Option<Word>, Option<u16>)
    requires { InRange item.now }
{
    if session.items() >= FOREVER {
        return (None, None);
    }
    match session.accept(item) {
        Ok(Decision::Told(answer)) => (Some(answer.word), None),
        Ok(Decision::Acted(answer, Change::Opened { slot, .. })) => {
            (Some(answer.word), Some(slot))
        }
        Ok(Decision::Acted(answer, Change::Closed { slot, .. })) => {
            (Some(answer.word), Some(slot))
        }
        _ => (None, None),
    }
}

// The same for the creation of a query with this text.
fn created(alloc: Global, session: &mut Session, text: &[u8]) -> (Option<Word>, Option<u16>) {
    if !is_text(text) {
        return (None, None);
    }
    match Vec::from_slice(alloc, text) {
        Ok(bytes) => decided(session, &Item::Create(Text::from_vec(bytes))),
        Err(_) => (None, None),
    }
}

// The same for a record.
fn recorded(session: &mut Session, stream: StreamId, time: u64) -> Option<Word>
    requires { IsTime time }
{
    let given = Given {
        stream,
        time,
        key: 1,
        v: [0; 4],
    };
    decided(session, &Item::Rec(given)).0
}

#[test]
fn each_item_is_decided(rt: HostRuntime) {
    let alloc = rt.alloc();
    let mut session = Session::new(alloc, 2, 2).expect(&rt, "memory");
    let s = &mut session;
    let first = Word::Created { n: 1, at: 0 };
    assert_eq!(rt; created(alloc, s, b"select from a"), (Some(first), Some(0)));
    assert_eq!(rt; recorded(s, StreamId::A, 5), None);
    let second = Word::Created { n: 2, at: 6 };
    assert_eq!(rt;
        created(alloc, s, b"select from b"),
        (Some(second), Some(1))
    );
    assert_eq!(rt; created(alloc, s, b"select from a").0, Some(Word::Full));
    assert_eq!(rt;
        created(alloc, s, b"count by all from a tumble 5").0,
        Some(Word::Full)
    );
    let deleted = Word::Deleted { n: 1, at: 6 };
    assert_eq!(rt; decided(s, &Item::Delete(1)), (Some(deleted), Some(0)));
    assert_eq!(rt; decided(s, &Item::Delete(1)).0, Some(Word::Unknown));
    let third = Word::Created { n: 3, at: 6 };
    assert_eq!(rt;
        created(alloc, s, b"join a b tumble 5"),
        (Some(third), Some(0))
    );
    assert_eq!(rt; recorded(s, StreamId::A, 4), Some(Word::Late));
    assert_eq!(rt; decided(s, &Item::Mark(StreamId::B, 9)).0, None);
    assert_eq!(rt; decided(s, &Item::Mark(StreamId::B, 8)).0, Some(Word::Back));
    assert_eq!(rt; recorded(s, StreamId::C, 9), Some(Word::Stranger));
    assert_eq!(rt; decided(s, &Item::End(StreamId::B)).0, None);
    assert_eq!(rt; decided(s, &Item::End(StreamId::B)).0, Some(Word::Ended));
    assert_eq!(rt; created(alloc, s, b"select a").0, Some(Word::Syntax(2)));
    assert_eq!(rt; created(alloc, s, b"join a a tumble 5").0, Some(Word::Twin));
    assert_eq!(rt;
        created(alloc, s, b"count by all from a tumble 0").0,
        Some(Word::Window)
    );
    assert_eq!(rt; decided(s, &Item::Bad(Cause::Long)).0, Some(Word::Long));
    assert_eq!(rt; decided(s, &Item::Bad(Cause::Form)).0, Some(Word::Form));
    assert_eq!(rt;
        (s.items(), s.ended(StreamId::A), s.ended(StreamId::B)),
        (19, false, true)
    );
}
