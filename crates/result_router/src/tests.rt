ghost use Rattle.std.specs.Prelude.{◌≡◌, [], IfOk};
ghost use Rattle.std.specs.List.{sum_by, AllByRecursion};
ghost use Rattle.as_base.specs.declared.fragment.Cell.{Cell};
ghost use Rattle.result_router.specs.Rows.{cells_of};
ghost use Rattle.result_router.specs.Sound.{IsSoundFragment};

use super::*;
use as_base::{
    Body, Bounds, Cell, Cells, Col, Fragment, Fragments, Group, Kind, NoMemory, Pieces, Plan,
    Reply, StreamId, WinSpec,
};
use std::alloc::Global;
use std::test::Fail;

// A reply without fragments.
fn empty(alloc: Global) -> Reply
    ensures { result.fragments ≡ [] }
{
    Reply {
        fragments: Fragments::from_vec(Vec::new(alloc)),
    }
}

// The first part of which no reply is held is this one.
fn waits_for(settled: Result<Pieces, Unsettled>, part: u16) -> bool {
    match settled {
        Err(Unsettled::Waiting(other)) => other == part,
        _ => false,
    }
}

// There is one piece, of query 3 and with this text.
fn is_text(settled: Result<Pieces, Unsettled>, text: &[u8]) -> bool {
    match settled {
        Ok(pieces) => match pieces.as_slice() {
            [piece] => piece.n == 3 && piece.bytes.as_slice() == text,
            _ => false,
        },
        Err(_) => false,
    }
}

// There are no pieces.
fn is_nothing(settled: Result<Pieces, Unsettled>) -> bool {
    match settled {
        Ok(pieces) => pieces.as_slice().is_empty(),
        Err(_) => false,
    }
}

#[test]
fn parts_are_waited_for(rt: HostRuntime) -> Result<(), Fail> {
    let alloc = rt.alloc();
    let mut router = Router::new(alloc, 2).expect(&rt, "memory");
    assert!(rt; waits_for(router.settle(), 0));
    assert!(rt; router.gather(0, empty(alloc)).is_ok());
    assert!(rt; router.gather(0, empty(alloc)).is_err());
    assert!(rt; waits_for(router.settle(), 1));
    assert!(rt; router.gather(1, empty(alloc)).is_ok());
    assert!(rt; is_nothing(router.settle()));
    Ok(())
}

// Sums of the first value by key, in windows of 100 ticks.
fn plan() -> Plan
    ensures { result.win.size ≡ 100 }
{
    let all = Bounds {
        lo: [i64::MIN; 5],
        hi: [i64::MAX; 5],
    };
    Plan {
        kind: Kind::Sum(Col::V1),
        group: Group::Key,
        left: StreamId::A,
        right: StreamId::A,
        left_bounds: all,
        right_bounds: all,
        win: WinSpec {
            size: 100,
            slide: 100,
        },
    }
}

// What a part has of the first window of query 3: one record of group 5, of this value.
fn one_cell(alloc: Global, value: i64) -> Result<Reply, NoMemory>
    ensures sound { IfOk result (λ reply. AllByRecursion IsSoundFragment reply.fragments) }
    ensures one { IfOk result (λ reply. sum_by (λ (c : Cell). c.count) (cells_of reply.fragments) ≡ 1) }
{
    let mut cells = Vec::new(alloc);
    cells.push(Cell {
        group: 5,
        sum: i128::from(value),
        count: 1,
    })?;
    let mut fragments = Vec::new(alloc);
    fragments.push(Fragment {
        n: 3,
        plan: plan(),
        start: 0,
        body: Body::Cells(Cells::from_vec(cells)),
    })?;
    Ok(Reply {
        fragments: Fragments::from_vec(fragments),
    })
}

#[test]
fn cells_of_a_group_are_added(rt: HostRuntime) -> Result<(), Fail> {
    let alloc = rt.alloc();
    let mut router = Router::new(alloc, 2).expect(&rt, "memory");
    let three = one_cell(alloc, 3).expect(&rt, "memory");
    let four = one_cell(alloc, 4).expect(&rt, "memory");
    assert!(rt; router.gather(0, three).is_ok());
    assert!(rt; router.holds(0));
    assert!(rt; router.gather(1, four).is_ok());
    assert!(rt; is_text(router.settle(), b"0 100 5 7\n"));
    assert!(rt; !router.holds(0));
    Ok(())
}
