ghost use Rattle.std.specs.Prelude.{◌≡◌, get_or};
ghost use Rattle.as_base.specs.Stream.{place_of};
ghost use Rattle.plain_engine.specs.Holding.{mark_by};

use as_base::{Plan, StreamId};

// The watermark of the stream, of those of all four.
fn mark_of(marks: &[u64; 4], stream: StreamId) -> u64
    ensures { result ≡ get_or marks.now (place_of stream) 0 }
{
    match stream {
        StreamId::A => marks[0],
        StreamId::B => marks[1],
        StreamId::C => marks[2],
        StreamId::D => marks[3],
    }
}

/// The least watermark of the streams that the plan reads.
pub fn mark_by(marks: &[u64; 4], plan: &Plan) -> u64
    ensures { result ≡ mark_by marks.now plan.now }
{
    mark_of(marks, plan.left).min(mark_of(marks, plan.right))
}
