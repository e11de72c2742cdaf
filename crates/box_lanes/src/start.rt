use queryset_lanes::QuerySet;

// Where an interval of values begins, and the slots that hold each value of it. The interval ends before the next start.
#[derive(Drop)]
pub(crate) struct Start {
    pub(crate) low: i64,
    pub(crate) set: QuerySet,
}
