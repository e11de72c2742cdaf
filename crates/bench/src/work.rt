/// What may be measured.
#[derive(Clone, Copy)]
pub(crate) enum Name {
    /// Which slots hold a record, by `Columns`.
    Select,
    /// The same, by a test of each slot's bounds.
    SelectPlain,
    /// A slot gets bounds in place of those that it has, one slot after another.
    Set,
    /// Sums by key in each slot, by `Aggs`.
    Sum,
    /// The same, by a map for each slot.
    SumPlain,
    /// The cells of one slot in a window of four slices, by `Aggs`.
    Window,
    /// The same, by a fold over the records of the window.
    WindowPlain,
    /// Two slices of a thousand records each meet, by `Joins`.
    Meet,
    /// The same, by a hash join for each slot.
    MeetPlain,
    /// Two slices of a hundred thousand records each meet, by `Joins`.
    MeetMany,
    /// The same, by a hash join for each slot.
    MeetManyPlain,
    /// Which slots want a record, by a `Selector` that is advanced to each record's time.
    Tag,
}

/// A work and its size.
#[derive(Clone, Copy)]
pub(crate) struct Work {
    pub(crate) name: Name,
    /// How many slots have bounds, at most 512.
    pub(crate) slots: u16,
    /// How many records there are.
    pub(crate) records: u64,
}

// The work of this name.
fn name_of(word: &str) -> Option<Name> {
    match word {
        "select" => Some(Name::Select),
        "select-plain" => Some(Name::SelectPlain),
        "set" => Some(Name::Set),
        "sum" => Some(Name::Sum),
        "sum-plain" => Some(Name::SumPlain),
        "window" => Some(Name::Window),
        "window-plain" => Some(Name::WindowPlain),
        "meet" => Some(Name::Meet),
        "meet-plain" => Some(Name::MeetPlain),
        "meet-many" => Some(Name::MeetMany),
        "meet-many-plain" => Some(Name::MeetManyPlain),
        "tag" => Some(Name::Tag),
        _ => None,
    }
}

impl Work {
    /// The work that three words name, with 1 to 512 slots.
    pub(crate) fn of(name: &str, slots: &str, records: &str) -> Option<Work> {
        let slots: u16 = slots.parse().ok()?;
        if slots == 0 || slots > 512 {
            return None;
        }
        Some(Work {
            name: name_of(name)?,
            slots,
            records: records.parse().ok()?,
        })
    }
}
