ghost use Rattle.std.specs.Prelude.{◌≡◌, ℕ, ◌<◌, ◌==◌, false, None, IfSome, IfNone, map, replicate, length, slice_set};
ghost use Rattle.queryset_lanes.specs.Slots.{has_slot};
ghost use Rattle.views.specs.Groups.{value_at, group_of};
ghost use Rattle.shared_agg.specs.Duties.{duty_in, duty_of, summand, way_of, number_of, is_of, marked, class_of, class_at, kinds};

use as_base::{Col, Given, Group, Kind, Plan};
use queryset_lanes::QuerySet;
use std::marker::Model;

/// What the owner of a slot has to be told of a record: its group, and the value of a column.
#[derive(Clone, Copy)]
pub struct Duty {
    pub group: Group,
    // The column that is summed; none for a count.
    pub column: Option<Col>,
}

/// The slots whose owners have to be told the same: the group, and the value of a column.
#[derive(Clone, Copy)]
pub struct Class {
    pub group: Group,
    // The column that is summed; none for a count.
    pub column: Option<Col>,
    pub slots: QuerySet,
}

/// How many classes there are: six ways to group, each with one of four columns or none.
pub const CLASSES: usize = 30;

/// The duties of 512 slots, and the slots class by class: contracts see for each slot its duty, or `None`. No call takes
/// memory.
#[derive(Drop)]
pub struct Duties {
    duties: [Option<Duty>; 512],
    classes: [Class; CLASSES],
    // Whether a class has slots: apart from the classes, most of which have none, so that a record looks at little memory.
    used: [bool; CLASSES],
}

impl Model for Duties {
    ghost use Rattle.std.specs.Prelude.{List, Option};
    ghost use Rattle.shared_agg.specs.declared.duties.Duty.{Duty};
    ghost use Rattle.shared_agg.specs.Duties.{AreClasses};

    ghost Value = { List (Option Duty) };

    ghost view = { λ d. d.duties };

    ghost invariant = { λ d. AreClasses d.duties d.classes d.used };
}

// The value of the column.
fn value_at(col: Col, g: &Given) -> i64
    ensures { result ≡ value_at col g.now }
{
    match col {
        Col::V1 => g.v[0],
        Col::V2 => g.v[1],
        Col::V3 => g.v[2],
        Col::V4 => g.v[3],
    }
}

/// The group of the record; 0 where all records are one.
pub fn group_of(by: Group, g: &Given) -> i64
    ensures { result ≡ group_of by g.now }
{
    match by {
        Group::Key => g.key,
        Group::Col(col) => value_at(col, g),
        Group::All => 0,
    }
}

/// What the record adds to a sum of the column; 0 where none is summed.
pub fn summand(column: Option<Col>, g: &Given) -> i64
    ensures { result ≡ summand column g.now }
{
    match column {
        Some(col) => value_at(col, g),
        None => 0,
    }
}

/// What the owner of a slot has to be told: nothing where it neither sums nor counts, or nobody owns the slot.
pub fn duty_of(owner: &Option<(u64, Plan)>) -> Option<Duty>
    ensures { result ≡ duty_of owner.now }
{
    match owner {
        Some((_, plan)) => duty_in(plan),
        None => None,
    }
}

// What a query with this plan has to be told.
fn duty_in(plan: &Plan) -> Option<Duty>
    ensures { result ≡ duty_in plan.now.group plan.now.kind }
{
    match plan.kind {
        Kind::Sum(col) => Some(Duty {
            group: plan.group,
            column: Some(col),
        }),
        Kind::Count => Some(Duty {
            group: plan.group,
            column: None,
        }),
        Kind::Select | Kind::Join => None,
    }
}

// The number of a way to group.
fn way_of(by: Group) -> u8
    ensures { result ≡ way_of by }
{
    match by {
        Group::Key => 0,
        Group::Col(Col::V1) => 1,
        Group::Col(Col::V2) => 2,
        Group::Col(Col::V3) => 3,
        Group::Col(Col::V4) => 4,
        Group::All => 5,
    }
}

// The number of a column that is summed; 4 where none is.
fn number_of(column: Option<Col>) -> u8
    ensures { result ≡ number_of column }
{
    match column {
        Some(Col::V1) => 0,
        Some(Col::V2) => 1,
        Some(Col::V3) => 2,
        Some(Col::V4) => 3,
        None => 4,
    }
}

// Whether the duty is of this group and column.
fn is_of(group: Group, column: Option<Col>, duty: Option<Duty>) -> bool
    ensures { result ≡ is_of group column duty }
{
    match duty {
        Some(duty) => {
            way_of(duty.group) == way_of(group) && number_of(duty.column) == number_of(column)
        }
        None => false,
    }
}

// The class with the slot in it or not, by whether its duty is of the class.
fn marked(class: Class, slot: u16, duty: Option<Duty>) -> Class
    requires { slot < 512 }
    ensures { result ≡ marked slot duty class }
{
    let mine = is_of(class.group, class.column, duty);
    Class {
        group: class.group,
        column: class.column,
        slots: class.slots.with(slot, mine),
    }
}

// Puts a slot with this duty into its class, and takes it out of all others.
fn mark_all(classes: &mut [Class], slot: u16, duty: Option<Duty>)
    requires { slot < 512 }
    ensures { classes.new ≡ map (marked slot duty) classes.old }
{
    for class in classes.iter_mut() {
        *class = marked(*class, slot, duty);
    }
}

// Which of the classes have slots.
fn used_of(classes: &[Class; CLASSES]) -> [bool; CLASSES]
    ensures { result ≡ map (λ class. has_slot class.slots) classes.now }
{
    let mut used = [false; CLASSES];
    for place in 0..CLASSES {
        used[place] = !classes[place].slots.is_empty();
    }
    used
}

// A class without slots.
fn empty(group: Group, column: Option<Col>) -> Class
    ensures { result ≡ class_of (replicate 512 None) (record { group = group; column = column }) }
{
    Class {
        group,
        column,
        slots: QuerySet::none(),
    }
}

// All classes, without slots.
fn all_empty() -> [Class; CLASSES]
    ensures { result ≡ map (class_of (replicate 512 None)) kinds }
{
    [
        empty(Group::Key, Some(Col::V1)),
        empty(Group::Key, Some(Col::V2)),
        empty(Group::Key, Some(Col::V3)),
        empty(Group::Key, Some(Col::V4)),
        empty(Group::Key, None),
        empty(Group::Col(Col::V1), Some(Col::V1)),
        empty(Group::Col(Col::V1), Some(Col::V2)),
        empty(Group::Col(Col::V1), Some(Col::V3)),
        empty(Group::Col(Col::V1), Some(Col::V4)),
        empty(Group::Col(Col::V1), None),
        empty(Group::Col(Col::V2), Some(Col::V1)),
        empty(Group::Col(Col::V2), Some(Col::V2)),
        empty(Group::Col(Col::V2), Some(Col::V3)),
        empty(Group::Col(Col::V2), Some(Col::V4)),
        empty(Group::Col(Col::V2), None),
        empty(Group::Col(Col::V3), Some(Col::V1)),
        empty(Group::Col(Col::V3), Some(Col::V2)),
        empty(Group::Col(Col::V3), Some(Col::V3)),
        empty(Group::Col(Col::V3), Some(Col::V4)),
        empty(Group::Col(Col::V3), None),
        empty(Group::Col(Col::V4), Some(Col::V1)),
        empty(Group::Col(Col::V4), Some(Col::V2)),
        empty(Group::Col(Col::V4), Some(Col::V3)),
        empty(Group::Col(Col::V4), Some(Col::V4)),
        empty(Group::Col(Col::V4), None),
        empty(Group::All, Some(Col::V1)),
        empty(Group::All, Some(Col::V2)),
        empty(Group::All, Some(Col::V3)),
        empty(Group::All, Some(Col::V4)),
        empty(Group::All, None),
    ]
}

impl Duties {
    /// 512 slots without a duty.
    pub fn new() -> Duties
        ensures { result ≡ replicate 512 None }
    {
        Duties {
            duties: [None; 512],
            classes: all_empty(),
            used: [false; CLASSES],
        }
    }

    /// Gives a slot this duty, or none, in place of that which it may have had.
    pub fn set(&mut self, slot: u16, duty: Option<Duty>)
        requires { slot < 512 }
        ensures slots { length self.old ≡ 512 }
        ensures value { self.new ≡ slice_set self.old slot duty }
    {
        self.duties[usize::from(slot)] = duty;
        mark_all(&mut self.classes, slot, duty);
        self.used = used_of(&self.classes);
    }

    /// The class at a place, if it has slots.
    pub fn class(&self, place: usize) -> Option<&Class>
        requires { place < 30 }
        ensures some { IfSome result (λ class. class.now ≡ class_at self.now place) }
        ensures none { IfNone result (has_slot (class_at self.now place).slots ≡ false) }
    {
        if self.used[place] {
            Some(&self.classes[place])
        } else {
            None
        }
    }
}
