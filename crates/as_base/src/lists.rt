ghost use Rattle.std.specs.Prelude.{◌≡◌};

use crate::{Cell, Couple, Fragment, Piece, Record};
use std::alloc::AllocError;
use std::marker::Model;

/// Any bytes.
pub type Bytes = Listed<u8>;

/// Whole numbers, such as numbers of queries.
pub type Numbers = Listed<u64>;

/// Accepted records.
pub type Recs = Listed<Record>;

/// Cells of groups.
pub type Cells = Listed<Cell>;

/// Joined records.
pub type Couples = Listed<Couple>;

/// What a part has of some windows.
pub type Fragments = Listed<Fragment>;

/// Pieces of outputs.
pub type Pieces = Listed<Piece>;

/// Elements in order, seen as the list of them.
#[derive(Debug, Drop)]
pub struct Listed<T> {
    items: Vec<T>,
}

impl<T> Model for Listed<T> {
    ghost use Rattle.std.specs.Prelude.{List};

    ghost Value = { List T };

    ghost view = { λ l. l.items.items };
}

impl<T> Listed<T> {
    /// Takes the elements as they are, without memory.
    pub fn from_vec(v: Vec<T>) -> Listed<T>
        ensures { result ≡ v.items }
    {
        Listed { items: v }
    }

    /// The elements.
    pub fn as_slice(&self) -> &[T]
        ensures { result.now ≡ self.now }
    {
        self.items.as_slice()
    }

    /// Gives the elements back, without memory.
    pub fn into_vec(self) -> Vec<T>
        ensures { result.items ≡ self }
    {
        let Listed { items } = self;
        items
    }
}

impl<T: PartialEq> PartialEq for Listed<T> {
    ghost use Rattle.std.specs.Cmp.Lexicographic.{pointwise, lists_per};

    ghost eq = { pointwise T.eq };

    ghost laws = { lists_per T.laws };

    fn eq(&self, other: &Listed<T>) -> bool {
        self.items == other.items
    }
}

impl<T: Eq> Eq for Listed<T> {
    ghost use Rattle.std.specs.Cmp.Lexicographic.{lists_equiv};

    ghost laws = { lists_equiv T.Eq.laws };
}

impl<T: Clone> Clone for Listed<T> {
    ghost use Rattle.std.specs.List.{AllZip};

    ghost is_clone = { AllZip T.is_clone };

    fn clone(&self) -> Result<Listed<T>, AllocError> {
        Ok(Listed {
            items: self.items.clone()?,
        })
    }
}
