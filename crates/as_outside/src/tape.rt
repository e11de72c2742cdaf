ghost use Rattle.std.specs.Prelude.{◌≡◌, ◌≤◌, length, take, drop, min};

use std::marker::Model;

/// The bytes that are left to be pulled.
#[derive(Debug, Drop)]
pub struct Tape {
    bytes: Vec<u8>,
    place: usize,
}

impl Model for Tape {
    ghost use Rattle.std.specs.Prelude.{List, ℕ, ◌≤◌, length, drop};

    ghost Value = { List ℕ };

    ghost view = { λ t. drop t.place t.bytes.items };

    ghost invariant = { λ t. t.place ≤ length t.bytes.items };
}

impl Tape {
    /// All of these bytes are left.
    pub fn new(bytes: Vec<u8>) -> Tape
        ensures { result ≡ bytes.items }
    {
        Tape { bytes, place: 0 }
    }

    /// The next bytes, at most so many.
    pub fn front(&self, most: usize) -> &[u8]
        ensures { result.now ≡ take most self.now }
    {
        let rest = &self.bytes[self.place..];
        &rest[..most.min(rest.len())]
    }

    /// Moves the next bytes, at most so many, into the front of the buffer, and says how many.
    pub fn take(&mut self, buf: &mut [u8], most: usize) -> usize
        requires { most ≤ length buf.old }
        ensures count { result ≡ min most (length self.old) }
        ensures size { length buf.new ≡ length buf.old }
        ensures bytes { take result buf.new ≡ take most self.old }
        ensures moved { take result buf.new ≡ take result self.old }
        ensures rest { self.new ≡ drop result self.old }
    {
        let front = self.front(most);
        let count = front.len();
        buf[..count].copy_from_slice(front);
        self.place += count;
        count
    }
}
