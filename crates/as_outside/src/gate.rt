/// Where work stands when it passes a gate.
#[derive(Clone, Copy, Debug, PartialEq, Eq)]
pub enum Place {
    /// The work of a partition, numbered from 0.
    Part(u16),
    /// An offer of a feeder, numbered from 1.
    Feeder(u8),
}

/// What work passes before each of its steps. Tests use a gate to hold work back; it means nothing else.
pub trait Gate: Sync {
    /// Returns when the work at this place may go on.
    fn enter(&self, place: Place);
}

/// A gate that holds nothing back.
#[derive(Clone, Copy, Debug)]
pub struct FreeGate;

impl Gate for FreeGate {
    fn enter(&self, _place: Place) {}
}

#[cfg(test)]
mod tests {
    use super::*;

    // Passes all places of the gate.
    fn pass<G: Gate>(gate: &G) {
        gate.enter(Place::Part(0));
        gate.enter(Place::Feeder(1));
    }

    #[test]
    fn the_free_gate_lets_pass() {
        pass(&FreeGate);
    }
}
