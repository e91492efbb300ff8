/// How many conflicts the shortest run of a search has.
const UNIT: u64 = 64;
/// How many runs the leader of a ring leads, one after another; the others lead one, so of four it leads fifteen in sixteen.
const LONG_TURN: u32 = 45;
/// The place in a ring of the guide that leads most.
pub const LEADER: usize = 1;

/// When a search starts over, and when the next guide leads. A run has as many conflicts as the next number of the
/// sequence 1, 1, 2, 1, 1, 2, 4, .. tells units (Luby, Sinclair, Zuckerman, 1993).
#[derive(Drop)]
pub struct Restarts {
    // a pair from which the next number of the sequence is made; it is the second one (Knuth)
    index: u64,
    length: u64,
    // conflicts that this run has still
    left: u64,
    // runs that the guide has led
    runs: u32,
}

impl Restarts {
    /// At the start of the first run.
    pub fn new() -> Restarts {
        Restarts {
            index: 1,
            length: 1,
            left: UNIT,
            runs: 0,
        }
    }

    /// One conflict more: is the run over? If so, the next one begins.
    pub fn is_over(&mut self) -> bool {
        if self.left > 1 {
            self.left -= 1;
            return false;
        }
        self.begin_next();
        true
    }

    // Begins the next run.
    fn begin_next(&mut self) {
        // the lowest bit that is set
        if self.index & self.index.wrapping_neg() == self.length {
            self.index = self.index.wrapping_add(1);
            self.length = 1;
        } else {
            self.length = self.length.wrapping_mul(2);
        }
        self.left = self.length.saturating_mul(UNIT);
    }

    /// A run is over that was led by the guide at a place of the ring: does the next guide lead?
    pub fn ends_turn(&mut self, place: usize) -> bool {
        self.runs = self.runs.saturating_add(1);
        if place == LEADER && self.runs < LONG_TURN {
            return false;
        }
        self.runs = 0;
        true
    }
}
