ghost use Rattle.std.specs.Prelude.{◌≡◌, ◌+◌, ◌<◌, true, false};

/// How many counted steps may still be added. Contracts see the number.
#[derive(Drop)]
pub struct Budget {
    left: u64,
}

impl std::marker::Model for Budget {
    ghost use Rattle.std.specs.Prelude.{ℕ};

    ghost Value = { ℕ };

    ghost view = { λ b. b.left };
}

impl Budget {
    /// So many units.
    pub fn new(total: u64) -> Budget
        ensures { result ≡ total }
    {
        Budget { left: total }
    }

    /// How many units are left.
    pub fn left(&self) -> u64
        ensures { result ≡ self.now }
    {
        self.left
    }

    /// Is no unit left?
    pub(crate) fn is_spent(&self) -> bool
        ensures spent { result ≡ true → self.now ≡ 0 }
        ensures left { result ≡ false → 0 < self.now }
    {
        self.left == 0
    }

    /// Takes one unit.
    pub(crate) fn take(&mut self)
        requires { 0 < self.old }
        ensures { self.new + 1 ≡ self.old }
    {
        self.left -= 1;
    }
}
