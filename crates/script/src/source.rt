// Bytes that are made as they are asked for, as many as one likes.
ghost use Rattle.std.specs.Prelude.{◌≡◌, ℕ, ◌+◌, List, ◌++◌, length, replicate};

pub trait Source: Drop {
    // its next bytes, so many of them
    ghost next_bytes: { Self → ℕ → List ℕ };

    // Writes the next bytes over all of these.
    fn fill(&mut self, bytes: &mut [u8])
        ensures bytes { bytes.new ≡ next_bytes self.old (length bytes.old) }
        ensures len { length bytes.new ≡ length bytes.old }
        ensures rest { (n : ℕ) → next_bytes self.old (length bytes.old + n) ≡ bytes.new ++ next_bytes self.new n };
}

// One byte, again and again.
#[derive(Drop)]
pub struct Repeated {
    pub byte: u8,
}

impl Source for Repeated {
    ghost next_bytes = { λ s n. replicate n s.byte };

    fn fill(&mut self, bytes: &mut [u8]) {
        bytes.fill(self.byte);
    }
}
