// Bytes from a seed, as many as one likes.
ghost use Rattle.std.specs.Prelude.{◌≡◌, ◌/◌, ◌^◌};
ghost use Rattle.script.specs.Generators.{advance, generated};

use crate::source::Source;

#[derive(Drop)]
pub struct Generator {
    number: u64,
}

impl Generator {
    pub fn new(seed: u64) -> Generator
        ensures { result.number ≡ seed }
    {
        Generator { number: seed }
    }

    fn next_byte(&mut self) -> u8
        ensures number { self.new.number ≡ advance self.old.number }
        ensures byte { result ≡ advance self.old.number / 2 ^ 56 }
    {
        self.number = self
            .number
            .wrapping_mul(6_364_136_223_846_793_005)
            .wrapping_add(1_442_695_040_888_963_407);
        (self.number >> 56) as u8
    }
}

impl Source for Generator {
    ghost next_bytes = { λ s n. generated s.number n };

    fn fill(&mut self, bytes: &mut [u8]) {
        for byte in bytes.iter_mut() {
            *byte = self.next_byte();
        }
    }
}
